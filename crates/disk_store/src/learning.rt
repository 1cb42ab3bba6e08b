// What a session comes to know of lines.
ghost use Rattle.std.specs.Prelude.{◌≡◌, Ok};
ghost use Rattle.rdb_outside.specs.Disk.{OnlyReads};
ghost use Rattle.line_view.specs.Knowledge.{IsInOrder, Agrees as AgreesWith};
ghost use Rattle.line_view.specs.Held.{knows};
ghost use Rattle.line_store.specs.declared.answers.Progress.TheVariants.{Done, More};
ghost use Rattle.line_store.specs.Seats.{IsMember, IsAtRest};
ghost use Rattle.line_store.specs.Shelves.{Shelf, seen_by};
ghost use Rattle.line_store.specs.Sights.{IsLess, LearnsArea, LearnsLine, LearnsSome, Reads};
ghost use Rattle.disk_store.specs.Seats.{stand_at};
ghost use Rattle.disk_store.specs.Shown.{DoesOn, sight_of};

use crate::Held;
use crate::seen::{area_seen, line_seen};
use line_store::{Progress, ReadStop};
use line_view::Known;
use rdb_outside::Disk;
use rdb_types::{Dbkey, NoMemory, Session};
use reader_lines::present_lines;

/// Reads a line as a session's transaction sees it: its own, else the committed one, or that of a reader's start.
pub fn learn_line<D: Disk>(
    disk: &mut D,
    held: &Held,
    s: Session,
    key: Dbkey,
    known: &mut Known,
) -> Result<Progress, ReadStop>
    requires member { IsMember s.number }
    requires seat { IsAtRest (stand_at held.now.members s.number) }
    ensures done { result ≡ Ok Done → LearnsLine (sight_of (D.view disk.old) held.now) s.number key known.old known.new }
    ensures not_yet { (result ≡ Ok Done → ⊥) → known.new ≡ known.old }
    ensures knows { (h : Shelf) → (sight_of (D.view disk.old) held.now).shows h → IsInOrder (seen_by s.number h)
        → AgreesWith (knows known.old) (seen_by s.number h)
        → AgreesWith (knows known.new) (seen_by s.number h) }
    ensures read { DoesOn s.number (stand_at held.now.members s.number) (Reads s.number result)
        (D.view disk.old) held.now (D.view disk.new) held.now }
    ensures less { result ≡ Ok More → IsLess s.number (sight_of (D.view disk.old) held.now) (sight_of (D.view disk.new) held.now) }

    // Nothing is written.
    ensures only_reads { OnlyReads (D.view disk.old) (D.view disk.new) }
{
    let image = match line_seen(disk, held, s, key) {
        Ok(image) => image,
        Err(fault) => return Err(ReadStop::Fault(fault)),
    };
    match known.learn_line(held.alloc, key, image) {
        Ok(()) => Ok(Progress::Done),
        Err(NoMemory {}) => Err(ReadStop::NoMemory),
    }
}

/// Reads the present lines of a logical area as a session's transaction sees them, all in one call. Where memory fails some of them may be known.
pub fn learn_area<D: Disk>(
    disk: &mut D,
    held: &Held,
    s: Session,
    area: u32,
    known: &mut Known,
) -> Result<Progress, ReadStop>
    requires member { IsMember s.number }
    requires seat { IsAtRest (stand_at held.now.members s.number) }
    ensures done { result ≡ Ok Done → LearnsArea (sight_of (D.view disk.old) held.now) s.number area known.old known.new }
    ensures not_yet { (result ≡ Ok Done → ⊥) → LearnsSome (sight_of (D.view disk.old) held.now) s.number area known.old known.new }
    ensures knows { (h : Shelf) → (sight_of (D.view disk.old) held.now).shows h → IsInOrder (seen_by s.number h)
        → AgreesWith (knows known.old) (seen_by s.number h)
        → AgreesWith (knows known.new) (seen_by s.number h) }
    ensures read { DoesOn s.number (stand_at held.now.members s.number) (Reads s.number result)
        (D.view disk.old) held.now (D.view disk.new) held.now }
    ensures less { result ≡ Ok More → IsLess s.number (sight_of (D.view disk.old) held.now) (sight_of (D.view disk.new) held.now) }

    // Nothing is written.
    ensures only_reads { OnlyReads (D.view disk.old) (D.view disk.new) }
{
    let found = match area_seen(disk, held, s, area) {
        Ok(found) => found,
        Err(stop) => return Err(stop),
    };
    let Ok(lines) = present_lines(held.alloc, &found) else {
        return Err(ReadStop::NoMemory);
    };
    match known.learn_area(held.alloc, area, &lines) {
        Ok(()) => Ok(Progress::Done),
        Err(NoMemory {}) => Err(ReadStop::NoMemory),
    }
}
