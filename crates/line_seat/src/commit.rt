// A commit, stage by stage.
ghost use Rattle.std.specs.Prelude.{◌≡◌, ◌+◌, ◌≤◌, ◌<◌, ◌^◌, ◌⊎◌, ℕ, Some, length, IfOk, IsErrOf, IsTrue};
ghost use Rattle.rdb_types.specs.declared.file.FileId.{FileId as File};
ghost use Rattle.rdb_types.specs.declared.file.FileKind.TheVariants.{Aij};
ghost use Rattle.rdb_outside.specs.Causes.{Rose};
ghost use Rattle.rdb_outside.specs.Disk.{Pending};
ghost use Rattle.area_files.specs.Areas.{IsDataPage};
ghost use Rattle.line_moves.specs.new_database.Maker.{aij_file as aij_named};
ghost use Rattle.line_moves.specs.stable_lines.Slots.{area_file as file_named, IsAreaFile};
ghost use Rattle.line_moves.specs.stable_lines.Progress.{Open, Flight, Progress};
ghost use Rattle.line_moves.specs.stable_lines.Facts.{Facts};
ghost use Rattle.line_moves.specs.Calls.{OnlyWrites};
ghost use Rattle.line_moves.specs.declared.places.Place.{Place as Spot};
ghost use Rattle.line_moves.specs.Classes.{HaveTheirClasses, KeepsOwners, LieForArea};
ghost use Rattle.line_moves.specs.Lines.{AreDistinct, PutsOnly};
ghost use Rattle.line_seat.specs.Groups.{AreAllowed, AreOfClasses, AreOfTransaction, ArePlaced, HaveClasses, HaveRoom, IsCommitting, group_line};
ghost use Rattle.line_seat.specs.Stages.{CommitFacts, IsFurther, IsNextStage, progress_at};
ghost use Rattle.line_seat.specs.declared.commit.CommitStage.TheVariants.{Changing, Imaging, Gathering};

use aij_journal::{AijPart, GroupLine};
use line_moves::{Fault, make_stable, place_of, write_after_image, write_commit, write_page};
use rdb_outside::{Disk, Failed};
use rdb_types::{Dbkey, Image, Line, Tsn};

/// Where a commit is, whose entries are stable.
#[derive(Clone, Copy, Debug, PartialEq, Eq)]
pub enum CommitStage {
    /// The pages are written, with the lines before this one.
    Changing(usize),
    /// The after-images are journalled, so many are.
    Imaging(usize),
    /// Pages and after-images are to be made stable.
    Gathering,
    /// The commit slot is to be written.
    Sealing,
    /// The commit slot is to be made stable.
    Landing,
    Committed,
}

/// Where the group of a commit is to be written, its number, and the transaction's.
#[derive(Clone, Copy, Debug, PartialEq, Eq)]
pub struct GroupPlace {
    pub slot: u32,
    pub number: u64,
    pub tsn: Tsn,
}

// The slot of a line's after-image.
fn part_of(
    group: GroupPlace,
    index: usize,
    count: usize,
    line: &(Dbkey, Line),
    class: u16,
) -> AijPart
    requires index { index < 2 ^ 32 }
    requires count { count < 2 ^ 32 }
    ensures { result ≡ record {
      number = group.number;
      tsn = group.tsn;
      index = index;
      count = count;
      line = Some (group_line line.now class);
    } }
{
    AijPart {
        number: group.number,
        tsn: group.tsn,
        index: index as u32,
        count: count as u32,
        line: Some(GroupLine {
            key: line.0,
            class,
            state: line.1.state,
            image: Image::from_bytes(line.1.image.bytes()),
        }),
    }
}

// Writes the page of the line at a place, with all its lines, or goes on to the after-images where there is none.
fn change_page<D: Disk>(
    disk: &mut D,
    at: usize,
    lines: &[(Dbkey, Line)],
    classes: &[u16],
    page: &mut [u8],
) -> Result<CommitStage, Fault>
    requires size { length page.old ≡ 1024 }
    requires distinct { AreDistinct lines.now }
    requires placed { ArePlaced lines.now }
    requires classes { length classes.now ≡ length lines.now }
    requires allowed { AreAllowed lines.now classes.now }
    ensures writes { (file : ℕ) × (slot : ℕ) × IsDataPage (slot + 1)
        × OnlyWrites (file_named file) slot (D.view disk.old) (D.view disk.new) }
    ensures failed { IsErrOf result Fault.Failed
        → Rose (D.view disk.old).faults (D.view disk.new).faults }
    ensures bad { (file : File) (slot : ℕ) → IsErrOf result (Fault.Bad file slot)
        → IsTrue (D.view disk.old).tells
        → (now : Progress) (transaction : Open) (group : _) (flight : Flight) (by_area : ℕ → ℕ)
        → CommitFacts (Changing at) (D.view disk.old) now group lines.now flight
        → AreOfTransaction transaction lines.now → transaction.tsn.number < 2 ^ 62
        → HaveRoom (Pending (D.view disk.old)) by_area lines.now classes.now → ⊥ }
    ensures changes { IsTrue (D.view disk.old).tells → (now : Progress)
        → Facts (Pending (D.view disk.old)) now
        → PutsOnly lines.now (D.view disk.old).content (D.view disk.new).content }
    ensures classes { IsTrue (D.view disk.old).tells → (now : Progress)
        → Facts (Pending (D.view disk.old)) now → (by_area : ℕ → ℕ)
        → AreOfClasses by_area lines.now classes.now
        → HaveTheirClasses by_area (Pending (D.view disk.old))
        → HaveTheirClasses by_area (Pending (D.view disk.new)) }
    ensures owners { IsTrue (D.view disk.old).tells → (now : Progress)
        → Facts (Pending (D.view disk.old)) now → (there : Spot) (area : ℕ)
        → IsAreaFile there.file → IsDataPage there.page → LieForArea lines.now there area
        → KeepsOwners (Pending (D.view disk.old)) (Pending (D.view disk.new)) there area }
    ensures order { IfOk result (IsNextStage (Changing at)) }
    ensures further { IfOk result (IsFurther (length lines.now) (Changing at)) }
    ensures goes_on { IfOk result (λ next. IsTrue (D.view disk.old).tells
        → (now : Progress) (group : _) (flight : Flight)
        → CommitFacts (Changing at) (D.view disk.old) now group lines.now flight
        → CommitFacts next (D.view disk.new) now group lines.now flight) }
    ensures keeps { IsTrue (D.view disk.old).tells
        → (now : Progress) (group : _) (flight : Flight)
        → CommitFacts (Changing at) (D.view disk.old) now group lines.now flight
        → Facts (Pending (D.view disk.new)) now }
{
    if at >= lines.len() {
        return Ok(CommitStage::Imaging(0));
    }
    let Some(place) = place_of(lines[at].0) else {
        unreachable!();
    };
    let next = write_page(disk, lines, at, place, classes[at], page)?;
    Ok(CommitStage::Changing(next))
}

// Journals the line at a place as the commit leaves it, or goes on to the barrier where there is none.
fn journal_image<D: Disk>(
    disk: &mut D,
    at: usize,
    group: GroupPlace,
    lines: &[(Dbkey, Line)],
    classes: &[u16],
) -> Result<CommitStage, Fault>
    requires classes { length classes.now ≡ length lines.now }
    requires allowed { AreAllowed lines.now classes.now }
    requires room { group.slot + (length lines.now + 1) < 2 ^ 32 }
    requires number { group.number ≤ 2 ^ 62 }
    requires tsn { group.tsn.number < 2 ^ 62 }
    ensures writes { (slot : ℕ) × OnlyWrites aij_named slot (D.view disk.old) (D.view disk.new) }
    ensures failed { IsErrOf result Fault.Failed
        → Rose (D.view disk.old).faults (D.view disk.new).faults }
    ensures bad { (file : File) (slot : ℕ) → IsErrOf result (Fault.Bad file slot) → ⊥ }
    ensures order { IfOk result (IsNextStage (Imaging at)) }
    ensures further { IfOk result (IsFurther (length lines.now) (Imaging at)) }
    ensures goes_on { IfOk result (λ next. IsTrue (D.view disk.old).tells
        → (now : Progress) (member : ℕ) (transaction : Open) (flight : Flight)
        → IsCommitting now member transaction group lines.now classes.now flight
        → CommitFacts (Imaging at) (D.view disk.old) now group lines.now flight
        → CommitFacts next (D.view disk.new) now group lines.now flight) }
    ensures keeps { IsTrue (D.view disk.old).tells
        → (now : Progress) (member : ℕ) (transaction : Open) (flight : Flight)
        → IsCommitting now member transaction group lines.now classes.now flight
        → CommitFacts (Imaging at) (D.view disk.old) now group lines.now flight
        → Facts (Pending (D.view disk.new)) now }
{
    if at >= lines.len() {
        return Ok(CommitStage::Gathering);
    }
    let part = part_of(group, at, lines.len() + 1, &lines[at], classes[at]);
    match write_after_image(disk, group.slot + at as u32, &part) {
        Ok(()) => Ok(CommitStage::Imaging(at + 1)),
        Err(Failed {}) => Err(Fault::Failed),
    }
}

/// Goes on with a commit: one write or one barrier at most. The lines stand in the order of their keys, with the class of each; `page` is room for a page.
pub fn commit_step<D: Disk>(
    disk: &mut D,
    stage: CommitStage,
    group: GroupPlace,
    lines: &[(Dbkey, Line)],
    classes: &[u16],
    page: &mut [u8],
) -> Result<CommitStage, Fault>
    requires size { length page.old ≡ 1024 }
    requires distinct { AreDistinct lines.now }
    requires placed { ArePlaced lines.now }
    requires classes { length classes.now ≡ length lines.now }
    requires allowed { AreAllowed lines.now classes.now }
    requires room { group.slot + (length lines.now + 1) < 2 ^ 32 }
    requires number { group.number ≤ 2 ^ 62 }
    requires tsn { group.tsn.number < 2 ^ 62 }

    // It writes one slot at most, of a data page or of the after-image journal.
    ensures writes { (file : File) × (slot : ℕ)
        × (((n : ℕ) × (file ≡ file_named n) × IsDataPage (slot + 1)) ⊎ (file.kind ≡ Aij))
        × OnlyWrites file slot (D.view disk.old) (D.view disk.new) }
    ensures failed { IsErrOf result Fault.Failed
        → Rose (D.view disk.old).faults (D.view disk.new).faults }

    // No page is refused that has room for its lines.
    ensures bad { (file : File) (slot : ℕ) → IsErrOf result (Fault.Bad file slot)
        → IsTrue (D.view disk.old).tells
        → (now : Progress) (member : ℕ) (transaction : Open) (flight : Flight) (by_area : ℕ → ℕ)
        → IsCommitting now member transaction group lines.now classes.now flight
        → CommitFacts stage (D.view disk.old) now group lines.now flight
        → HaveRoom (Pending (D.view disk.old)) by_area lines.now classes.now → ⊥ }

    // Whatever it answers, each line is as it was, or one of these.
    ensures changes { IsTrue (D.view disk.old).tells → (now : Progress)
        → Facts (Pending (D.view disk.old)) now
        → PutsOnly lines.now (D.view disk.old).content (D.view disk.new).content }

    // Whatever it answers, pages have the classes of their areas where they had, and each line comes with its area's.
    ensures classes { IsTrue (D.view disk.old).tells → (now : Progress)
        → Facts (Pending (D.view disk.old)) now → (by_area : ℕ → ℕ)
        → AreOfClasses by_area lines.now classes.now
        → HaveTheirClasses by_area (Pending (D.view disk.old))
        → HaveTheirClasses by_area (Pending (D.view disk.new)) }

    // Whatever it answers, a page that may have no other area's owner has none, where the lines that lie there are the area's.
    ensures owners { IsTrue (D.view disk.old).tells → (now : Progress)
        → Facts (Pending (D.view disk.old)) now → (there : Spot) (area : ℕ)
        → IsAreaFile there.file → IsDataPage there.page → LieForArea lines.now there area
        → KeepsOwners (Pending (D.view disk.old)) (Pending (D.view disk.new)) there area }

    // The stages come one behind another, and each goes on while lines are left for it.
    ensures order { IfOk result (IsNextStage stage) }
    ensures further { IfOk result (IsFurther (length lines.now) stage) }

    // What the commit rests on at a stage, it rests on at the next. At the last one the group is committed.
    ensures goes_on { IfOk result (λ next. IsTrue (D.view disk.old).tells
        → (now : Progress) (member : ℕ) (transaction : Open) (flight : Flight)
        → IsCommitting now member transaction group lines.now classes.now flight
        → (stage ≡ Gathering → HaveClasses (D.view disk.old).content now flight)
        → CommitFacts stage (D.view disk.old) now group lines.now flight
        → CommitFacts next (D.view disk.new) now group lines.now flight) }

    // Whatever it answers, the facts stay.
    ensures keeps { IsTrue (D.view disk.old).tells
        → (now : Progress) (member : ℕ) (transaction : Open) (flight : Flight)
        → IsCommitting now member transaction group lines.now classes.now flight
        → CommitFacts stage (D.view disk.old) now group lines.now flight
        → Facts (Pending (D.view disk.new)) (progress_at stage now flight) }
{
    match stage {
        CommitStage::Changing(at) => change_page(disk, at, lines, classes, page),
        CommitStage::Imaging(at) => journal_image(disk, at, group, lines, classes),
        CommitStage::Gathering => {
            make_stable(disk)?;
            Ok(CommitStage::Sealing)
        }
        CommitStage::Sealing => {
            write_commit(
                disk,
                group.slot,
                group.number,
                group.tsn,
                lines.len() as u32,
            )?;
            Ok(CommitStage::Landing)
        }
        CommitStage::Landing => {
            make_stable(disk)?;
            Ok(CommitStage::Committed)
        }
        CommitStage::Committed => Ok(CommitStage::Committed),
    }
}
