// Whether the commit of a session that died stands.
ghost use Rattle.std.specs.Prelude.{◌≡◌, ◌≢◌, ◌+◌, true, false, Bool, Ok, Some, length, slice_get, IsErr, IsTrue};
ghost use Rattle.rdb_outside.specs.Causes.{Rose};
ghost use Rattle.rdb_outside.specs.Disk.{OnlyReads};
ghost use Rattle.journal_scan.specs.Standing.{what_stands};
ghost use Rattle.new_database.specs.Maker.{aij_file};
ghost use Rattle.line_store.specs.Seats.{IsMember};
ghost use Rattle.line_store.specs.Sights.{Steps, stepped_to, MayAnswer, IsLess};
ghost use Rattle.line_store.specs.declared.answers.Stepped.TheVariants as stepped;
ghost use Rattle.stable_lines.specs.Journal.{commit_of};
ghost use Rattle.stable_lines.specs.Progress.{Flight, Progress};
ghost use Rattle.line_moves.specs.Changes.{IsCommitOf};
ghost use Rattle.store_endings.specs.disk_store.declared.member.Member.{Member as Sits};
ghost use Rattle.store_endings.specs.disk_store.declared.member.MemberStage.TheVariants as stage;
ghost use Rattle.store_endings.specs.disk_store.declared.member.Recovery.TheVariants as recovery;
ghost use Rattle.store_endings.specs.disk_store.Grown.{Grow};
ghost use Rattle.store_endings.specs.disk_store.OwnFiles.{WritesOwn};
ghost use Rattle.store_endings.specs.disk_store.Seats.{stand_at, IsAtStage};
ghost use Rattle.store_endings.specs.disk_store.Shown.{DoesOn, sight_of};

use disk_seats::settle;
use line_seat::GroupPlace;
use line_store::{Fault, Stepped};
use member_steps::has_commit;
use rdb_outside::{Disk, Failed};
use rdb_types::Session;
use store_endings::{Held, MemberStage, Recovery};

// Whether the commit slot of a session's group stands in what reads give, where memory says that it would.
fn has_group<D: Disk>(disk: &mut D, held: &Held, s: Session) -> Result<bool, Failed>
    requires member { IsMember s.number }
    requires died { (commits : Bool) × IsAtStage held.now.members s.number (stage.Dead commits recovery.Judging) }
    ensures reads { OnlyReads (D.view disk.old) (D.view disk.new) }
    ensures failed { IsErr result → Rose (D.view disk.old).faults (D.view disk.new).faults }
    ensures stands { result ≡ Ok true → IsTrue (D.view disk.old).tells → (m : Sits) → slice_get held.now.members s.number ≡ Some m
        → (now : Progress) (flight : Flight)
        → IsCommitOf now flight held.now.next.slot held.now.next.number m.tsn (length m.written.lines)
        → what_stands ((D.view disk.new).content aij_file (held.now.next.slot + length m.written.lines)) ≡ commit_of flight.group }
    ensures lost { result ≡ Ok false → IsTrue (D.view disk.old).tells → (m : Sits) → slice_get held.now.members s.number ≡ Some m
        → (now : Progress) (flight : Flight)
        → IsCommitOf now flight held.now.next.slot held.now.next.number m.tsn (length m.written.lines)
        → what_stands ((D.view disk.new).content aij_file (held.now.next.slot + length m.written.lines)) ≢ commit_of flight.group }
{
    held.sound();
    held.keeps_commits();
    let member = held.member(s);
    let next = held.next_group();
    let group = GroupPlace {
        slot: next.slot,
        number: next.number,
        tsn: member.tsn,
    };
    has_commit(disk, group, member.written.lines().len() as u32)
}

/// A step of the recovery of a session that died while its group was on its way to be committed. Behind a barrier the commit slot tells: where it stands, the commit does, and the session is outside; else its before-images are to be put back.
pub fn judge<D: Disk>(
    disk: &mut D,
    held: &mut Held,
    s: Session,
    commits: bool,
) -> Result<Stepped, Fault>
    requires member { IsMember s.number }
    requires died { IsAtStage held.old.members s.number (stage.Dead commits recovery.Judging) }
    ensures answers { MayAnswer (stand_at held.old.members s.number) result }
    ensures comes { DoesOn s.number (stepped_to (stand_at held.old.members s.number) result)
        (Steps s.number result) (D.view disk.old) held.old (D.view disk.new) held.new }
    ensures less { result ≡ Ok stepped.More → IsLess s.number (sight_of (D.view disk.old) held.old) (sight_of (D.view disk.new) held.new) }

    // One slot at most is written, of the database's own files.
    ensures writes { WritesOwn (D.view disk.old) (D.view disk.new) }

    // Pages of areas stay theirs, of their classes.
    ensures grows { Grow held.old.tables held.new.tables }
{
    held.sound();
    held.keeps_commits();
    let Ok(()) = settle(disk) else {
        return Err(Fault::Failed);
    };
    let Ok(stands) = has_group(disk, held, s) else {
        return Err(Fault::Failed);
    };
    if stands {
        held.land(s, MemberStage::Outside);
        return Ok(Stepped::Recovered {
            is_committed: true,
            moment: disk.moment(),
        });
    }
    let left = held.member(s).journalled;
    let recovery = Recovery::Undoing { left };
    held.set_dead(s, MemberStage::Dead { commits, recovery });
    Ok(Stepped::More)
}
