// The commit that is under way.
ghost use Rattle.std.specs.Prelude.{◌≡◌, ◌+◌, ◌≤◌, ◌<◌, ◌^◌, ◌⊎◌, ℕ, Some, length, IfOk, IsErrOf, IsTrue};
ghost use Rattle.rdb_types.specs.declared.file.FileId.{FileId as File};
ghost use Rattle.rdb_types.specs.declared.file.FileKind.TheVariants.{Aij};
ghost use Rattle.rdb_outside.specs.Causes.{Rose};
ghost use Rattle.rdb_outside.specs.Disk.{Pending};
ghost use Rattle.area_files.specs.Areas.{IsDataPage};
ghost use Rattle.line_opening.specs.stable_lines.Slots.{area_file, IsAreaFile};
ghost use Rattle.line_opening.specs.stable_lines.Progress.{Open, Flight};
ghost use Rattle.line_opening.specs.line_moves.Calls.{OnlyWrites};
ghost use Rattle.line_opening.specs.line_moves.declared.places.Place.{Place as Spot};
ghost use Rattle.line_opening.specs.line_moves.Classes.{HaveTheirClasses, KeepsOwners, LieForArea};
ghost use Rattle.line_opening.specs.line_moves.Lines.{AreDistinct, PutsOnly};
ghost use Rattle.line_seat.specs.Groups.{AreAllowed, AreOfClasses, ArePlaced, HaveClasses, HaveRoom};
ghost use Rattle.line_seat.specs.declared.commit.CommitStage.TheVariants.{Gathering};
ghost use Rattle.line_seat.specs.Stages.{IsFurther, IsNextStage};
ghost use Rattle.disk_seats.specs.Ledgers.{Ledger, this_commit, held_up, behind_step};
ghost use Rattle.disk_seats.specs.Members.{LedgerFacts};

use line_seat::{CommitStage, GroupPlace, commit_step};
use line_store::Fault;
use rdb_outside::Disk;
use rdb_types::{Dbkey, Line};

/// Goes on with the commit that is under way: one write or one barrier at most. The lines stand in the order of their keys, with the class of each; `page` is room for a page. Behind a fault it goes on at the stage that `again` names.
pub fn go_on<D: Disk>(
    disk: &mut D,
    stage: CommitStage,
    group: GroupPlace,
    lines: &[(Dbkey, Line)],
    classes: &[u16],
    page: &mut [u8],
) -> Result<CommitStage, Fault>
    requires size { length page.old ≡ 1024 }
    requires distinct { AreDistinct lines.now }
    requires placed { ArePlaced lines.now }
    requires classes { length classes.now ≡ length lines.now }
    requires allowed { AreAllowed lines.now classes.now }
    requires room { group.slot + (length lines.now + 1) < 2 ^ 32 }
    requires number { group.number ≤ 2 ^ 62 }
    requires tsn { group.tsn.number < 2 ^ 62 }

    // It writes one slot at most, of a data page or of the after-image journal.
    ensures writes { (file : File) × (slot : ℕ)
        × (((n : ℕ) × (file ≡ area_file n) × IsDataPage (slot + 1)) ⊎ (file.kind ≡ Aij))
        × OnlyWrites file slot (D.view disk.old) (D.view disk.new) }
    ensures failed { IsErrOf result Fault.Failed
        → Rose (D.view disk.old).faults (D.view disk.new).faults }

    // No page is refused that has room for its lines.
    ensures bad { (file : File) (slot : ℕ) → IsErrOf result (Fault.Bad file slot)
        → IsTrue (D.view disk.old).tells
        → (ledger : Ledger) (member : ℕ) (transaction : Open) (flight : Flight) (by_area : ℕ → ℕ)
        → LedgerFacts (D.view disk.old) ledger
        → let its = this_commit member transaction stage group lines.now classes.now flight in
        ledger.commit ≡ Some its
        → HaveRoom (Pending (D.view disk.old)) by_area lines.now classes.now → ⊥ }

    // Whatever it answers, each line is as it was, or one of these.
    ensures changes { IsTrue (D.view disk.old).tells → (ledger : Ledger)
        → LedgerFacts (D.view disk.old) ledger
        → PutsOnly lines.now (D.view disk.old).content (D.view disk.new).content }

    // Whatever it answers, pages have the classes of their areas where they had, and each line comes with its area's.
    ensures classes { IsTrue (D.view disk.old).tells → (ledger : Ledger)
        → LedgerFacts (D.view disk.old) ledger → (by_area : ℕ → ℕ)
        → AreOfClasses by_area lines.now classes.now
        → HaveTheirClasses by_area (Pending (D.view disk.old))
        → HaveTheirClasses by_area (Pending (D.view disk.new)) }

    // Whatever it answers, a page that may have no other area's owner has none, where the lines that lie there are the area's.
    ensures owners { IsTrue (D.view disk.old).tells → (ledger : Ledger)
        → LedgerFacts (D.view disk.old) ledger → (there : Spot) (area : ℕ)
        → IsAreaFile there.file → IsDataPage there.page → LieForArea lines.now there area
        → KeepsOwners (Pending (D.view disk.old)) (Pending (D.view disk.new)) there area }

    // Whatever it answers, the commit can go on.
    ensures keeps { IsTrue (D.view disk.old).tells
        → (ledger : Ledger) (member : ℕ) (transaction : Open) (flight : Flight)
        → LedgerFacts (D.view disk.old) ledger
        → let its = this_commit member transaction stage group lines.now classes.now flight in
        ledger.commit ≡ Some its → LedgerFacts (D.view disk.new) (held_up its ledger) }

    // The stages come one behind another, and each goes on while lines are left for it.
    ensures order { IfOk result (IsNextStage stage) }
    ensures further { IfOk result (IsFurther (length lines.now) stage) }

    // It is further, and at the last stage committed.
    ensures goes_on { IfOk result (λ next. IsTrue (D.view disk.old).tells
        → (ledger : Ledger) (member : ℕ) (transaction : Open) (flight : Flight)
        → LedgerFacts (D.view disk.old) ledger
        → (stage ≡ Gathering → HaveClasses (D.view disk.old).content ledger.base flight)
        → let its = this_commit member transaction stage group lines.now classes.now flight in
        ledger.commit ≡ Some its
        → LedgerFacts (D.view disk.new) (behind_step next (D.view disk.new).moment its ledger)) }
{
    commit_step(disk, stage, group, lines, classes, page)
}
