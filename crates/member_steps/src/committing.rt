// A member's commit, from its pages' owners to its answer.
ghost use Rattle.std.specs.Prelude.{◌≡◌, ◌≢◌, ◌+◌, ◌≤◌, ◌<◌, ◌^◌, ◌⊎◌, ℕ, List, length, IfOk, IsErrOf, IsTrue};
ghost use Rattle.rdb_types.specs.declared.file.FileId.{FileId as File};
ghost use Rattle.rdb_types.specs.declared.file.FileKind.TheVariants.{Aij, Area, Root as RootKind, Snap};
ghost use Rattle.rdb_outside.specs.Causes.{Rose};
ghost use Rattle.rdb_outside.specs.Disk.{OnlyReads, Pending};
ghost use Rattle.area_files.specs.Areas.{IsDataPage};
ghost use Rattle.disk_seats.specs.stable_lines.Slots.{Undo, area_file, ruj_file, IsAreaFile};
ghost use Rattle.disk_seats.specs.stable_lines.Progress.{Open, Flight};
ghost use Rattle.disk_seats.specs.line_moves.Calls.{OnlyWrites};
ghost use Rattle.disk_seats.specs.line_moves.Changes.{KeepsLines};
ghost use Rattle.disk_seats.specs.line_moves.declared.places.Place.{Place as Spot};
ghost use Rattle.disk_seats.specs.line_moves.Classes.{HaveTheirClasses, KeepsOwners, LieForArea};
ghost use Rattle.disk_seats.specs.line_moves.Lines.{AreDistinct, PutsOnly};
ghost use Rattle.disk_seats.specs.line_seat.Groups.{AreAllowed, AreOfClasses, ArePlaced, HaveClasses, HaveRoom};
ghost use Rattle.disk_seats.specs.line_seat.declared.commit.CommitStage.TheVariants.{Gathering};
ghost use Rattle.disk_seats.specs.Ledgers.{Ledger};
ghost use Rattle.disk_seats.specs.Members.{LedgerFacts};
ghost use Rattle.member_steps.specs.declared.committing.CommitTurn.TheVariants.{Entering, Securing, Going};
ghost use Rattle.member_steps.specs.Turns.{IsFurtherTurn, IsNextTurn, Plan, plan_of, TurnFacts, NextFacts, ledger_behind, ledger_held};

use disk_seats::{CommitStage, GroupPlace, enter, go_on, place_of, settle};
use line_store::Fault;
use rdb_outside::Disk;
use rdb_types::{Dbkey, Line};

/// Where a member's commit is.
#[derive(Clone, Copy, Debug, PartialEq, Eq)]
pub enum CommitTurn {
    /// The pages of the lines before this one are their areas', by their space pages.
    Entering(usize),
    /// Owners and before-images are to be made stable.
    Securing,
    /// Pages and group are written.
    Going(CommitStage),
}

// Says on its space page whose the page of the line at a place is, or goes on to the barrier where there is none.
fn enter_next<D: Disk>(
    disk: &mut D,
    at: usize,
    lines: &[(Dbkey, Line)],
) -> Result<CommitTurn, Fault>
    requires placed { ArePlaced lines.now }
    ensures writes { (file : ℕ) × (slot : ℕ)
        × OnlyWrites (area_file file) slot (D.view disk.old) (D.view disk.new) }
    ensures failed { IsErrOf result Fault.Failed
        → Rose (D.view disk.old).faults (D.view disk.new).faults }
    ensures bad { (file : File) (slot : ℕ) → IsErrOf result (Fault.Bad file slot)
        → IsTrue (D.view disk.old).tells → (ledger : Ledger)
        → LedgerFacts (D.view disk.old) ledger → ⊥ }
    ensures lines { IsTrue (D.view disk.old).tells → (ledger : Ledger)
        → LedgerFacts (D.view disk.old) ledger
        → KeepsLines (D.view disk.old).content (D.view disk.new).content }
    ensures classes { IsTrue (D.view disk.old).tells → (by_area : ℕ → ℕ)
        → HaveTheirClasses by_area (Pending (D.view disk.old))
        → HaveTheirClasses by_area (Pending (D.view disk.new)) }
    ensures owners { IsTrue (D.view disk.old).tells → (there : Spot) (area : ℕ) → IsDataPage there.page
        → KeepsOwners (Pending (D.view disk.old)) (Pending (D.view disk.new)) there area }
    ensures order { IfOk result (IsNextTurn (Entering at)) }
    ensures further { IfOk result (IsFurtherTurn (length lines.now) (Entering at)) }
    ensures keeps { IsTrue (D.view disk.old).tells → (ledger : Ledger) (plan : Plan)
        → LedgerFacts (D.view disk.old) ledger → plan.lines ≡ lines.now
        → TurnFacts (Entering at) (D.view disk.old) ledger plan
        → LedgerFacts (D.view disk.new) ledger × TurnFacts (Entering 0) (D.view disk.new) ledger plan }
    ensures goes_on { IfOk result (λ next. IsTrue (D.view disk.old).tells
        → (ledger : Ledger) (plan : Plan)
        → LedgerFacts (D.view disk.old) ledger → plan.lines ≡ lines.now
        → TurnFacts (Entering at) (D.view disk.old) ledger plan
        → LedgerFacts (D.view disk.new) ledger × NextFacts next (D.view disk.new) ledger plan) }
{
    if at >= lines.len() {
        return Ok(CommitTurn::Securing);
    }
    let key = lines[at].0;
    let Some(place) = place_of(key) else {
        unreachable!();
    };
    enter(disk, place, key.area)?;
    Ok(CommitTurn::Entering(at + 1))
}

// The barrier behind which the before-images stand and the pages may be written.
fn secure<D: Disk>(disk: &mut D) -> Result<CommitTurn, Fault>
    ensures reads { OnlyReads (D.view disk.old) (D.view disk.new) }
    ensures order { IfOk result (IsNextTurn Securing) }
    ensures further { (lines : ℕ) → IfOk result (IsFurtherTurn lines Securing) }
    ensures failed { IsErrOf result Fault.Failed
        → Rose (D.view disk.old).faults (D.view disk.new).faults }
    ensures bad { (file : File) (slot : ℕ) → IsErrOf result (Fault.Bad file slot) → ⊥ }
    ensures keeps { IsTrue (D.view disk.old).tells → (ledger : Ledger)
        → LedgerFacts (D.view disk.old) ledger → LedgerFacts (D.view disk.new) ledger }
    ensures goes_on { IfOk result (λ next. IsTrue (D.view disk.old).tells
        → (ledger : Ledger) (plan : Plan) → LedgerFacts (D.view disk.old) ledger
        → TurnFacts Securing (D.view disk.old) ledger plan
        → let behind = ledger_behind Securing next (D.view disk.new).moment plan ledger in
        LedgerFacts (D.view disk.new) behind × NextFacts next (D.view disk.new) behind plan) }
{
    settle(disk)?;
    Ok(CommitTurn::Going(CommitStage::Changing(0)))
}

// Goes on with pages and group.
fn go_further<D: Disk>(
    disk: &mut D,
    stage: CommitStage,
    group: GroupPlace,
    lines: &[(Dbkey, Line)],
    classes: &[u16],
    page: &mut [u8],
) -> Result<CommitTurn, Fault>
    requires size { length page.old ≡ 1024 }
    requires distinct { AreDistinct lines.now }
    requires placed { ArePlaced lines.now }
    requires classes { length classes.now ≡ length lines.now }
    requires allowed { AreAllowed lines.now classes.now }
    requires room { group.slot + (length lines.now + 1) < 2 ^ 32 }
    requires number { group.number ≤ 2 ^ 62 }
    requires tsn { group.tsn.number < 2 ^ 62 }
    ensures writes { (file : File) × (slot : ℕ) × (file.kind ≢ Snap) × (file.kind ≢ RootKind)
        × OnlyWrites file slot (D.view disk.old) (D.view disk.new) }
    ensures files { (file : File) × (slot : ℕ) × ((file.kind ≡ Area) ⊎ (file.kind ≡ Aij))
        × OnlyWrites file slot (D.view disk.old) (D.view disk.new) }
    ensures journals { IsTrue (D.view disk.old).tells → (member : ℕ) (slot : ℕ)
        → (D.view disk.new).content (ruj_file member) slot ≡ (D.view disk.old).content (ruj_file member) slot }
    ensures failed { IsErrOf result Fault.Failed
        → Rose (D.view disk.old).faults (D.view disk.new).faults }
    ensures bad { (file : File) (slot : ℕ) → IsErrOf result (Fault.Bad file slot)
        → IsTrue (D.view disk.old).tells
        → (ledger : Ledger) (member : ℕ) (transaction : Open) (all : List Undo) (flight : Flight)
        → (by_area : ℕ → ℕ) → LedgerFacts (D.view disk.old) ledger
        → let plan = plan_of member transaction all group lines.now classes.now flight in
        TurnFacts (Going stage) (D.view disk.old) ledger plan
        → HaveRoom (Pending (D.view disk.old)) by_area lines.now classes.now → ⊥ }
    ensures changes { IsTrue (D.view disk.old).tells → (ledger : Ledger)
        → LedgerFacts (D.view disk.old) ledger
        → PutsOnly lines.now (D.view disk.old).content (D.view disk.new).content }
    ensures classes { IsTrue (D.view disk.old).tells → (ledger : Ledger)
        → LedgerFacts (D.view disk.old) ledger → (by_area : ℕ → ℕ)
        → AreOfClasses by_area lines.now classes.now
        → HaveTheirClasses by_area (Pending (D.view disk.old))
        → HaveTheirClasses by_area (Pending (D.view disk.new)) }
    ensures owners { IsTrue (D.view disk.old).tells → (ledger : Ledger)
        → LedgerFacts (D.view disk.old) ledger → (there : Spot) (area : ℕ)
        → IsAreaFile there.file → IsDataPage there.page → LieForArea lines.now there area
        → KeepsOwners (Pending (D.view disk.old)) (Pending (D.view disk.new)) there area }
    ensures keeps { IsTrue (D.view disk.old).tells
        → (ledger : Ledger) (member : ℕ) (transaction : Open) (all : List Undo) (flight : Flight)
        → LedgerFacts (D.view disk.old) ledger
        → let plan = plan_of member transaction all group lines.now classes.now flight in
        TurnFacts (Going stage) (D.view disk.old) ledger plan
        → LedgerFacts (D.view disk.new) (ledger_held (Going stage) plan ledger) }
    ensures order { IfOk result (IsNextTurn (Going stage)) }
    ensures further { IfOk result (IsFurtherTurn (length lines.now) (Going stage)) }
    ensures goes_on { IfOk result (λ next. IsTrue (D.view disk.old).tells
        → (ledger : Ledger) (member : ℕ) (transaction : Open) (all : List Undo) (flight : Flight)
        → LedgerFacts (D.view disk.old) ledger
        → (stage ≡ Gathering → HaveClasses (D.view disk.old).content ledger.base flight)
        → let plan = plan_of member transaction all group lines.now classes.now flight in
        TurnFacts (Going stage) (D.view disk.old) ledger plan
        → let behind = ledger_behind (Going stage) next (D.view disk.new).moment plan ledger in
        LedgerFacts (D.view disk.new) behind × NextFacts next (D.view disk.new) behind plan) }
{
    let next = go_on(disk, stage, group, lines, classes, page)?;
    Ok(CommitTurn::Going(next))
}

/// Goes on with a member's commit: one write or one barrier at most. It begins at `Entering(0)`, when all before-images are written, and is through at `Going(Committed)`. The lines stand in the order of their keys, with the class of each; `page` is room for a page. Behind a fault it is made again: the owners of pages from the first on, a barrier as it was, and what comes behind it as `go_on` says.
pub fn commit_next<D: Disk>(
    disk: &mut D,
    turn: CommitTurn,
    group: GroupPlace,
    lines: &[(Dbkey, Line)],
    classes: &[u16],
    page: &mut [u8],
) -> Result<CommitTurn, Fault>
    requires size { length page.old ≡ 1024 }
    requires distinct { AreDistinct lines.now }
    requires placed { ArePlaced lines.now }
    requires classes { length classes.now ≡ length lines.now }
    requires allowed { AreAllowed lines.now classes.now }
    requires room { group.slot + (length lines.now + 1) < 2 ^ 32 }
    requires number { group.number ≤ 2 ^ 62 }
    requires tsn { group.tsn.number < 2 ^ 62 }

    // It writes one slot at most, and neither of a snapshot file nor of the root.
    ensures writes { (file : File) × (slot : ℕ) × (file.kind ≢ Snap) × (file.kind ≢ RootKind)
        × OnlyWrites file slot (D.view disk.old) (D.view disk.new) }

    // That slot is of an area file or of the after-image journal.
    ensures files { (file : File) × (slot : ℕ) × ((file.kind ≡ Area) ⊎ (file.kind ≡ Aij))
        × OnlyWrites file slot (D.view disk.old) (D.view disk.new) }

    // Before-image journals read as they did.
    ensures journals { IsTrue (D.view disk.old).tells → (member : ℕ) (slot : ℕ)
        → (D.view disk.new).content (ruj_file member) slot ≡ (D.view disk.old).content (ruj_file member) slot }
    ensures failed { IsErrOf result Fault.Failed
        → Rose (D.view disk.old).faults (D.view disk.new).faults }

    // No slot is refused where pages have room for the lines.
    ensures bad { (file : File) (slot : ℕ) → IsErrOf result (Fault.Bad file slot)
        → IsTrue (D.view disk.old).tells
        → (ledger : Ledger) (member : ℕ) (transaction : Open) (all : List Undo) (flight : Flight)
        → (by_area : ℕ → ℕ) → LedgerFacts (D.view disk.old) ledger
        → let plan = plan_of member transaction all group lines.now classes.now flight in
        TurnFacts turn (D.view disk.old) ledger plan
        → HaveRoom (Pending (D.view disk.old)) by_area lines.now classes.now → ⊥ }

    // Whatever it answers, each line is as it was, or one of these.
    ensures changes { IsTrue (D.view disk.old).tells → (ledger : Ledger)
        → LedgerFacts (D.view disk.old) ledger
        → PutsOnly lines.now (D.view disk.old).content (D.view disk.new).content }

    // Whatever it answers, pages have the classes of their areas where they had, and each line comes with its area's.
    ensures classes { IsTrue (D.view disk.old).tells → (ledger : Ledger)
        → LedgerFacts (D.view disk.old) ledger → (by_area : ℕ → ℕ)
        → AreOfClasses by_area lines.now classes.now
        → HaveTheirClasses by_area (Pending (D.view disk.old))
        → HaveTheirClasses by_area (Pending (D.view disk.new)) }

    // Whatever it answers, a page that may have no other area's owner has none, where the lines that lie there are the area's.
    ensures owners { IsTrue (D.view disk.old).tells → (ledger : Ledger)
        → LedgerFacts (D.view disk.old) ledger → (there : Spot) (area : ℕ)
        → IsAreaFile there.file → IsDataPage there.page → LieForArea lines.now there area
        → KeepsOwners (Pending (D.view disk.old)) (Pending (D.view disk.new)) there area }

    // Whatever it answers, the ledger stays, and the commit can go on.
    ensures keeps { IsTrue (D.view disk.old).tells
        → (ledger : Ledger) (member : ℕ) (transaction : Open) (all : List Undo) (flight : Flight)
        → LedgerFacts (D.view disk.old) ledger
        → let plan = plan_of member transaction all group lines.now classes.now flight in
        TurnFacts turn (D.view disk.old) ledger plan
        → LedgerFacts (D.view disk.new) (ledger_held turn plan ledger) }

    // The turns come one behind another, and each goes on while lines are left for it.
    ensures order { IfOk result (IsNextTurn turn) }
    ensures further { IfOk result (IsFurtherTurn (length lines.now) turn) }

    // It is further. At the last turn the lines are committed, since this moment.
    ensures goes_on { IfOk result (λ next. IsTrue (D.view disk.old).tells
        → (ledger : Ledger) (member : ℕ) (transaction : Open) (all : List Undo) (flight : Flight)
        → LedgerFacts (D.view disk.old) ledger
        → (turn ≡ Going Gathering → HaveClasses (D.view disk.old).content ledger.base flight)
        → let plan = plan_of member transaction all group lines.now classes.now flight in
        TurnFacts turn (D.view disk.old) ledger plan
        → let behind = ledger_behind turn next (D.view disk.new).moment plan ledger in
        LedgerFacts (D.view disk.new) behind × NextFacts next (D.view disk.new) behind plan) }
{
    match turn {
        CommitTurn::Entering(at) => enter_next(disk, at, lines),
        CommitTurn::Securing => secure(disk),
        CommitTurn::Going(stage) => go_further(disk, stage, group, lines, classes, page),
    }
}
