// What a member's beginning and its commit ask for, from what is known.
ghost use Rattle.std.specs.Prelude.{◌≡◌, ◌≢◌, ◌≤◌, ◌<◌, ◌-◌, ◌⊎◌, ℕ, List, IsTrue};
ghost use Rattle.rdb_types.specs.declared.file.FileId.{FileId};
ghost use Rattle.rdb_types.specs.declared.file.FileKind.TheVariants.{Area, Root as RootKind};
ghost use Rattle.rdb_outside.specs.Disk.{Pending, IsStable, OnlyReads};
ghost use Rattle.root_file.specs.declared.Root.{Root};
ghost use Rattle.root_file.specs.Root.{IsRoot};
ghost use Rattle.area_files.specs.Areas.{IsDataPage, space_page_of};
ghost use Rattle.space_pages.specs.Space.{owner_of};
ghost use Rattle.new_database.specs.Maker.{root_file};
ghost use Rattle.disk_seats.specs.stable_lines.Slots.{area_file, owner_at, IsAreaFile};
ghost use Rattle.disk_seats.specs.line_moves.declared.places.Place.{Place};
ghost use Rattle.disk_seats.specs.line_moves.Calls.{OnlyWrites};
ghost use Rattle.disk_seats.specs.line_moves.Changes.{IsForArea};
ghost use Rattle.disk_seats.specs.line_moves.Classes.{HaveTheirClasses, KeepsOwners};
ghost use Rattle.disk_seats.specs.line_seat.Groups.{HaveClasses};
ghost use Rattle.disk_seats.specs.line_seat.declared.commit.CommitStage.TheVariants.{Gathering};
ghost use Rattle.disk_seats.specs.Ledgers.{Ledger};
ghost use Rattle.disk_seats.specs.Members.{LedgerFacts};
ghost use Rattle.member_steps.specs.Beginning.{HasCeiling};
ghost use Rattle.member_steps.specs.declared.committing.CommitTurn.TheVariants.{Going};
ghost use Rattle.member_steps.specs.Turns.{Plan, TurnFacts};

use rdb_outside::Disk;

/// A ceiling that each root has stays while no root is written, and behind one that isn't lower.
pub fn a_ceiling_stays<D: Disk>(before: &D, after: &D)
    requires { IsTrue (D.view before.now).tells }
    ensures reads { (ceiling : ℕ) → OnlyReads (D.view before.now) (D.view after.now)
        → HasCeiling (Pending (D.view before.now)) ceiling
        → HasCeiling (Pending (D.view after.now)) ceiling }
    ensures writes { (ceiling : ℕ) (file : FileId) (slot : ℕ) → file.kind ≢ RootKind
        → OnlyWrites file slot (D.view before.now) (D.view after.now)
        → HasCeiling (Pending (D.view before.now)) ceiling
        → HasCeiling (Pending (D.view after.now)) ceiling }
    ensures raised { (ceiling : ℕ) (root : Root) → ceiling ≤ root.ceiling
        → ((content : List ℕ) → Pending (D.view after.now) root_file 0 content
        → Pending (D.view before.now) root_file 0 content ⊎ IsRoot content root)
        → HasCeiling (Pending (D.view before.now)) ceiling
        → HasCeiling (Pending (D.view after.now)) ceiling }
{}

/// Behind a barrier the root that stands gives the ceiling.
pub fn a_ceiling_is_stable<D: Disk>(disk: &D)
    requires { IsStable (D.view disk.now) }
    ensures { (root : Root) → IsRoot ((D.view disk.now).content root_file 0) root
        → HasCeiling (Pending (D.view disk.now)) root.ceiling }
{}

/// A page may be given to an area whose it is by its space page, or that nobody owns there; and behind a barrier each page that names nobody.
pub fn pages_for_areas<D: Disk>(disk: &D)
    requires { IsTrue (D.view disk.now).tells }
    ensures said { (ledger : Ledger) (place : Place) (area : ℕ) → LedgerFacts (D.view disk.now) ledger
        → IsAreaFile place.file → IsDataPage place.page
        → (owner_of place.page ((D.view disk.now).content (area_file place.file) (space_page_of place.page - 1)) ≡ area)
        ⊎ (owner_of place.page ((D.view disk.now).content (area_file place.file) (space_page_of place.page - 1)) ≡ 0)
        → IsForArea (Pending (D.view disk.now)) place area }
    ensures unused { (place : Place) (area : ℕ) → IsStable (D.view disk.now)
        → owner_at ((D.view disk.now).content (area_file place.file) (place.page - 1)) ≡ 0
        → IsForArea (Pending (D.view disk.now)) place area }
{}

/// A page that may have no other area's owner has none behind reads, and where another file than a storage area's is written.
pub fn pages_keep_owners<D: Disk>(before: &D, after: &D)
    requires { IsTrue (D.view before.now).tells }
    ensures reads { (there : Place) (area : ℕ) → OnlyReads (D.view before.now) (D.view after.now)
        → KeepsOwners (Pending (D.view before.now)) (Pending (D.view after.now)) there area }
    ensures writes { (there : Place) (area : ℕ) (file : FileId) (slot : ℕ) → file.kind ≢ Area
        → OnlyWrites file slot (D.view before.now) (D.view after.now)
        → KeepsOwners (Pending (D.view before.now)) (Pending (D.view after.now)) there area }
{}

/// A commit may take off where pages have the classes of their areas. They keep them behind reads, and where another file than a storage area's is written.
pub fn pages_have_classes<D: Disk>(before: &D, after: &D)
    requires { IsTrue (D.view before.now).tells }
    ensures gathers { (ledger : Ledger) (plan : Plan) → LedgerFacts (D.view before.now) ledger
        → TurnFacts (Going Gathering) (D.view before.now) ledger plan
        → HaveTheirClasses plan.flight.classes (Pending (D.view before.now))
        → HaveClasses (D.view before.now).content ledger.base plan.flight }
    ensures reads { (classes : ℕ → ℕ) → OnlyReads (D.view before.now) (D.view after.now)
        → HaveTheirClasses classes (Pending (D.view before.now))
        → HaveTheirClasses classes (Pending (D.view after.now)) }
    ensures writes { (classes : ℕ → ℕ) (file : FileId) (slot : ℕ) → file.kind ≢ Area
        → OnlyWrites file slot (D.view before.now) (D.view after.now)
        → HaveTheirClasses classes (Pending (D.view before.now))
        → HaveTheirClasses classes (Pending (D.view after.now)) }
{}
