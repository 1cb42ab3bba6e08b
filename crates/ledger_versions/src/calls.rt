// Device calls.
ghost use Rattle.std.specs.Prelude.{◌≡◌, ◌≢◌, ◌-◌, ◌≤◌, ℕ, true, List, Some, IsTrue};
ghost use Rattle.rdb_types.specs.declared.file.FileId.{FileId};
ghost use Rattle.rdb_types.specs.declared.file.FileKind.TheVariants.{Area, Snap};
ghost use Rattle.rdb_outside.specs.Disk.{OnlyReads};
ghost use Rattle.line_versions.specs.Files.{snap_file};
ghost use Rattle.line_versions.specs.Course.{Course};
ghost use Rattle.stable_lines.specs.Slots.{Undo};
ghost use Rattle.stable_lines.specs.Progress.{Open};
ghost use Rattle.line_moves.specs.Calls.{OnlyWrites};
ghost use Rattle.line_moves.specs.Changes.{KeepsLines};
ghost use Rattle.line_moves.specs.Lines.{AreDistinct, PutsOnly};
ghost use Rattle.disk_seats.specs.line_opening.Undoing.{PutsBack};
ghost use Rattle.disk_seats.specs.Ledgers.{Commit, Ledger, undoing};
ghost use Rattle.disk_seats.specs.Members.{LedgerFacts};
ghost use Rattle.ledger_versions.specs.Readers.{ReaderFacts, Waiting};

use rdb_outside::Disk;

/// A device call keeps what readers come to, whatever it answers.
pub fn calls_keep_readers<D: Disk>(before: &D, after: &D)
    requires tells { IsTrue (D.view before.now).tells }

    // Nothing was written: a read, or a barrier.
    ensures reads { (ledger : Ledger) (limit : ℕ) (course : Course) (waiting : Waiting)
        → OnlyReads (D.view before.now) (D.view after.now)
        → ReaderFacts (D.view before.now) ledger limit course waiting
        → ReaderFacts (D.view after.now) ledger limit course waiting }

    // A root, a header, a before-image, an after-image, a commit slot.
    ensures aside { (ledger : Ledger) (limit : ℕ) (course : Course) (waiting : Waiting)
        → (file : FileId) (slot : ℕ) → file.kind ≢ Snap → file.kind ≢ Area
        → OnlyWrites file slot (D.view before.now) (D.view after.now)
        → ReaderFacts (D.view before.now) ledger limit course waiting
        → ReaderFacts (D.view after.now) ledger limit course waiting }

    // A slot of a snapshot file that isn't followed.
    ensures slot { (ledger : Ledger) (limit : ℕ) (course : Course) (waiting : Waiting)
        → (number slot : ℕ)
        → ((chain : ℕ) → 1 ≤ chain → slot ≡ chain - 1 → course.followed number chain ≡ true → ⊥)
        → OnlyWrites (snap_file number) slot (D.view before.now) (D.view after.now)
        → ReaderFacts (D.view before.now) ledger limit course waiting
        → ReaderFacts (D.view after.now) ledger limit course waiting }

    // The owner of a page.
    ensures entered { (ledger : Ledger) (limit : ℕ) (course : Course) (waiting : Waiting)
        → (file : FileId) (slot : ℕ) → file.kind ≢ Snap
        → OnlyWrites file slot (D.view before.now) (D.view after.now)
        → KeepsLines (D.view before.now).content (D.view after.now).content
        → ReaderFacts (D.view before.now) ledger limit course waiting
        → ReaderFacts (D.view after.now) ledger limit course waiting }

    // Lines of the commit that is under way, put on their page.
    ensures put { (ledger : Ledger) (limit : ℕ) (course : Course) (waiting : Waiting)
        → (file : FileId) (slot : ℕ) → file.kind ≢ Snap → (commit : Commit)
        → LedgerFacts (D.view before.now) ledger → ledger.commit ≡ Some commit
        → AreDistinct commit.lines
        → OnlyWrites file slot (D.view before.now) (D.view after.now)
        → PutsOnly commit.lines (D.view before.now).content (D.view after.now).content
        → ReaderFacts (D.view before.now) ledger limit course waiting
        → ReaderFacts (D.view after.now) ledger limit course waiting }

    // Before-images put back: image, transaction and chain.
    ensures back { (ledger : Ledger) (limit : ℕ) (course : Course) (waiting : Waiting)
        → (file : FileId) (slot : ℕ) → file.kind ≢ Snap
        → (member left : ℕ) (all : List Undo) (transaction : Open)
        → LedgerFacts (D.view before.now) ledger → ledger.standing member ≡ undoing all left
        → ledger.base.going member ≡ Some transaction
        → OnlyWrites file slot (D.view before.now) (D.view after.now)
        → PutsBack transaction (D.view before.now).content (D.view after.now).content
        → ReaderFacts (D.view before.now) ledger limit course waiting
        → ReaderFacts (D.view after.now) ledger limit course waiting }
{}
