// The turns of a commit.
ghost use Rattle.std.specs.Prelude.{◌≡◌, ◌≢◌, ℕ, [], IsTrue};
ghost use Rattle.rdb_types.specs.declared.file.FileId.{FileId};
ghost use Rattle.rdb_types.specs.declared.file.FileKind.TheVariants.{Snap};
ghost use Rattle.line_versions.specs.Course.{Course};
ghost use Rattle.stable_lines.specs.Slots.{line_at};
ghost use Rattle.stable_lines.specs.Progress.{lines_with};
ghost use Rattle.line_moves.specs.Calls.{OnlyWrites};
ghost use Rattle.line_moves.specs.Lines.{AreDistinct, PutsOnly};
ghost use Rattle.line_seat.specs.declared.commit.CommitStage.TheVariants.{Committed, Landing};
ghost use Rattle.disk_seats.specs.Ledgers.{Ledger};
ghost use Rattle.disk_seats.specs.Members.{LedgerFacts};
ghost use Rattle.disk_versions.specs.Courses.{course_landed};
ghost use Rattle.ledger_versions.specs.Readers.{ReaderFacts, Waiting, set_waiting};
ghost use Rattle.member_steps.specs.declared.committing.CommitTurn.{CommitTurn};
ghost use Rattle.member_steps.specs.declared.committing.CommitTurn.TheVariants.{Going};
ghost use Rattle.member_steps.specs.Turns.{IsNextTurn, Plan, TurnFacts, ledger_behind, ledger_held};

use rdb_outside::Disk;

/// A turn of a commit keeps what readers come to. Its premises are what `commit_next` says that it writes and makes of the lines, and which turn comes next.
pub fn a_turn_keeps_readers<D: Disk>(before: &D, after: &D)
    requires tells { IsTrue (D.view before.now).tells }

    // Whatever it answers.
    ensures held { (ledger : Ledger) (limit : ℕ) (course : Course) (waiting : Waiting)
        → (plan : Plan) (turn : CommitTurn) (file : FileId) (slot : ℕ)
        → LedgerFacts (D.view before.now) ledger → TurnFacts turn (D.view before.now) ledger plan
        → file.kind ≢ Snap → OnlyWrites file slot (D.view before.now) (D.view after.now)
        → PutsOnly plan.lines (D.view before.now).content (D.view after.now).content
        → AreDistinct plan.lines → waiting plan.member ≡ plan.lines
        → ReaderFacts (D.view before.now) ledger limit course waiting
        → ReaderFacts (D.view after.now) (ledger_held turn plan ledger) limit course waiting }

    // It is further, and the lines aren't committed yet.
    ensures further { (ledger : Ledger) (limit moment : ℕ) (course : Course) (waiting : Waiting)
        → (plan : Plan) (turn next : CommitTurn) (file : FileId) (slot : ℕ)
        → LedgerFacts (D.view before.now) ledger → TurnFacts turn (D.view before.now) ledger plan
        → file.kind ≢ Snap → OnlyWrites file slot (D.view before.now) (D.view after.now)
        → PutsOnly plan.lines (D.view before.now).content (D.view after.now).content
        → AreDistinct plan.lines → waiting plan.member ≡ plan.lines
        → IsNextTurn turn next → next ≢ Going Committed
        → ReaderFacts (D.view before.now) ledger limit course waiting
        → ReaderFacts (D.view after.now) (ledger_behind turn next moment plan ledger) limit course
        waiting }

    // They are committed: readers that begin now see them, and those that began before see what was.
    ensures lands { (ledger : Ledger) (limit moment : ℕ) (course : Course) (waiting : Waiting)
        → (plan : Plan) (file : FileId) (slot : ℕ)
        → LedgerFacts (D.view before.now) ledger
        → TurnFacts (Going Landing) (D.view before.now) ledger plan
        → LedgerFacts (D.view after.now) (ledger_held (Going Landing) plan ledger)
        → LedgerFacts (D.view after.now)
        (ledger_behind (Going Landing) (Going Committed) moment plan ledger)
        → file.kind ≢ Snap → OnlyWrites file slot (D.view before.now) (D.view after.now)
        → PutsOnly plan.lines (D.view before.now).content (D.view after.now).content
        → AreDistinct plan.lines → waiting plan.member ≡ plan.lines
        → ReaderFacts (D.view before.now) ledger limit course waiting
        → ReaderFacts (D.view after.now)
        (ledger_behind (Going Landing) (Going Committed) moment plan ledger) limit
        (course_landed plan.transaction.tsn.number (line_at (D.view after.now).content)
        (lines_with ledger.base plan.flight) course) (set_waiting plan.member [] waiting) }
{}
