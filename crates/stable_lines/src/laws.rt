// What follows from the definitions and from the facts.
ghost use Rattle.std.specs.Prelude.{◌≡◌, ℕ, List, [], Option};
ghost use Rattle.rdb_types.specs.declared.keys.Limits.{Limits};
ghost use Rattle.journal_reading.specs.rdb_outside.Disk.{Image, LeftNow, Pending, IsStable};
ghost use Rattle.journal_reading.specs.journal_scan.declared.group.Group.{Group};
ghost use Rattle.new_database.specs.New.{IsNewDatabase};
ghost use Rattle.line_view.specs.Knowledge.{Lines};
ghost use Rattle.stable_lines.specs.Journal.{Journal, IsJournalOf};
ghost use Rattle.stable_lines.specs.Image.{StandsFor};
ghost use Rattle.stable_lines.specs.Kept.{Kept};
ghost use Rattle.stable_lines.specs.Progress.{Open, Progress};
ghost use Rattle.stable_lines.specs.Facts.{Facts, StandsAs};
ghost use Rattle.stable_lines.specs.Opening.{IsFound, found};

use journal_reading::Disk;

/// Each image that a crash may leave is kept. It stands for what is committed, or, where the group in flight is whole in it, for that with the group.
pub fn each_image_stands<D: Disk>(disk: &D)
    ensures { (now : Progress) → Facts (Pending (D.view disk.now)) now
        → (image : Image) → LeftNow (D.view disk.now) image → StandsAs now image }
{}

/// A disk behind a barrier, whose content is kept: what opening finds in it makes the facts.
pub fn opening_finds<D: Disk>(disk: &D)
    requires stable { IsStable (D.view disk.now) }
    ensures { (classes : ℕ → ℕ) (lines : Lines) (journal : Journal)
        → (kept : Kept classes lines journal (D.view disk.now).content) → (going : ℕ → Option Open)
        → ((member : ℕ) → IsFound (D.view disk.now).content journal.groups member (going member))
        → Facts (Pending (D.view disk.now)) (found classes lines journal kept.root going) }
{}

/// An image has one list of whole groups.
pub fn one_journal()
    ensures { (image : Image) (a b : Journal) → IsJournalOf image a → IsJournalOf image b → a ≡ b }
{}

/// An image stands for one map of lines.
pub fn one_map()
    ensures { (image : Image) (groups : List Group) (a b : Lines)
        → StandsFor image groups a → StandsFor image groups b → a ≡ b }
{}

/// A new database is kept, and stands for no lines.
pub fn new_is_kept()
    ensures { (limits : Limits) (image : Image) → IsNewDatabase limits image
        → (classes : ℕ → ℕ) → Kept classes [] (record { first = 1; groups = [] }) image }
{}
