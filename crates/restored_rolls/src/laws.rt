// What holds of a restored database that is rolled forward.
ghost use Rattle.std.specs.Prelude.{◌≡◌, ◌≤◌, ◌<◌, ◌+◌, ◌-◌, ◌++◌, ℕ, List, [], ◌∷◌};
ghost use Rattle.rdb_outside.specs.Disk.{Image, IsStable};
ghost use Rattle.root_file.specs.declared.Root.{Root};
ghost use Rattle.journal_scan.specs.declared.group.Group.{Group};
ghost use Rattle.line_view.specs.Knowledge.{Lines};
ghost use Rattle.backup_file.specs.declared.header.BackupHead.{BackupHead};
ghost use Rattle.backup_file.specs.declared.line.BackupLine.{BackupLine};
ghost use Rattle.backup_file.specs.Whole.{lines_in};
ghost use Rattle.backup_reading.specs.Reading.{IsBackupOf};
ghost use Rattle.stable_lines.specs.Journal.{Journal, IsJournalOf, next_number};
ghost use Rattle.stable_lines.specs.Kept.{Kept};
ghost use Rattle.stable_lines.specs.Rolling.{laid_groups, groups_above, rolled};
ghost use Rattle.rolled_lines.specs.Journals.{follow, laid};
ghost use Rattle.journal_backup.specs.Copied.{HasCopy};
ghost use Rattle.rmu_restore.specs.Restored.{IsRestored};
ghost use Rattle.fitted_groups.specs.Meeting.{TakesFirst, FitPages};
ghost use Rattle.rmu_recover.specs.Journals.{files_of, AreJournalsIn};
ghost use Rattle.rmu_recover.specs.Recovering.{MayBeRolled, IsToRoll, IsSource, AreSound, IsRolled};
ghost use Rattle.restored_rolls.specs.Meeting.{forward_over, HaveClasses, AreOfClasses};
ghost use Rattle.restored_rolls.specs.Forth.{KeepsJournals, HasBackupAndGroups, StoodBehind, TakesGroups, IsReadyToRoll};

use rdb_outside::Disk;

/// A restored image may be rolled forward over groups that follow on from its backup; whether they fit its pages the roll-forward looks itself.
pub fn restored_may_be_rolled()
    // Each of its slots is one that may stand before a roll-forward, whatever the groups.
    ensures may { (was image : Image) (classes : ℕ → ℕ) (head : BackupHead) (lines : List BackupLine)
        (journal : Journal) (groups : List Group) → KeepsJournals was image
        → (is : IsRestored was classes head lines journal image)
        → MayBeRolled was is.root (forward_over image is.root (lines_in lines) groups) image }

    // The journals are what is laid.
    ensures source { (was image : Image) (classes : ℕ → ℕ) (head : BackupHead) (lines : List BackupLine)
        (journal : Journal) (groups : List Group) (copies : List ℕ) (journals : List Journal)
        → KeepsJournals was image → (is : IsRestored was classes head lines journal image)
        → AreJournalsIn was (files_of copies) journals → follow head.last_group journals ≡ laid groups
        → IsSource was copies is.root (forward_over image is.root (lines_in lines) groups) journals groups journal }

    // A page that was never used is that of the first line that is laid on it.
    ensures first { (was image : Image) (classes : ℕ → ℕ) (head : BackupHead) (lines : List BackupLine)
        (journal : Journal) (groups : List Group)
        → (is : IsRestored was classes head lines journal image)
        → TakesFirst image (forward_over image is.root (lines_in lines) groups) groups }

    // They are sound where behind them each line lies on a page of its class.
    ensures sound { (was image : Image) (classes now : ℕ → ℕ) (head : BackupHead) (lines : List BackupLine)
        (journal : Journal) (groups : List Group) (number : ℕ) → IsBackupOf was number head lines
        → (is : IsRestored was classes head lines journal image)
        → FitPages image head.limits.pages groups → HaveClasses image groups (lines_in lines) now
        → AreSound (forward_over image is.root (lines_in lines) groups) groups now }

    // So it is where the lines of the groups have the classes that the lines of the backup have.
    ensures classes { (was image : Image) (classes : ℕ → ℕ) (head : BackupHead) (lines : List BackupLine)
        (journal : Journal) (groups : List Group) → IsRestored was classes head lines journal image
        → FitPages image head.limits.pages groups → AreOfClasses groups classes
        → HaveClasses image groups (lines_in lines) classes }
{}

/// A disk that holds a restored image may be rolled forward.
pub fn restored_disks_may_be_rolled<D: Disk>(disk: &D)
    ensures { (was : Image) (classes : ℕ → ℕ) (head : BackupHead) (lines : List BackupLine)
        (journal : Journal) (groups : List Group) → IsStable (D.view disk.now)
        → KeepsJournals was (D.view disk.now).content
        → (is : IsRestored was classes head lines journal (D.view disk.now).content)
        → IsToRoll was is.root (forward_over (D.view disk.now).content is.root (lines_in lines) groups)
        (D.view disk.now) }
{}

/// Copies that were taken of the journal, and the journal behind them, are journals in the files that a roll-forward reads.
pub fn copies_stand()
    ensures journal { (image : Image) (journal : Journal) → IsJournalOf image journal
        → AreJournalsIn image (files_of []) (journal ∷ []) }
    ensures copy { (image : Image) (number : ℕ) (copy : Journal) (copies : List ℕ) (journals : List Journal)
        → HasCopy image number copy → AreJournalsIn image (files_of copies) journals
        → AreJournalsIn image (files_of (number ∷ copies)) (copy ∷ journals) }
{}

/// Groups that follow on from a backup, in the journal and in copies that were taken of it.
pub fn copies_follow()
    // The journal alone, where it wasn't emptied since the backup.
    ensures journal { (last : ℕ) (journal : Journal) → journal.first ≤ last + 1
        → follow last (journal ∷ []) ≡ laid (groups_above last journal.groups) }

    // A copy, and what follows on from it.
    ensures copy { (last : ℕ) (copy : Journal) (rest : List Journal) (groups : List Group)
        → copy.first ≤ last + 1 → last < next_number copy → follow (next_number copy - 1) rest ≡ laid groups
        → follow last (copy ∷ rest) ≡ laid (groups_above last copy.groups ++ groups) }

    // Where the database stood for these lines when the copy was taken, the backup rolled over the copy and what follows gives what they give rolled over that.
    ensures gives { (base lines : Lines) (last : ℕ) (copy : Journal) (groups : List Group)
        → lines ≡ rolled base last copy.groups
        → laid_groups (groups_above last copy.groups ++ groups) base ≡ laid_groups groups lines }
{}

/// A database that is lost, restored from a backup of it and rolled forward over all groups since, stands for the lines that it stood for.
pub fn what_was_lost_comes_back()
    // The restored image has all that a roll-forward asks for.
    ensures ready { (was image : Image) (classes now : ℕ → ℕ) (head : BackupHead)
        (lines : List BackupLine) (journal : Journal) (groups : List Group) (number : ℕ)
        (copies : List ℕ) (journals : List Journal)
        → HasBackupAndGroups was number head lines copies journals groups
        → KeepsJournals was image → (is : IsRestored was classes head lines journal image)
        → TakesGroups image head lines groups now
        → IsReadyToRoll was copies is.root (forward_over image is.root (lines_in lines) groups)
        journals groups journal now image }

    // Rolled forward it is in use, and stands for what was lost, with the journal that was there.
    ensures back { (was image end : Image) (now : ℕ → ℕ) (root : Root) (lost : Lines)
        (lines : List BackupLine) (groups : List Group) (journal : Journal)
        → StoodBehind was now lost lines groups journal
        → IsRolled now root (forward_over image root (lines_in lines) groups) groups journal end
        → Kept now lost journal end }
{}
