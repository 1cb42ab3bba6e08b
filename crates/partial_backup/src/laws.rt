// What stands of a backup while its lines are copied.
ghost use Rattle.std.specs.Prelude.{◌≡◌, ℕ};
ghost use Rattle.rdb_outside.specs.Disk.{LeftNow, Image};
ghost use Rattle.root_file.specs.Root.{AreLimits};
ghost use Rattle.line_view.specs.Knowledge.{Lines, IsInOrder};
ghost use Rattle.backup_file.specs.Whole.{IsBackup};
ghost use Rattle.backup_making.specs.declared.making.Stage.TheVariants.{Ended};
ghost use Rattle.backup_making.specs.declared.making.Backup.{Backup};
ghost use Rattle.backup_making.specs.Making.{file_of, Former, head_of, slots_of};
ghost use Rattle.partial_backup.specs.Left.{FitOnPages, HasCopied, IsOldOrNew};
ghost use Rattle.partial_backup.specs.Partial.{IsCopying, IsUntouched};

use crate::Copying;
use rdb_outside::Disk;

/// Calls between the steps that leave the backup's file as it is leave it where it is, whatever they do to other files.
pub fn others_keep_it<D: Disk>(before: &D, after: &D, copying: &Copying)
    ensures { (former : Former) (classes : ℕ → ℕ) (lines : Lines)
        → IsUntouched (file_of copying.now.backup.number) (D.view before.now) (D.view after.now)
        → IsCopying former classes lines (D.view before.now) copying.now
        → IsCopying former classes lines (D.view after.now) copying.now }
{}

/// A crash leaves the backup that stood before, none, or that of all the lines; behind the last step that one alone.
pub fn a_crash_leaves<D: Disk>(disk: &D, copying: &Copying)
    ensures within { (former : Former) (classes : ℕ → ℕ) (lines : Lines)
        → IsCopying former classes lines (D.view disk.now) copying.now
        → (image : Image) → LeftNow (D.view disk.now) image
        → IsOldOrNew former classes lines copying.now.backup image }
    ensures ended { (former : Former) (classes : ℕ → ℕ) (lines : Lines)
        → copying.now.backup.stage ≡ Ended
        → IsCopying former classes lines (D.view disk.now) copying.now
        → (image : Image) → LeftNow (D.view disk.now) image
        → HasCopied classes lines copying.now.backup image }
{}

/// A backup of lines that fit on pages is whole.
pub fn a_copy_is_whole()
    ensures { (classes : ℕ → ℕ) (lines : Lines) (b : Backup) (image : Image)
        → (copied : HasCopied classes lines b image)
        → AreLimits b.limits → IsInOrder lines → FitOnPages classes b.limits.pages lines
        → IsBackup (slots_of image (file_of b.number)) (head_of b copied.copies) copied.copies }
{}
