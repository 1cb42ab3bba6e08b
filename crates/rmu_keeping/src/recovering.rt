// RMU/RECOVER.
ghost use Rattle.std.specs.Prelude.{◌≡◌, ◌⊎◌, ◌++◌, true, IsTrue};
ghost use Rattle.rdb_types.specs.declared.file.FileId.{FileId as File};
ghost use Rattle.rdb_outside.specs.Causes.{Rose};
ghost use Rattle.rdb_outside.specs.Disk.{OnlyReads};
ghost use Rattle.database_opening.specs.Others.{KeepsFile};
ghost use Rattle.script_streams.specs.Fronts.{WritesFront};
ghost use Rattle.rmu_recover.specs.Recovering.{IsOther};
ghost use Rattle.rmu_keeping.specs.Rolling.{is_recover_status, rolling_status, HasRolled, MayBeRecovered, LacksGroup, HasUnfit, IsUsed, Rolls, RollsWithin, groups_text, TellsGroups};

use itoa::write_digits;
use rdb_outside::{Disk, Sink};
use rmu_recover::{RecoverFault, recover};
use script_streams::write_all;
use std::alloc::Global;

// The status of a roll-forward that gave up.
fn status_of_rolling(fault: RecoverFault) -> u8
    ensures { result ≡ rolling_status fault }
{
    match fault {
        RecoverFault::Failed => 3,
        RecoverFault::Gap(_) => 4,
        RecoverFault::Unfit(_) => 4,
        RecoverFault::Bad(_, _) => 4,
        RecoverFault::NoMemory => 5,
    }
}

// Writes how many groups were laid. The line stands in an array, so that no memory is wanted for it.
fn write_count<K: Sink>(count: u64, out: &mut K) -> u8
    ensures status { (result ≡ 0) ⊎ (result ≡ 6) }
    ensures whole { K.tells out.old ≡ true → result ≡ 0 → K.taken out.new ≡ K.taken out.old ++ groups_text count }
    ensures front { K.tells out.old ≡ true → result ≡ 6 → WritesFront (K.taken out.old) (K.taken out.new) (groups_text count) }
    ensures sink { result ≡ 6 → Rose (K.faults out.old) (K.faults out.new) }
{
    // (the longest count has 20 digits)
    let mut line = *b"                     groups\n";
    let start = write_digits(count, &mut line, 20);
    match write_all(out, &line[start..]) {
        Ok(()) => 0,
        Err(_) => 6,
    }
}

/// `RMU/RECOVER`: rolls a database that was restored, or rolled forward in part, forward over the copies of its after-image journal of these numbers and that journal, and writes how many groups were laid. A database in use is left as it is, with no group laid.
pub fn recover_command<D: Disk, K: Sink>(
    alloc: Global,
    disk: &mut D,
    copies: &[u32],
    out: &mut K,
) -> u8
    ensures status { is_recover_status result ≡ true }

    // The database is in use, and stands for the lines of the backup with the groups laid over them, whether or not the text was written.
    ensures rolled { HasRolled result → IsTrue (D.view disk.old).tells
        → Rolls (D.view disk.old) (D.view disk.new) copies.now }

    // What is written is how many groups were laid.
    ensures tells { TellsGroups (D.view disk.old) copies.now result (K.tells out.old ≡ true) (K.taken out.old) (K.taken out.new) }

    // A device call failed.
    ensures device { result ≡ 3 → Rose (D.view disk.old).faults (D.view disk.new).faults }

    // Journals that follow on, with groups that fit, are never refused, and neither is a database in use.
    ensures refused { result ≡ 4 → IsTrue (D.view disk.old).tells
        → MayBeRecovered (D.view disk.old) copies.now → ⊥ }
    ensures taken { result ≡ 4 → IsTrue (D.view disk.old).tells
        → IsUsed (D.view disk.old).content → ⊥ }

    // Where a group is missing it isn't carried out, and nothing is changed.
    ensures gap { IsTrue (D.view disk.old).tells → LacksGroup (D.view disk.old) copies.now
        → (HasRolled result → ⊥) × OnlyReads (D.view disk.old) (D.view disk.new) }

    // Where a line of the groups doesn't fit the page that it meets it isn't carried out, and nothing is changed.
    ensures unfitting { IsTrue (D.view disk.old).tells → HasUnfit (D.view disk.old) copies.now
        → (HasRolled result → ⊥) × OnlyReads (D.view disk.old) (D.view disk.new) }

    // A database in use is left as it is.
    ensures in_use { IsTrue (D.view disk.old).tells → IsUsed (D.view disk.old).content
        → OnlyReads (D.view disk.old) (D.view disk.new) }

    // A call on the sink failed.
    ensures sink { result ≡ 6 → Rose (K.faults out.old) (K.faults out.new) }

    // Whatever it answers, a crash at any moment of it leaves what one before might have left, an image from which the same command gives the same, or the lines rolled forward.
    ensures within { IsTrue (D.view disk.old).tells
        → RollsWithin (D.view disk.old) (D.view disk.new) copies.now }

    // Whatever it answers, the after-image journal, its copies, the backups and the undo journals are as they were, at every moment.
    ensures others { IsTrue (D.view disk.old).tells → (file : File) → IsOther file
        → KeepsFile file (D.view disk.old) (D.view disk.new) }
{
    match recover(alloc, disk, copies) {
        Ok(count) => write_count(count, out),
        Err(fault) => status_of_rolling(fault),
    }
}
