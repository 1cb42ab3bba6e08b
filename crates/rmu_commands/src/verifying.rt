// RMU/VERIFY.
ghost use Rattle.std.specs.Prelude.{◌≡◌, ◌⊎◌, ◌++◌, ℕ, true, IfOk, IsErrOf, IsTrue};
ghost use Rattle.rdb_types.specs.declared.file.FileId.{FileId as File};
ghost use Rattle.rdb_outside.specs.Causes.{Rose};
ghost use Rattle.rdb_outside.specs.Disk.{OnlyReads};
ghost use Rattle.stable_lines.specs.Journal.{Journal, IsJournalOf};
ghost use Rattle.rmu_texts.specs.Faults.{faults_text as text_of_faults};
ghost use Rattle.rmu_verify.specs.Verified.{AreFaults};
ghost use Rattle.rmu_commands.specs.Usable.{HasRootInUse, IsUsable};
ghost use Rattle.rmu_commands.specs.Written.{Writes, Verifies, IsCleanDatabase, is_verify_status, status_for};

use crate::roots::{find_root, status_of};
use crate::writing::write_text;
use line_opening::OpeningFault;
use rdb_outside::{Disk, Sink};
use rdb_types::Bytes;
use rmu_texts::{Faults, VerifyFault, faults_text};
use rmu_verify::verify;
use std::alloc::Global;

// The faults of the database.
fn find_faults<D: Disk>(alloc: Global, disk: &mut D) -> Result<Faults, OpeningFault>
    ensures root { IfOk result (λ faults. IsTrue (D.view disk.old).tells
        → HasRootInUse (D.view disk.old).content) }
    ensures faults { IfOk result (λ faults. IsTrue (D.view disk.old).tells
        → (journal : Journal) → IsJournalOf (D.view disk.old).content journal
        → AreFaults (D.view disk.old).content journal.groups faults) }
    ensures refused { (file : File) (slot : ℕ) → IsErrOf result (OpeningFault.Bad file slot)
        → IsTrue (D.view disk.old).tells → IsUsable (D.view disk.old).content → ⊥ }
    ensures failed { IsErrOf result OpeningFault.Failed
        → Rose (D.view disk.old).faults (D.view disk.new).faults }
    ensures reads { OnlyReads (D.view disk.old) (D.view disk.new) }
{
    find_root(disk)?;
    verify(alloc, disk)
}

// Writes the list of faults, and answers the status.
fn write_faults<K: Sink>(alloc: Global, faults: &[VerifyFault], out: &mut K) -> u8
    ensures status { (result ≡ 5) ⊎ (result ≡ 6) ⊎ (result ≡ status_for faults.now) }
    ensures writes { K.tells out.old ≡ true → Writes result (text_of_faults faults.now) (K.taken out.old) (K.taken out.new) }
    ensures sink { result ≡ 6 → Rose (K.faults out.old) (K.faults out.new) }
{
    let mut text = Bytes::new(alloc);
    if faults_text(faults, &mut text).is_err() {
        return 5;
    }
    if faults.is_empty() {
        write_text(0, text.as_slice(), out)
    } else {
        write_text(7, text.as_slice(), out)
    }
}

/// `RMU/VERIFY`: lists the faults of a database and how many there are, and answers the status: 0 where there is none, 7 where there is one, 3, 4, 5 and 6 where it gave up. It changes nothing.
pub fn verify_command<D: Disk, K: Sink>(alloc: Global, disk: &mut D, out: &mut K) -> u8
    ensures status { is_verify_status result ≡ true }

    // What is written is the list of the faults that the database has, and 7 says that there are some.
    ensures verifies { Verifies (D.view disk.old) result (K.tells out.old ≡ true) (K.taken out.old) (K.taken out.new) }

    // A device call failed.
    ensures device { result ≡ 3 → Rose (D.view disk.old).faults (D.view disk.new).faults }

    // A root that is in use, or the header of a journal, is none.
    ensures refused { result ≡ 4 → IsTrue (D.view disk.old).tells → IsUsable (D.view disk.old).content → ⊥ }

    // A call on the sink failed.
    ensures sink { result ≡ 6 → Rose (K.faults out.old) (K.faults out.new) }

    // No fault means a database that is sound.
    ensures clean { result ≡ 0 → IsTrue (D.view disk.old).tells → IsCleanDatabase (D.view disk.old).content }

    // Whatever it answers.
    ensures reads { OnlyReads (D.view disk.old) (D.view disk.new) }
{
    match find_faults(alloc, disk) {
        Ok(faults) => write_faults(alloc, faults.as_slice(), out),
        Err(fault) => status_of(fault),
    }
}
