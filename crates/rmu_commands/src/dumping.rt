// RMU/DUMP and RMU/DUMP/PAGE.
ghost use Rattle.std.specs.Prelude.{◌≡◌, ◌⊎◌, ◌≤◌, ◌++◌, ℕ, List, true, IfOk, IsErrOf, IsTrue};
ghost use Rattle.rdb_types.specs.declared.file.FileId.{FileId as File};
ghost use Rattle.rdb_outside.specs.Causes.{Rose};
ghost use Rattle.rdb_outside.specs.Disk.{OnlyReads};
ghost use Rattle.page_faults.specs.Checks.{page_at};
ghost use Rattle.rmu_texts.specs.Page.{page_text as text_of_page};
ghost use Rattle.rmu_commands.specs.Usable.{HasRootInUse, IsDumped};
ghost use Rattle.rmu_commands.specs.Written.{Writes, Dumps, DumpsPage, HasDump, is_dump_status};

use crate::roots::{find_root, status_of};
use crate::writing::write_text;
use database_dump::dump;
use line_opening::OpeningFault;
use page_faults::RmuStop;
use rdb_outside::{Disk, Sink};
use rdb_types::Bytes;
use rmu_dump::dump_page;
use std::alloc::Global;

// The text of a database's dump.
fn dump_text<D: Disk>(alloc: Global, disk: &mut D) -> Result<Bytes, OpeningFault>
    ensures root { IfOk result (λ text. IsTrue (D.view disk.old).tells
        → HasRootInUse (D.view disk.old).content) }
    ensures text { IfOk result (λ text. IsTrue (D.view disk.old).tells
        → HasDump (D.view disk.old).content text) }
    ensures refused { (file : File) (slot : ℕ) → IsErrOf result (OpeningFault.Bad file slot)
        → IsTrue (D.view disk.old).tells → IsDumped (D.view disk.old).content → ⊥ }
    ensures failed { IsErrOf result OpeningFault.Failed
        → Rose (D.view disk.old).faults (D.view disk.new).faults }
    ensures reads { OnlyReads (D.view disk.old) (D.view disk.new) }
{
    find_root(disk)?;
    let mut text = Bytes::new(alloc);
    dump(alloc, disk, &mut text)?;
    Ok(text)
}

/// `RMU/DUMP`: writes what a database is and holds, and answers the status. It changes nothing.
pub fn dump_command<D: Disk, K: Sink>(alloc: Global, disk: &mut D, out: &mut K) -> u8
    ensures status { is_dump_status result ≡ true }

    // What is written is the dump of the database.
    ensures dumps { Dumps (D.view disk.old) result (K.tells out.old ≡ true) (K.taken out.old) (K.taken out.new) }

    // A device call failed.
    ensures device { result ≡ 3 → Rose (D.view disk.old).faults (D.view disk.new).faults }

    // A root that is in use, the header of a journal, a page or the catalog is none.
    ensures refused { result ≡ 4 → IsTrue (D.view disk.old).tells → IsDumped (D.view disk.old).content → ⊥ }

    // A call on the sink failed.
    ensures sink { result ≡ 6 → Rose (K.faults out.old) (K.faults out.new) }

    // Whatever it answers.
    ensures reads { OnlyReads (D.view disk.old) (D.view disk.new) }
{
    match dump_text(alloc, disk) {
        Ok(text) => write_text(0, text.as_slice(), out),
        Err(fault) => status_of(fault),
    }
}

// The text of a page.
fn page_text<D: Disk>(
    alloc: Global,
    disk: &mut D,
    file: u32,
    page: u32,
) -> Result<Bytes, OpeningFault>
    requires { 1 ≤ page }
    ensures root { IfOk result (λ text. IsTrue (D.view disk.old).tells
        → HasRootInUse (D.view disk.old).content) }
    ensures text { IfOk result (λ text. IsTrue (D.view disk.old).tells
        → text ≡ text_of_page (page_at (D.view disk.old).content file page)) }
    ensures refused { (bad : File) (slot : ℕ) → IsErrOf result (OpeningFault.Bad bad slot)
        → IsTrue (D.view disk.old).tells → HasRootInUse (D.view disk.old).content → ⊥ }
    ensures failed { IsErrOf result OpeningFault.Failed
        → Rose (D.view disk.old).faults (D.view disk.new).faults }
    ensures reads { OnlyReads (D.view disk.old) (D.view disk.new) }
{
    find_root(disk)?;
    let mut text = Bytes::new(alloc);
    match dump_page(disk, file, page, &mut text) {
        Ok(()) => Ok(text),
        Err(RmuStop::Failed) => Err(OpeningFault::Failed),
        Err(RmuStop::NoMemory) => Err(OpeningFault::NoMemory),
    }
}

/// `RMU/DUMP/PAGE`: writes a page of an area file, and answers the status. It changes nothing.
pub fn page_command<D: Disk, K: Sink>(
    alloc: Global,
    disk: &mut D,
    file: u32,
    page: u32,
    out: &mut K,
) -> u8
    requires { 1 ≤ page }
    ensures status { is_dump_status result ≡ true }

    // What is written are the bytes of the page.
    ensures dumps { DumpsPage (D.view disk.old) file page result (K.tells out.old ≡ true) (K.taken out.old) (K.taken out.new) }

    // A device call failed.
    ensures device { result ≡ 3 → Rose (D.view disk.old).faults (D.view disk.new).faults }

    // There is no root that is in use.
    ensures refused { result ≡ 4 → IsTrue (D.view disk.old).tells → HasRootInUse (D.view disk.old).content → ⊥ }

    // A call on the sink failed.
    ensures sink { result ≡ 6 → Rose (K.faults out.old) (K.faults out.new) }

    // Whatever it answers.
    ensures reads { OnlyReads (D.view disk.old) (D.view disk.new) }
{
    match page_text(alloc, disk, file, page) {
        Ok(text) => write_text(0, text.as_slice(), out),
        Err(fault) => status_of(fault),
    }
}
