// The tables of pages, read at opening.
ghost use Rattle.std.specs.Prelude.{◌≤◌, ℕ, IfOk, IsErrOf, IsTrue};
ghost use Rattle.rdb_types.specs.declared.file.FileId.{FileId as File};
ghost use Rattle.rdb_outside.specs.Causes.{Rose};
ghost use Rattle.rdb_outside.specs.Disk.{OnlyReads};
ghost use Rattle.opened_store.specs.Tables.{AreTablesOf, AreAllPages};

use disk_store::Tables;
use line_opening::OpeningFault;
use page_table::read_table;
use rdb_outside::Disk;
use std::alloc::Global;

/// Reads the tables of the three area files, so many pages each. Each space page is read once, and each page that one of them gives an owner.
pub(crate) fn read_tables<D: Disk>(
    alloc: Global,
    disk: &mut D,
    pages: u32,
) -> Result<Tables, OpeningFault>
    requires { pages ≤ 65536 }
    ensures reads { OnlyReads (D.view disk.old) (D.view disk.new) }
    ensures failed { IsErrOf result OpeningFault.Failed
        → Rose (D.view disk.old).faults (D.view disk.new).faults }
    ensures tables { IfOk result (λ tables. IsTrue (D.view disk.old).tells
        → AreTablesOf (D.view disk.old).content pages tables) }

    // It is refused only where a page is none.
    ensures bad { (file : File) (slot : ℕ) → IsErrOf result (OpeningFault.Bad file slot)
        → IsTrue (D.view disk.old).tells → AreAllPages (D.view disk.old).content → ⊥ }
{
    let catalog = read_table(alloc, disk, 1, pages)?;
    let relations = read_table(alloc, disk, 2, pages)?;
    let indexes = read_table(alloc, disk, 3, pages)?;
    Ok(Tables {
        catalog,
        relations,
        indexes,
    })
}
