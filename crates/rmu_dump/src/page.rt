// A page of an area file.
ghost use Rattle.std.specs.Prelude.{◌≡◌, ◌≤◌, ◌++◌, OnOk, IsErrOf, IsTrue};
ghost use Rattle.rdb_outside.specs.Causes.{Rose};
ghost use Rattle.rdb_outside.specs.Disk.{OnlyReads};
ghost use Rattle.page_faults.specs.Checks.{page_at};
ghost use Rattle.rmu_texts.specs.Page.{page_text as text_of_page};

use page_faults::{RmuStop, area_file};
use rdb_outside::Disk;
use rdb_types::Bytes;
use rmu_texts::page_text;

/// Adds the 64 lines of a page of an area file, 1 to 3. Pages count from 1. One past the file's end is zeros, whatever the root's limit of pages.
pub fn dump_page<D: Disk>(
    disk: &mut D,
    area: u32,
    page: u32,
    out: &mut Bytes,
) -> Result<(), RmuStop>
    requires { 1 ≤ page }
    ensures text { OnOk result (IsTrue (D.view disk.old).tells
        → out.new ≡ out.old ++ text_of_page (page_at (D.view disk.old).content area page)) }

    // It doesn't give up by itself.
    ensures failed { IsErrOf result RmuStop.Failed
        → Rose (D.view disk.old).faults (D.view disk.new).faults }

    // Whatever it answers.
    ensures reads { OnlyReads (D.view disk.old) (D.view disk.new) }
{
    let mut bytes = [0; 1024];
    disk.read(area_file(area), page - 1, &mut bytes)?;
    page_text(&bytes, out)?;
    Ok(())
}
