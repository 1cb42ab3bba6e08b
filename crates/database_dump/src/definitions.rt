// The catalog.
ghost use Rattle.std.specs.Prelude.{◌≡◌, ℕ, IfOk, IsErrOf, IsTrue};
ghost use Rattle.rdb_types.specs.declared.file.FileId.{FileId as File};
ghost use Rattle.rdb_outside.specs.Causes.{Rose};
ghost use Rattle.rdb_outside.specs.Disk.{OnlyReads};
ghost use Rattle.catalog.specs.Reading.{IsCatalogOf, IsWhole};
ghost use Rattle.catalog.specs.declared.reading.Catalog.{Catalog as Decoded};
ghost use Rattle.lines_at_rest.specs.Left.{AllPass};
ghost use Rattle.areas_at_rest.specs.Runs.{AtRest};

use areas_at_rest::view_of;
use catalog::{Catalog, read_catalog};
use line_moves::area_file;
use line_opening::OpeningFault;
use line_view::Stop;
use lines_at_rest::RestReading;
use rdb_outside::Disk;
use std::alloc::Global;

/// The logical area of the catalog, and its area file.
const CATALOG_AREA: u32 = 1;

/// The catalog of a database at rest. Where its lines are none, the slot of the first that is bad is told.
pub(crate) fn catalog_of<D: Disk>(
    alloc: Global,
    disk: &mut D,
    held: &RestReading,
) -> Result<Catalog, OpeningFault>
    ensures whole { IfOk result IsWhole }
    ensures catalog { IfOk result (λ catalog. AtRest (D.view disk.old) held.now (λ all. IsCatalogOf all catalog)) }
    ensures refused { (file : File) (slot : ℕ) → IsErrOf result (OpeningFault.Bad file slot)
        → IsTrue (D.view disk.old).tells → AllPass (D.view disk.old).content
        → AtRest (D.view disk.old) held.now (λ all. (c : Decoded) → IsCatalogOf all c → ⊥) }
    ensures failed { IsErrOf result OpeningFault.Failed
        → Rose (D.view disk.old).faults (D.view disk.new).faults }
    ensures reads { OnlyReads (D.view disk.old) (D.view disk.new) }
{
    let known = view_of(alloc, disk, held, CATALOG_AREA)?;
    match read_catalog(alloc, &known) {
        Ok(catalog) => Ok(catalog),
        Err(Stop::Bad(key)) => Err(OpeningFault::Bad(
            area_file(CATALOG_AREA),
            key.page.saturating_sub(1),
        )),
        Err(Stop::NoMemory) => Err(OpeningFault::NoMemory),
        Err(Stop::Missing(_)) => unreachable!(),
    }
}
