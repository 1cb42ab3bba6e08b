// The faults of all lines.
ghost use Rattle.std.specs.Prelude.{◌≡◌, map, OnOk, IfOk};
ghost use Rattle.line_view.specs.Knowledge.{Lines, IsInOrder, lines_in};
ghost use Rattle.catalog.specs.Reading.{IsWhole, catalog_area};
ghost use Rattle.areas_at_rest.specs.lines_at_rest.declared.reading.FaultyPages.TheVariants.{LeftOut};
ghost use Rattle.line_faults.specs.Catalog.{IsCheckedCatalog};
ghost use Rattle.verified_lines.specs.Faults.{AreLineFaults};
ghost use Rattle.areas_at_rest.specs.Runs.{IsQuiet, AtRest};
ghost use Rattle.rmu_verify.specs.Added.{AddsSome};
ghost use Rattle.rmu_verify.specs.Verified.{FindsLines, FindsTrees};

use crate::indexes::{IndexFaults, verify_indexes};
use crate::listing::{SortedFaults, add_all, sorted};
use crate::rows::verify_rows;
use crate::strays::verify_strays;
use areas_at_rest::{AreaLines, RestReading, read_area};
use catalog::Catalog;
use line_faults::{CheckedCatalog, ascending, check_catalog};
use line_opening::OpeningFault;
use ordered_entries::Entries;
use rdb_outside::Disk;
use rdb_types::{Dbkey, Image, Items, Keys, NoMemory};
use rmu_texts::Faults;
use std::alloc::Global;
use std::collections::BTreeSet;

/// The logical area of the catalog.
const CATALOG_AREA: u32 = 1;

// The lines with whole images.
fn images_of(alloc: Global, lines: &AreaLines) -> Result<Entries<Dbkey, Image>, NoMemory>
    ensures { IfOk result (λ images. images ≡ lines.now) }
{
    let mut images = Entries::new(alloc);
    for entry in lines.as_slice() {
        images.put(entry.0, Image::from_bytes(entry.1.bytes()))?;
    }
    Ok(images)
}

fn check_lines(alloc: Global, lines: &AreaLines) -> Result<CheckedCatalog, NoMemory>
    ensures checked { IfOk result (λ checked. (all : Lines) → IsInOrder all
        → lines.now ≡ lines_in catalog_area all
        → IsCheckedCatalog all checked.catalog checked.faults.keys) }
    ensures whole { IfOk result (λ checked. IsWhole checked.catalog) }
{
    let images = images_of(alloc, lines)?;
    check_catalog(alloc, images)
}

// What is left of the catalog without its lines at fault, and these.
fn check_definitions<D: Disk>(
    alloc: Global,
    disk: &mut D,
    held: &RestReading,
) -> Result<CheckedCatalog, OpeningFault>
    ensures checked { IfOk result (λ checked. AtRest (D.view disk.old) held.now
        (λ all. IsCheckedCatalog all checked.catalog checked.faults.keys)) }
    ensures whole { IfOk result (λ checked. IsWhole checked.catalog) }
    ensures quiet { IsQuiet held.now.faulty (D.view disk.old) (D.view disk.new) result }
{
    let lines = read_area(alloc, disk, held, CATALOG_AREA)?;
    match check_lines(alloc, &lines) {
        Ok(checked) => Ok(checked),
        Err(_) => Err(OpeningFault::NoMemory),
    }
}

// The lines of even areas that are no rows of a relation, in ascending order.
fn lines_at_fault<D: Disk>(
    alloc: Global,
    disk: &mut D,
    held: &RestReading,
    catalog: &Catalog,
) -> Result<BTreeSet<Dbkey>, OpeningFault>
    requires whole { IsWhole catalog.now }
    requires left_out { held.now.faulty ≡ LeftOut }
    ensures found { IfOk result (λ found. AtRest (D.view disk.old) held.now
        (λ all. FindsLines all catalog.now found.keys)) }
    ensures quiet { IsQuiet held.now.faulty (D.view disk.old) (D.view disk.new) result }
{
    let mut keys = Keys::new(alloc);
    verify_rows(alloc, disk, held, catalog, &mut keys)?;
    verify_strays(alloc, disk, held, &catalog.tables, &mut keys)?;
    match ascending(alloc, keys.as_slice()) {
        Ok(found) => Ok(found),
        Err(_) => Err(OpeningFault::NoMemory),
    }
}

// What is at fault of the indexes, in ascending order.
fn trees_at_fault<D: Disk>(
    alloc: Global,
    disk: &mut D,
    held: &RestReading,
    catalog: &Catalog,
) -> Result<SortedFaults, OpeningFault>
    requires { IsWhole catalog.now }
    ensures found { IfOk result (λ found. AtRest (D.view disk.old) held.now
        (λ all. FindsTrees all catalog.now found.nodes.keys (map (λ e. e.0) found.names))) }
    ensures quiet { IsQuiet held.now.faulty (D.view disk.old) (D.view disk.new) result }
{
    let mut found = IndexFaults {
        nodes: Keys::new(alloc),
        names: Items::new(alloc),
    };
    verify_indexes(alloc, disk, held, catalog, &mut found)?;
    match sorted(alloc, &found) {
        Ok(sorted) => Ok(sorted),
        Err(_) => Err(OpeningFault::NoMemory),
    }
}

/// Adds the faults of all lines: of the catalog, of rows, of nodes and of indexes, each kind in ascending order. One relation or index is in memory at a time.
pub(crate) fn verify_lines<D: Disk>(
    alloc: Global,
    disk: &mut D,
    held: &RestReading,
    faults: &mut Faults,
) -> Result<(), OpeningFault>
    requires { held.now.faulty ≡ LeftOut }
    ensures found { OnOk result (AddsSome
        (λ more. AtRest (D.view disk.old) held.now (λ all. AreLineFaults all more)) faults.old faults.new) }
    ensures quiet { IsQuiet held.now.faulty (D.view disk.old) (D.view disk.new) result }
{
    let checked = check_definitions(alloc, disk, held)?;
    let lines = lines_at_fault(alloc, disk, held, &checked.catalog)?;
    let trees = trees_at_fault(alloc, disk, held, &checked.catalog)?;
    match add_all(alloc, &checked.faults, &lines, &trees, faults) {
        Ok(()) => Ok(()),
        Err(_) => Err(OpeningFault::NoMemory),
    }
}
