// Lines of areas that no relation has.
ghost use Rattle.std.specs.Prelude.{◌≡◌, ◌++◌, ℕ, List, OnOk};
ghost use Rattle.rdb_page.specs.Page.{IsOwner};
ghost use Rattle.line_view.specs.Knowledge.{Lines, lines_in, keys_of};
ghost use Rattle.verified_lines.specs.Relations.{is_stray as is_stray_of, strays_in};
ghost use Rattle.verified_lines.specs.Faults.{Covers};
ghost use Rattle.areas_at_rest.specs.lines_at_rest.declared.reading.FaultyPages.TheVariants.{LeftOut};
ghost use Rattle.areas_at_rest.specs.Runs.{IsQuiet, AtRest};

use crate::owners::owners_of;
use crate::relations::entry_in;
use areas_at_rest::{AreaLines, RestReading, read_area};
use line_opening::OpeningFault;
use rdb_meaning::Tables;
use rdb_outside::Disk;
use rdb_types::{Keys, NoMemory};
use std::alloc::Global;

/// The area file of relations.
const RELATIONS: u32 = 2;

fn is_stray(tables: &Tables, area: u32) -> bool
    ensures { result ≡ is_stray_of tables.now area }
{
    area % 2 == 0 && entry_in(tables, area).is_none()
}

fn add_keys(found: &AreaLines, keys: &mut Keys) -> Result<(), NoMemory>
    ensures { OnOk result (keys.new ≡ keys.old ++ keys_of found.now) }
{
    for (key, _) in found.as_slice() {
        keys.push(*key)?;
    }
    Ok(())
}

// Adds the lines of an area.
fn add_area<D: Disk>(
    alloc: Global,
    disk: &mut D,
    held: &RestReading,
    area: u32,
    keys: &mut Keys,
) -> Result<(), OpeningFault>
    ensures found { OnOk result ((file : ℕ) → IsOwner file area
        → AtRest (D.view disk.old) held.now (λ all. keys.new ≡ keys.old ++ keys_of (lines_in area all))) }
    ensures quiet { IsQuiet held.now.faulty (D.view disk.old) (D.view disk.new) result }
{
    let found = read_area(alloc, disk, held, area)?;
    match add_keys(&found, keys) {
        Ok(()) => Ok(()),
        Err(_) => Err(OpeningFault::NoMemory),
    }
}

/// Adds the lines of the even logical areas that own pages and that no relation has.
pub(crate) fn verify_strays<D: Disk>(
    alloc: Global,
    disk: &mut D,
    held: &RestReading,
    tables: &Tables,
    keys: &mut Keys,
) -> Result<(), OpeningFault>
    requires { held.now.faulty ≡ LeftOut }
    ensures found { OnOk result (AtRest (D.view disk.old) held.now (λ all. (areas : List ℕ)
        × Covers all areas × (keys.new ≡ keys.old ++ strays_in all tables.now areas))) }
    ensures quiet { IsQuiet held.now.faulty (D.view disk.old) (D.view disk.new) result }
{
    let owners = owners_of(alloc, disk, RELATIONS)?;
    for area in &owners {
        if is_stray(tables, *area) {
            add_area(alloc, disk, held, *area, keys)?;
        }
    }
    Ok(())
}
