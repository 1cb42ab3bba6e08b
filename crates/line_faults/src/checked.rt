// The lines of the catalog.
ghost use Rattle.std.specs.Prelude.{◌≡◌, ℕ, List, Some, map, IfOk};
ghost use Rattle.std.specs.FinMap.Entries.{find};
ghost use Rattle.rdb_types.specs.Order.{dbkey_order};
ghost use Rattle.rdb_types.specs.declared.keys.Dbkey.{Dbkey as Place};
ghost use Rattle.line_view.specs.Knowledge.{Lines, IsInOrder, Agrees, lines_in};
ghost use Rattle.line_view.specs.Held.{nothing, knows, entry_of, with_area};
ghost use Rattle.catalog.specs.declared.reading.Catalog.{Catalog as Decoded};
ghost use Rattle.catalog.specs.Reading.{catalog_area, IsCatalogOf, IsWhole};
ghost use Rattle.line_faults.specs.Catalog.{IsBadLine, IsCheckedCatalog};

use crate::keys::ascending;
use crate::sound::add_unsound;
use catalog::{Catalog, read_catalog};
use line_view::{Known, PresentLine, Stop};
use ordered_entries::Entries;
use rdb_types::{Dbkey, Image, Items, Keys, NoMemory};
use std::alloc::Global;
use std::collections::BTreeSet;

/// The logical area of the catalog.
const CATALOG_AREA: u32 = 1;

/// What is left of a catalog without the lines that keep it from being one, and the Dbkeys of all of its lines that are at fault.
#[derive(Drop)]
pub struct CheckedCatalog {
    pub catalog: Catalog,
    pub faults: BTreeSet<Dbkey>,
}

// What lines are: a catalog, or this one of them keeps them from being one.
#[derive(Drop)]
enum Reading {
    Whole(Catalog),
    Bad(Dbkey),
}

// The lines with copies of their images.
fn present_lines(
    alloc: Global,
    lines: &Entries<Dbkey, Image>,
) -> Result<Items<PresentLine>, NoMemory>
    ensures { IfOk result (λ present. map entry_of present ≡ lines.now) }
{
    let entries = lines.as_slice();
    let mut present = Items::new(alloc);
    for entry in entries {
        present.push(PresentLine {
            key: entry.0,
            image: Image::from_bytes(entry.1.bytes()),
        })?;
    }
    Ok(present)
}

// A view that knows the catalog's area alone.
fn view_of(alloc: Global, lines: &Entries<Dbkey, Image>) -> Result<Known, NoMemory>
    ensures known { IfOk result (λ known. known ≡ with_area catalog_area lines.now nothing) }
    ensures agrees { IfOk result (λ known. (all : Lines) → IsInOrder all
        → lines.now ≡ lines_in catalog_area all → Agrees (knows known) all) }
{
    let present = present_lines(alloc, lines)?;
    let mut known = Known::new(alloc);
    known.learn_area(alloc, CATALOG_AREA, present.as_slice())?;
    Ok(known)
}

fn read_lines(alloc: Global, lines: &Entries<Dbkey, Image>) -> Result<Reading, NoMemory>
    ensures whole { IfOk result (λ reading. (c : Decoded) → reading ≡ Reading.Whole c → IsWhole c
        × ((all : Lines) → IsInOrder all → lines.now ≡ lines_in catalog_area all → IsCatalogOf all c)) }
    ensures bad { IfOk result (λ reading. (key : Place) → reading ≡ Reading.Bad key
        → ((image : List ℕ) × (find dbkey_order key lines.now ≡ Some image))
        × ((all : Lines) → IsInOrder all → lines.now ≡ lines_in catalog_area all → IsBadLine all key)) }
{
    let known = view_of(alloc, lines)?;
    match read_catalog(alloc, &known) {
        Ok(catalog) => Ok(Reading::Whole(catalog)),
        Err(Stop::Bad(key)) => Ok(Reading::Bad(key)),
        Err(Stop::NoMemory) => Err(NoMemory {}),
        Err(Stop::Missing(_)) => unreachable!(),
    }
}

/// The catalog of a map of lines, of which these are the present lines of the catalog's area, and its lines at fault. Lines that are none of the catalog, or don't go with the others, are taken out one after another, each the first that is bad, until the others are a catalog; of this, lines that aren't sound are at fault as well. It takes time in the number of lines times those that are taken out.
pub fn check_catalog(
    alloc: Global,
    mut lines: Entries<Dbkey, Image>,
) -> Result<CheckedCatalog, NoMemory>
    ensures checked { IfOk result (λ checked. (all : Lines) → IsInOrder all
        → lines ≡ lines_in catalog_area all → IsCheckedCatalog all checked.catalog checked.faults.keys) }
    ensures whole { IfOk result (λ checked. IsWhole checked.catalog) }
{
    let mut keys = Keys::new(alloc);
    loop {
        match read_lines(alloc, &lines)? {
            Reading::Whole(catalog) => {
                add_unsound(&catalog, &mut keys)?;
                let faults = ascending(alloc, keys.as_slice())?;
                return Ok(CheckedCatalog { catalog, faults });
            }
            Reading::Bad(key) => {
                let _image = lines.remove(&key);
                keys.push(key)?;
            }
        }
    }
}
