// The lines that a catalog is read from.
ghost use Rattle.std.specs.Prelude.{◌≡◌, true, Some, IfOk, IfSome};
ghost use Rattle.line_view.specs.Held.{knows};
ghost use Rattle.remembered_catalog.specs.Part.{part_knows, AreKnown, IsPartOf};

use line_view::{Known, Room, Seen, View};
use ordered_entries::Entries;
use rdb_types::{Dbkey, Items, NoMemory};
use std::alloc::Global;
use std::collections::BTreeSet;
use std::marker::Model;

/// The logical area of the catalog.
const CATALOG_AREA: u32 = 1;

/// The lines of the catalog's area, and nothing else.
#[derive(Drop)]
pub(crate) struct CatalogPart {
    keys: BTreeSet<Dbkey>,
    lines: Entries<Dbkey, Items<u8>>,
}

impl Model for CatalogPart {
    ghost use Rattle.remembered_catalog.specs.Part.{Part};

    ghost Value = { Part };

    ghost view = { λ p. record { keys = p.keys.keys; lines = p.lines } };
}

impl View for CatalogPart {
    ghost knows = { part_knows };

    fn line(&self, key: Dbkey) -> Seen<'_> {
        match self.lines.find(&key) {
            Some(image) => Seen::Present(image.as_slice()),
            None => Seen::Unknown,
        }
    }

    fn area(&self, area: u32) -> Option<&BTreeSet<Dbkey>> {
        if area == CATALOG_AREA {
            Some(&self.keys)
        } else {
            None
        }
    }

    fn room(&self, _room: Room) -> Option<Dbkey> {
        None
    }
}

// Whether this is known of a line.
fn is_known(known: &Known, key: Dbkey, image: &[u8]) -> bool
    ensures { result ≡ true → (knows known.now).line key ≡ Some (Some image.now) }
{
    match known.line(key) {
        Seen::Present(seen) => seen == image,
        Seen::Unknown | Seen::Absent => false,
    }
}

// Whether this is known of each of these lines.
fn are_known(known: &Known, lines: &[(Dbkey, Items<u8>)]) -> bool
    ensures { result ≡ true → AreKnown (knows known.now) lines.now }
{
    for (key, image) in lines {
        if !is_known(known, *key, image.as_slice()) {
            return false;
        }
    }
    true
}

#[tactic(auto, using(crate::proofs::Parts::put_known))]
// What is known of the lines at these keys, if each is known to be present.
fn lines_at(
    alloc: Global,
    known: &Known,
    keys: &BTreeSet<Dbkey>,
) -> Result<Option<Entries<Dbkey, Items<u8>>>, NoMemory>
    ensures { IfOk result (λ lines. IfSome lines (AreKnown (knows known.now))) }
{
    let mut lines = Entries::new(alloc);
    for key in keys {
        let Seen::Present(image) = known.line(*key) else {
            return Ok(None);
        };
        lines.put(*key, Items::from_slice(alloc, image)?)?;
    }
    Ok(Some(lines))
}

impl CatalogPart {
    /// A copy of what is known of the catalog's area, where all of it is known.
    pub(crate) fn of(alloc: Global, known: &Known) -> Result<Option<CatalogPart>, NoMemory>
        ensures { IfOk result (λ part. IfSome part (IsPartOf (knows known.now))) }
    {
        let Some(known_keys) = known.area(CATALOG_AREA) else {
            return Ok(None);
        };
        let Some(lines) = lines_at(alloc, known, known_keys)? else {
            return Ok(None);
        };
        let keys = known_keys.clone()?;
        Ok(Some(CatalogPart { keys, lines }))
    }

    /// Whether each of these lines is known the same, and no others of the catalog's area.
    pub(crate) fn is_part_of(&self, known: &Known) -> bool
        ensures { result ≡ true → IsPartOf (knows known.now) self.now }
    {
        let Some(keys) = known.area(CATALOG_AREA) else {
            return false;
        };
        *keys == self.keys && are_known(known, self.lines.as_slice())
    }
}
