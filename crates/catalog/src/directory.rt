// Where the things of the catalog stand.
ghost use Rattle.std.specs.Prelude.{◌≡◌, ◌==◌, is_some, OnOk, IfOk};
ghost use Rattle.std.specs.Cmp.{IsTotalOrder, nat_cmp_total, on_total, then_total};
ghost use Rattle.std.specs.FinMap.Entries.{find};
ghost use Rattle.std.specs.Option.{option_copied};
ghost use Rattle.catalog.specs.Directory.{area_order, place_order, numbered, place, noted, directory};
ghost use Rattle.rdb_types.specs.Order.{chars_order};
ghost use Rattle.catalog.specs.Schema.{has_area, has_field, is_key, is_field_key};

use catalog_lines::CatalogLine;
use ordered_entries::{Entries, Key};
use rdb_types::{Chars, Copied, Dbkey, Field, NoMemory};
use std::alloc::Global;
use std::cmp::Ordering;

/// A line of the catalog, and its Dbkey.
#[derive(Debug, Drop)]
pub struct PlacedLine {
    pub key: Dbkey,
    pub line: CatalogLine,
}

/// The number of a logical area.
#[derive(Clone, Copy, Debug, PartialEq, Eq)]
pub struct LogicalArea {
    pub number: u32,
}

/// The logical area of a relation, and the position of one of its fields.
#[derive(Clone, Copy, Debug, PartialEq, Eq)]
pub struct FieldPlace {
    pub relation: u32,
    pub position: u16,
}

/// A field, and the Dbkey of its line.
#[derive(Debug, Drop)]
pub struct PlacedField {
    pub key: Dbkey,
    pub field: Field,
}

impl Key for LogicalArea {
    ghost order = { area_order };

    ghost total = { on_total (λ a. a.number) nat_cmp_total };

    fn order(&self, other: &LogicalArea) -> Ordering {
        self.number.cmp(&other.number)
    }
}

impl Key for FieldPlace {
    ghost order = { place_order };

    ghost total = { then_total (on_total (λ p. p.relation) nat_cmp_total) (on_total (λ p. p.position) nat_cmp_total) };

    fn order(&self, other: &FieldPlace) -> Ordering {
        self.relation
            .cmp(&other.relation)
            .then(self.position.cmp(&other.position))
    }
}

/// The lines of the catalog by the names of global fields, by the areas of relations and indexes, and by the places of fields.
#[derive(Drop)]
pub struct Directory {
    pub globals: Entries<Chars, Dbkey>,
    pub areas: Entries<LogicalArea, Dbkey>,
    pub fields: Entries<FieldPlace, PlacedField>,
}

fn note(
    alloc: Global,
    directory: &mut Directory,
    key: Dbkey,
    line: &CatalogLine,
) -> Result<(), NoMemory>
    ensures { OnOk result (directory.new ≡ noted key line.now directory.old) }
{
    match line {
        CatalogLine::Relation(relation) => {
            let area = LogicalArea {
                number: relation.area,
            };
            directory.areas.put(area, key)
        }
        CatalogLine::Global(global) => directory.globals.put(global.name.copied(alloc)?, key),
        CatalogLine::Field(line) => {
            let place = FieldPlace {
                relation: line.relation,
                position: line.position,
            };
            let field = line.field.copied(alloc)?;
            directory.fields.put(place, PlacedField { key, field })
        }
        CatalogLine::Index(index) => {
            let area = LogicalArea { number: index.area };
            directory.areas.put(area, key)
        }
    }
}

/// Notes each of these lines.
pub(crate) fn directory_of(alloc: Global, lines: &[PlacedLine]) -> Result<Directory, NoMemory>
    ensures { IfOk result (λ made. made ≡ directory lines.now) }
{
    let mut directory = Directory {
        globals: Entries::new(alloc),
        areas: Entries::new(alloc),
        fields: Entries::new(alloc),
    };
    for line in lines {
        note(alloc, &mut directory, line.key, &line.line)?;
    }
    Ok(directory)
}

impl Directory {
    /// Whether this is the line of the relation or index of an area.
    pub fn is_of_area(&self, key: Dbkey, area: u32) -> bool
        ensures { result ≡ is_key key (find area_order (numbered area) self.now.areas) }
    {
        match self.areas.find(&LogicalArea { number: area }) {
            Some(other) => key.order(other).is_eq(),
            None => false,
        }
    }

    /// Whether this is the line of the global field of a name.
    pub fn is_of_global(&self, key: Dbkey, name: &Chars) -> bool
        ensures { result ≡ is_key key (find chars_order name.now self.now.globals) }
    {
        match self.globals.find(name) {
            Some(other) => key.order(other).is_eq(),
            None => false,
        }
    }

    /// The field at a position of the relation of an area.
    pub fn field(&self, relation: u32, position: u16) -> Option<&PlacedField>
        ensures { option_copied result ≡ find place_order (place relation position) self.now.fields }
    {
        self.fields.find(&FieldPlace { relation, position })
    }

    /// Whether this is the line of the field at a position of the relation of an area.
    pub fn is_of_field(&self, key: Dbkey, relation: u32, position: u16) -> bool
        ensures { result ≡ is_field_key key (find place_order (place relation position) self.now.fields) }
    {
        match self.field(relation, position) {
            Some(found) => key.order(&found.key).is_eq(),
            None => false,
        }
    }

    /// Whether a relation has a field at a position.
    pub fn has_field(&self, relation: u32, position: u16) -> bool
        ensures { result ≡ has_field relation self.now position }
    {
        match self.field(relation, position) {
            Some(_) => true,
            None => false,
        }
    }

    /// Whether there is a relation or an index of an area.
    pub fn has_area(&self, area: u32) -> bool
        ensures { result ≡ has_area area self.now }
    {
        match self.areas.find(&LogicalArea { number: area }) {
            Some(_) => true,
            None => false,
        }
    }
}
