//! Tables in memory, and what is looked up in them.
ghost use Rattle.std.specs.Prelude.{◌≡◌, ◌<◌, length, IfSome};
ghost use Rattle.std.specs.Option.{option_copied};
ghost use Rattle.std.specs.FinMap.Entries.{find};
ghost use Rattle.rdb_meaning.specs.Contents.{relation_named, rows_of, place_of};
ghost use Rattle.ordered_entries.specs.rdb_types.Order.{chars_order, dbkey_order};
ghost use Rattle.rdb_meaning.specs.Lookups.{place_and_field};

use crate::same_name;
use ordered_entries::{
    Chars, Copied, Dbkey, Entries, Field, FieldType, Fields, NoMemory, Positions, Row,
};
use std::alloc::Global;

/// A relation: its logical area, its fields in the order of their definition, and its rows in the order of their Dbkeys.
#[derive(Drop)]
pub struct Relation {
    pub area: u32,
    pub fields: Fields,
    pub rows: Entries<Dbkey, Row>,
}

/// An index: its logical area, that of its relation, and the places of its fields.
#[derive(Drop)]
pub struct Index {
    pub area: u32,
    pub relation: u32,
    pub unique: bool,
    pub fields: Positions,
}

/// Three finite maps, in the order of their names.
#[derive(Drop)]
pub struct Tables {
    pub globals: Entries<Chars, FieldType>,
    pub relations: Entries<Chars, Relation>,
    pub indexes: Entries<Chars, Index>,
}

/// A field and its place among the fields of its relation, counted from 0.
pub struct FieldAt<'a> {
    pub place: usize,
    pub field: &'a Field,
}

impl Relation {
    /// The row at a Dbkey.
    pub fn row(&self, key: &Dbkey) -> Option<&Row>
        ensures { option_copied result ≡ find dbkey_order key.now self.now.rows }
    {
        self.rows.find(key)
    }
}

impl Tables {
    /// The relation of a name.
    pub fn relation(&self, name: &Chars) -> Option<&Relation>
        ensures { option_copied result ≡ relation_named name.now self.now }
    {
        self.relations.find(name)
    }

    /// The rows of a relation, none where it isn't there.
    pub fn rows(&self, name: &Chars) -> &[(Dbkey, Row)]
        ensures { result.now ≡ rows_of (relation_named name.now self.now) }
    {
        match self.relation(name) {
            Some(relation) => relation.rows.as_slice(),
            None => &[],
        }
    }
}

/// The field of a name, with its place.
pub fn field_of<'a>(fields: &'a [Field], name: &Chars) -> Option<FieldAt<'a>>
    ensures found { place_and_field result ≡ place_of name.now fields.now }
    ensures within { IfSome result (λ p. p.place < length fields.now) }
{
    for (place, field) in fields.iter().enumerate() {
        if same_name(name, &field.name) {
            return Some(FieldAt { place, field });
        }
    }
    None
}

impl Copied for Relation {
    fn copied(&self, alloc: Global) -> Result<Relation, NoMemory> {
        let fields = self.fields.copied(alloc)?;
        let rows = self.rows.copied(alloc)?;
        Ok(Relation {
            area: self.area,
            fields,
            rows,
        })
    }
}

impl Copied for Index {
    fn copied(&self, alloc: Global) -> Result<Index, NoMemory> {
        let fields = self.fields.copied(alloc)?;
        Ok(Index {
            area: self.area,
            relation: self.relation,
            unique: self.unique,
            fields,
        })
    }
}

impl Copied for Tables {
    fn copied(&self, alloc: Global) -> Result<Tables, NoMemory> {
        let globals = self.globals.copied(alloc)?;
        let relations = self.relations.copied(alloc)?;
        let indexes = self.indexes.copied(alloc)?;
        Ok(Tables {
            globals,
            relations,
            indexes,
        })
    }
}
