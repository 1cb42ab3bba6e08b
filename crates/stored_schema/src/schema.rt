// A catalog with how its relations are stored.
ghost use Rattle.std.specs.Prelude.{◌≡◌, map, Some, IfOk};
ghost use Rattle.rdb_meaning.specs.declared.tables.Tables.{Tables as Kept};
ghost use Rattle.rdb_meaning.specs.declared.tables.Relation.{Relation as Rows};
ghost use Rattle.rdb_meaning.specs.Contents.{relation_named};
ghost use Rattle.line_view.specs.Knowledge.{Lines};
ghost use Rattle.row_writes.specs.sound_changes.Standing.{IsSoundAs};
ghost use Rattle.stored_schema.specs.Indexes.{path_of, lines_on};
ghost use Rattle.stored_schema.specs.Targets.{HasStored, HasTarget};

use crate::indexes::{RelationIndexes, indexes_of};
use access_paths::IndexPath;
use catalog::{Catalog, LogicalArea};
use catalog_lines::IndexLine;
use ordered_entries::Entries;
use rdb_types::{Chars, NoMemory};
use relation_rows::StoredRelation;
use row_sizes::class_of;
use row_writes::{TargetRelation, version_of, versions_of};
use std::alloc::Global;
use std::marker::Model;

/// A catalog, and the indexes of each of its relations in the order of their definition.
#[derive(Drop)]
pub struct Schema {
    catalog: Catalog,
    versions: Entries<Chars, u16>,
    indexes: Entries<LogicalArea, RelationIndexes>,
}

impl Model for Schema {
    ghost use Rattle.std.specs.Prelude.{◌≡◌};
    ghost use Rattle.row_writes.specs.sound_lines.Contents.{versions_in};
    ghost use Rattle.catalog.specs.declared.reading.Catalog.{Catalog as Directory};
    ghost use Rattle.stored_schema.specs.Indexes.{indexes_in};

    ghost Value = { Directory };

    ghost view = { λ s. s.catalog };

    ghost invariant = { λ s. (s.versions ≡ versions_in s.catalog.lines) × (s.indexes ≡ indexes_in s.catalog.lines) };
}

impl Schema {
    /// Takes a catalog.
    pub fn new(alloc: Global, catalog: Catalog) -> Result<Schema, NoMemory>
        ensures { IfOk result (λ schema. schema ≡ catalog) }
    {
        let versions = versions_of(alloc, catalog.lines.as_slice())?;
        let indexes = indexes_of(alloc, catalog.lines.as_slice())?;
        Ok(Schema {
            catalog,
            versions,
            indexes,
        })
    }

    /// The catalog that was taken.
    pub fn catalog(&self) -> &Catalog
        ensures { result.now ≡ self.now }
    {
        &self.catalog
    }

    // The indexes of the relation of a logical area, as rows are written into them.
    fn lines_on(&self, area: u32) -> &[IndexLine]
        ensures { result.now ≡ lines_on area self.now.lines }
    {
        match self.indexes.find(&LogicalArea { number: area }) {
            Some(indexes) => indexes.lines.as_slice(),
            None => &[],
        }
    }

    /// The indexes of the relation of a logical area in the order of their definition, as selections read them.
    pub fn paths_on(&self, area: u32) -> &[IndexPath]
        ensures { result.now ≡ map path_of (lines_on area self.now.lines) }
    {
        match self.indexes.find(&LogicalArea { number: area }) {
            Some(indexes) => indexes.paths.as_slice(),
            None => &[],
        }
    }

    #[tactic(auto, using(crate::proofs::Written::no_target, crate::proofs::Written::none_there))]
    /// What rows of the relation of a name are written into: how its rows are stored, the class of its lines, and its indexes in the order of their definition.
    pub fn target(&self, name: &Chars) -> Option<TargetRelation<'_>>
        ensures stored { (rel : Rows) → relation_named name.now self.now.tables ≡ Some rel → HasStored self.now name.now rel result }
        ensures target { (all : Lines) (t : Kept) (rel : Rows) → IsSoundAs all self.now t → relation_named name.now t ≡ Some rel → HasTarget self.now t name.now rel result }
    {
        let Some(relation) = self.catalog.tables.relation(name) else {
            return None;
        };
        let stored = StoredRelation {
            area: relation.area,
            version: version_of(name, &self.versions),
            fields: relation.fields.as_slice(),
        };
        Some(TargetRelation {
            stored,
            class: class_of(relation.fields.as_slice()),
            indexes: self.lines_on(relation.area),
        })
    }
}
