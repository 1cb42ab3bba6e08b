// The four kinds of line.
use rdb_types::{Chars, Dbkey, Field, FieldType, Positions};

/// A relation: its logical area, the class of its lines, and its version.
#[derive(Debug, Drop)]
pub struct RelationLine {
    pub area: u32,
    pub class: u16,
    pub version: u16,
    pub name: Chars,
}

/// A global field.
#[derive(Debug, Drop)]
pub struct GlobalLine {
    pub kind: FieldType,
    pub name: Chars,
}

/// A field of the relation of a logical area, and its position among the relation's fields, counted from 0.
#[derive(Debug, Drop)]
pub struct FieldLine {
    pub relation: u32,
    pub position: u16,
    pub field: Field,
}

/// An index: its logical area, that of its relation, the Dbkey of its root node, and the positions of its fields.
#[derive(Debug, Drop)]
pub struct IndexLine {
    pub area: u32,
    pub relation: u32,
    pub unique: bool,
    pub root: Dbkey,
    pub fields: Positions,
    pub name: Chars,
}

/// A line of the catalog.
#[derive(Debug, Drop)]
pub enum CatalogLine {
    Relation(RelationLine),
    Global(GlobalLine),
    Field(FieldLine),
    Index(IndexLine),
}
