// What a row is written into, and what happens to it.
use catalog_lines::IndexLine;
use rdb_types::Value;
use relation_rows::StoredRelation;

/// A relation that rows are written into: how they are stored, the class of its lines, and its indexes in the order of their logical areas.
#[derive(Clone, Copy)]
pub struct TargetRelation<'a> {
    pub stored: StoredRelation<'a>,
    pub class: u16,
    pub indexes: &'a [IndexLine],
}

/// What happens to the row of a Dbkey.
#[derive(Clone, Copy)]
pub(crate) enum RowChange<'a> {
    Stored(&'a [Value]),
    Changed { was: &'a [Value], row: &'a [Value] },
    Erased(&'a [Value]),
}
