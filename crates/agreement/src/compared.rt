// Whether tables are the same.
use rdb_meaning::{Index, Relation, Tables};
use rdb_types::{Chars, Dbkey, Field, FieldType, Row, row_order};

fn same_text(a: &Chars, b: &Chars) -> bool {
    a.as_slice() == b.as_slice()
}

fn same_fields(a: &[Field], b: &[Field]) -> bool {
    a.len() == b.len()
        && a.iter().zip(b).all(|(x, y)| same_text(&x.name, &y.name)
            && x.kind == y.kind
            && x.version == y.version)
}

fn same_rows(a: &[(Dbkey, Row)], b: &[(Dbkey, Row)]) -> bool {
    a.len() == b.len()
        && a.iter().zip(b).all(|(x, y)| x.0 == y.0
            && row_order(x.1.as_slice(), y.1.as_slice()).is_eq())
}

fn same_relation(a: &Relation, b: &Relation) -> bool {
    a.area == b.area
        && same_fields(a.fields.as_slice(), b.fields.as_slice())
        && same_rows(a.rows.as_slice(), b.rows.as_slice())
}

fn same_index(a: &Index, b: &Index) -> bool {
    a.area == b.area
        && a.relation == b.relation
        && a.unique == b.unique
        && a.fields.as_slice() == b.fields.as_slice()
}

fn same_globals(a: &[(Chars, FieldType)], b: &[(Chars, FieldType)]) -> bool {
    a.len() == b.len()
        && a.iter()
            .zip(b)
            .all(|(x, y)| same_text(&x.0, &y.0) && x.1 == y.1)
}

fn same_relations(a: &[(Chars, Relation)], b: &[(Chars, Relation)]) -> bool {
    a.len() == b.len()
        && a.iter().zip(b).all(|(x, y)| same_text(&x.0, &y.0) && same_relation(&x.1, &y.1))
}

fn same_indexes(a: &[(Chars, Index)], b: &[(Chars, Index)]) -> bool {
    a.len() == b.len()
        && a.iter()
            .zip(b)
            .all(|(x, y)| same_text(&x.0, &y.0) && same_index(&x.1, &y.1))
}

/// Whether tables are the same.
pub fn same_tables(a: &Tables, b: &Tables) -> bool {
    same_globals(a.globals.as_slice(), b.globals.as_slice())
        && same_relations(a.relations.as_slice(), b.relations.as_slice())
        && same_indexes(a.indexes.as_slice(), b.indexes.as_slice())
}
