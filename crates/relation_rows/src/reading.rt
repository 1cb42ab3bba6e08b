// Rows over a view.
ghost use Rattle.std.specs.Prelude.{◌≡◌, Some, None, IfOk, IfSome, IfNone, Err};
ghost use Rattle.sorted_index_laws.specs.line_view.Knowledge.{Lines, IsInOrder, Agrees, line_in, lines_in};
ghost use Rattle.sorted_index_laws.specs.line_view.declared.stop.Stop.TheVariants as stop;
ghost use Rattle.sorted_index_laws.specs.line_view.declared.need.Need.TheVariants as needs;
ghost use Rattle.relation_rows.specs.Stored.{IsRowAt, IsBadAt, AreRowsOf, IsBadIn, IsNextNeed, IsAreaKnown};

use crate::stored::{Rows, StoredRelation, StoredRow, row_of};
use rdb_types::{Dbkey, Row};
use sorted_index_laws::{Need, Never, Seen, Stop, View};
use std::alloc::Global;

/// The row at a Dbkey, if a line is present there.
pub fn row<V: View>(
    alloc: Global,
    view: &V,
    relation: &StoredRelation<'_>,
    key: Dbkey,
) -> Result<Option<Row>, Stop<Never>>
    ensures found { IfOk result (λ read. IfSome read (IsRowAt (V.knows view.now) relation.now key)) }
    ensures absent { IfOk result (λ read. IfNone read ((V.knows view.now).line key ≡ Some None)) }
    ensures missing { (need : _) → result ≡ Err (stop.Missing need) → (need ≡ needs.Line key) × ((V.knows view.now).line key ≡ None) }
    ensures bad { (at : _) → result ≡ Err (stop.Bad at) → (at ≡ key) × IsBadAt (V.knows view.now) relation.now key }
{
    match view.line(key) {
        Seen::Unknown => Err(Stop::Missing(Need::Line(key))),
        Seen::Absent => Ok(None),
        Seen::Present(bytes) => match row_of(alloc, relation, bytes)? {
            Some(row) => Ok(Some(row)),
            None => Err(Stop::Bad(key)),
        },
    }
}

/// The rows of a relation, in the order of their Dbkeys. They are answered only where all that is read is known.
pub fn rows<V: View>(
    alloc: Global,
    view: &V,
    relation: &StoredRelation<'_>,
) -> Result<Rows, Stop<Never>>
    ensures rows { IfOk result (λ rows. (all : Lines) → IsInOrder all → Agrees (V.knows view.now) all → AreRowsOf relation.now (lines_in relation.now.area all) rows) }
    ensures known { IfOk result (λ _. IsAreaKnown (V.knows view.now) relation.now.area) }
    ensures missing { (need : _) → result ≡ Err (stop.Missing need) → IsNextNeed (V.knows view.now) relation.now.area need }
    ensures bad { (at : _) → result ≡ Err (stop.Bad at) → (all : Lines) → Agrees (V.knows view.now) all → (at.area ≡ relation.now.area) × IsBadIn relation.now at all }
{
    let area = relation.area;
    let Some(keys) = view.area(area) else {
        return Err(Stop::Missing(Need::Area(area)));
    };
    let mut rows = Rows::new(alloc);
    for key in keys {
        if let Some(row) = row(alloc, view, relation, *key)? {
            rows.push(StoredRow { key: *key, row })?;
        }
    }
    Ok(rows)
}
