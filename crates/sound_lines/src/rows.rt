// The rows of one relation.
ghost use Rattle.std.specs.Prelude.{◌≡◌, map, IfOk, IfErr};
ghost use Rattle.line_view.specs.Knowledge.{Lines, IsInOrder, Agrees, lines_in};
ghost use Rattle.relation_rows.specs.Stored.{AreRowsOf, IsAreaKnown};
ghost use Rattle.relation_rows.specs.Relations.{stored_row, HasRows};
ghost use Rattle.sound_lines.specs.Contents.{stored};
ghost use Rattle.sound_lines.specs.Reading.{StopsRows};

use line_view::{Need, Never, Stop, View};
use ordered_entries::Entries;
use rdb_meaning::Relation;
use rdb_types::{Copied, Dbkey, Row};
use relation_rows::{StoredRelation, row};
use std::alloc::Global;

fn read_rows<V: View>(
    alloc: Global,
    view: &V,
    relation: &StoredRelation<'_>,
) -> Result<Entries<Dbkey, Row>, Stop<Never>>
    ensures rows { IfOk result (λ rows. (all : Lines) → IsInOrder all → Agrees (V.knows view.now) all
        → AreRowsOf relation.now (lines_in relation.now.area all) (map stored_row rows)) }
    ensures known { IfOk result (λ _. IsAreaKnown (V.knows view.now) relation.now.area) }
    ensures stop { IfErr result (StopsRows (V.knows view.now) relation.now) }
{
    let area = relation.area;
    let Some(keys) = view.area(area) else {
        return Err(Stop::Missing(Need::Area(area)));
    };
    let mut rows = Entries::new(alloc);
    for key in keys {
        if let Some(row) = row(alloc, view, relation, *key)? {
            rows.put(*key, row)?;
        }
    }
    Ok(rows)
}

/// A relation in this version, with its rows.
pub(crate) fn read_relation<V: View>(
    alloc: Global,
    view: &V,
    version: u16,
    relation: &Relation,
) -> Result<Relation, Stop<Never>>
    ensures rows { IfOk result (λ whole. (all : Lines) → IsInOrder all → Agrees (V.knows view.now) all
        → HasRows all (stored version relation.now) whole) }
    ensures known { IfOk result (λ _. IsAreaKnown (V.knows view.now) relation.now.area) }
    ensures stop { IfErr result (StopsRows (V.knows view.now) (stored version relation.now)) }
{
    let stored = StoredRelation {
        area: relation.area,
        version,
        fields: relation.fields.as_slice(),
    };
    let rows = read_rows(alloc, view, &stored)?;
    let fields = relation.fields.copied(alloc)?;
    Ok(Relation {
        area: relation.area,
        fields,
        rows,
    })
}
