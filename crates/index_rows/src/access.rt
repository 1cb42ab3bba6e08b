// The rows that an access gives.
ghost use Rattle.std.specs.Prelude.{◌≡◌, ℕ, List, Err};
ghost use Rattle.rdb_meaning.specs.declared.tables.Relation.{Relation as Table};
ghost use Rattle.line_view.specs.Knowledge.{Lines, IsInOrder, Agrees};
ghost use Rattle.line_view.specs.declared.stop.Stop.TheVariants as stop;
ghost use Rattle.relation_rows.specs.Relations.{HasRows};
ghost use Rattle.index_rows.specs.Given.{Serves, Gives};
ghost use Rattle.index_rows.specs.Reading.{IsBadFor};

use crate::reading::rows_found;
use access_paths::Access;
use line_view::{Never, Stop, View};
use relation_rows::{Rows, StoredRelation, rows};
use sorted_index::{find, range};
use std::alloc::Global;

/// The rows of a relation that are come by, in the order of their Dbkeys: all of its logical area, or those that an index has under a key or under keys within bounds. An index is read before the rows that it names. What is read next and isn't known is named, and rows are answered only where all that is read is known. A line is bad that isn't the node that is read there, that is no row of the relation, or that isn't present where the index names a row.
pub fn accessed<V: View>(
    alloc: Global,
    view: &V,
    relation: &StoredRelation<'_>,
    access: &Access,
) -> Result<Rows, Stop<Never>>
    ensures gives { (all : Lines) (table : Table) (positions : List ℕ) → IsInOrder all → Agrees (V.knows view.now) all
        → HasRows all relation.now table → (served : Serves all positions table.rows access.now)
        → Gives (V.knows view.now) relation.now.area all positions table.rows access.now served result }
    ensures bad { (at : _) → result ≡ Err (stop.Bad at) → (all : Lines) → Agrees (V.knows view.now) all
        → IsBadFor relation.now access.now at all }
{
    match access {
        Access::Scan => rows(alloc, view, relation),
        Access::Find(root, key) => {
            let found = find(alloc, view, *root, key.as_slice());
            rows_found(alloc, view, relation, *root, found)
        }
        Access::Range(root, bounds) => {
            let found = range(alloc, view, *root, bounds);
            rows_found(alloc, view, relation, *root, found)
        }
    }
}
