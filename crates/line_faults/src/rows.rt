// The lines of a relation.
ghost use Rattle.std.specs.Prelude.{◌≡◌, ◌++◌, None, true, false, List, OnOk, IfOk};
ghost use Rattle.rdb_types.specs.declared.keys.Dbkey.{Dbkey as Place};
ghost use Rattle.line_view.specs.Knowledge.{Lines, IsInOrder, Agrees};
ghost use Rattle.relation_rows.specs.Stored.{IsAreaKnown, IsBadAt};
ghost use Rattle.line_faults.specs.Rows.{AreRowFaults, IsFineAt};

use line_view::{Stop, View};
use rdb_types::{Dbkey, Keys, NoMemory};
use relation_rows::{StoredRelation, row};
use std::alloc::Global;

// Whether a line that is known is no row of the relation.
fn is_fault<V: View>(
    alloc: Global,
    view: &V,
    relation: &StoredRelation<'_>,
    key: Dbkey,
) -> Result<bool, NoMemory>
    requires { (V.knows view.now).line key ≡ None → ⊥ }
    ensures yes { IfOk result (λ bad. bad ≡ true → IsBadAt (V.knows view.now) relation.now key) }
    ensures no { IfOk result (λ bad. bad ≡ false → IsFineAt (V.knows view.now) relation.now key) }
{
    match row(alloc, view, relation, key) {
        Ok(_) => Ok(false),
        Err(Stop::Bad(_)) => Ok(true),
        Err(Stop::NoMemory) => Err(NoMemory {}),
        Err(Stop::Missing(_)) => unreachable!(),
    }
}

/// Adds the Dbkeys of the lines of a relation's logical area that are no rows of it, in ascending order. The view knows the area.
pub fn row_faults<V: View>(
    alloc: Global,
    view: &V,
    relation: &StoredRelation<'_>,
    faults: &mut Keys,
) -> Result<(), NoMemory>
    requires { IsAreaKnown (V.knows view.now) relation.now.area }
    ensures { OnOk result ((all : Lines) → IsInOrder all → Agrees (V.knows view.now) all
        → (found : List Place) × (faults.new ≡ faults.old ++ found) × AreRowFaults relation.now all found) }
{
    let Some(keys) = view.area(relation.area) else {
        unreachable!();
    };
    for key in keys {
        if is_fault(alloc, view, relation, *key)? {
            faults.push(*key)?;
        }
    }
    Ok(())
}
