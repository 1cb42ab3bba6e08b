// The variables around an action, and the values of their rows.
ghost use Rattle.std.specs.Prelude.{◌≡◌, ◌++◌, ◌∷◌, [], Some, length, option_and_then, IfOk};
ghost use Rattle.std.specs.FinMap.Entries.{find};
ghost use Rattle.rdb_types.specs.Order.{dbkey_order};
ghost use Rattle.rdb_meaning.specs.declared.tables.Tables.{Tables as Kept};
ghost use Rattle.rdb_meaning.specs.declared.tables.Relation.{Relation as Table};
ghost use Rattle.rdb_meaning.specs.Evaluation.{bind_tuple};
ghost use Rattle.line_view.specs.Knowledge.{Lines, IsInOrder, Agrees};
ghost use Rattle.statement_view.specs.Over.{knows_over};
ghost use Rattle.relation_rows.specs.Relations.{HasRows};
ghost use Rattle.row_writes.specs.Rows.{IsSoundView};
ghost use Rattle.rdo_values.specs.Rows.{row_of, variables_of};
ghost use Rattle.rdo_values.specs.Places.{AreRanges};
ghost use Rattle.rdo_select.specs.Crossed.{ranges_of};
ghost use Rattle.rdo_acts.specs.Scopes.{scope_of, AreRowsOf, missing_values};
ghost use Rattle.rdo_acts.specs.Ends.{GoTogether, Computes};
ghost use Rattle.rdo_acts.specs.Areas.{ReadsIn, ReadsFor, scope_uses};
ghost use Rattle.line_view.specs.declared.need.Need.TheVariants.{Line};
ghost use Rattle.rdo_acts.specs.Wanted.{IsRowOf, Lacking};

use crate::work::Given;
use line_view::{Never, Stop};
use rdb_types::{Copied, Dbkey, Items, NoMemory, Row, Value};
use rdo_values::BoundRange;
use relation_rows::{StoredRelation, row};
use sqlite_items::at as item_at;
use statement_view::Changed;
use std::alloc::Global;

/// A variable of a FOR, and the Dbkey that it is bound to, if it is to one.
#[derive(Clone, Copy)]
pub(crate) struct BoundRow<'a> {
    pub range: &'a BoundRange,
    pub key: Option<Dbkey>,
}

/// The variables around an action, the outermost first.
pub(crate) type BoundRows<'a> = Items<BoundRow<'a>>;

/// The row of a relation at a Dbkey, if there is one and it has a row. Rows stand in the relation's logical area.
pub(crate) fn row_at(
    alloc: Global,
    view: &Changed<'_>,
    relation: &StoredRelation<'_>,
    key: Option<Dbkey>,
) -> Result<Option<Row>, Stop<Never>>
    ensures row { (all : Lines) (table : Table) → IsInOrder all → Agrees (knows_over view.now) all → HasRows all relation.now table → Computes result view.now (λ found. found ≡ option_and_then (λ k. find dbkey_order k table.rows) key) (λ never. ⊥) }
    ensures areas { ReadsIn (relation.now.area ∷ []) result }
    ensures line { Lacking (λ need. (k : _) × (key ≡ Some k) × (need ≡ Line k)) result }
{
    let Some(at) = key else {
        return Ok(None);
    };
    if at.area != relation.area {
        return Ok(None);
    }
    row(alloc, view, relation, at)
}

/// As many missing values as a relation has fields.
pub(crate) fn missing_row(alloc: Global, width: usize) -> Result<Row, NoMemory>
    ensures { IfOk result (λ row. row ≡ missing_values width) }
{
    let mut row = Items::new(alloc);
    for _ in 0..width {
        row.push(Value::Missing)?;
    }
    Ok(row)
}

// The values of a variable's row, missing ones where it has none any more.
fn values_of(
    given: &Given<'_>,
    view: &Changed<'_>,
    variable: BoundRow<'_>,
) -> Result<Row, Stop<Never>>
    requires together { GoTogether given.now }
    requires row { AreRowsOf given.now.schema.now.tables (variable ∷ []) }
    ensures values { (first : Lines) (t : Kept) → IsSoundView view.now given.now.schema.now t first → Computes result view.now (λ values. values ≡ row_of t (scope_of (variable.entry ∷ []))) (λ never. ⊥) }
    ensures areas { (first : Lines) (t : Kept) → IsSoundView view.now given.now.schema.now t first → ReadsFor t (scope_uses (scope_of (variable.entry ∷ []))) result }
    ensures line { Lacking (IsRowOf (scope_of (variable.entry ∷ []))) result }
{
    let Some(source) = given.sources.get(&variable.range.area) else {
        unreachable!();
    };
    let found = row_at(given.alloc, view, &source.relation, variable.key)?;
    match found {
        Some(row) => Ok(row),
        None => Ok(missing_row(given.alloc, variable.range.width)?),
    }
}

/// The values of all variables as their rows are now, the outermost first.
pub(crate) fn values_now(
    given: &Given<'_>,
    view: &Changed<'_>,
    scope: &[BoundRow<'_>],
) -> Result<Row, Stop<Never>>
    requires together { GoTogether given.now }
    requires rows { AreRowsOf given.now.schema.now.tables scope.now }
    ensures values { (first : Lines) (t : Kept) → IsSoundView view.now given.now.schema.now t first → Computes result view.now (λ values. values ≡ row_of t (scope_of scope.now)) (λ never. ⊥) }
    ensures areas { (first : Lines) (t : Kept) → IsSoundView view.now given.now.schema.now t first → ReadsFor t (scope_uses (scope_of scope.now)) result }
    ensures lines { Lacking (IsRowOf (scope_of scope.now)) result }
{
    let mut values = Items::new(given.alloc);
    for variable in scope {
        let own = values_of(given, view, *variable)?;
        values.append(own)?;
    }
    Ok(values)
}

fn copied_scope<'a>(alloc: Global, scope: &[BoundRow<'a>]) -> Result<BoundRows<'a>, NoMemory>
    ensures { IfOk result (λ copy. copy ≡ scope.now) }
{
    let mut copy = Items::new(alloc);
    for variable in scope {
        copy.push(*variable)?;
    }
    Ok(copy)
}

/// The variables with those of a FOR behind them, bound to a tuple.
pub(crate) fn bound_to<'a>(
    alloc: Global,
    scope: &[BoundRow<'a>],
    ranges: &'a [BoundRange],
    tuple: &[Dbkey],
) -> Result<BoundRows<'a>, NoMemory>
    ensures tuple { IfOk result (λ bound. length tuple.now ≡ length ranges.now → scope_of bound ≡ bind_tuple (ranges_of ranges.now) tuple.now (scope_of scope.now)) }
    ensures variables { IfOk result (λ bound. variables_of (scope_of bound) ≡ variables_of (scope_of scope.now) ++ ranges_of ranges.now) }
    ensures rows { IfOk result (λ bound. (t : Kept) → AreRowsOf t scope.now → AreRanges ranges.now t → AreRowsOf t bound) }
{
    let mut bound = copied_scope(alloc, scope)?;
    for (at, range) in ranges.iter().enumerate() {
        let key = item_at(tuple, at).copied();
        bound.push(BoundRow { range, key })?;
    }
    Ok(bound)
}

/// The values with missing ones behind them, for the variable of a STORE.
pub(crate) fn with_missing(alloc: Global, values: &Row, width: usize) -> Result<Row, NoMemory>
    ensures { IfOk result (λ all. all ≡ values.now ++ missing_values width) }
{
    let mut all = values.copied(alloc)?;
    all.append(missing_row(alloc, width)?)?;
    Ok(all)
}
