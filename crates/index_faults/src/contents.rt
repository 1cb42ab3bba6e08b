// What an index holds, compared with the rows of its relation.
ghost use Rattle.std.specs.Prelude.{◌≡◌, ℕ, List, true, false, length, IfOk, IfSome, IfNone};
ghost use Rattle.std.specs.List.{AllByRecursion};
ghost use Rattle.std.specs.Ordering.{is_eq};
ghost use Rattle.rdb_types.specs.declared.keys.Dbkey.{Dbkey as Place};
ghost use Rattle.rdb_types.specs.Order.{row_order as row_order_of};
ghost use Rattle.rdb_meaning.specs.Contents.{Row as RowOf, key_of as key_at};
ghost use Rattle.line_view.specs.Knowledge.{Lines, IsInOrder, Agrees};
ghost use Rattle.relation_rows.specs.Stored.{IsAreaKnown};
ghost use Rattle.std.specs.List.Sorted.{IsStrictlySortedBy};
ghost use Rattle.index_node.specs.Order.{entry_order};
ghost use Rattle.index_faults.specs.Contents.{IsPairAt, keys_differ_from as keys_differ_from_of, keys_differ as keys_differ_of, HasTheRows, HoldsRows};

use catalog_lines::IndexLine;
use index_node::NodeEntry;
use line_faults::row_faults;
use line_view::{Stop, View};
use rdb_types::{Keys, NoMemory, Value, row_order};
use relation_rows::{StoredRelation, row};
use std::alloc::Global;
use stored_rows::key_of;

/// What a comparison of an index with its rows says. It isn't judged where the relation has lines that are no rows of it.
#[derive(Clone, Copy, Debug, PartialEq, Eq)]
pub enum Judgement {
    Holds,
    Differs,
    Unjudged,
}

fn has_key(
    alloc: Global,
    positions: &[u16],
    row: &[Value],
    pair: &NodeEntry,
) -> Result<bool, NoMemory>
    ensures { IfOk result (λ same. same ≡ is_eq (row_order_of pair.now.key (key_at positions.now row.now))) }
{
    let key = key_of(alloc, positions, row)?;
    Ok(row_order(pair.key.as_slice(), key.as_slice()).is_eq())
}

// Whether a pair is that of a row.
fn pair_stands<V: View>(
    alloc: Global,
    view: &V,
    relation: &StoredRelation<'_>,
    positions: &[u16],
    pair: &NodeEntry,
) -> Result<bool, NoMemory>
    ensures yes { IfOk result (λ stands. stands ≡ true → IsPairAt (V.knows view.now) relation.now positions.now pair.now) }
    ensures no { IfOk result (λ stands. stands ≡ false → IsPairAt (V.knows view.now) relation.now positions.now pair.now → ⊥) }
{
    if pair.child.is_some() || pair.row.area != relation.area {
        return Ok(false);
    }
    match row(alloc, view, relation, pair.row) {
        Ok(Some(row)) => has_key(alloc, positions, row.as_slice(), pair),
        Ok(None) => Ok(false),
        Err(Stop::Bad(_)) => Ok(false),
        Err(Stop::Missing(_)) => Ok(false),
        Err(Stop::NoMemory) => Err(NoMemory {}),
    }
}

fn all_stand<V: View>(
    alloc: Global,
    view: &V,
    relation: &StoredRelation<'_>,
    positions: &[u16],
    pairs: &[NodeEntry],
) -> Result<bool, NoMemory>
    ensures yes { IfOk result (λ stand. stand ≡ true
        → AllByRecursion (IsPairAt (V.knows view.now) relation.now positions.now) pairs.now) }
    ensures no { IfOk result (λ stand. stand ≡ false
        → AllByRecursion (IsPairAt (V.knows view.now) relation.now positions.now) pairs.now → ⊥) }
{
    for pair in pairs {
        if !pair_stands(alloc, view, relation, positions, pair)? {
            return Ok(false);
        }
    }
    Ok(true)
}

fn keys_differ_from(first: &NodeEntry, rest: &[NodeEntry]) -> bool
    ensures { result ≡ keys_differ_from_of first.now rest.now }
{
    let mut before = first;
    for pair in rest {
        if row_order(before.key.as_slice(), pair.key.as_slice()).is_eq() {
            return false;
        }
        before = pair;
    }
    true
}

fn keys_differ(pairs: &[NodeEntry]) -> bool
    ensures { result ≡ keys_differ_of pairs.now }
{
    match pairs {
        [] => true,
        [first, rest @ ..] => keys_differ_from(first, rest),
    }
}

fn is_unique(index: &IndexLine, pairs: &[NodeEntry]) -> bool
    ensures yes { result ≡ true → index.now.unique ≡ true → keys_differ_of pairs.now ≡ true }
    ensures no { result ≡ false → (index.now.unique ≡ true) × (keys_differ_of pairs.now ≡ false) }
{
    !index.unique || keys_differ(pairs)
}

// How many rows the relation has, where each line of its area is one. No row stays in memory.
fn count_rows<V: View>(
    alloc: Global,
    view: &V,
    relation: &StoredRelation<'_>,
) -> Result<Option<usize>, NoMemory>
    requires { IsAreaKnown (V.knows view.now) relation.now.area }
    ensures some { IfOk result (λ counted. IfSome counted (λ count. (all : Lines) → IsInOrder all → Agrees (V.knows view.now) all
        → (rows : List (Place × RowOf)) → HasTheRows relation.now all rows → count ≡ length rows)) }
    ensures none { IfOk result (λ counted. IfNone counted ((all : Lines) → IsInOrder all → Agrees (V.knows view.now) all
        → (rows : List (Place × RowOf)) → HasTheRows relation.now all rows → ⊥)) }
{
    let mut faults = Keys::new(alloc);
    row_faults(alloc, view, relation, &mut faults)?;
    if !faults.is_empty() {
        return Ok(None);
    }
    match view.area(relation.area) {
        Some(keys) => Ok(Some(keys.len())),
        None => unreachable!(),
    }
}

/// Compares the pairs of an index, in their order, with the rows of its relation, in a view that knows the relation's area. The index holds exactly a pair for each row, and where it is unique no two of one key, or it differs.
pub fn judge_contents<V: View>(
    alloc: Global,
    view: &V,
    relation: &StoredRelation<'_>,
    index: &IndexLine,
    pairs: &[NodeEntry],
) -> Result<Judgement, NoMemory>
    requires { IsAreaKnown (V.knows view.now) relation.now.area }
    ensures holds { IfOk result (λ judged. judged ≡ Judgement.Holds → (all : Lines) → IsInOrder all → Agrees (V.knows view.now) all
        → (rows : List (Place × RowOf)) → HasTheRows relation.now all rows → IsStrictlySortedBy entry_order pairs.now → HoldsRows index.now.fields index.now.unique pairs.now rows) }
    ensures differs { IfOk result (λ judged. judged ≡ Judgement.Differs → (all : Lines) → IsInOrder all → Agrees (V.knows view.now) all
        → (rows : List (Place × RowOf)) → HasTheRows relation.now all rows → IsStrictlySortedBy entry_order pairs.now → HoldsRows index.now.fields index.now.unique pairs.now rows → ⊥) }
    ensures unjudged { IfOk result (λ judged. judged ≡ Judgement.Unjudged → (all : Lines) → IsInOrder all → Agrees (V.knows view.now) all
        → (rows : List (Place × RowOf)) → HasTheRows relation.now all rows → ⊥) }
{
    let Some(count) = count_rows(alloc, view, relation)? else {
        return Ok(Judgement::Unjudged);
    };
    if count != pairs.len() {
        return Ok(Judgement::Differs);
    }
    if !all_stand(alloc, view, relation, index.fields.as_slice(), pairs)? {
        return Ok(Judgement::Differs);
    }
    if !is_unique(index, pairs) {
        return Ok(Judgement::Differs);
    }
    Ok(Judgement::Holds)
}
