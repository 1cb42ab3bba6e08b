//! REDUCED TO: of the found tuples that agree in the fields only the first stays.
ghost use Rattle.std.specs.Prelude.{◌≡◌, ◌++◌, map, IfOk};
ghost use Rattle.rdb_meaning.specs.Selecting.{is_reduced as is_reduced_by, without_repeats as without_repeats_of};
ghost use Rattle.rdo_arithmetic.specs.Reducing.{kept_if};
ghost use Rattle.rdo_values.specs.Selections.{written_clause};
ghost use Rattle.rdo_select.specs.Ordered.{value_in, reduced_row, found_alike, reduced_found};

use crate::crossing::{Found, FoundTuples};
use rdb_types::{Copied, Items, NoMemory, Row, Value};
use rdo_arithmetic::ReducedValues;
use rdo_values::{BoundClause, BoundReference};
use std::alloc::Global;
use std::collections::BTreeSet;

fn is_reduced(clauses: &[BoundClause]) -> bool
    ensures { result ≡ is_reduced_by (map written_clause clauses.now) }
{
    for clause in clauses {
        if let BoundClause::Reduced(_) = clause {
            return true;
        }
    }
    false
}

/// The value at a reference's place, a missing one where there is none.
fn value_at(alloc: Global, row: &[Value], reference: &BoundReference) -> Result<Value, NoMemory>
    ensures { IfOk result (λ value. value ≡ value_in row.now reference.now) }
{
    match row.get(reference.place) {
        Some(value) => value.copied(alloc),
        None => Ok(Value::Missing),
    }
}

fn push_values(
    values: &mut Row,
    alloc: Global,
    row: &[Value],
    references: &[BoundReference],
) -> Result<(), NoMemory>
    ensures { IfOk result (λ _. values.new ≡ values.old ++ map (value_in row.now) references.now) }
{
    for reference in references {
        values.push(value_at(alloc, row, reference)?)?;
    }
    Ok(())
}

/// The values of the fields of REDUCED TO.
fn values_of(alloc: Global, clauses: &[BoundClause], row: &[Value]) -> Result<Row, NoMemory>
    ensures { IfOk result (λ values. values ≡ reduced_row clauses.now row.now) }
{
    let mut values = Items::new(alloc);
    for clause in clauses {
        if let BoundClause::Reduced(references) = clause {
            push_values(&mut values, alloc, row, references.as_slice())?;
        }
    }
    Ok(values)
}

/// Keeps a tuple that is wanted.
pub(crate) fn push_if(
    first: bool,
    kept: &mut FoundTuples,
    alloc: Global,
    found: &Found,
) -> Result<(), NoMemory>
    ensures { IfOk result (λ _. kept.new ≡ kept_if first kept.old found.now) }
{
    if first {
        let tuple = found.tuple.copied(alloc)?;
        let row = found.row.copied(alloc)?;
        kept.push(Found { tuple, row })?;
    }
    Ok(())
}

/// Of the tuples with the same values only the first, each in its place.
fn without_repeats(
    alloc: Global,
    clauses: &[BoundClause],
    found: &[Found],
) -> Result<FoundTuples, NoMemory>
    ensures { IfOk result (λ kept. kept ≡ without_repeats_of (found_alike clauses.now) found.now) }
{
    let mut seen = BTreeSet::new(alloc);
    let mut kept = Items::new(alloc);
    for tuple in found {
        let values = values_of(alloc, clauses, tuple.row.as_slice())?;
        let first = seen.insert(ReducedValues { values })?;
        push_if(first, &mut kept, alloc, tuple)?;
    }
    Ok(kept)
}

/// The tuples as REDUCED TO leaves them.
pub(crate) fn reduced(
    alloc: Global,
    clauses: &[BoundClause],
    found: FoundTuples,
) -> Result<FoundTuples, NoMemory>
    ensures { IfOk result (λ reduced. reduced ≡ reduced_found clauses.now found) }
{
    if is_reduced(clauses) {
        without_repeats(alloc, clauses, found.as_slice())
    } else {
        Ok(found)
    }
}
