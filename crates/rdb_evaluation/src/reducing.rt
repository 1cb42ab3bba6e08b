//! REDUCED TO: of the tuples that agree in the fields only the first stays.
ghost use Rattle.std.specs.Prelude.{◌≡◌, ◌++◌, map, IfOk};
ghost use Rattle.rdb_meaning.specs.Selecting.{is_reduced as is_reduced_by, reduced_fields, reduced_tuples, without_repeats as without_repeats_of};
ghost use Rattle.rdb_evaluation.specs.Crossing.{AreOver};
ghost use Rattle.rdb_evaluation.specs.Sorting.{value_read};
ghost use Rattle.rdo_arithmetic.specs.Reducing.{read_alike};

use crate::binding::{opened, rebind};
use crate::reading::read_value;
use crate::tuples::{Tuples, push_if};
use rdb_meaning::{Binding, Tables};
use rdb_types::{Items, Keys, NoMemory, Row};
use rdo_arithmetic::ReducedValues;
use rdo_ast::syntax::{Clause, Range, Reference};
use std::alloc::Global;
use std::collections::BTreeSet;

fn is_reduced(clauses: &[Clause]) -> bool
    ensures { result ≡ is_reduced_by clauses.now }
{
    for clause in clauses {
        if let Clause::Reduced(_) = clause {
            return true;
        }
    }
    false
}

fn push_reads(
    values: &mut Row,
    alloc: Global,
    tables: &Tables,
    scope: &[Binding],
    references: &[Reference],
) -> Result<(), NoMemory>
    ensures { IfOk result (λ _. values.new ≡ values.old ++ map (value_read tables.now scope.now) references.now) }
{
    for reference in references {
        values.push(read_value(alloc, tables, scope, reference)?)?;
    }
    Ok(())
}

/// What the fields of REDUCED TO read.
fn reduced_values(
    alloc: Global,
    tables: &Tables,
    scope: &[Binding],
    clauses: &[Clause],
) -> Result<Row, NoMemory>
    ensures { IfOk result (λ values. values ≡ map (value_read tables.now scope.now) (reduced_fields clauses.now)) }
{
    let mut values = Items::new(alloc);
    for clause in clauses {
        if let Clause::Reduced(references) = clause {
            push_reads(&mut values, alloc, tables, scope, references.as_slice())?;
        }
    }
    Ok(values)
}

/// Of the tuples that read the same values only the first, each in its place.
fn without_repeats(
    alloc: Global,
    tables: &Tables,
    scope: &[Binding],
    ranges: &[Range],
    clauses: &[Clause],
    tuples: &[Keys],
) -> Result<Tuples, NoMemory>
    requires { AreOver ranges.now tuples.now }
    ensures { IfOk result (λ kept. kept ≡ without_repeats_of (read_alike clauses.now ranges.now tables.now scope.now) tuples.now) }
{
    let mut seen = BTreeSet::new(alloc);
    let mut kept = Items::new(alloc);
    let mut bound = opened(alloc, scope, ranges)?;
    for tuple in tuples {
        rebind(&mut bound, scope.len(), tuple.as_slice());
        let values = reduced_values(alloc, tables, bound.as_slice(), clauses)?;
        let first = seen.insert(ReducedValues { values })?;
        push_if(first, &mut kept, alloc, tuple)?;
    }
    Ok(kept)
}

/// The tuples as REDUCED TO leaves them.
pub(crate) fn reduced(
    alloc: Global,
    tables: &Tables,
    scope: &[Binding],
    ranges: &[Range],
    clauses: &[Clause],
    tuples: Tuples,
) -> Result<Tuples, NoMemory>
    requires { AreOver ranges.now tuples }
    ensures { IfOk result (λ reduced. reduced ≡ reduced_tuples clauses.now ranges.now tables.now scope.now tuples) }
{
    if is_reduced(clauses) {
        without_repeats(alloc, tables, scope, ranges, clauses, tuples.as_slice())
    } else {
        Ok(tuples)
    }
}
