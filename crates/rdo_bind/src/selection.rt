//! The selection of a FOR. The names of SORTED BY and REDUCED TO are looked at behind those of its condition.
ghost use Rattle.std.specs.Prelude.{◌≡◌, map, IfOk};
ghost use Rattle.std.specs.List.{All};
ghost use Rattle.rdo_ast.specs.Views.{ranging_of};
ghost use Rattle.rdb_meaning.specs.Evaluation.{bind_sources, sources_of};
ghost use Rattle.rdb_meaning.specs.Checks.{or_else, first_refusal, reference_names, clause_names, ranging_names};
ghost use Rattle.rdb_checks.specs.Answers.{Finds};
ghost use Rattle.rdo_values.specs.Views.{ranging_of as bound_ranging_of};
ghost use Rattle.rdo_values.specs.Named.{named_ranging};
ghost use Rattle.rdo_values.specs.Rows.{variables_of};
ghost use Rattle.rdo_values.specs.Selections.{written_reference, written_key, written_clause, IsPlacedKey, IsPlacedReference, IsBoundClause, IsBoundSelection};

use crate::expression::bind_inner;
use crate::ranges::scope_behind;
use crate::reference::bind_reference;
use rdb_checks::Stop;
use rdb_meaning::{Binding, Scope, Tables};
use rdb_types::Items;
use rdo_ast::syntax::{Clause, Reference, Selection, SortKey};
use rdo_values::{BoundClause, BoundReference, BoundSelection, BoundSortKey};
use std::alloc::Global;

fn bind_keys(
    alloc: Global,
    tables: &Tables,
    scope: &[Binding],
    keys: &[SortKey],
) -> Result<Items<BoundSortKey>, Stop>
    ensures names { Finds result (first_refusal (λ k. reference_names k.reference tables.now scope.now) keys.now) }
    ensures written { IfOk result (λ bound. map written_key bound ≡ keys.now) }
    ensures bound { IfOk result (λ bound. All (IsPlacedKey tables.now (variables_of scope.now)) bound) }
{
    let mut bound = Items::new(alloc);
    for key in keys {
        let reference = bind_reference(alloc, tables, scope, &key.reference)?;
        bound.push(BoundSortKey {
            descending: key.descending,
            reference,
        })?;
    }
    Ok(bound)
}

fn bind_references(
    alloc: Global,
    tables: &Tables,
    scope: &[Binding],
    references: &[Reference],
) -> Result<Items<BoundReference>, Stop>
    ensures names { Finds result (first_refusal (λ r. reference_names r tables.now scope.now) references.now) }
    ensures written { IfOk result (λ bound. map written_reference bound ≡ references.now) }
    ensures bound { IfOk result (λ bound. All (IsPlacedReference tables.now (variables_of scope.now)) bound) }
{
    let mut bound = Items::new(alloc);
    for reference in references {
        bound.push(bind_reference(alloc, tables, scope, reference)?)?;
    }
    Ok(bound)
}

fn bind_clause(
    alloc: Global,
    tables: &Tables,
    scope: &[Binding],
    clause: &Clause,
) -> Result<BoundClause, Stop>
    ensures names { Finds result (clause_names clause.now tables.now scope.now) }
    ensures written { IfOk result (λ bound. written_clause bound ≡ clause.now) }
    ensures bound { IfOk result (λ bound. IsBoundClause tables.now (variables_of scope.now) bound) }
{
    match clause {
        Clause::Sorted(keys) => {
            let keys = bind_keys(alloc, tables, scope, keys.as_slice())?;
            Ok(BoundClause::Sorted(keys))
        }
        Clause::Reduced(references) => {
            let references = bind_references(alloc, tables, scope, references.as_slice())?;
            Ok(BoundClause::Reduced(references))
        }
    }
}

fn bind_clauses(
    alloc: Global,
    tables: &Tables,
    scope: &[Binding],
    clauses: &[Clause],
) -> Result<Items<BoundClause>, Stop>
    ensures names { Finds result (first_refusal (λ c. clause_names c tables.now scope.now) clauses.now) }
    ensures written { IfOk result (λ bound. map written_clause bound ≡ clauses.now) }
    ensures bound { IfOk result (λ bound. All (IsBoundClause tables.now (variables_of scope.now)) bound) }
{
    let mut bound = Items::new(alloc);
    for clause in clauses {
        bound.push(bind_clause(alloc, tables, scope, clause)?)?;
    }
    Ok(bound)
}

/// Binds a selection behind the row of the variables in the scope, or refuses the first name that stands for nothing or is taken.
pub fn bind_selection(
    alloc: Global,
    tables: &Tables,
    scope: &Scope,
    selection: &Selection,
) -> Result<BoundSelection, Stop>
    ensures names { Finds result (or_else (ranging_names (ranging_of selection.now.inner) tables.now scope.now)
        (first_refusal (λ c. clause_names c tables.now (bind_sources (sources_of (ranging_of selection.now.inner)) scope.now)) selection.now.clauses)) }
    ensures ranges { IfOk result (λ bound. named_ranging (bound_ranging_of bound.inner) ≡ ranging_of selection.now.inner) }
    ensures clauses { IfOk result (λ bound. map written_clause bound.clauses ≡ selection.now.clauses) }
    ensures bound { IfOk result (λ bound. IsBoundSelection bound tables.now (variables_of scope.now)) }
{
    let inner = bind_inner(alloc, tables, scope, &selection.inner)?;
    let within = scope_behind(alloc, scope, selection.inner.ranges.as_slice())?;
    let clauses = bind_clauses(
        alloc,
        tables,
        within.as_slice(),
        selection.clauses.as_slice(),
    )?;
    Ok(BoundSelection { inner, clauses })
}
