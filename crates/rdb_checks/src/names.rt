ghost use Rattle.std.specs.Prelude.{◌≡◌, map, IfOk};
ghost use Rattle.rdo_ast.specs.Views.{expression_of, applied_of, operations_of, testing_of, conjunction_of, condition_of, ranging_of};
ghost use Rattle.rdb_meaning.specs.Evaluation.{bound_as, bind_sources, with_behind};
ghost use Rattle.rdb_meaning.specs.Checks.{needs_some, reference_names, source_names, sources_names, expression_names, operations_names, testing_names, conjunction_names, condition_names, with_names, ranging_names};
ghost use Rattle.rdb_checks.specs.Answers.{Finds};

use crate::stop::{Stop, exists, no_such};
use rdb_meaning::{Binding, FieldAt, Scope, Tables, binding_of, field_of};
use rdb_types::{Chars, Copied};
use rdo_ast::syntax::{
    Condition, Conjunction, Expression, Inner, Operation, Range, Reference, Test,
};
use std::alloc::Global;

/// Refuses a variable that isn't bound.
pub fn check_variable_name(alloc: Global, scope: &Scope, variable: &Chars) -> Result<(), Stop>
    ensures { Finds result (needs_some variable.now (bound_as variable.now scope.now)) }
{
    match binding_of(scope.as_slice(), variable) {
        Some(_) => Ok(()),
        None => no_such(alloc, variable),
    }
}

/// Refuses a variable that isn't bound, and then a field that its relation hasn't.
pub fn check_reference_names(
    alloc: Global,
    tables: &Tables,
    scope: &Scope,
    reference: &Reference,
) -> Result<(), Stop>
    ensures { Finds result (reference_names reference.now tables.now scope.now) }
{
    let Some(binding) = binding_of(scope.as_slice(), &reference.variable) else {
        return no_such(alloc, &reference.variable);
    };
    let Some(relation) = tables.relation(&binding.relation) else {
        return no_such(alloc, &reference.field);
    };
    match field_of(relation.fields.as_slice(), &reference.field) {
        Some(FieldAt { place: _, field: _ }) => Ok(()),
        None => no_such(alloc, &reference.field),
    }
}

/// Refuses a variable that is bound already, and then a relation that isn't there.
pub fn check_range_names(
    alloc: Global,
    tables: &Tables,
    scope: &Scope,
    range: &Range,
) -> Result<(), Stop>
    ensures { Finds result (source_names range.now tables.now scope.now) }
{
    if binding_of(scope.as_slice(), &range.variable).is_some() {
        return exists(alloc, &range.variable);
    }
    match tables.relation(&range.relation) {
        Some(_) => Ok(()),
        None => no_such(alloc, &range.relation),
    }
}

/// The scope with the variables of the ranges, whose names are checked.
pub fn checked_scope(
    alloc: Global,
    tables: &Tables,
    scope: &Scope,
    ranges: &[Range],
) -> Result<Scope, Stop>
    ensures names { Finds result (sources_names ranges.now tables.now scope.now) }
    ensures scope { IfOk result (λ bound. bound ≡ bind_sources ranges.now scope.now) }
{
    let mut bound = scope.copied(alloc)?;
    for range in ranges {
        check_range_names(alloc, tables, &bound, range)?;
        bound.push(Binding::of(alloc, range, None)?)?;
    }
    Ok(bound)
}

#[cycle(expression_names)]
pub fn check_expression_names(
    alloc: Global,
    tables: &Tables,
    scope: &Scope,
    expression: &Expression,
) -> Result<(), Stop>
    ensures { Finds result (expression_names (expression_of expression.now) tables.now scope.now) }
{
    match expression {
        Expression::Number(_, _) | Expression::Text(_) => Ok(()),
        Expression::Field(reference) => check_reference_names(alloc, tables, scope, reference),
        Expression::Negative(operand) => {
            check_expression_names(alloc, tables, scope, operand.get())
        }
        Expression::Chain(first, operations) => {
            check_expression_names(alloc, tables, scope, first.get())?;
            check_operations_names(alloc, tables, scope, operations.as_slice())
        }
        Expression::Count(inner) => check_inner_names(alloc, tables, scope, inner.get()),
        Expression::Statistic(_, operand, inner) => {
            let inner = inner.get();
            let bound = checked_scope(alloc, tables, scope, inner.ranges.as_slice())?;
            check_expression_names(alloc, tables, &bound, operand.get())?;
            check_with_names(alloc, tables, &bound, inner)
        }
    }
}

#[cycle(expression_names)]
fn check_operations_names(
    alloc: Global,
    tables: &Tables,
    scope: &Scope,
    operations: &[Operation],
) -> Result<(), Stop>
    ensures { Finds result
        (operations_names (operations_of (map applied_of operations.now)) tables.now scope.now) }
{
    for operation in operations {
        check_expression_names(alloc, tables, scope, &operation.operand)?;
    }
    Ok(())
}

#[cycle(expression_names)]
fn check_test_names(alloc: Global, tables: &Tables, scope: &Scope, test: &Test) -> Result<(), Stop>
    ensures { Finds result (testing_names (testing_of test.now) tables.now scope.now) }
{
    match test {
        Test::Compare(_, left, right)
        | Test::Containing(left, right)
        | Test::StartingWith(left, right) => {
            check_expression_names(alloc, tables, scope, left)?;
            check_expression_names(alloc, tables, scope, right)
        }
        Test::Between(operand, low, high) => {
            check_expression_names(alloc, tables, scope, operand)?;
            check_expression_names(alloc, tables, scope, low)?;
            check_expression_names(alloc, tables, scope, high)
        }
        Test::Missing(operand) => check_expression_names(alloc, tables, scope, operand),
        Test::Any(inner) => check_inner_names(alloc, tables, scope, inner.get()),
        Test::Not(negated) => check_test_names(alloc, tables, scope, negated.get()),
        Test::Group(condition) => check_condition_names(alloc, tables, scope, condition.get()),
    }
}

#[cycle(expression_names)]
fn check_conjunction_names(
    alloc: Global,
    tables: &Tables,
    scope: &Scope,
    conjunction: &Conjunction,
) -> Result<(), Stop>
    ensures { Finds result (conjunction_names (conjunction_of conjunction.now) tables.now scope.now) }
{
    for test in conjunction.tests.as_slice() {
        check_test_names(alloc, tables, scope, test)?;
    }
    Ok(())
}

#[cycle(expression_names)]
fn check_condition_names(
    alloc: Global,
    tables: &Tables,
    scope: &Scope,
    condition: &Condition,
) -> Result<(), Stop>
    ensures { Finds result (condition_names (condition_of condition.now) tables.now scope.now) }
{
    for conjunction in condition.conjunctions.as_slice() {
        check_conjunction_names(alloc, tables, scope, conjunction)?;
    }
    Ok(())
}

/// Checks the condition behind ranges whose variables are bound.
#[cycle(expression_names)]
pub fn check_with_names(
    alloc: Global,
    tables: &Tables,
    scope: &Scope,
    inner: &Inner,
) -> Result<(), Stop>
    ensures { Finds result (with_names (with_behind (ranging_of inner.now)) tables.now scope.now) }
{
    match &inner.condition {
        Some(condition) => check_condition_names(alloc, tables, scope, condition.get()),
        None => Ok(()),
    }
}

#[cycle(expression_names)]
fn check_inner_names(
    alloc: Global,
    tables: &Tables,
    scope: &Scope,
    inner: &Inner,
) -> Result<(), Stop>
    ensures { Finds result (ranging_names (ranging_of inner.now) tables.now scope.now) }
{
    let bound = checked_scope(alloc, tables, scope, inner.ranges.as_slice())?;
    check_with_names(alloc, tables, &bound, inner)
}
