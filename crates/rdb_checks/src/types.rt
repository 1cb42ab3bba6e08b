ghost use Rattle.std.specs.Prelude.{◌≡◌, ◌&&◌, ◌||◌, map, IfOk};
ghost use Rattle.rdo_ast.specs.Views.{expression_of, applied_of, operations_of, testing_of, conjunction_of, condition_of, ranging_of};
ghost use Rattle.rdb_meaning.specs.Evaluation.{referred, with_behind};
ghost use Rattle.rdb_meaning.specs.Checks.{is_text_place, is_textual, differ, expression_clashes, operations_clash, testing_clashes, conjunction_clashes, condition_clashes, with_clashes, ranging_clashes};

use crate::scopes::scope_with_ranges;
use rdb_meaning::{FieldAt, Scope, Tables, binding_of, field_of};
use rdb_types::{DataType, NoMemory};
use rdo_ast::syntax::{
    Condition, Conjunction, Expression, Inner, Operation, Reference, Statistic, Test,
};
use std::alloc::Global;

/// Whether a reference names a field of texts.
pub fn is_text_field(tables: &Tables, scope: &Scope, reference: &Reference) -> bool
    ensures { result ≡ is_text_place (referred reference.now tables.now scope.now) }
{
    let Some(binding) = binding_of(scope.as_slice(), &reference.variable) else {
        return false;
    };
    let Some(relation) = tables.relation(&binding.relation) else {
        return false;
    };
    match field_of(relation.fields.as_slice(), &reference.field) {
        Some(FieldAt { place: _, field }) => field.kind.kind == DataType::Text,
        None => false,
    }
}

/// Whether an expression's values are texts.
pub fn is_textual(
    alloc: Global,
    tables: &Tables,
    scope: &Scope,
    expression: &Expression,
) -> Result<bool, NoMemory>
    ensures { IfOk result
        (λ textual. textual ≡ is_textual (expression_of expression.now) tables.now scope.now) }
{
    match expression {
        Expression::Text(_) => Ok(true),
        Expression::Field(reference) => Ok(is_text_field(tables, scope, reference)),
        Expression::Statistic(Statistic::Minimum | Statistic::Maximum, operand, inner) => {
            let bound = scope_with_ranges(alloc, scope, inner.get().ranges.as_slice())?;
            is_textual(alloc, tables, &bound, operand.get())
        }
        Expression::Statistic(Statistic::Total, _, _)
        | Expression::Number(_, _)
        | Expression::Negative(_)
        | Expression::Chain(_, _)
        | Expression::Count(_) => Ok(false),
    }
}

/// Whether one of two expressions is a text and the other a number.
fn kinds_differ(
    alloc: Global,
    tables: &Tables,
    scope: &Scope,
    left: &Expression,
    right: &Expression,
) -> Result<bool, NoMemory>
    ensures { IfOk result (λ differing. differing ≡ differ
        (is_textual (expression_of left.now) tables.now scope.now)
        (is_textual (expression_of right.now) tables.now scope.now)) }
{
    let left_is_text = is_textual(alloc, tables, scope, left)?;
    let right_is_text = is_textual(alloc, tables, scope, right)?;
    Ok(left_is_text != right_is_text)
}

fn are_texts(
    alloc: Global,
    tables: &Tables,
    scope: &Scope,
    left: &Expression,
    right: &Expression,
) -> Result<bool, NoMemory>
    ensures { IfOk result (λ textual. textual
        ≡ (is_textual (expression_of left.now) tables.now scope.now
        && is_textual (expression_of right.now) tables.now scope.now)) }
{
    Ok(is_textual(alloc, tables, scope, left)? && is_textual(alloc, tables, scope, right)?)
}

/// Whether a text stands in the expression where a number is wanted, or a number where a text is.
#[cycle(expression_types)]
pub fn expression_clashes(
    alloc: Global,
    tables: &Tables,
    scope: &Scope,
    expression: &Expression,
) -> Result<bool, NoMemory>
    ensures { IfOk result
        (λ clashing. clashing ≡ expression_clashes (expression_of expression.now) tables.now scope.now) }
{
    match expression {
        Expression::Number(_, _) | Expression::Text(_) | Expression::Field(_) => Ok(false),
        Expression::Negative(operand) => number_clashes(alloc, tables, scope, operand.get()),
        Expression::Chain(first, operations) => {
            Ok(
                number_clashes(alloc, tables, scope, first.get())?
                    || operations_clash(alloc, tables, scope, operations.as_slice())?,
            )
        }
        Expression::Count(inner) => inner_clashes(alloc, tables, scope, inner.get()),
        Expression::Statistic(statistic, operand, inner) => {
            let inner = inner.get();
            let bound = scope_with_ranges(alloc, scope, inner.ranges.as_slice())?;
            let clashing = match statistic {
                Statistic::Total => number_clashes(alloc, tables, &bound, operand.get())?,
                Statistic::Minimum | Statistic::Maximum => {
                    expression_clashes(alloc, tables, &bound, operand.get())?
                }
            };
            Ok(clashing || with_clashes(alloc, tables, &bound, inner)?)
        }
    }
}

/// Whether an expression clashes where a number is wanted.
#[cycle(expression_types)]
fn number_clashes(
    alloc: Global,
    tables: &Tables,
    scope: &Scope,
    expression: &Expression,
) -> Result<bool, NoMemory>
    ensures { IfOk result (λ clashing. clashing
        ≡ (expression_clashes (expression_of expression.now) tables.now scope.now
        || is_textual (expression_of expression.now) tables.now scope.now)) }
{
    Ok(
        expression_clashes(alloc, tables, scope, expression)?
            || is_textual(alloc, tables, scope, expression)?,
    )
}

#[cycle(expression_types)]
fn operations_clash(
    alloc: Global,
    tables: &Tables,
    scope: &Scope,
    operations: &[Operation],
) -> Result<bool, NoMemory>
    ensures { IfOk result (λ clashing. clashing
        ≡ operations_clash (operations_of (map applied_of operations.now)) tables.now scope.now) }
{
    for operation in operations {
        if number_clashes(alloc, tables, scope, &operation.operand)? {
            return Ok(true);
        }
    }
    Ok(false)
}

#[cycle(expression_types)]
fn test_clashes(
    alloc: Global,
    tables: &Tables,
    scope: &Scope,
    test: &Test,
) -> Result<bool, NoMemory>
    ensures { IfOk result
        (λ clashing. clashing ≡ testing_clashes (testing_of test.now) tables.now scope.now) }
{
    match test {
        Test::Compare(_, left, right) => {
            Ok(
                expression_clashes(alloc, tables, scope, left)?
                    || expression_clashes(alloc, tables, scope, right)?
                    || kinds_differ(alloc, tables, scope, left, right)?,
            )
        }
        Test::Between(operand, low, high) => {
            Ok(
                expression_clashes(alloc, tables, scope, operand)?
                    || expression_clashes(alloc, tables, scope, low)?
                    || expression_clashes(alloc, tables, scope, high)?
                    || kinds_differ(alloc, tables, scope, operand, low)?
                    || kinds_differ(alloc, tables, scope, operand, high)?,
            )
        }
        Test::Containing(left, right) | Test::StartingWith(left, right) => {
            Ok(
                expression_clashes(alloc, tables, scope, left)?
                    || expression_clashes(alloc, tables, scope, right)?
                    || !are_texts(alloc, tables, scope, left, right)?,
            )
        }
        Test::Missing(operand) => expression_clashes(alloc, tables, scope, operand),
        Test::Any(inner) => inner_clashes(alloc, tables, scope, inner.get()),
        Test::Not(negated) => test_clashes(alloc, tables, scope, negated.get()),
        Test::Group(condition) => condition_clashes(alloc, tables, scope, condition.get()),
    }
}

#[cycle(expression_types)]
fn conjunction_clashes(
    alloc: Global,
    tables: &Tables,
    scope: &Scope,
    conjunction: &Conjunction,
) -> Result<bool, NoMemory>
    ensures { IfOk result (λ clashing. clashing
        ≡ conjunction_clashes (conjunction_of conjunction.now) tables.now scope.now) }
{
    for test in conjunction.tests.as_slice() {
        if test_clashes(alloc, tables, scope, test)? {
            return Ok(true);
        }
    }
    Ok(false)
}

#[cycle(expression_types)]
fn condition_clashes(
    alloc: Global,
    tables: &Tables,
    scope: &Scope,
    condition: &Condition,
) -> Result<bool, NoMemory>
    ensures { IfOk result
        (λ clashing. clashing ≡ condition_clashes (condition_of condition.now) tables.now scope.now) }
{
    for conjunction in condition.conjunctions.as_slice() {
        if conjunction_clashes(alloc, tables, scope, conjunction)? {
            return Ok(true);
        }
    }
    Ok(false)
}

/// Whether the condition behind ranges clashes, where their variables are bound.
#[cycle(expression_types)]
pub fn with_clashes(
    alloc: Global,
    tables: &Tables,
    scope: &Scope,
    inner: &Inner,
) -> Result<bool, NoMemory>
    ensures { IfOk result
        (λ clashing. clashing ≡ with_clashes (with_behind (ranging_of inner.now)) tables.now scope.now) }
{
    match &inner.condition {
        Some(condition) => condition_clashes(alloc, tables, scope, condition.get()),
        None => Ok(false),
    }
}

#[cycle(expression_types)]
fn inner_clashes(
    alloc: Global,
    tables: &Tables,
    scope: &Scope,
    inner: &Inner,
) -> Result<bool, NoMemory>
    ensures { IfOk result
        (λ clashing. clashing ≡ ranging_clashes (ranging_of inner.now) tables.now scope.now) }
{
    let bound = scope_with_ranges(alloc, scope, inner.ranges.as_slice())?;
    with_clashes(alloc, tables, &bound, inner)
}
