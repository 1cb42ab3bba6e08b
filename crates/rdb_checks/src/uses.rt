ghost use Rattle.std.specs.Prelude.{◌≡◌, map, false};
ghost use Rattle.rdo_ast.specs.Views.{expression_of, applied_of, operations_of, testing_of, conjunction_of, condition_of, ranging_of};
ghost use Rattle.rdb_meaning.specs.Evaluation.{with_behind};
ghost use Rattle.rdb_meaning.specs.Checks.{use_of, reserved_for};
ghost use Rattle.rdb_checks.specs.Answers.{Finds};
ghost use Rattle.rdb_checks.specs.Unreserved.{use_unreserved, ranges_unreserved, expression_unreserved, operations_unreserved, testing_unreserved, conjunction_unreserved, condition_unreserved, with_unreserved, ranging_unreserved};

use crate::stop::{Stop, not_reserved};
use rdb_meaning::same_name;
use rdb_types::Chars;
use rdo_ast::syntax::{
    Condition, Conjunction, Expression, Inner, Operation, Range, Reservation, Test,
};
use std::alloc::Global;

/// Whether a relation is reserved, for WRITE where it is to be changed.
fn is_reserved(reservations: &[Reservation], relation: &Chars, changes: bool) -> bool
    ensures { result ≡ reserved_for reservations.now (use_of changes relation.now) }
{
    for reservation in reservations {
        if same_name(&reservation.relation, relation) && (reservation.writes || !changes) {
            return true;
        }
    }
    false
}

/// Refuses a relation that isn't reserved, or not for WRITE where it is to be changed.
pub fn check_use(
    alloc: Global,
    reservations: &[Reservation],
    relation: &Chars,
    changes: bool,
) -> Result<(), Stop>
    ensures { Finds result (use_unreserved reservations.now (use_of changes relation.now)) }
{
    if is_reserved(reservations, relation, changes) {
        Ok(())
    } else {
        not_reserved(alloc, relation)
    }
}

fn check_ranges_uses(
    alloc: Global,
    reservations: &[Reservation],
    ranges: &[Range],
) -> Result<(), Stop>
    ensures { Finds result
        (ranges_unreserved reservations.now ranges.now) }
{
    for range in ranges {
        check_use(alloc, reservations, &range.relation, false)?;
    }
    Ok(())
}

#[cycle(expression_uses)]
pub fn check_expression_uses(
    alloc: Global,
    reservations: &[Reservation],
    expression: &Expression,
) -> Result<(), Stop>
    ensures { Finds result
        (expression_unreserved reservations.now (expression_of expression.now)) }
{
    match expression {
        Expression::Number(_, _) | Expression::Text(_) | Expression::Field(_) => Ok(()),
        Expression::Negative(operand) => check_expression_uses(alloc, reservations, operand.get()),
        Expression::Chain(first, operations) => {
            check_expression_uses(alloc, reservations, first.get())?;
            check_operations_uses(alloc, reservations, operations.as_slice())
        }
        Expression::Count(inner) => check_inner_uses(alloc, reservations, inner.get()),
        Expression::Statistic(_, operand, inner) => {
            check_expression_uses(alloc, reservations, operand.get())?;
            check_inner_uses(alloc, reservations, inner.get())
        }
    }
}

#[cycle(expression_uses)]
fn check_operations_uses(
    alloc: Global,
    reservations: &[Reservation],
    operations: &[Operation],
) -> Result<(), Stop>
    ensures { Finds result (operations_unreserved reservations.now (operations_of (map applied_of operations.now))) }
{
    for operation in operations {
        check_expression_uses(alloc, reservations, &operation.operand)?;
    }
    Ok(())
}

#[cycle(expression_uses)]
fn check_test_uses(alloc: Global, reservations: &[Reservation], test: &Test) -> Result<(), Stop>
    ensures { Finds result
        (testing_unreserved reservations.now (testing_of test.now)) }
{
    match test {
        Test::Compare(_, left, right)
        | Test::Containing(left, right)
        | Test::StartingWith(left, right) => {
            check_expression_uses(alloc, reservations, left)?;
            check_expression_uses(alloc, reservations, right)
        }
        Test::Between(operand, low, high) => {
            check_expression_uses(alloc, reservations, operand)?;
            check_expression_uses(alloc, reservations, low)?;
            check_expression_uses(alloc, reservations, high)
        }
        Test::Missing(operand) => check_expression_uses(alloc, reservations, operand),
        Test::Any(inner) => check_inner_uses(alloc, reservations, inner.get()),
        Test::Not(negated) => check_test_uses(alloc, reservations, negated.get()),
        Test::Group(condition) => check_condition_uses(alloc, reservations, condition.get()),
    }
}

#[cycle(expression_uses)]
fn check_conjunction_uses(
    alloc: Global,
    reservations: &[Reservation],
    conjunction: &Conjunction,
) -> Result<(), Stop>
    ensures { Finds result
        (conjunction_unreserved reservations.now (conjunction_of conjunction.now)) }
{
    for test in conjunction.tests.as_slice() {
        check_test_uses(alloc, reservations, test)?;
    }
    Ok(())
}

#[cycle(expression_uses)]
fn check_condition_uses(
    alloc: Global,
    reservations: &[Reservation],
    condition: &Condition,
) -> Result<(), Stop>
    ensures { Finds result
        (condition_unreserved reservations.now (condition_of condition.now)) }
{
    for conjunction in condition.conjunctions.as_slice() {
        check_conjunction_uses(alloc, reservations, conjunction)?;
    }
    Ok(())
}

#[cycle(expression_uses)]
fn check_with_uses(alloc: Global, reservations: &[Reservation], inner: &Inner) -> Result<(), Stop>
    ensures { Finds result
        (with_unreserved reservations.now (with_behind (ranging_of inner.now))) }
{
    match &inner.condition {
        Some(condition) => check_condition_uses(alloc, reservations, condition.get()),
        None => Ok(()),
    }
}

#[cycle(expression_uses)]
pub fn check_inner_uses(
    alloc: Global,
    reservations: &[Reservation],
    inner: &Inner,
) -> Result<(), Stop>
    ensures { Finds result
        (ranging_unreserved reservations.now (ranging_of inner.now)) }
{
    check_ranges_uses(alloc, reservations, inner.ranges.as_slice())?;
    check_with_uses(alloc, reservations, inner)
}
