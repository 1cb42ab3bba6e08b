//! Whether a form asks another selection: a statistic or an ANY is in it, or what was once known of one.
ghost use Rattle.std.specs.Prelude.{◌≡◌, map};
ghost use Rattle.rdo_values.specs.Views.{expression_of, operations_of, applied_of, testing_of, conjunction_of, condition_of, conjunction_with, condition_with};
ghost use Rattle.rdo_select.specs.Asking.{asks, operations_ask as operations_ask_of, test_asks as test_asks_of, tests_ask as tests_ask_of, condition_asks as condition_asks_of};

use rdo_values::{BoundCondition, BoundConjunction, BoundExpression, BoundOperation, BoundTest};

#[cycle(expressions)]
fn expression_asks(expr: &BoundExpression) -> bool
    ensures { result ≡ asks (expression_of expr.now) }
{
    match expr {
        BoundExpression::Number(_, _) | BoundExpression::Text(_) | BoundExpression::Field(_) => {
            false
        }
        BoundExpression::Negative(operand) => expression_asks(operand.get()),
        BoundExpression::Chain(first, operations) => {
            expression_asks(first.get()) || operations_ask(operations.as_slice())
        }
        BoundExpression::Count(_)
        | BoundExpression::Statistic(_, _, _)
        | BoundExpression::Known(_, _) => true,
    }
}

#[cycle(expressions)]
fn operations_ask(operations: &[BoundOperation]) -> bool
    ensures { result ≡ operations_ask_of (operations_of (map applied_of operations.now)) }
{
    for operation in operations {
        if expression_asks(&operation.operand) {
            return true;
        }
    }
    false
}

#[cycle(conditions)]
fn test_asks(test: &BoundTest) -> bool
    ensures { result ≡ test_asks_of (testing_of test.now) }
{
    match test {
        BoundTest::Compare(_, a, b) | BoundTest::Containing(a, b) | BoundTest::StartingWith(a, b) =>
            expression_asks(a) || expression_asks(b),
        BoundTest::Between(a, low, high) => {
            expression_asks(a) || expression_asks(low) || expression_asks(high)
        }
        BoundTest::Missing(operand) => expression_asks(operand),
        BoundTest::Any(_) | BoundTest::Decided(_, _) => true,
        BoundTest::Not(test) => test_asks(test.get()),
        BoundTest::Group(condition) => conjunctions_ask(condition.get().conjunctions.as_slice()),
    }
}

#[cycle(conditions)]
fn tests_ask(tests: &[BoundTest]) -> bool
    ensures { result ≡ tests_ask_of (conjunction_with (map testing_of tests.now)) }
{
    for test in tests {
        if test_asks(test) {
            return true;
        }
    }
    false
}

#[cycle(conditions)]
fn conjunctions_ask(conjunctions: &[BoundConjunction]) -> bool
    ensures { result ≡ condition_asks_of (condition_with (map conjunction_of conjunctions.now)) }
{
    for conjunction in conjunctions {
        if tests_ask(conjunction.tests.as_slice()) {
            return true;
        }
    }
    false
}

/// Whether a condition asks another selection.
pub(crate) fn condition_asks(condition: &BoundCondition) -> bool
    ensures { result ≡ condition_asks_of (condition_of condition.now) }
{
    conjunctions_ask(condition.conjunctions.as_slice())
}
