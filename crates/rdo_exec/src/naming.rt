// Whether an action names a relation, and so reads the catalog.
ghost use Rattle.std.specs.Prelude.{◌≡◌, true, false, map, []};
ghost use Rattle.rdo_ast.specs.Views.{expression_of, applied_of, operations_of, testing_of, conjunction_of, condition_of, ranging_of, shown_of, act_of};
ghost use Rattle.rdb_meaning.specs.Checks.{expression_uses, operations_uses, testing_uses, conjunction_uses, condition_uses, ranging_uses, source_uses, shown_uses, act_uses};
ghost use Rattle.rdb_meaning.specs.Evaluation.{sources_of};
ghost use Rattle.rdo_exec.specs.Ways.{names_any, is_bare, HasNoRange};

use rdo_ast::syntax::{
    Action, Condition, Conjunction, Expression, Inner, Operation, PrintItem, Range, Test,
};

#[cycle(naming)]
fn expression_names(expression: &Expression) -> bool
    ensures { result ≡ names_any (expression_uses (expression_of expression.now)) }
{
    match expression {
        Expression::Number(_, _) | Expression::Text(_) | Expression::Field(_) => false,
        Expression::Negative(operand) => expression_names(operand.get()),
        Expression::Chain(first, operations) => {
            expression_names(first.get()) || operations_name(operations.as_slice())
        }
        Expression::Count(inner) => inner_names(inner.get()),
        Expression::Statistic(_, operand, inner) => {
            expression_names(operand.get()) || inner_names(inner.get())
        }
    }
}

#[cycle(naming)]
fn operations_name(operations: &[Operation]) -> bool
    ensures { result ≡ names_any (operations_uses (operations_of (map applied_of operations.now))) }
{
    for operation in operations {
        if expression_names(&operation.operand) {
            return true;
        }
    }
    false
}

#[cycle(naming)]
fn test_names(test: &Test) -> bool
    ensures { result ≡ names_any (testing_uses (testing_of test.now)) }
{
    match test {
        Test::Compare(_, left, right)
        | Test::Containing(left, right)
        | Test::StartingWith(left, right) => expression_names(left) || expression_names(right),
        Test::Between(operand, low, high) => {
            expression_names(operand) || expression_names(low) || expression_names(high)
        }
        Test::Missing(operand) => expression_names(operand),
        Test::Any(inner) => inner_names(inner.get()),
        Test::Not(negated) => test_names(negated.get()),
        Test::Group(condition) => condition_names(condition.get()),
    }
}

#[cycle(naming)]
fn conjunction_names(conjunction: &Conjunction) -> bool
    ensures { result ≡ names_any (conjunction_uses (conjunction_of conjunction.now)) }
{
    for test in conjunction.tests.as_slice() {
        if test_names(test) {
            return true;
        }
    }
    false
}

#[cycle(naming)]
fn condition_names(condition: &Condition) -> bool
    ensures { result ≡ names_any (condition_uses (condition_of condition.now)) }
{
    for conjunction in condition.conjunctions.as_slice() {
        if conjunction_names(conjunction) {
            return true;
        }
    }
    false
}

fn has_ranges(ranges: &[Range]) -> bool
    ensures { result ≡ names_any (source_uses ranges.now) }
{
    !ranges.is_empty()
}

#[cycle(naming)]
fn inner_names(inner: &Inner) -> bool
    ensures { result ≡ names_any (ranging_uses (ranging_of inner.now)) }
{
    if has_ranges(inner.ranges.as_slice()) {
        return true;
    }
    match &inner.condition {
        Some(condition) => condition_names(condition.get()),
        None => false,
    }
}

fn is_ranging(inner: &Inner) -> bool
    ensures named { result ≡ true → names_any (ranging_uses (ranging_of inner.now)) ≡ true }
    ensures ranges { result ≡ false → names_any (source_uses (sources_of (ranging_of inner.now))) ≡ false }
{
    has_ranges(inner.ranges.as_slice())
}

fn items_name(items: &[PrintItem]) -> bool
    ensures { result ≡ names_any (shown_uses (map shown_of items.now)) }
{
    for item in items {
        match item {
            PrintItem::Value(expression) if expression_names(expression) => return true,
            _ => {}
        }
    }
    false
}

/// Whether an action that isn't bare names a relation. No script has a FOR or a statistic without a range.
pub(crate) fn names_relation(action: &Action) -> bool
    ensures named { result ≡ true → names_any (act_uses (act_of action.now) []) ≡ true }
    ensures ranges { result ≡ false → is_bare (act_of action.now) ≡ false → HasNoRange (act_of action.now) }
{
    match action {
        Action::Print(items) => items_name(items.as_slice()),
        Action::Store(_, _) => true,
        Action::For(selection, _) => is_ranging(&selection.inner),
        Action::Modify(_, _) | Action::Erase(_) => false,
    }
}
