//! The order of values in conditions, where a missing value has none.
ghost use Rattle.std.specs.Prelude.{◌≡◌};
ghost use Rattle.rdb_meaning.specs.Numbers.{is};
ghost use Rattle.rdb_meaning.specs.Comparison.{order_of, passes as passes_of, compared as compared_of, within as within_of, lies_between as lies_between_of, missing_test, is_absent, weighed};
ghost use Rattle.rdo_arithmetic.specs.Answers.{Weighs, Orders, truth_of};

use crate::numbers::{GREATEST_SCALE, brought, greater};
use crate::stop::Stop;
use crate::truth::{Truth, truth_from};
use rdb_types::{Scaled, Value};
use rdo_ast::syntax::Comparison;
use std::cmp::Ordering;

/// The order of two values: numbers by value whatever their scales, texts by their bytes; none where one is missing. Neither a literal nor a field has a scale over 18: with one, the answer is `Stop::Memory`.
pub fn order(a: &Scaled, b: &Scaled) -> Result<Option<Ordering>, Stop>
    ensures { Orders result (order_of a.now b.now) }
{
    match (&a.value, &b.value) {
        (Value::Number(m), Value::Number(n)) => {
            if a.scale > GREATEST_SCALE || b.scale > GREATEST_SCALE {
                return Err(Stop::Memory);
            }
            let scale = greater(a.scale, b.scale);
            Ok(Some(brought(*m, a.scale, scale).cmp(&brought(*n, b.scale, scale))))
        }
        (Value::Text(s), Value::Text(t)) => Ok(Some(s.as_slice().cmp(&t.as_slice()))),
        _ => Ok(None),
    }
}

fn passes(op: Comparison, order: Ordering) -> bool
    ensures { result ≡ passes_of op order }
{
    match op {
        Comparison::Equal => order.is_eq(),
        Comparison::NotEqual => order.is_ne(),
        Comparison::Greater => order.is_gt(),
        Comparison::GreaterEqual => order.is_ge(),
        Comparison::Less => order.is_lt(),
        Comparison::LessEqual => order.is_le(),
    }
}

/// What a comparison says; missing where a value is missing.
pub fn compared(op: Comparison, a: &Scaled, b: &Scaled) -> Result<Truth, Stop>
    ensures { Weighs result (compared_of op (is a.now) (is b.now)) }
{
    match order(a, b)? {
        Some(order) => Ok(truth_from(passes(op, order))),
        None => Ok(Truth::Missing),
    }
}

fn within(low: Option<Ordering>, high: Option<Ordering>) -> Truth
    ensures { truth_of result ≡ within_of low high }
{
    match (low, high) {
        (Some(low), Some(high)) => truth_from(low.is_ge() && high.is_le()),
        _ => Truth::Missing,
    }
}

/// BETWEEN: missing where one of the three values is missing.
pub fn lies_between(a: &Scaled, low: &Scaled, high: &Scaled) -> Result<Truth, Stop>
    ensures { Weighs result (lies_between_of (is a.now) (is low.now) (is high.now)) }
{
    let above = order(a, low)?;
    let below = order(a, high)?;
    Ok(within(above, below))
}

/// Whether a value is missing.
pub fn is_missing(a: &Value) -> bool
    ensures { result ≡ is_absent a.now }
{
    matches!(a, Value::Missing)
}
