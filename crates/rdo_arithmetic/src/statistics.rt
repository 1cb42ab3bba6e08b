//! TOTAL, MIN and MAX over values.
ghost use Rattle.std.specs.Prelude.{◌≡◌, ◌≤◌, ◌^◌, ℕ, min, unsigned_abs};
ghost use Rattle.rdb_meaning.specs.Numbers.{is};
ghost use Rattle.rdb_meaning.specs.Comparison.{order_of};
ghost use Rattle.rdb_meaning.specs.Evaluation.{number_of as number_in, sum_of, better as better_of, extreme as extreme_of, of_gathered};
ghost use Rattle.rdo_arithmetic.specs.Answers.{Gives, prefers};

use crate::compare::{is_missing, order};
use crate::numbers::result;
use crate::operate::absent;
use crate::stop::Stop;
use rdb_types::{Items, Scaled, Value};
use rdo_ast::syntax::Statistic;
use std::cmp::Ordering;

/// A number, or 0 for a missing value.
fn number_of(value: &Value) -> i128
    ensures value { result ≡ number_in value.now }
    ensures small { unsigned_abs result ≤ 2 ^ 63 }
{
    match value {
        Value::Number(n) => i128::from(*n),
        _ => 0,
    }
}

/// The sum of the numbers. 128 bits hold it, as many as there are.
fn total(values: &[Scaled]) -> i128
    ensures { result ≡ sum_of values.now }
{
    let mut sum: i128 = 0;
    for value in values {
        sum += number_of(&value.value);
    }
    sum
}

fn is_preferred(greatest: bool, order: Ordering) -> bool
    ensures { result ≡ prefers greatest order }
{
    if greatest {
        order.is_gt()
    } else {
        order.is_lt()
    }
}

/// Of the best value behind and one before it: the first of equals, and no missing one where there is another.
fn better(greatest: bool, best: Scaled, value: Scaled) -> Result<Scaled, Stop>
    ensures { Gives result (is (better_of (prefers greatest) best value (order_of best value))) }
{
    let keeps = match order(&best, &value)? {
        Some(order) => is_preferred(greatest, order),
        None => !is_missing(&best.value),
    };
    if keeps { Ok(best) } else { Ok(value) }
}

/// The first value that none beats, missing where there is none.
#[tactic(auto, using(crate::proofs::Extremes::bests))]
fn extreme(greatest: bool, values: Items<Scaled>) -> Result<Scaled, Stop>
    ensures { Gives result (is (extreme_of (prefers greatest) values)) }
{
    let mut values = values;
    let mut best = absent();
    while let Some(value) = values.pop() {
        best = better(greatest, best, value)?;
    }
    Ok(best)
}

/// A statistic of values at an expression's scale, of which any past 18 is as good as 19.
pub fn statistic(kind: Statistic, scale: u8, values: Items<Scaled>) -> Result<Scaled, Stop>
    ensures { (s : ℕ) → scale ≡ min s 19 → Gives result (of_gathered kind s values) }
{
    match kind {
        Statistic::Total => result(total(values.as_slice()), scale),
        Statistic::Minimum => extreme(false, values),
        Statistic::Maximum => extreme(true, values),
    }
}
