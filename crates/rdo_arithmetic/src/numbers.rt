//! Sums, differences and products of numbers with their scales. 128 bits hold each of them, since two operands have at most 18 digits after the point.
ghost use Rattle.std.specs.Prelude.{◌≡◌, ◌^◌, ◌≤◌, max, pos, neg_ℤ, unsigned_abs};
ghost use Rattle.rdo_ast.specs.declared.syntax.Arithmetic.TheVariants.{Plus, Minus, Times};
ghost use Rattle.rdb_meaning.specs.Numbers.{fits_bits, result as result_of, brought, combined};
ghost use Rattle.rdo_arithmetic.specs.Answers.{Gives};

use crate::stop::Stop;
use rdb_types::{Scaled, Value};
use rdo_ast::syntax::Arithmetic;

/// How many digits may stand after the point of a result.
pub const GREATEST_SCALE: u8 = 18;

/// 10 to the power n.
pub(crate) fn power_of_ten(n: u8) -> i128
    requires { n ≤ 18 }
    ensures { result ≡ pos (10 ^ n) }
{
    i128::from(10u64.pow(u32::from(n)))
}

/// The same number with more digits after the point. It is within 123 bits.
pub(crate) fn brought(n: i64, from: u8, to: u8) -> i128
    requires within { to ≤ 18 }
    requires rising { from ≤ to }
    ensures value { result ≡ brought n from to }
    ensures small { unsigned_abs result ≤ 2 ^ 123 }
{
    i128::from(n) * power_of_ten(to - from)
}

/// Whether the number is from -(2^63) to 2^63 - 1.
pub(crate) fn is_quadword(n: i128) -> bool
    ensures { result ≡ fits_bits 63 n }
{
    n >= -9_223_372_036_854_775_808 && n <= 9_223_372_036_854_775_807
}

/// A result, which must fit 64 bits and have at most 18 digits after the point.
pub fn result(n: i128, scale: u8) -> Result<Scaled, Stop>
    ensures { Gives result (result_of n scale) }
{
    if is_quadword(n) && scale <= GREATEST_SCALE {
        Ok(Scaled {
            value: Value::Number(n as i64),
            scale,
        })
    } else {
        Err(Stop::Overflow)
    }
}

pub(crate) fn greater(s: u8, t: u8) -> u8
    ensures { result ≡ max s t }
{
    if s < t { t } else { s }
}

fn sum(m: i64, s: u8, n: i64, t: u8) -> Result<Scaled, Stop>
    requires left { s ≤ 18 }
    requires right { t ≤ 18 }
    ensures { Gives result (combined Plus m s n t) }
{
    let scale = greater(s, t);
    let sum = brought(m, s, scale) + brought(n, t, scale);
    result(sum, scale)
}

fn difference(m: i64, s: u8, n: i64, t: u8) -> Result<Scaled, Stop>
    requires left { s ≤ 18 }
    requires right { t ≤ 18 }
    ensures { Gives result (combined Minus m s n t) }
{
    let scale = greater(s, t);
    let difference = brought(m, s, scale) - brought(n, t, scale);
    result(difference, scale)
}

fn product(m: i64, s: u8, n: i64, t: u8) -> Result<Scaled, Stop>
    requires left { s ≤ 18 }
    requires right { t ≤ 18 }
    ensures { Gives result (combined Times m s n t) }
{
    result(i128::from(m) * i128::from(n), s + t)
}

/// A sum or difference at the greater scale, or a product at the sum of the scales.
pub(crate) fn combined(op: Arithmetic, m: i64, s: u8, n: i64, t: u8) -> Result<Scaled, Stop>
    requires left { s ≤ 18 }
    requires right { t ≤ 18 }
    ensures { Gives result (combined op m s n t) }
{
    match op {
        Arithmetic::Plus => sum(m, s, n, t),
        Arithmetic::Minus => difference(m, s, n, t),
        Arithmetic::Times => product(m, s, n, t),
    }
}

/// The number with the other sign.
pub(crate) fn negative(n: i64, scale: u8) -> Result<Scaled, Stop>
    ensures { Gives result (result_of (neg_ℤ n) scale) }
{
    result(-i128::from(n), scale)
}
