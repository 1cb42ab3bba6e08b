ghost use Rattle.std.specs.Prelude.{◌≡◌};
ghost use Rattle.rdb_meaning.specs.Numbers.{is, absent as absent_value, arithmetic as arithmetic_of, negation};
ghost use Rattle.rdo_arithmetic.specs.Answers.{Gives};

use crate::numbers::{GREATEST_SCALE, combined, negative};
use crate::stop::Stop;
use rdb_types::{Scaled, Value};
use rdo_ast::syntax::Arithmetic;

/// A missing value.
pub fn absent() -> Scaled
    ensures { result ≡ absent_value }
{
    Scaled {
        value: Value::Missing,
        scale: 0,
    }
}

/// A sum, a difference or a product; missing where an operand is missing. Neither a literal nor a field has a scale over 18: with one, the answer is `Stop::Memory`.
pub fn arithmetic(op: Arithmetic, a: &Scaled, b: &Scaled) -> Result<Scaled, Stop>
    ensures { Gives result (arithmetic_of op (is a.now) (is b.now)) }
{
    match (&a.value, &b.value) {
        (Value::Number(m), Value::Number(n)) => {
            if a.scale > GREATEST_SCALE || b.scale > GREATEST_SCALE {
                return Err(Stop::Memory);
            }
            combined(op, *m, a.scale, *n, b.scale)
        }
        _ => Ok(absent()),
    }
}

/// The number with the other sign; missing where it is missing.
pub fn negated(a: &Scaled) -> Result<Scaled, Stop>
    ensures { Gives result (negation (is a.now)) }
{
    match a.value {
        Value::Number(n) => negative(n, a.scale),
        _ => Ok(absent()),
    }
}
