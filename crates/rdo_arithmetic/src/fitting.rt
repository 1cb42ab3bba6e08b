ghost use Rattle.std.specs.Prelude.{◌≡◌, ◌≤◌};
ghost use Rattle.rdb_types.specs.declared.values.Value.TheVariants.{Number as ValueNumber};
ghost use Rattle.rdb_meaning.specs.Numbers.{fits_bits, rescaled as rescaled_to, magnitude_bits, fitted, fitted_value};
ghost use Rattle.rdo_arithmetic.specs.Answers.{Fits};

use crate::numbers::{GREATEST_SCALE, brought, is_quadword, power_of_ten};
use crate::stop::Misfit;
use rdb_types::{DataType, FieldType, Scaled, Value};

/// The number that a field of this scale keeps: digits past it are dropped towards zero.
fn rescaled(n: i64, from: u8, to: u8) -> i128
    requires left { from ≤ 18 }
    requires right { to ≤ 18 }
    ensures { result ≡ rescaled_to n from to }
{
    if from <= to {
        brought(n, from, to)
    } else {
        i128::from(n) / power_of_ten(from - to)
    }
}

fn fits_word(n: i128) -> bool
    ensures { result ≡ fits_bits 15 n }
{
    n >= -32_768 && n <= 32_767
}

fn fits_longword(n: i128) -> bool
    ensures { result ≡ fits_bits 31 n }
{
    n >= -2_147_483_648 && n <= 2_147_483_647
}

fn fits_field(kind: FieldType, n: i128) -> bool
    ensures { result ≡ fits_bits (magnitude_bits kind) n }
{
    match kind.kind {
        DataType::Word => fits_word(n),
        DataType::Longword => fits_longword(n),
        DataType::Quadword | DataType::Text => is_quadword(n),
    }
}

fn fit_number(kind: FieldType, n: i64, scale: u8) -> Result<Value, Misfit>
    requires left { scale ≤ 18 }
    requires right { kind.scale ≤ 18 }
    ensures { Fits result (fitted_value kind (ValueNumber n) scale) }
{
    let kept = rescaled(n, scale, kind.scale);
    if fits_field(kind, kept) {
        Ok(Value::Number(kept as i64))
    } else {
        Err(Misfit::Overflow)
    }
}

/// What a field of this type keeps of a value: a number at the field's scale, digits past it dropped towards zero. No value and no field has a scale over 18: with one, the answer is `Misfit::Memory`.
pub fn fit(kind: &FieldType, scaled: Scaled) -> Result<Value, Misfit>
    ensures { Fits result (fitted kind.now scaled) }
{
    match scaled.value {
        Value::Missing => Ok(Value::Missing),
        Value::Number(n) => {
            if scaled.scale > GREATEST_SCALE || kind.scale > GREATEST_SCALE {
                return Err(Misfit::Memory);
            }
            fit_number(*kind, n, scaled.scale)
        }
        Value::Text(text) => {
            if text.len() <= kind.size as usize {
                Ok(Value::Text(text))
            } else {
                Err(Misfit::TooLong)
            }
        }
    }
}
