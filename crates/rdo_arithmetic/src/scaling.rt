//! The scales of fields' values and of operations' results.
ghost use Rattle.std.specs.Prelude.{◌≡◌, ◌≤◌, min};
ghost use Rattle.rdb_meaning.specs.Numbers.{is};
ghost use Rattle.rdb_meaning.specs.Evaluation.{scaled_by, scale_by};
ghost use Rattle.rdo_arithmetic.specs.Answers.{Gives};

use crate::numbers::GREATEST_SCALE;
use crate::operate::absent;
use crate::stop::Stop;
use rdb_types::{Copied, FieldType, Scaled, Value};
use rdo_ast::syntax::Arithmetic;
use std::alloc::Global;

/// A value with its field's scale, which is 0 for a text and for a missing value.
pub fn scaled(alloc: Global, kind: &FieldType, value: &Value) -> Result<Scaled, Stop>
    ensures { Gives result (is (scaled_by kind.now value.now)) }
{
    match value {
        Value::Missing => Ok(absent()),
        Value::Number(n) => Ok(Scaled {
            value: Value::Number(*n),
            scale: kind.scale,
        }),
        Value::Text(text) => Ok(Scaled {
            value: Value::Text(text.copied(alloc)?),
            scale: 0,
        }),
    }
}

/// The scale, or 19 for any past the greatest: no result has one.
pub fn capped(scale: u8) -> u8
    ensures { result ≡ min scale 19 }
{
    if scale > GREATEST_SCALE {
        GREATEST_SCALE + 1
    } else {
        scale
    }
}

/// The scale of an operation's result by the scales of its operands, or 19 for any past the greatest.
pub fn operated_scale(op: Arithmetic, s: u8, t: u8) -> u8
    requires left { s ≤ 19 }
    requires right { t ≤ 19 }
    ensures { result ≡ min (scale_by op s t) 19 }
{
    match op {
        Arithmetic::Times => capped(s + t),
        Arithmetic::Plus | Arithmetic::Minus => { if s < t { t } else { s } }
    }
}
