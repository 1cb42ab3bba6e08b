ghost use Rattle.std.specs.Prelude.{◌≡◌, ◌*◌};

use lent_values::Answer;

/// A square, and of which number it is.
#[derive(Drop)]
pub struct Square {
    pub of: u32,
    pub square: u64,
    ghost right: { square ≡ of * of },
}

impl Answer<u32> for Square {
    ghost asked = { λ s. s.of };

    fn of(value: u32) -> Square {
        Square {
            of: value,
            square: value as u64 * value as u64,
        }
    }
}
