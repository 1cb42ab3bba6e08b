ghost use Rattle.std.specs.Prelude.{◌≡◌};
ghost use Rattle.rdo_arithmetic.specs.declared.stop.Stop.TheVariants.{Memory};

use rdb_types::NoMemory;
use std::alloc::AllocError;

/// Why no value came of an expression or a condition.
#[derive(Clone, Copy, Debug, PartialEq, Eq)]
pub enum Stop {
    /// A result is outside 64 bits, or has more than 18 digits after the point.
    Overflow,
    Memory,
}

impl From<NoMemory> for Stop {
    ghost from_gives = { λ _ stop. stop ≡ Memory };

    fn from(_e: NoMemory) -> Stop {
        Stop::Memory
    }
}

impl From<AllocError> for Stop {
    ghost from_gives = { λ _ stop. stop ≡ Memory };

    fn from(_e: AllocError) -> Stop {
        Stop::Memory
    }
}

/// Why a field keeps no value.
#[derive(Clone, Copy, Debug, PartialEq, Eq)]
pub enum Misfit {
    /// The number is outside the bits of the field.
    Overflow,
    /// The text is longer than the field's size.
    TooLong,
    Memory,
}
