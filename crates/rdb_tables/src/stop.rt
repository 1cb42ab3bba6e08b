ghost use Rattle.std.specs.Prelude.{◌≡◌};

use rdb_types::{Chars, NoMemory};
use rdo_arithmetic::{Misfit, Stop as EvaluationStop};
use std::alloc::AllocError;

/// Why an action ends before it is done.
#[derive(Drop)]
pub enum Stop {
    Overflow,
    TooLong,
    /// Another row has the key of a unique index.
    Duplicate(Chars),
    Memory,
}

impl From<NoMemory> for Stop {
    ghost use Rattle.rdb_tables.specs.declared.stop.Stop.TheVariants.{Memory};

    ghost from_gives = { λ _ e. e ≡ Memory };

    fn from(_e: NoMemory) -> Stop {
        Stop::Memory
    }
}

impl From<AllocError> for Stop {
    ghost use Rattle.rdb_tables.specs.declared.stop.Stop.TheVariants.{Memory};

    ghost from_gives = { λ _ e. e ≡ Memory };

    fn from(_e: AllocError) -> Stop {
        Stop::Memory
    }
}

impl From<EvaluationStop> for Stop {
    ghost use Rattle.rdb_tables.specs.Causes.{of_evaluation};

    ghost from_gives = { λ s e. e ≡ of_evaluation s };

    fn from(stop: EvaluationStop) -> Stop {
        match stop {
            EvaluationStop::Overflow => Stop::Overflow,
            EvaluationStop::Memory => Stop::Memory,
        }
    }
}

impl From<Misfit> for Stop {
    ghost use Rattle.rdb_tables.specs.Causes.{of_fitting};

    ghost from_gives = { λ s e. e ≡ of_fitting s };

    fn from(stop: Misfit) -> Stop {
        match stop {
            Misfit::Overflow => Stop::Overflow,
            Misfit::TooLong => Stop::TooLong,
            Misfit::Memory => Stop::Memory,
        }
    }
}
