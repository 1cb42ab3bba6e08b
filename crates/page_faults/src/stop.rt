ghost use Rattle.std.specs.Prelude.{◌≡◌};

use rdb_outside::Failed;
use rdb_types::NoMemory;
use std::alloc::AllocError;

/// Why a verification or a dump went no further: a device call failed, or memory was wanted.
#[derive(Clone, Copy, Debug, PartialEq, Eq)]
pub enum RmuStop {
    Failed,
    NoMemory,
}

impl From<Failed> for RmuStop {
    ghost use Rattle.page_faults.specs.declared.stop.RmuStop.TheVariants as stops;

    ghost from_gives = { λ _ e. e ≡ stops.Failed };

    fn from(_: Failed) -> Self {
        RmuStop::Failed
    }
}

impl From<AllocError> for RmuStop {
    ghost use Rattle.page_faults.specs.declared.stop.RmuStop.TheVariants as stops;

    ghost from_gives = { λ _ e. e ≡ stops.NoMemory };

    fn from(_: AllocError) -> Self {
        RmuStop::NoMemory
    }
}

impl From<NoMemory> for RmuStop {
    ghost use Rattle.page_faults.specs.declared.stop.RmuStop.TheVariants as stops;

    ghost from_gives = { λ _ e. e ≡ stops.NoMemory };

    fn from(_: NoMemory) -> Self {
        RmuStop::NoMemory
    }
}
