// Why a roll-forward stops.
ghost use Rattle.std.specs.Prelude.{◌≡◌};

use line_opening::OpeningFault;
use line_store::Fault;
use rdb_outside::Failed;
use rdb_types::{Dbkey, FileId};

/// Why a roll-forward went no further: a device call failed, memory was wanted, the group of this number is missing, the line of this key doesn't fit the page that it meets, or the slot of this number isn't what it has to be.
#[derive(Clone, Copy, Debug, PartialEq, Eq)]
pub enum RecoverFault {
    Failed,
    NoMemory,
    Gap(u64),
    Unfit(Dbkey),
    Bad(FileId, u32),
}

impl From<Failed> for RecoverFault {
    ghost use Rattle.rmu_recover.specs.declared.fault.RecoverFault.TheVariants as faults;

    ghost from_gives = { λ _ e. e ≡ faults.Failed };

    fn from(_: Failed) -> Self {
        RecoverFault::Failed
    }
}

impl From<Fault> for RecoverFault {
    ghost use Rattle.rmu_recover.specs.Faults.{of_call};

    ghost from_gives = { λ f e. e ≡ of_call f };

    fn from(fault: Fault) -> Self {
        match fault {
            Fault::Failed => RecoverFault::Failed,
            Fault::Bad(file, slot) => RecoverFault::Bad(file, slot),
        }
    }
}

impl From<OpeningFault> for RecoverFault {
    ghost use Rattle.rmu_recover.specs.Faults.{of_laying};

    ghost from_gives = { λ f e. e ≡ of_laying f };

    fn from(fault: OpeningFault) -> Self {
        match fault {
            OpeningFault::Failed => RecoverFault::Failed,
            OpeningFault::NoMemory => RecoverFault::NoMemory,
            OpeningFault::Bad(file, slot) => RecoverFault::Bad(file, slot),
        }
    }
}
