ghost use Rattle.std.specs.Prelude.{◌≡◌};

use journal_passing::AijFault;
use line_moves::{Fault, aij_file};
use rdb_outside::Failed;
use rdb_types::FileId;

/// Why a reading of an opening that keeps what it finds in memory went no further: a device call failed, memory was wanted, or the slot of this number isn't what it has to be.
#[derive(Clone, Copy, Debug, PartialEq, Eq)]
pub enum OpeningFault {
    Failed,
    NoMemory,
    Bad(FileId, u32),
}

impl From<Failed> for OpeningFault {
    ghost use Rattle.line_opening.specs.declared.fault.OpeningFault.TheVariants as faults;

    ghost from_gives = { λ _ e. e ≡ faults.Failed };

    fn from(_: Failed) -> Self {
        OpeningFault::Failed
    }
}

impl From<Fault> for OpeningFault {
    ghost use Rattle.line_opening.specs.Faults.{of_call};

    ghost from_gives = { λ f e. e ≡ of_call f };

    fn from(fault: Fault) -> Self {
        match fault {
            Fault::Failed => OpeningFault::Failed,
            Fault::Bad(file, slot) => OpeningFault::Bad(file, slot),
        }
    }
}

impl From<AijFault> for OpeningFault {
    ghost use Rattle.line_opening.specs.Faults.{of_journal};

    ghost from_gives = { λ f e. e ≡ of_journal f };

    fn from(fault: AijFault) -> Self {
        match fault {
            AijFault::Failed => OpeningFault::Failed,
            AijFault::NoMemory => OpeningFault::NoMemory,
            AijFault::BadHeader => OpeningFault::Bad(aij_file(), 0),
        }
    }
}
