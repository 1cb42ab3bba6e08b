// The status of a command that gave up.
ghost use Rattle.std.specs.Prelude.{◌≡◌};
ghost use Rattle.rmu_keeping.specs.Keeping.{status_at};

use line_opening::OpeningFault;

/// 3 where a device call failed, 4 where a slot isn't what it has to be, 5 where memory was wanted.
pub(crate) fn status_of(fault: OpeningFault) -> u8
    ensures { result ≡ status_at fault }
{
    match fault {
        OpeningFault::Failed => 3,
        OpeningFault::Bad(_, _) => 4,
        OpeningFault::NoMemory => 5,
    }
}
