ghost use Rattle.std.specs.Prelude.{◌≡◌};
ghost use Rattle.lock_needs.specs.Keeping.{is_excess as exceeds};

use vms_queues::{Mode, is_at_most};

/// Whether a lock is stronger than what it has to keep.
pub fn is_excess(held: Mode, keep: Mode) -> bool
    ensures { result ≡ exceeds held keep }
{
    is_at_most(keep, held) && !is_at_most(held, keep)
}
