// Sessions that were stopped, and what a disk that is watched tells of them.
ghost use Rattle.std.specs.Prelude.{◌≡◌, ◌⊎◌, true, None, Some};
ghost use Rattle.workload_runs.specs.Statuses.{stopped_status};

use line_runs::Halt;
use line_store::Fault;

/// The status of sessions that were stopped: 3 where a device call failed, 4 over a slot or a line that is none of its kind, else 5.
pub fn status_of_halt(halt: Option<Halt>) -> u8
    ensures same { result ≡ stopped_status halt }
    ensures status { (result ≡ 3) ⊎ (result ≡ 4) ⊎ (result ≡ 5) }
    ensures device { result ≡ 3 → halt ≡ Some (Halt.Device Fault.Failed) }
{
    match halt {
        Some(Halt::Device(Fault::Failed)) => 3,
        Some(Halt::Device(Fault::Bad(_, _))) => 4,
        Some(Halt::Unsound(_)) => 4,
        _ => 5,
    }
}

/// Why sessions were stopped, over a disk that was watched. That a device call failed is told where the watch saw one. (Where one stopped them it did.)
pub fn seen(halt: Option<Halt>, has_failed: bool) -> Option<Halt>
    ensures halt { (result ≡ halt) ⊎ (result ≡ None) }
    ensures failed { result ≡ Some (Halt.Device Fault.Failed) → has_failed ≡ true }
    ensures other { (halt ≡ Some (Halt.Device Fault.Failed) → ⊥) → result ≡ halt }
{
    match halt {
        Some(Halt::Device(Fault::Failed)) if !has_failed => None,
        _ => halt,
    }
}
