// Accounts of runs, one behind another.
ghost use Rattle.std.specs.Prelude.{◌≡◌, ◌∷◌, ◌⊎◌, [], None};

use line_runs::Halt;
use rdb_account::Events;
use rdb_types::Items;
use std::alloc::Global;

/// How runs ended: with 0, or with a status before their time, and why the sessions of the last one were stopped, if they were.
#[derive(Clone, Copy, Debug)]
pub(crate) struct RunEnd {
    pub status: u8,
    pub halt: Option<Halt>,
}

impl RunEnd {
    /// No session was stopped.
    pub(crate) fn of(status: u8) -> RunEnd
        ensures status { result.status ≡ status }
        ensures halt { result.halt ≡ None }
    {
        RunEnd { status, halt: None }
    }
}

/// What runs came to: the accounts of those that were begun, in their order, and how they ended.
#[derive(Drop)]
pub(crate) struct Runs<D: Drop> {
    pub disk: D,
    pub accounts: Items<Events>,
    pub status: u8,
    pub halt: Option<Halt>,
}

/// Runs of which none was begun.
pub(crate) fn none_begun<D: Drop>(alloc: Global, disk: D, status: u8) -> Runs<D>
    ensures disk { result.disk ≡ disk }
    ensures accounts { result.accounts ≡ [] }
    ensures status { result.status ≡ status }
    ensures halt { result.halt ≡ None }
{
    Runs {
        disk,
        accounts: Items::new(alloc),
        status,
        halt: None,
    }
}

/// One account, with this status and this stop; none for want of memory.
pub(crate) fn one_run<D: Drop>(
    alloc: Global,
    disk: D,
    events: Events,
    status: u8,
    halt: Option<Halt>,
) -> Runs<D>
    ensures disk { result.disk ≡ disk }
    ensures accounts { ((result.accounts ≡ events ∷ []) × (result.status ≡ status))
        ⊎ ((result.accounts ≡ []) × (result.status ≡ 5)) }
    ensures halt { ((result.halt ≡ halt) × (result.status ≡ status))
        ⊎ ((result.halt ≡ None) × (result.status ≡ 5)) }
{
    let mut accounts = Items::new(alloc);
    match accounts.push(events) {
        Ok(()) => Runs {
            disk,
            accounts,
            status,
            halt,
        },
        Err(_) => none_begun(alloc, disk, 5),
    }
}

/// The account of a run in front of those of the runs behind it; none for want of memory.
pub(crate) fn in_front<D: Drop>(alloc: Global, events: Events, behind: Runs<D>) -> Runs<D>
    ensures disk { result.disk ≡ behind.disk }
    ensures accounts { ((result.accounts ≡ events ∷ behind.accounts) × (result.status ≡ behind.status))
        ⊎ ((result.accounts ≡ []) × (result.status ≡ 5)) }
    ensures halt { ((result.halt ≡ behind.halt) × (result.status ≡ behind.status))
        ⊎ ((result.halt ≡ None) × (result.status ≡ 5)) }
{
    let Runs {
        disk,
        accounts: more,
        status,
        halt,
    } = behind;
    let mut accounts = Items::new(alloc);
    let is_full = accounts.push(events).is_err() || accounts.append(more).is_err();
    if is_full {
        none_begun(alloc, disk, 5)
    } else {
        Runs {
            disk,
            accounts,
            status,
            halt,
        }
    }
}
