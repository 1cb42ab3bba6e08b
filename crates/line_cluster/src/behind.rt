//! What is done behind a step.
ghost use Rattle.std.specs.Prelude.{◌≡◌, false, true};
ghost use Rattle.line_cluster.specs.Behind.{IsNoticed, halt_behind, is_moving, tells_slot, tells_unsound};
ghost use Rattle.line_cluster.specs.Deaths.{faults_in};
ghost use Rattle.line_cluster.specs.Sound.{is_over_slot, is_unsound};
ghost use Rattle.line_cluster.specs.declared.behind.Notice.{Notice as NoticeValue};

use crate::sessions::Halt;
use line_account::Happening;
use line_store::Fault;
use rdb_types::{Node, Session};
use vms_queues::Mode;

/// A notice that a session's want found due: a lock of this session at the node is stronger than it has to be.
#[derive(Clone, Copy)]
pub struct Notice {
    pub to: Session,
    pub node: Node,
    pub mode: Mode,
}

/// What is done behind a step.
#[derive(Clone, Copy)]
pub enum Behind {
    Nothing,
    Serve(Notice),
    /// A device call failed: the session dies.
    Die,
    Stop(Halt),
}

// What is done once a call of the store failed so.
fn behind_fault(fault: Fault) -> Behind
    ensures nothing { result ≡ Behind.Nothing → ⊥ }
    ensures serve { (notice : NoticeValue) → result ≡ Behind.Serve notice → ⊥ }
    ensures die { result ≡ Behind.Die → fault ≡ Fault.Failed }
    ensures stop { faults_in (halt_behind result) ≡ 0 }
    ensures unsound { is_unsound (halt_behind result) ≡ false }
    ensures slot { is_over_slot (halt_behind result) ≡ tells_slot (Happening.Failed fault) }
{
    match fault {
        Fault::Failed => Behind::Die,
        Fault::Bad(file, slot) => Behind::Stop(Halt::Device(Fault::Bad(file, slot))),
    }
}

/// What is done once this happened.
pub(crate) fn behind_of(happened: &Happening) -> Behind
    ensures nothing { result ≡ Behind.Nothing → is_moving happened.now ≡ true }
    ensures serve { (notice : NoticeValue) → result ≡ Behind.Serve notice → IsNoticed notice happened.now }
    ensures die { result ≡ Behind.Die → happened.now ≡ Happening.Failed Fault.Failed }
    ensures stop { faults_in (halt_behind result) ≡ 0 }
    ensures unsound { is_unsound (halt_behind result) ≡ tells_unsound happened.now }
    ensures slot { is_over_slot (halt_behind result) ≡ tells_slot happened.now }
{
    match happened {
        Happening::Noticed(to, node, mode, _) => Behind::Serve(Notice {
            to: Session { number: *to },
            node: *node,
            mode: *mode,
        }),
        Happening::Failed(fault) => behind_fault(*fault),
        Happening::Unlaid(key) => Behind::Stop(Halt::Unlaid(*key)),
        Happening::Unworked | Happening::Unanswered(_) => Behind::Stop(Halt::Unworked),
        Happening::Unsound(key) => Behind::Stop(Halt::Unsound(*key)),
        _ => Behind::Nothing,
    }
}
