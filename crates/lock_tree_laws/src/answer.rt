use lock_needs::{Node, OpenWant};
use vms_locks::Cycle;
use vms_queues::Mode;

/// What a want is answered.
#[derive(Debug, Drop)]
pub enum Want {
    /// The owner has got the need.
    Got,
    /// This owner's lock at the node is in the way of the mode, and stronger than it has to be. Nothing was asked there yet.
    NoticeTo(u32, Node, Mode),
    /// The want waits for this owner, and for others perhaps.
    Asleep(u32),
    /// The want would wait for this owner, and wasn't to wait. It has ended.
    Conflict(u32),
    /// If the want waited, it would close this cycle of waits. It has ended.
    Deadlock(Cycle),
}
