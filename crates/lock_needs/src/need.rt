ghost use Rattle.std.specs.Prelude.{◌≡◌};
ghost use Rattle.lock_needs.specs.Needs.{conflict as stand_in_way, covers_below as covers_all_below};

use crate::node::contains;
use rdb_types::{Level, Node};
use vms_queues::{Mode, compatible, intent};

/// A need of an owner: a mode on a node.
#[derive(Clone, Copy, Debug, PartialEq, Eq, Drop)]
pub struct Need {
    pub node: Node,
    pub mode: Mode,
}

/// Whether needs of two owners stand in each other's way: on one node by their modes, and where one node contains the other, the
/// upper mode with the intent of the lower.
pub fn conflict(a: Need, b: Need) -> bool
    ensures { result ≡ stand_in_way a b }
{
    (a.node == b.node && !compatible(a.mode, b.mode))
        || (contains(a.node, b.node) && !compatible(a.mode, intent(b.mode)))
        || (contains(b.node, a.node) && !compatible(b.mode, intent(a.mode)))
}

/// Whether a lock of the first mode covers needs of the second on the nodes that its node contains.
pub fn covers_below(held: Mode, need: Mode) -> bool
    ensures { result ≡ covers_all_below held need }
{
    match (held, need) {
        (Mode::EX, _) | (Mode::PR | Mode::PW, Mode::PR) => true,
        _ => false,
    }
}
