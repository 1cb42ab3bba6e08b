use indexmap::IndexMap;
use lock_needs::{Asked, Party};
use vms_locks::Locks;

// The parts of the tree: the lock table, the owners with their needs and open wants, and the nodes at which the last want of each
// owner was asked.
#[derive(Drop)]
pub(crate) struct Parts {
    pub(crate) locks: Locks,
    pub(crate) parties: IndexMap<u32, Party>,
    pub(crate) trail: Vec<Asked>,
}
