ghost use Rattle.std.specs.Prelude.{◌≡◌, ℕ, true, false, None, nat_eq, IfSome, IfNone};
ghost use Rattle.indexmap.specs.IndexMap.{IsUnique};
ghost use Rattle.vms_locks.specs.Table.{queues_at, IsLive, WaitsIn};
ghost use Rattle.lock_needs.specs.Wants.{sleeps_at};
ghost use Rattle.lock_tree_laws.specs.Forest.{IsWhole};
ghost use Rattle.lock_tree_laws.specs.LockTable.{granted_at};
ghost use Rattle.lock_tree_laws.specs.Wanted.{is_known, someone_sleeps};
ghost use Rattle.lock_tree.specs.Sleeping.{IsBlockedBy, is_sleeping};
ghost use Rattle.lock_tree.specs.States.{state_of};

use crate::holding::granted_of;
use crate::parts::Parts;
use indexmap::IndexMap;
use lock_needs::{Node, OpenWant, Party, mode_for};
use vms_locks::Locks;
use vms_queues::is_at_most;

// Whether the owner's open want is queued at the node.
pub(crate) fn is_asleep(locks: &Locks, owner: u32, opened: Option<OpenWant>, node: Node) -> bool
    ensures value { result ≡ sleeps_at (granted_at locks.now owner) opened node }
    ensures live { result ≡ true → IsLive (queues_at locks.now) }
{
    let Some(want) = opened else {
        return false;
    };
    node == want.here
        && want.is_asked
        && !is_at_most(mode_for(want.need, node), granted_of(locks, owner, node))
}

// Whether somebody's open want is queued at the node.
pub(crate) fn is_crowded(locks: &Locks, parties: &IndexMap<u32, Party>, node: Node) -> bool
    ensures value { result ≡ someone_sleeps locks.now node parties.now.entries }
    ensures unique { IsUnique nat_eq parties.now }
{
    parties.as_slice().iter().any(|(owner, party)| is_asleep(locks, *owner, party.opened(), node))
}

// The first of the owners for whom this one waits.
pub(crate) fn find_blocker(locks: &Locks, parties: &IndexMap<u32, Party>, owner: u32) -> Option<u32>
    ensures waits { IfSome result (λ u. WaitsIn (queues_at locks.now) owner u) }
    ensures none { IfNone result ((u : ℕ) → is_known parties.now.entries u ≡ true → WaitsIn (queues_at locks.now) owner u → ⊥) }
{
    for (other, _party) in parties.iter() {
        if locks.waits_for(owner, *other) {
            return Some(*other);
        }
    }
    None
}

impl Parts {
    // For whom the owner waits, where its open want is queued.
    pub(crate) fn blocker(&self, owner: u32) -> Option<u32>
        requires whole { IsWhole (state_of self.now) }
        ensures waits { IfSome result (λ t. IsBlockedBy (state_of self.now) owner t) }
        ensures none { result ≡ None → is_sleeping (state_of self.now) owner ≡ false }
    {
        let Some(want) = self.opened_of(owner) else {
            return None;
        };
        if !is_asleep(&self.locks, owner, Some(want), want.here) {
            return None;
        }
        let Some(other) = find_blocker(&self.locks, &self.parties, owner) else {
            unreachable!();
        };
        Some(other)
    }
}
