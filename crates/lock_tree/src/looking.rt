ghost use Rattle.std.specs.Prelude.{◌≡◌, ◌+◌, true, false, Some, length};
ghost use Rattle.vms_queues.specs.Queues.{blockers};
ghost use Rattle.vms_queues.specs.Owners.{is_owner};
ghost use Rattle.vms_locks.specs.Table.{queues_at, IsLive};
ghost use Rattle.lock_needs.specs.Needs.{covered_above};
ghost use Rattle.lock_tree_laws.specs.LockTable.{granted_at, HasIntents};
ghost use Rattle.lock_tree_laws.specs.Parties.{IsKept, KeepsOthers, unasked};
ghost use Rattle.lock_tree_laws.specs.Forest.{party_of};
ghost use Rattle.lock_tree_laws.specs.Inner.Spare.{HasSpare, UsesSpare};
ghost use Rattle.lock_tree_laws.specs.Asking.{exceeds_at, first_excess, asked_mode};
ghost use Rattle.lock_tree.specs.Inner.Looking.{TakesLook, LooksOn};

use crate::asking::{ask_here, make_least};
use crate::holding::granted_of;
use crate::notice::kept_mode;
use indexmap::IndexMap;
use lock_needs::{Node, OpenWant, Party, is_excess, mode_for};
use vms_locks::{Enq, Locks};
use vms_queues::{Mode, join};

/// What comes of a want as it looks at its node.
#[derive(Debug, Drop)]
pub(crate) enum Look {
    /// This owner's lock is in the way of the mode, and stronger than it has to be. Nothing was asked.
    NoticeTo(u32, Mode),
    /// The mode was asked.
    Asked(Enq),
}

// Whether the owner's lock at the node is stronger than it has to be.
fn exceeds(locks: &Locks, parties: &IndexMap<u32, Party>, owner: u32, node: Node) -> bool
    ensures { result ≡ exceeds_at locks.now parties.now.entries node owner }
{
    let held = granted_of(locks, owner, node);
    match parties.get(&owner) {
        Some(party) => is_excess(held, kept_mode(locks, owner, party, node)),
        None => is_excess(held, Mode::NL),
    }
}

// The first of the others that hold a mode at the node beside which this one can't be held, and hold a stronger one than they
// have to.
pub(crate) fn find_excess(
    locks: &Locks,
    parties: &IndexMap<u32, Party>,
    owner: u32,
    node: Node,
    mode: Mode,
) -> Option<u32>
    ensures { result ≡ first_excess locks.now parties.now.entries node (blockers owner mode (queues_at locks.now node).granted) }
{
    let in_way = locks.notices_due(owner, node, mode);
    for other in in_way.as_slice() {
        if exceeds(locks, parties, *other, node) {
            return Some(*other);
        }
    }
    None
}

// The mode that the want asks at its node.
fn mode_of_want(locks: &Locks, owner: u32, want: OpenWant) -> Mode
    ensures value { result ≡ asked_mode locks.now owner want }
    ensures live { IsLive (queues_at locks.now) }
{
    join(
        granted_of(locks, owner, want.here),
        mode_for(want.need, want.here),
    )
}

// The open want looks at its node: the owner's own lock comes down to what must be kept, then the want asks, if nobody is in the way
// whose lock may come down first.
pub(crate) fn look_here(
    locks: &mut Locks,
    parties: &IndexMap<u32, Party>,
    owner: u32,
    party: &Party,
    want: OpenWant,
    wait: bool,
) -> Look
    requires owner { is_owner owner ≡ true }
    requires room { HasSpare (length party.now.needs + 1) locks.old }
    requires intents { HasIntents locks.old }
    requires kept { IsKept locks.old owner party.now }
    requires opened { party.now.opened ≡ Some (unasked want) }
    requires uncovered { covered_above (granted_at locks.old owner) want.need ≡ false }
    requires party { party.now ≡ party_of parties.now.entries owner }

    ensures look { TakesLook locks.old locks.new parties.now.entries owner party.now.needs want wait result }
    ensures progress { LooksOn owner party.now want locks.old locks.new result }
    ensures intents { HasIntents locks.new }
    ensures others { KeepsOthers owner locks.old locks.new }
    ensures spare { UsesSpare (length party.now.needs + 1) locks.old locks.new }
{
    make_least(locks, owner, party, want);
    let mode = mode_of_want(locks, owner, want);
    if let Some(other) = find_excess(locks, parties, owner, want.here, mode) {
        return Look::NoticeTo(other, mode);
    }
    let answer = ask_here(locks, owner, party.needs(), want, wait);
    Look::Asked(answer)
}
