ghost use Rattle.std.specs.Prelude.{◌≡◌, List, true, false, length};
ghost use Rattle.lock_needs.specs.Needs.{covers_from, covered_above as covered_over, is_covered as is_covered_by};
ghost use Rattle.lock_needs.specs.Keeping.{needed_uncovered, after_want};
ghost use Rattle.lock_tree_laws.specs.LockTable.{granted_at, sought_at, HasIntents};
ghost use Rattle.lock_needs.specs.declared.need.Need.{Need};
ghost use Rattle.lock_tree_laws.specs.Parties.{IsKept, KeepsOthers, wanting, resting, unasked};
ghost use Rattle.lock_tree_laws.specs.Inner.Answering.{StandsStill};
ghost use Rattle.lock_tree_laws.specs.Order.{MakesWay, StandsByNeeds};
ghost use Rattle.lock_tree_laws.specs.Inner.Spare.{HasSpare, UsesSpare, is_over_others};

use crate::coming_down::bring_down;
use crate::holding::granted_of;
use lock_needs::{
    Level, Need, Node, OpenWant, Party, covers_below, is_above, mode_for, node_above, on_way,
};
use vms_locks::Locks;
use vms_queues::{Mode, is_at_most, join};

// Whether the lock at the node of this level covers the need.
fn covers_from_level(locks: &Locks, owner: u32, need: Need, level: Level) -> bool
    ensures { result ≡ covers_from (granted_at locks.now owner) need level }
{
    is_above(level, need.node.level)
        && covers_below(
            granted_of(locks, owner, on_way(level, need.node)),
            need.mode,
        )
}

// Whether some lock above the need's node covers it.
pub(crate) fn covered_above(locks: &Locks, owner: u32, need: Need) -> bool
    ensures { result ≡ covered_over (granted_at locks.now owner) need }
{
    covers_from_level(locks, owner, need, Level::Area)
        || covers_from_level(locks, owner, need, Level::Range)
        || covers_from_level(locks, owner, need, Level::Page)
}

// Whether some lock covers the need.
pub(crate) fn is_covered(locks: &Locks, owner: u32, need: Need) -> bool
    ensures { result ≡ is_covered_by (granted_at locks.now owner) need }
{
    is_at_most(need.mode, granted_of(locks, owner, need.node)) || covered_above(locks, owner, need)
}

// The modes of the needs on the node that no lock above it covers, joined.
fn uncovered_on(locks: &Locks, owner: u32, needs: &[Need], node: Node) -> Mode
    ensures { result ≡ needed_uncovered (granted_at locks.now owner) needs.now node }
{
    let mut mode = Mode::NL;
    for need in needs {
        if node == need.node && !covered_above(locks, owner, *need) {
            mode = join(mode, need.mode);
        }
    }
    mode
}

// What the needs require at the node.
fn left_mode(locks: &Locks, owner: u32, party: &Party, node: Node) -> Mode
    ensures { result ≡ after_want (granted_at locks.now owner) party.now.needs node }
{
    join(
        party.intents_below(node),
        uncovered_on(locks, owner, party.needs(), node),
    )
}

// Takes the owner's request out of its queue where it is asleep, and gives the want as it then stands.
pub(crate) fn stop_asking(locks: &mut Locks, owner: u32, want: OpenWant) -> OpenWant
    requires intents { HasIntents locks.old }

    ensures here { result.here ≡ want.here }
    ensures need { result.need ≡ want.need }
    ensures kept { StandsStill owner want result locks.old locks.new }
    ensures intents { HasIntents locks.new }
    ensures others { KeepsOthers owner locks.old locks.new }
    ensures way { MakesWay owner locks.old locks.new }
    ensures stands_still { (ws : List Need) → StandsByNeeds locks.old owner (wanting ws want) → StandsByNeeds locks.new owner (wanting ws result) }
    ensures spare { UsesSpare 0 locks.old locks.new }
{
    let held = granted_of(locks, owner, want.here);
    if is_at_most(mode_for(want.need, want.here), held) {
        return want;
    }
    locks.cancel(owner, want.here);
    OpenWant {
        need: want.need,
        here: want.here,
        is_asked: false,
    }
}

// Lowers the owner's lock at the want's node, where that was asked, to what its needs require. Above the node of its need all that
// the lock covers is covered still: the lock is as strong as the needs on its node, but for intents.
fn leave_node(locks: &mut Locks, owner: u32, party: &Party, want: OpenWant)
    requires intents { HasIntents locks.old }
    requires kept { IsKept locks.old owner (wanting party.now.needs want) }
    requires quiet { sought_at locks.old owner want.here ≡ granted_at locks.old owner want.here }
    requires room { is_over_others want ≡ true → HasSpare (length party.now.needs) locks.old }

    ensures left { IsKept locks.new owner (wanting party.now.needs (unasked want)) }
    ensures intents { HasIntents locks.new }
    ensures others { KeepsOthers owner locks.old locks.new }
    ensures way { MakesWay owner locks.old locks.new }
    ensures leaves { StandsByNeeds locks.old owner (wanting party.now.needs want) → StandsByNeeds locks.new owner (wanting party.now.needs (unasked want)) }
    ensures spare { UsesSpare (length party.now.needs) locks.old locks.new }
    ensures none_used { is_over_others want ≡ false → UsesSpare 0 locks.old locks.new }
{
    if !want.is_asked {
        return;
    }
    let held = granted_of(locks, owner, want.here);
    if is_at_most(held, Mode::NL) {
        return;
    }
    let keep = left_mode(locks, owner, party, want.here);
    if is_at_most(keep, held) {
        bring_down(locks, party.needs(), owner, want.here, keep);
    }
}

// Ends the owner's open want: its queued request is cancelled, and from the lowest node where it was asked up, the lock comes down to
// what the needs require.
pub(crate) fn end_want(locks: &mut Locks, owner: u32, party: &Party, want: OpenWant)
    requires intents { HasIntents locks.old }
    requires kept { IsKept locks.old owner (wanting party.now.needs want) }
    requires room { HasSpare (length party.now.needs) locks.old }

    ensures ended { IsKept locks.new owner (resting party.now.needs) }
    ensures intents { HasIntents locks.new }
    ensures others { KeepsOthers owner locks.old locks.new }
    ensures way { MakesWay owner locks.old locks.new }
    ensures rests { StandsByNeeds locks.old owner (wanting party.now.needs want) → StandsByNeeds locks.new owner (resting party.now.needs) }
    ensures spare { UsesSpare (length party.now.needs) locks.old locks.new }
{
    let mut left = stop_asking(locks, owner, want);
    loop {
        leave_node(locks, owner, party, left);
        let Some(up) = node_above(left.here) else {
            return;
        };
        left = OpenWant {
            need: left.need,
            here: up,
            is_asked: true,
        };
    }
}
