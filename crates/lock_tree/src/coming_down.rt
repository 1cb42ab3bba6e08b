ghost use Rattle.std.specs.Prelude.{◌≡◌, ◌∷◌, [], true, false, length};
ghost use Rattle.std.specs.List.{list_all};
ghost use Rattle.vms_queues.specs.Owners.{is_owner};
ghost use Rattle.lock_needs.specs.Needs.{covers_from, is_covered, all_covered, supposing, is_plain};
ghost use Rattle.lock_needs.specs.Keeping.{allows, is_enough};
ghost use Rattle.lock_tree_laws.specs.LockTable.{granted_at};
ghost use Rattle.lock_tree_laws.specs.Inner.Lowering.{MayComeDown, HasTaken, BroughtDown};
ghost use Rattle.lock_tree_laws.specs.Order.{MakesWay};
ghost use Rattle.lock_tree_laws.specs.Inner.Spare.{HasSpare, UsesSpare};

use crate::holding::{granted_of, lower, raise};
use lock_needs::{Level, Need, Node, contains, covers_below, is_above, on_way, step_towards};
use vms_locks::Locks;
use vms_queues::{Mode, is_at_most, join};

// The owner's mode at a node, supposing that it keeps this one at another.
fn held_supposing(locks: &Locks, owner: u32, at: Node, node: Node, keep: Mode) -> Mode
    ensures { result ≡ supposing node keep (granted_at locks.now owner) at }
{
    if at == node {
        keep
    } else {
        granted_of(locks, owner, at)
    }
}

// Whether the lock at the node of this level covers the need, supposing that the owner keeps this mode at a node.
fn covers_at(locks: &Locks, owner: u32, need: Need, level: Level, node: Node, keep: Mode) -> bool
    ensures { result ≡ covers_from (supposing node keep (granted_at locks.now owner)) need level }
{
    is_above(level, need.node.level)
        && covers_below(
            held_supposing(locks, owner, on_way(level, need.node), node, keep),
            need.mode,
        )
}

// Whether the need is covered, supposing that the owner keeps this mode at the node.
fn covered_supposing(locks: &Locks, owner: u32, need: Need, node: Node, keep: Mode) -> bool
    ensures { result ≡ is_covered (supposing node keep (granted_at locks.now owner)) need }
{
    is_at_most(
        need.mode,
        held_supposing(locks, owner, need.node, node, keep),
    ) || covers_at(locks, owner, need, Level::Area, node, keep)
        || covers_at(locks, owner, need, Level::Range, node, keep)
        || covers_at(locks, owner, need, Level::Page, node, keep)
}

// Takes a need one level under the node where it would not be covered otherwise. What isn't below the node is, so most needs are
// passed over with no look at the locks.
fn take_one(locks: &mut Locks, owner: u32, node: Node, keep: Mode, need: Need)
    requires owner { is_owner owner ≡ true }
    requires room { is_covered (supposing node keep (granted_at locks.old owner)) need ≡ false → HasSpare 1 locks.old }
    requires ready { MayComeDown locks.old owner node keep }
    requires covered { is_covered (granted_at locks.old owner) need ≡ true }
    requires allowed { allows (granted_at locks.old owner) node keep need ≡ true }
    requires plain { is_plain need ≡ true }

    ensures ready { MayComeDown locks.new owner node keep }
    ensures taken { HasTaken owner node (need ∷ []) locks.old locks.new }
    ensures way { MakesWay owner locks.old locks.new }
    ensures covered { is_covered (supposing node keep (granted_at locks.new owner)) need ≡ true }
    ensures spare { UsesSpare 1 locks.old locks.new }
    ensures none_used { is_covered (supposing node keep (granted_at locks.old owner)) need ≡ true → UsesSpare 0 locks.old locks.new }
{
    if !contains(node, need.node) {
        return;
    }
    if covered_supposing(locks, owner, need, node, keep) {
        return;
    }
    let under = step_towards(node, need.node);
    let mode = join(granted_of(locks, owner, under), need.mode);
    raise(locks, owner, under, mode);
}

// Takes one level under the node what would not be covered otherwise.
fn take_lower(locks: &mut Locks, needs: &[Need], owner: u32, node: Node, keep: Mode)
    requires owner { is_owner owner ≡ true }
    requires room { all_covered (supposing node keep (granted_at locks.old owner)) needs.now ≡ false → HasSpare (length needs.now) locks.old }
    requires ready { MayComeDown locks.old owner node keep }
    requires covered { all_covered (granted_at locks.old owner) needs.now ≡ true }
    requires enough { is_enough (granted_at locks.old owner) needs.now node keep ≡ true }
    requires plain { list_all is_plain needs.now ≡ true }

    ensures ready { MayComeDown locks.new owner node keep }
    ensures taken { HasTaken owner node needs.now locks.old locks.new }
    ensures way { MakesWay owner locks.old locks.new }
    ensures covered { all_covered (supposing node keep (granted_at locks.new owner)) needs.now ≡ true }
    ensures spare { UsesSpare (length needs.now) locks.old locks.new }
    ensures none_used { all_covered (supposing node keep (granted_at locks.old owner)) needs.now ≡ true → UsesSpare 0 locks.old locks.new }
{
    for need in needs {
        take_one(locks, owner, node, keep, *need);
    }
}

// Brings the owner's lock at the node down to the mode: first it takes one level lower what would not be covered. Where all would
// be, it takes no place in the table.
pub(crate) fn bring_down(locks: &mut Locks, needs: &[Need], owner: u32, node: Node, keep: Mode)
    requires owner { is_owner owner ≡ true }
    requires room { all_covered (supposing node keep (granted_at locks.old owner)) needs.now ≡ false → HasSpare (length needs.now) locks.old }
    requires ready { MayComeDown locks.old owner node keep }
    requires covered { all_covered (granted_at locks.old owner) needs.now ≡ true }
    requires enough { is_enough (granted_at locks.old owner) needs.now node keep ≡ true }
    requires plain { list_all is_plain needs.now ≡ true }

    ensures down { BroughtDown owner node keep needs.now locks.old locks.new }
    ensures way { MakesWay owner locks.old locks.new }
    ensures spare { UsesSpare (length needs.now) locks.old locks.new }
    ensures none_used { all_covered (supposing node keep (granted_at locks.old owner)) needs.now ≡ true → UsesSpare 0 locks.old locks.new }
{
    take_lower(locks, needs, owner, node, keep);
    lower(locks, owner, node, keep);
}
