ghost use Rattle.std.specs.Prelude.{◌≡◌, true};
ghost use Rattle.vms_queues.specs.declared.lock_mode.Mode.TheVariants.{NL};
ghost use Rattle.rdb_types.specs.declared.node.Node.{Node};
ghost use Rattle.lock_needs.specs.Nodes.{is_on};
ghost use Rattle.lock_tree_laws.specs.LockTable.{granted_at, HasIntents};
ghost use Rattle.lock_tree_laws.specs.Parties.{IsKept, KeepsOthers};
ghost use Rattle.lock_tree_laws.specs.Forest.{idle};
ghost use Rattle.lock_tree_laws.specs.Order.{MakesWay};
ghost use Rattle.lock_tree_laws.specs.Inner.Spare.{UsesSpare};
ghost use Rattle.lock_tree_laws.specs.Inner.Releasing.{same_level, IsQuiet, IsClearBelow, HasNoneAt, HasPlaces, IsReleasing};

use crate::ending::stop_asking;
use crate::holding::lower;
use lock_needs::{Level, Node, Party, on_way};
use vms_locks::Locks;
use vms_queues::Mode;

// Releases the owner's lock at the node of this level on the way to the node.
fn release_at(locks: &mut Locks, owner: u32, level: Level, node: Node)
    requires ready { IsReleasing owner level locks.old locks.old }

    ensures releasing { IsReleasing owner level locks.old locks.new }
    ensures gone { (x : Node) → is_on x node ≡ true → same_level x.level level ≡ true → granted_at locks.new owner x ≡ NL }
    ensures way { MakesWay owner locks.old locks.new }
    ensures spare { UsesSpare 0 locks.old locks.new }
{
    let at = on_way(level, node);
    if at.level == level {
        lower(locks, owner, at, Mode::NL);
    }
}

// Releases the owner's locks at this level, where it holds none below.
fn release_level(locks: &mut Locks, owner: u32, party: &Party, level: Level)
    requires ready { IsReleasing owner level locks.old locks.old }
    requires places { HasPlaces locks.old owner party.now }

    ensures releasing { IsReleasing owner level locks.old locks.new }
    ensures none { HasNoneAt locks.new owner level }
    ensures way { MakesWay owner locks.old locks.new }
    ensures spare { UsesSpare 0 locks.old locks.new }
{
    for need in party.needs() {
        release_at(locks, owner, level, need.node);
    }
    if let Some(want) = party.opened() {
        release_at(locks, owner, level, want.here);
    }
}

// Takes the owner's queued request, if it has one, out of its queue.
fn stop_sleeping(locks: &mut Locks, owner: u32, party: &Party)
    requires intents { HasIntents locks.old }
    requires kept { IsKept locks.old owner party.now }

    ensures intents { HasIntents locks.new }
    ensures quiet { IsQuiet locks.new owner }
    ensures places { HasPlaces locks.new owner party.now }
    ensures others { KeepsOthers owner locks.old locks.new }
    ensures way { MakesWay owner locks.old locks.new }
    ensures spare { UsesSpare 0 locks.old locks.new }
{
    if let Some(want) = party.opened() {
        let _stopped = stop_asking(locks, owner, want);
    }
}

// Releases all locks of an owner that has nothing queued, from the lowest level up.
fn release_locks(locks: &mut Locks, owner: u32, party: &Party)
    requires intents { HasIntents locks.old }
    requires quiet { IsQuiet locks.old owner }
    requires places { HasPlaces locks.old owner party.now }

    ensures intents { HasIntents locks.new }
    ensures quiet { IsQuiet locks.new owner }
    ensures none { (x : Node) → granted_at locks.new owner x ≡ NL }
    ensures others { KeepsOthers owner locks.old locks.new }
    ensures way { MakesWay owner locks.old locks.new }
    ensures spare { UsesSpare 0 locks.old locks.new }
{
    release_level(locks, owner, party, Level::Line);
    release_level(locks, owner, party, Level::Page);
    release_level(locks, owner, party, Level::Range);
    release_level(locks, owner, party, Level::Area);
    release_level(locks, owner, party, Level::Journal);
}

// Releases all that the owner holds and asks.
pub(crate) fn release_owner(locks: &mut Locks, owner: u32, party: &Party)
    requires intents { HasIntents locks.old }
    requires kept { IsKept locks.old owner party.now }

    ensures intents { HasIntents locks.new }
    ensures kept { IsKept locks.new owner idle }
    ensures none { (x : Node) → granted_at locks.new owner x ≡ NL }
    ensures others { KeepsOthers owner locks.old locks.new }
    ensures way { MakesWay owner locks.old locks.new }
    ensures spare { UsesSpare 0 locks.old locks.new }
{
    stop_sleeping(locks, owner, party);
    release_locks(locks, owner, party);
}
