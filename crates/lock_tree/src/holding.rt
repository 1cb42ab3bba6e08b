ghost use Rattle.std.specs.Prelude.{◌≡◌, true, false};
ghost use Rattle.vms_queues.specs.declared.lock_mode.Mode.TheVariants.{NL};
ghost use Rattle.vms_queues.specs.Modes.{at_most};
ghost use Rattle.vms_queues.specs.Owners.{is_owner};
ghost use Rattle.vms_locks.specs.Table.{queues_at, IsLive};
ghost use Rattle.lock_tree_laws.specs.LockTable.{granted_at, sought_at, IsFree, BarsNobody, RaisedAt, LoweredAt};
ghost use Rattle.lock_tree_laws.specs.Order.{MakesWay};
ghost use Rattle.lock_tree_laws.specs.Inner.Spare.{HasSpare, UsesSpare};

use lock_needs::Node;
use vms_locks::Locks;
use vms_queues::Mode;

// The mode that the owner has been granted at the node; NL where it has none.
pub(crate) fn granted_of(locks: &Locks, owner: u32, node: Node) -> Mode
    ensures value { result ≡ granted_at locks.now owner node }
    ensures live { IsLive (queues_at locks.now) }
    ensures owner { at_most result NL ≡ false → is_owner owner ≡ true }
{
    match locks.mode_of(owner, node) {
        Some(mode) => mode,
        None => Mode::NL,
    }
}

// Gives the owner a stronger mode at the node, which is free there and bars nobody, so that it is granted at once.
pub(crate) fn raise(locks: &mut Locks, owner: u32, node: Node, mode: Mode)
    requires owner { is_owner owner ≡ true }
    requires room { HasSpare 1 locks.old }
    requires awake { sought_at locks.old owner node ≡ granted_at locks.old owner node }
    requires ascends { at_most (granted_at locks.old owner node) mode ≡ true }
    requires free { IsFree locks.old owner node mode }
    requires bars_nobody { BarsNobody locks.old owner node mode }
    requires used { at_most mode NL ≡ false }

    ensures raised { RaisedAt locks.old locks.new owner node mode }
    ensures way { MakesWay owner locks.old locks.new }
    ensures spare { UsesSpare 1 locks.old locks.new }
{
    match locks.mode_of(owner, node) {
        Some(_) => {
            let _granted = locks.convert(owner, node, mode, false);
        }
        None => {
            let _granted = locks.enq(owner, node, mode, false);
        }
    }
}

// Weakens the owner's lock at the node to the mode; to NL it is released. Takes no memory.
pub(crate) fn lower(locks: &mut Locks, owner: u32, node: Node, mode: Mode)
    requires awake { sought_at locks.old owner node ≡ granted_at locks.old owner node }
    requires weaker { at_most mode (granted_at locks.old owner node) ≡ true }

    ensures lowered { LoweredAt locks.old locks.new owner node mode }
    ensures way { MakesWay owner locks.old locks.new }
    ensures spare { UsesSpare 0 locks.old locks.new }
{
    match locks.mode_of(owner, node) {
        None => {}
        Some(_) if mode == Mode::NL => locks.deq(owner, node),
        Some(_) => locks.weaken(owner, node, mode),
    }
}
