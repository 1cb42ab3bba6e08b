ghost use Rattle.std.specs.Prelude.{◌≡◌, ℕ, ◌+◌, ◌<◌, ◌≤◌, [], true, false, IsTrue, ◌↔◌, ◌⊎◌, OnOk, OnErr, IfSome, IfNone};
ghost use Rattle.rdb_types.specs.declared.node.Node.{Node};
ghost use Rattle.vms_queues.specs.Queues.{mode_in, blockers, has_owner, is_absent, is_grantable, fits, covers, after_weaken, after_release, after_cancel};
ghost use Rattle.vms_locks.specs.Walks.{IsCycle, IsOnNoCycle};
ghost use Rattle.vms_locks.specs.Table.{queues_at, capacity, is_listed, WaitsIn, WaitsIf, IsAwake, AddsNoWait, IsLive, ChangesAt, OnlyOwners};
ghost use Rattle.vms_queues.specs.Owners.{is_owner};
ghost use Rattle.vms_locks.specs.Answers.{Answers, asking, converting};

use crate::places::Places;
use crate::review::review;
use crate::search::find_cycle;
use crate::table::{cancel_at, holders_at, release_at, weaken_at};
use crate::waits::Asked;
use crate::{Cycle, Enq, requests, waits};
use indexmap::IndexMap;
use rdb_types::{NoMemory, Node};
use std::alloc::Global;
use std::marker::Model;
use vms_queues::{Blockers, Mode, Resource};

/// The lock table: the queues of each node at which somebody holds or asks a lock. Owners are numbered from 1 to 16. Waits over
/// all nodes are without a cycle, since an owner has at most one queued request. Only `reserve` takes memory.
#[derive(Drop)]
pub struct Locks {
    table: IndexMap<Node, Resource>,
    places: Places,
}

impl Model for Locks {
    ghost use Rattle.vms_locks.specs.Table.{Table, table_of, queues_at, IsLive, HasNoEmpty, OnlyOwners};
    ghost use Rattle.vms_locks.specs.Places.{place_of, KnowsPlaces};

    ghost Value = { Table };

    ghost view = { λ l. table_of l.table };

    ghost invariant = { λ l. IsLive (queues_at (table_of l.table)) × HasNoEmpty (table_of l.table) × OnlyOwners (queues_at (table_of l.table)) × KnowsPlaces (place_of l.places) (queues_at (table_of l.table)) };
}

impl Locks {
    pub fn new(alloc: Global) -> Self
        ensures { result.entries ≡ [] }
    {
        Locks {
            table: IndexMap::new(alloc),
            places: Places::new(),
        }
    }

    /// Makes room for so many more nodes. Fails where memory runs out.
    pub fn reserve(&mut self, more: usize) -> Result<(), NoMemory>
        ensures ok { OnOk result (more ≤ self.new.spare) }
        ensures entries { self.new.entries ≡ self.old.entries }
        ensures spare { self.old.spare ≤ self.new.spare }
    {
        self.table.reserve(more)?;
        Ok(())
    }

    /// The mode that the owner holds at the node.
    pub fn mode_of(&self, owner: u32, node: Node) -> Option<Mode>
        ensures value { result ≡ mode_in owner (queues_at self.now node).granted }
        ensures live { IsLive (queues_at self.now) }
        ensures owners { OnlyOwners (queues_at self.now) }
    {
        match self.table.get(&node) {
            Some(resource) => resource.mode_of(owner),
            None => None,
        }
    }

    /// The other owners that hold a mode at the node beside which this one can't be held.
    pub fn notices_due(&self, owner: u32, node: Node, mode: Mode) -> Blockers
        ensures { result ≡ blockers owner mode (queues_at self.now node).granted }
    {
        holders_at(&self.table, owner, node, mode)
    }

    /// Whether the first owner waits for the second at some node.
    pub fn waits_for(&self, waiter: u32, blocker: u32) -> bool
        ensures { IsTrue result ↔ WaitsIn (queues_at self.now) waiter blocker }
    {
        waits::waits_for(&self.table, &self.places, waiter, blocker)
    }

    /// A cycle of waits that this request would close if it were queued; None exactly where it would close none.
    pub fn cycle_through(&self, owner: u32, node: Node, mode: Mode) -> Option<Cycle>
        requires owner { is_owner owner ≡ true }

        ensures cycle { IfSome result (IsCycle (WaitsIf (queues_at self.now) owner node mode) owner) }
        ensures none { IfNone result (IsOnNoCycle (WaitsIf (queues_at self.now) owner node mode) owner) }
    {
        find_cycle(&self.table, &self.places, Asked { owner, node, mode })
    }

    /// Asks a mode for an owner that holds and asks nothing at the node. While the owner sleeps at another node it may only ask
    /// what is granted at once.
    pub fn enq(&mut self, owner: u32, node: Node, mode: Mode, wait: bool) -> Enq
        requires absent { is_absent owner (queues_at self.old node) ≡ true }
        requires awake { IsAwake (queues_at self.old) owner ⊎ (is_grantable (queues_at self.old node) owner mode ≡ true) }
        requires owner { is_owner owner ≡ true }
        requires room { is_listed self.old node ≡ false → 0 < self.old.spare }

        ensures answer { Answers self.old self.new owner node wait (asking (queues_at self.old node) owner mode) result }
        ensures lists { (n : Node) → is_listed self.new n ≡ true → (is_listed self.old n ≡ true) ⊎ (n ≡ node) }
        ensures room { capacity self.old ≤ capacity self.new }
        ensures spare { self.old.spare ≤ self.new.spare + 1 }
        ensures kept { is_listed self.old node ≡ true → self.old.spare ≤ self.new.spare }
    {
        requests::enq(
            &mut self.table,
            &mut self.places,
            Asked { owner, node, mode },
            wait,
        )
    }

    /// Asks another mode for an owner that holds one at the node and isn't converting it. While the owner sleeps it may only
    /// ask what is granted at once and adds no wait.
    pub fn convert(&mut self, owner: u32, node: Node, mode: Mode, wait: bool) -> Enq
        requires granted { has_owner owner (queues_at self.old node).granted ≡ true }
        requires once { has_owner owner (queues_at self.old node).converting ≡ false }
        requires awake { IsAwake (queues_at self.old) owner ⊎ ((fits owner mode (queues_at self.old node).granted ≡ true) × AddsNoWait (queues_at self.old node) owner mode) }
        requires owner { is_owner owner ≡ true }

        ensures answer { Answers self.old self.new owner node wait (converting (queues_at self.old node) owner mode) result }
        ensures lists { (n : Node) → is_listed self.new n ≡ true → is_listed self.old n ≡ true }
        ensures room { capacity self.old ≤ capacity self.new }
        ensures spare { self.old.spare ≤ self.new.spare }
    {
        requests::convert(
            &mut self.table,
            &mut self.places,
            Asked { owner, node, mode },
            wait,
        )
    }

    /// Weakens the mode that the owner holds at the node.
    pub fn weaken(&mut self, owner: u32, node: Node, mode: Mode)
        requires { covers owner mode (queues_at self.old node).granted ≡ true }

        ensures after { ChangesAt self.old self.new node (after_weaken (queues_at self.old node) owner mode) }
        ensures lists { (n : Node) → is_listed self.new n ≡ true → is_listed self.old n ≡ true }
        ensures room { capacity self.old ≤ capacity self.new }
        ensures spare { self.old.spare ≤ self.new.spare }
    {
        weaken_at(&mut self.table, owner, node, mode);
        review(&self.table, &mut self.places, node);
    }

    /// Gives up what the owner holds and asks at the node.
    pub fn deq(&mut self, owner: u32, node: Node)
        ensures after { ChangesAt self.old self.new node (after_release (queues_at self.old node) owner) }
        ensures lists { (n : Node) → is_listed self.new n ≡ true → is_listed self.old n ≡ true }
        ensures spare { self.old.spare ≤ self.new.spare }
    {
        release_at(&mut self.table, owner, node);
        review(&self.table, &mut self.places, node);
    }

    /// Takes the owner's queued request at the node out of its queue, and leaves a granted mode as it is.
    pub fn cancel(&mut self, owner: u32, node: Node)
        ensures after { ChangesAt self.old self.new node (after_cancel (queues_at self.old node) owner) }
        ensures lists { (n : Node) → is_listed self.new n ≡ true → is_listed self.old n ≡ true }
        ensures spare { self.old.spare ≤ self.new.spare }
    {
        cancel_at(&mut self.table, owner, node);
        review(&self.table, &mut self.places, node);
    }
}
