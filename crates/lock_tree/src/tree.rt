ghost use Rattle.std.specs.Prelude.{◌≡◌, ◌≤◌, ◌+◌, [], length, true, false, None, Some, is_some, option_map, slice_get, IfOk, IfSome, OnOk, OnErr};
ghost use Rattle.rdb_types.specs.declared.node.Node.{Node};
ghost use Rattle.vms_queues.specs.declared.lock_mode.Mode.TheVariants.{NL};
ghost use Rattle.vms_queues.specs.Modes.{at_most};
ghost use Rattle.vms_queues.specs.Owners.{is_owner};
ghost use Rattle.lock_needs.specs.Nodes.{same_node, is_on};
ghost use Rattle.lock_needs.specs.Needs.{is_covered, is_plain};
ghost use Rattle.lock_needs.specs.Keeping.{is_excess, needed_on as joined_on};
ghost use Rattle.lock_needs.specs.Wants.{kept_at};
ghost use Rattle.lock_tree_laws.specs.LockTable.{granted_at, AllShare, KeepsLocks};
ghost use Rattle.lock_tree_laws.specs.Forest.{IsWhole, KeepsParties, NeedsAreApart, idle, party_of, has_need, asks_of};
ghost use Rattle.lock_tree.specs.Notices.{notice_answer};
ghost use Rattle.lock_tree.specs.Sleeping.{IsBlockedBy, is_sleeping};
ghost use Rattle.lock_tree_laws.specs.Progress.{is_spare, Falls, LeavesLocks, MovesOn};
ghost use Rattle.lock_tree_laws.specs.Rule.{Finishes, GoesDown, entered};
ghost use Rattle.lock_tree_laws.specs.Wanted.{MayTakeWhole, needs_of, wanted_of, IsOf, IsLooking, Answered, GotAtOnce, GotWhole, want_of, AddsAsks, trail_of_want};
ghost use Rattle.lock_tree_laws.specs.Room.{IsAsBefore};

use crate::holding::granted_of;
use crate::notice::{Demotion, answer_notice};
use crate::parties::forget;
use crate::parts::Parts;
use crate::releasing::release_owner;
use crate::trail::{count_asks, nth_ask};
use indexmap::IndexMap;
use lock_needs::{Need, Node};
use lock_tree_laws::Want;
use rdb_types::NoMemory;
use std::alloc::Global;
use std::marker::Model;
use vms_locks::Locks;
use vms_queues::Mode;

/// The tree of locks: the needs of each owner, its open want, the locks that cover its needs, and the nodes at which the last want
/// of each owner was asked.
#[derive(Drop)]
pub struct Tree {
    parts: Parts,
}

impl Model for Tree {
    ghost use Rattle.lock_tree_laws.specs.Forest.{State, IsWhole};
    ghost use Rattle.lock_tree.specs.States.{state_of};

    ghost Value = { State };

    ghost view = { λ t. state_of t.parts };

    ghost invariant = { λ t. IsWhole (state_of t.parts) };
}

impl Tree {
    /// Nobody has or wants anything.
    pub fn new(alloc: Global) -> Tree
        ensures table { result.table.entries ≡ [] }
        ensures parties { result.parties ≡ [] }
        ensures trail { result.trail ≡ [] }
    {
        Tree {
            parts: Parts {
                locks: Locks::new(alloc),
                parties: IndexMap::new(alloc),
                trail: Vec::new(alloc),
            },
        }
    }

    /// Asks for the need. Where a lock of the owner covers it, it is got at once, and nothing is asked. Else a want opens at the
    /// topmost node on the way to the need's, and goes down: at each node the whole need is taken where nothing is queued there and
    /// it can be granted at once; else the owner's own lock comes down to what must be kept, and the want's mode is asked, unless a
    /// notice is due before. A want that is open goes on from where it stands; after a notice was delivered it looks again. Where it
    /// isn't to wait, what can't be granted is refused. No other owner's lock is weaker afterwards: a notice that is due is left to
    /// be served. Who sleeps or is refused waits by needs, or would wait so, for whom the
    /// answer names: by the needs that others have got, the wants that are open, and the order in which these were asked. All memory
    /// is taken before the first change, that for the want's end with it: after want of memory all is as before. A want that is open
    /// never raises the measure that each notice lowers, and where it ends, the measure falls: so no lock goes to and fro.
    pub fn want(&mut self, owner: u32, need: Need, wait: bool) -> Result<Want, NoMemory>
        requires owner { is_owner owner ≡ true }
        requires plain { is_plain need ≡ true }
        requires same { IsOf need (party_of self.old.parties owner).opened }

        ensures trail { IfOk result (λ a. AddsAsks owner need (trail_of_want self.old owner) self.new.trail) }
        ensures few { IfOk result (λ a. length self.new.trail ≤ length (trail_of_want self.old owner) + 4) }
        ensures by_rule { IfOk result (λ a. GoesDown owner need wait (Finishes owner a) (entered self.old owner) self.new) }
        ensures locks { IfOk result (λ a. KeepsLocks owner self.old.table self.new.table) }
        ensures no_weaker { IfOk result (λ a. LeavesLocks owner self.old.table self.new.table) }
        ensures answer { IfOk result (Answered (needs_of self.old owner) self.new owner need wait) }
        ensures progress { is_some (party_of self.old.parties owner).opened ≡ true → IfOk result (MovesOn owner self.old self.new) }
        ensures covered { is_covered (granted_at self.old.table owner) need ≡ true → IsLooking (party_of self.old.parties owner).opened → IfOk result (GotAtOnce owner self.old self.new) }
        ensures strong { let w = want_of (party_of self.old.parties owner).opened need in is_covered (granted_at self.old.table owner) need ≡ false → IsLooking (party_of self.old.parties owner).opened → MayTakeWhole self.old.table owner w → IfOk result (GotWhole owner w self.old self.new) }
        ensures others { KeepsParties owner self.old.parties self.new.parties }
        ensures err { OnErr result (IsAsBefore self.old self.new) }
    {
        self.parts.want(owner, need, wait)
    }

    /// The need of the owner's open want.
    pub fn wanted(&self, owner: u32) -> Option<Need>
        ensures { result ≡ wanted_of self.now owner }
    {
        let want = self.parts.opened_of(owner)?;
        Some(want.need)
    }

    /// The node at this place, from 0, at which the owner's last want was asked, open or ended; None exactly where there are no
    /// more.
    pub fn asked(&self, owner: u32, nth: usize) -> Option<Node>
        ensures { result ≡ option_map (λ a. a.node) (slice_get (asks_of self.now.trail owner) nth) }
    {
        nth_ask(&self.parts.trail, owner, nth)
    }

    /// At how many nodes the owner's last want was asked, open or ended.
    pub fn count_asks(&self, owner: u32) -> usize
        ensures { result ≡ length (asks_of self.now.trail owner) }
    {
        count_asks(&self.parts.trail, owner)
    }

    /// Serves a notice at the node: where the owner's lock there is stronger than it has to be, it comes down to the least mode that
    /// its needs and its open want require. What a stronger lock covered alone is taken one level lower first. The mode that was
    /// asked there needn't be looked at. The memory for that is taken before: after want of memory all is as before. Each
    /// notice that finds something to do lowers a measure. No other owner's lock is weaker afterwards, and of the owner's own locks
    /// only those below the node changed: they are stronger.
    pub fn deliver_notice(
        &mut self,
        to: u32,
        node: Node,
        _mode: Mode,
    ) -> Result<Option<Demotion>, NoMemory>
        ensures answer { IfOk result (λ d. d ≡ notice_answer (granted_at self.old.table to node) (kept_at (granted_at self.old.table to) (party_of self.old.parties to) node)) }
        ensures least { OnOk result (is_excess (granted_at self.old.table to node) (kept_at (granted_at self.old.table to) (party_of self.old.parties to) node) ≡ true → granted_at self.new.table to node ≡ kept_at (granted_at self.old.table to) (party_of self.old.parties to) node) }
        ensures unchanged { OnOk result (is_excess (granted_at self.old.table to node) (kept_at (granted_at self.old.table to) (party_of self.old.parties to) node) ≡ false → self.new ≡ self.old) }
        ensures below { OnOk result ((n : Node) → same_node n node ≡ false → at_most (granted_at self.old.table to n) (granted_at self.new.table to n) ≡ true) }
        ensures elsewhere { OnOk result ((n : Node) → is_on node n ≡ false → granted_at self.new.table to n ≡ granted_at self.old.table to n) }
        ensures locks { OnOk result (KeepsLocks to self.old.table self.new.table) }
        ensures no_weaker { OnOk result (LeavesLocks to self.old.table self.new.table) }
        ensures falls { OnOk result (is_spare (granted_at self.old.table to) (party_of self.old.parties to) node ≡ true → Falls to self.old self.new) }
        ensures parties { self.new.parties ≡ self.old.parties }
        ensures trail { self.new.trail ≡ self.old.trail }
        ensures err { OnErr result (IsAsBefore self.old self.new) }
    {
        match self.parts.parties.get(&to) {
            Some(party) => answer_notice(
                &mut self.parts.locks,
                &self.parts.parties,
                to,
                party,
                node,
            ),
            None => Ok(None),
        }
    }

    /// Ends the owner's open want, its queued request with it: the locks that it was granted come down to what the owner's needs
    /// require. Where there is none, nothing changes. As it ends, the measure falls. Takes no memory.
    pub fn give_up(&mut self, owner: u32)
        ensures trail { self.new.trail ≡ self.old.trail }
        ensures ended { (party_of self.new.parties owner).opened ≡ None }
        ensures needs { (party_of self.new.parties owner).needs ≡ (party_of self.old.parties owner).needs }
        ensures others { KeepsParties owner self.old.parties self.new.parties }
        ensures locks { KeepsLocks owner self.old.table self.new.table }
        ensures no_weaker { LeavesLocks owner self.old.table self.new.table }
        ensures unchanged { (party_of self.old.parties owner).opened ≡ None → self.new ≡ self.old }
        ensures falls { is_some (party_of self.old.parties owner).opened ≡ true → Falls owner self.old self.new }
    {
        if let Some(want) = self.parts.opened_of(owner) {
            self.parts.close_want(owner, want);
        }
    }

    /// The mode that the owner has been granted at the node; NL where it has none.
    pub fn mode_of(&self, owner: u32, node: Node) -> Mode
        ensures value { result ≡ granted_at self.now.table owner node }
        ensures compatible { AllShare self.now.table }
        ensures apart { NeedsAreApart self.now }
    {
        granted_of(&self.parts.locks, owner, node)
    }

    /// Whether the owner has got the need.
    pub fn holds(&self, owner: u32, need: Need) -> bool
        ensures value { result ≡ has_need (party_of self.now.parties owner).needs need }
        ensures whole { IsWhole self.now }
    {
        match self.parts.parties.get(&owner) {
            Some(party) => party.needs().iter().any(|held| *held == need),
            None => false,
        }
    }

    /// For whom the owner waits: its open want is queued at the node that it has come to, and this owner is the first in its way there.
    /// None exactly where no want of the owner is queued.
    pub fn blocker(&self, owner: u32) -> Option<u32>
        ensures waits { IfSome result (λ t. IsBlockedBy self.now owner t) }
        ensures none { result ≡ None → is_sleeping self.now owner ≡ false }
        ensures whole { IsWhole self.now }
    {
        self.parts.blocker(owner)
    }

    /// The modes of the needs that the owner has got on the node, joined; NL where it has got none there. Needs on nodes above or below
    /// aren't looked at.
    pub fn needed_on(&self, owner: u32, node: Node) -> Mode
        ensures { result ≡ joined_on (needs_of self.now owner) node }
    {
        match self.parts.parties.get(&owner) {
            Some(party) => party.needed_on(node),
            None => Mode::NL,
        }
    }

    /// How many needs the owner has got.
    pub fn count_needs(&self, owner: u32) -> usize
        ensures { result ≡ length (needs_of self.now owner) }
    {
        match self.parts.parties.get(&owner) {
            Some(party) => party.needs().len(),
            None => 0,
        }
    }

    /// Releases all that the owner holds and asks, and forgets its needs and its open want. Where one was open, the measure falls.
    /// Takes no memory.
    pub fn release_all(&mut self, owner: u32)
        ensures trail { self.new.trail ≡ self.old.trail }
        ensures idle { party_of self.new.parties owner ≡ idle }
        ensures none { (n : Node) → granted_at self.new.table owner n ≡ NL }
        ensures others { KeepsParties owner self.old.parties self.new.parties }
        ensures locks { KeepsLocks owner self.old.table self.new.table }
        ensures no_weaker { LeavesLocks owner self.old.table self.new.table }
        ensures falls { is_some (party_of self.old.parties owner).opened ≡ true → Falls owner self.old self.new }
    {
        if let Some(party) = self.parts.parties.get(&owner) {
            release_owner(&mut self.parts.locks, owner, party);
            forget(&mut self.parts.parties, owner);
        }
    }
}
