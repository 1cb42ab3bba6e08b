ghost use Rattle.std.specs.Prelude.{◌≡◌, ◌++◌, ◌∷◌, [], None, Some, is_some, true, OnOk, OnErr};
ghost use Rattle.lock_needs.specs.Keeping.{below, needed_on as joined_on, must_keep as least_kept};
ghost use Rattle.lock_needs.specs.declared.party.OpenWant.{OpenWant};
ghost use Rattle.lock_needs.specs.Wants.{mode_for as mode_on_way};

use crate::index::{Asks, WAY_NODES, add_need, asks_of};
use crate::need::Need;
use indexmap::IndexMap;
use rdb_types::{NoMemory, Node};
use std::alloc::Global;
use std::marker::Model;
use vms_queues::{Mode, intent, join};

/// A want that was neither got nor refused yet. `here` is the lowest node that it has come to, and `is_asked` says whether its
/// mode was asked there. Whether that was granted since, the lock table tells: nothing here changes at a grant.
#[derive(Clone, Copy, Debug, PartialEq, Eq, Drop)]
pub struct OpenWant {
    pub need: Need,
    pub here: Node,
    pub is_asked: bool,
}

/// A node at which an owner's open want was asked.
#[derive(Clone, Copy, Debug, PartialEq, Eq, Drop)]
pub struct Asked {
    pub owner: u32,
    pub node: Node,
}

/// The needs that an owner has got, and its open want. While a want is open there is room for its need.
#[derive(Drop)]
pub struct Party {
    needs: Vec<Need>,
    opened: Option<OpenWant>,
    // What the needs ask of the nodes on their ways.
    index: IndexMap<Node, Asks>,
}

impl Model for Party {
    ghost use Rattle.std.specs.Prelude.{◌≡◌, ◌<◌, ◌≤◌, true, is_some, vec_len, vec_capacity};
    ghost use Rattle.indexmap.specs.IndexMap.{spare};
    ghost use Rattle.lock_needs.specs.Index.{IsIndexOf};
    ghost use Rattle.lock_needs.specs.Party.{Party as NeedsAndWant};

    ghost Value = { NeedsAndWant };

    ghost view = { λ p. record { needs = p.needs.items; opened = p.opened } };

    ghost invariant = { λ p. IsIndexOf p.needs.items p.index.entries × (is_some p.opened ≡ true → (vec_len p.needs < vec_capacity p.needs) × (4 ≤ spare p.index)) };
}

impl Party {
    /// Nothing is got, and nothing wanted.
    pub fn new(alloc: Global) -> Party
        ensures { result ≡ record { needs = []; opened = None } }
    {
        Party {
            needs: Vec::new(alloc),
            opened: None,
            index: IndexMap::new(alloc),
        }
    }

    /// The needs that are got, in the order of getting.
    pub fn needs(&self) -> &[Need]
        ensures { result.now ≡ self.now.needs }
    {
        self.needs.as_slice()
    }

    /// The open want.
    pub fn opened(&self) -> Option<OpenWant>
        ensures { result ≡ self.now.opened }
    {
        self.opened
    }

    /// The intents that the needs under the node ask there, joined.
    pub fn intents_below(&self, node: Node) -> Mode
        ensures { result ≡ below self.now.needs node }
    {
        asks_of(&self.index, node).below
    }

    /// The modes of the needs on the node, joined.
    pub fn needed_on(&self, node: Node) -> Mode
        ensures { result ≡ joined_on self.now.needs node }
    {
        asks_of(&self.index, node).on
    }

    /// What the owner has to keep at the node: for its needs, and for the mode that its open want was granted there.
    pub fn must_keep(&self, opened: Mode, node: Node) -> Mode
        ensures { result ≡ least_kept self.now.needs opened node }
    {
        let asks = asks_of(&self.index, node);
        join(opened, join(asks.below, asks.on))
    }

    /// Opens a want where none is open, and makes room for its need.
    pub fn open_want(&mut self, want: OpenWant) -> Result<(), NoMemory>
        ensures ok { OnOk result (self.new ≡ record self.old { opened = Some want }) }
        ensures err { OnErr result (self.new ≡ self.old) }
    {
        self.needs.reserve(1)?;
        self.index.reserve(WAY_NODES)?;
        self.opened = Some(want);
        Ok(())
    }

    /// Puts another want in the place of the open one. Takes no memory.
    pub fn go_to(&mut self, want: OpenWant)
        requires { is_some self.old.opened ≡ true }
        ensures { self.new ≡ record self.old { opened = Some want } }
    {
        self.opened = Some(want);
    }

    /// Closes the open want, if there is one. Takes no memory.
    pub fn close(&mut self)
        ensures { self.new ≡ record self.old { opened = None } }
    {
        self.opened = None;
    }

    /// The need of the open want is got. Takes no memory.
    pub fn get(&mut self)
        ensures got { (want : OpenWant) → self.old.opened ≡ Some want → self.new ≡ record { needs = self.old.needs ++ want.need ∷ []; opened = None } }
        ensures none { self.old.opened ≡ None → self.new ≡ self.old }
    {
        let Some(want) = self.opened else {
            return;
        };
        let Ok(()) = self.needs.push(want.need) else {
            unreachable!();
        };
        add_need(&mut self.index, want.need);
        self.opened = None;
    }

    /// A need is got without a want, where none is open.
    pub fn add(&mut self, need: Need) -> Result<(), NoMemory>
        requires resting { self.old.opened ≡ None }

        ensures ok { OnOk result (self.new ≡ record { needs = self.old.needs ++ need ∷ []; opened = None }) }
        ensures err { OnErr result (self.new ≡ self.old) }
    {
        self.needs.reserve(1)?;
        self.index.reserve(WAY_NODES)?;
        let Ok(()) = self.needs.push(need) else {
            unreachable!();
        };
        add_need(&mut self.index, need);
        Ok(())
    }
}

/// The mode that a want takes at a node on its way.
pub fn mode_for(need: Need, node: Node) -> Mode
    ensures { result ≡ mode_on_way need node }
{
    if node == need.node {
        need.mode
    } else {
        intent(need.mode)
    }
}
