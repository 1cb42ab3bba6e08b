ghost use Rattle.std.specs.Prelude.{◌≡◌, ◌≢◌, ℕ, None, true};
ghost use Rattle.vms_queues.specs.Owners.{is_owner};
ghost use Rattle.vms_locks.specs.Places.{place_of};

use rdb_types::Node;
use std::marker::Model;

// The node at which each owner has a queued request. Owners are numbered from 1, so the first place stays empty.
#[derive(Drop)]
pub(crate) struct Places {
    nodes: [Option<Node>; 17],
}

impl Model for Places {
    ghost use Rattle.std.specs.Prelude.{◌≡◌, List, Option, length};
    ghost use Rattle.rdb_types.specs.declared.node.Node.{Node};

    ghost Value = { List (Option Node) };

    ghost view = { λ p. p.nodes };

    ghost invariant = { λ p. length p.nodes ≡ 17 };
}

impl Places {
    pub(crate) fn new() -> Self
        ensures { (owner : ℕ) → place_of result owner ≡ None }
    {
        Places { nodes: [None; 17] }
    }

    // The node at which the owner has a queued request.
    pub(crate) fn of(&self, owner: u32) -> Option<Node>
        ensures { result ≡ place_of self.now owner }
    {
        *self.nodes.get(owner as usize)?
    }

    pub(crate) fn set(&mut self, owner: u32, place: Option<Node>)
        requires { is_owner owner ≡ true }

        ensures own { place_of self.new owner ≡ place }
        ensures others { (o : ℕ) → o ≢ owner → place_of self.new o ≡ place_of self.old o }
    {
        self.nodes[owner as usize] = place;
    }
}
