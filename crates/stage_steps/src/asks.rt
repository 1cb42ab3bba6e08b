ghost use Rattle.std.specs.Prelude.{◌≡◌, ◌<◌, ◌≤◌, ◌++◌, ◌∷◌, [], length};

use rdb_types::Node;
use std::marker::Model;

/// How many nodes a call asks at, at most.
const MOST_ASKS: usize = 4;

/// The nodes at which one call asked for a want, in turn. They take no memory.
#[derive(Drop)]
pub struct Asks {
    nodes: [Node; MOST_ASKS],
    count: usize,
}

impl Model for Asks {
    ghost use Rattle.std.specs.Prelude.{◌≤◌, List, take};
    ghost use Rattle.rdb_types.specs.declared.node.Node.{Node};

    ghost Value = { List Node };

    ghost view = { λ a. take a.count a.nodes };

    ghost invariant = { λ a. a.count ≤ 4 };
}

impl Asks {
    /// None yet. The node stands in the places that aren't used.
    pub(crate) fn new(node: Node) -> Asks
        ensures { result ≡ [] }
    {
        Asks {
            nodes: [node; MOST_ASKS],
            count: 0,
        }
    }

    pub(crate) fn push(&mut self, node: Node)
        requires { length self.old < 4 }
        ensures { self.new ≡ self.old ++ node ∷ [] }
    {
        self.nodes[self.count] = node;
        self.count += 1;
    }

    /// The nodes.
    pub fn as_slice(&self) -> &[Node]
        ensures nodes { result.now ≡ self.now }
        ensures few { length self.now ≤ 4 }
    {
        &self.nodes[..self.count]
    }
}
