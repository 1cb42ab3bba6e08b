// A call on the tree of locks, and the nodes at which it asked.
ghost use Rattle.std.specs.Prelude.{◌≡◌, ◌≤◌, ◌+◌, true, length, map, drop, Some, IfOk, OnErr};
ghost use Rattle.line_store.specs.Seats.{IsMember};
ghost use Rattle.lock_needs.specs.Needs.{is_plain};
ghost use Rattle.lock_tree_laws.specs.Forest.{asks_of, opened_of};
ghost use Rattle.lock_tree_laws.specs.Room.{IsAsBefore};
ghost use Rattle.lock_tree_laws.specs.Wanted.{IsOf, trail_of_want};
ghost use Rattle.stage_steps.specs.Asking.{IsCalled};

use crate::asks::Asks;
use crate::happening::Asking;
use lock_needs::Need;
use lock_tree::Tree;
use lock_tree_laws::Want;
use rdb_types::{NoMemory, Node, Session};

/// How a want was answered, and where it was asked.
#[derive(Drop)]
pub struct Called {
    pub answer: Want,
    pub asking: Asking,
}

// At how many nodes the owner's open want was asked.
fn count_asked(tree: &Tree, s: Session) -> usize
    ensures { result ≡ length (asks_of (trail_of_want tree.now s.number) s.number) }
{
    match tree.wanted(s.number) {
        Some(_) => tree.count_asks(s.number),
        None => 0,
    }
}

// The nodes at which the owner was asked behind the first so many. (This one stands in the places that aren't used.)
fn asked_behind(tree: &Tree, s: Session, before: usize, unused: Node) -> Asks
    requires few { length (asks_of tree.now.trail s.number) ≤ before + 4 }
    ensures { result ≡ map (λ a. a.node) (drop before (asks_of tree.now.trail s.number)) }
{
    let mut nodes = Asks::new(unused);
    for at in before..tree.count_asks(s.number) {
        let Some(node) = tree.asked(s.number, at) else {
            unreachable!();
        };
        nodes.push(node);
    }
    nodes
}

/// Asks for a need, and notes where it was asked.
pub fn call(tree: &mut Tree, s: Session, need: Need, wait: bool) -> Result<Called, NoMemory>
    requires member { IsMember s.number }
    requires plain { is_plain need ≡ true }
    requires same { IsOf need (opened_of tree.old s.number) }
    ensures called { IfOk result (λ x. IsCalled s.number need wait tree.old tree.new x) }
    ensures err { OnErr result (IsAsBefore tree.old tree.new) }
{
    let before = count_asked(tree, s);
    // (what the tree promises at any time: it was and is whole, and what is got is apart from what others have got)
    let _ = tree.blocker(s.number);
    let answer = tree.want(s.number, need, wait)?;
    let nodes = asked_behind(tree, s, before, need.node);
    let _ = tree.blocker(s.number);
    let _ = tree.mode_of(s.number, need.node);
    Ok(Called {
        answer,
        asking: Asking { need, nodes },
    })
}
