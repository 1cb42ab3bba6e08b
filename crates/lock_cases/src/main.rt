//! Cases of locks as text. Each line of standard input names a call and what it is given: owners by their numbers, modes, and nodes as `line:16:65:3`. It is echoed on standard output, and below it stands what the call answers. A line that begins with `-` begins with empty queues, an empty party and an empty tree.
#![tactic(auto)]

mod answers;
mod nodes;
mod parties;
mod queues;
mod said;
mod trees;

use answers::tell;
use lock_needs::Party;
use lock_tree::Tree;
use nodes::say_of_nodes;
use parties::say_of_party;
use queues::say_of_queues;
use said::{Said, said_in};
use std::alloc::Global;
use std::process::ExitCode;
use trees::say_of_tree;
use vms_queues::Resource;

/// What the lines speak of.
struct World {
    queues: Resource,
    party: Party,
    tree: Tree,
}

impl Drop for World {
    fn drop(self) {
        let World {
            queues: _queues,
            party: _party,
            tree: _tree,
        } = self;
    }
}

fn empty_world(alloc: Global) -> World {
    World {
        queues: Resource::new(alloc),
        party: Party::new(alloc),
        tree: Tree::new(alloc),
    }
}

// Does what a line says, by the word that it begins with.
fn say(rt: &HostRuntime, world: &mut World, about: &str, said: &Said<'_>) {
    let is_said = match about {
        "queues" => say_of_queues(rt, &mut world.queues, said),
        "nodes" => say_of_nodes(rt, said),
        "party" => say_of_party(rt, &mut world.party, said),
        "tree" => say_of_tree(rt, &mut world.tree, said),
        _ => false,
    };
    if !is_said {
        tell(rt, "NO SUCH CASE");
    }
}

// Echoes a line, and does what it says.
fn say_line(rt: &HostRuntime, world: &mut World, text: &str) {
    let _ = println!(rt; "{text}");
    if text.starts_with("-") {
        *world = empty_world(rt.alloc());
    } else if let Some((about, rest)) = text.split_once(' ') {
        say(rt, world, about, &said_in(rest));
    }
}

// Does each line of standard input. False where one can't be read.
fn say_all(rt: &HostRuntime, world: &mut World) -> bool {
    for line in rt.lines(rt.alloc()) {
        let Ok(line) = line else {
            return false;
        };
        say_line(rt, world, line.as_str());
    }
    true
}

fn main(rt: HostRuntime) -> ExitCode {
    let mut world = empty_world(rt.alloc());
    let is_read = say_all(&rt, &mut world);
    ExitCode::from(if is_read { 0 } else { 3 })
}
