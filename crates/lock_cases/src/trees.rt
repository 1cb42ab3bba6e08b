// The tree of locks.
ghost use Rattle.std.specs.Prelude.{◌≡◌, true};
ghost use Rattle.vms_queues.specs.Owners.{is_owner as is_number_of_owner};
ghost use Rattle.lock_needs.specs.Needs.{is_plain};

use crate::answers::{put_node, tell, tell_mode, tell_need, tell_node, tell_owners, tell_truth};
use crate::said::Said;
use lock_needs::{Level, Need, Node};
use lock_tree::{Tree, Want, is_owner};
use rdb_types::NoMemory;
use vms_queues::Mode;

/// So many notices go to others before a want is given up as one that goes to and fro.
const MAX_NOTICES: u32 = 64;

// Whether the engine takes needs of the kind.
fn is_plain_need(need: Need) -> bool
    ensures { result ≡ is_plain need }
{
    match need.node.level {
        Level::Area | Level::Journal => true,
        Level::Range | Level::Page | Level::Line => match need.mode {
            Mode::PR | Mode::EX => true,
            _ => false,
        },
    }
}

fn deliver(
    rt: &HostRuntime,
    tree: &mut Tree,
    other: u32,
    node: Node,
    mode: Mode,
) -> Result<(), NoMemory> {
    let _ = print!(rt; "  notice to {other} at");
    put_node(rt, node);
    match tree.deliver_notice(other, node, mode)? {
        Some(_) => {
            let _ = println!(rt; "");
        }
        None => {
            let _ = println!(rt; ", which holds no more than it has to");
        }
    }
    Ok(())
}

fn tell_end(rt: &HostRuntime, answer: Want) {
    match answer {
        Want::Got => tell(rt, "got"),
        Want::Asleep(other) => tell_owners(rt, "asleep behind", &[other]),
        Want::Conflict(other) => tell_owners(rt, "conflicts with", &[other]),
        Want::Deadlock(cycle) => tell_owners(rt, "deadlock of", cycle.as_slice()),
        Want::NoticeTo(other, node, _) => tell_node(rt, "NOTICE", node),
    }
}

// Wants the need until no notice is due.
fn want(
    rt: &HostRuntime,
    tree: &mut Tree,
    owner: u32,
    need: Need,
    wait: bool,
) -> Result<(), NoMemory>
    requires owner { is_number_of_owner owner ≡ true }
    requires plain { is_plain need ≡ true }
{
    for _ in 0..MAX_NOTICES {
        if tree.wanted(owner).is_some_and(|wanted| wanted != need) {
            tell(rt, "IT WANTS SOMETHING ELSE");
            return Ok(());
        }
        match tree.want(owner, need, wait)? {
            Want::NoticeTo(other, node, mode) => deliver(rt, tree, other, node, mode)?,
            answer => {
                tell_end(rt, answer);
                return Ok(());
            }
        }
    }
    tell(rt, "NOTICES WITHOUT END");
    Ok(())
}

fn want_or_say(rt: &HostRuntime, tree: &mut Tree, said: &Said<'_>, wait: bool) {
    if !is_owner(said.owner) || !is_plain_need(said.need) {
        return tell(rt, "NO WANT");
    }
    if want(rt, tree, said.owner, said.need, wait).is_err() {
        tell(rt, "NO MEMORY");
    }
}

// Delivers a notice that is not due.
fn notice(rt: &HostRuntime, tree: &mut Tree, said: &Said<'_>) {
    if deliver(rt, tree, said.owner, said.need.node, said.need.mode).is_err() {
        tell(rt, "NO MEMORY");
    }
}

// The nodes at which the owner's last want was asked.
fn tell_asked(rt: &HostRuntime, tree: &Tree, owner: u32) {
    let _ = print!(rt; "  asked at");
    for nth in 0..16 {
        if let Some(node) = tree.asked(owner, nth) {
            put_node(rt, node);
        }
    }
    let _ = println!(rt; "");
}

fn tell_wanted(rt: &HostRuntime, tree: &Tree, owner: u32) {
    match tree.wanted(owner) {
        Some(need) => tell_need(rt, "wants", need),
        None => tell(rt, "wants nothing"),
    }
}

/// Does what a line says of it. False where it says nothing of the kind.
pub fn say_of_tree(rt: &HostRuntime, tree: &mut Tree, said: &Said<'_>) -> bool {
    let Said { owner, need, .. } = *said;
    match said.call {
        "want" => want_or_say(rt, tree, said, true),
        "want-now" => want_or_say(rt, tree, said, false),
        "notice" => notice(rt, tree, said),
        "give-up" => tree.give_up(owner),
        "release" => tree.release_all(owner),
        "mode" => tell_mode(rt, Some(tree.mode_of(owner, need.node))),
        "holds" => tell_truth(rt, tree.holds(owner, need)),
        "asked" => tell_asked(rt, tree, owner),
        "wanted" => tell_wanted(rt, tree, owner),
        _ => return false,
    }
    true
}
