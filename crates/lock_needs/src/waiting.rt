ghost use Rattle.std.specs.Prelude.{◌≡◌};
ghost use Rattle.lock_needs.specs.Waits.{upper_of as upper_node, converts_at, asked_before as came_first, has_asked as was_asked, holds_against, wants_against, waits_for as waits_by_needs};

use crate::need::{Need, conflict};
use crate::node::{contains, is_on};
use crate::party::{Asked, OpenWant, Party};
use rdb_types::Node;

// The upper of the nodes of two needs that conflict.
fn upper_of(a: Need, b: Need) -> Node
    ensures { result ≡ upper_node a b }
{
    if contains(b.node, a.node) {
        b.node
    } else {
        a.node
    }
}

// Whether a need is on the node or below it, so that a want there is a conversion.
fn has_lock_for(needs: &[Need], node: Node) -> bool
    ensures { result ≡ converts_at needs.now node }
{
    needs.iter().any(|need| is_on(node, need.node))
}

// Whether a want of the first owner was asked at the node, and before that of the second.
fn asked_before(asks: &[Asked], first: u32, second: u32, node: Node) -> bool
    ensures { result ≡ came_first first second node asks.now }
{
    for asked in asks {
        if asked.node == node && (asked.owner == first || asked.owner == second) {
            return asked.owner == first;
        }
    }
    false
}

// Whether a want of the owner was asked at some node.
fn has_asked(asks: &[Asked], owner: u32) -> bool
    ensures { result ≡ was_asked owner asks.now }
{
    asks.iter().any(|asked| asked.owner == owner)
}

// Whether the party has got a need that conflicts with this one.
fn holds_in_way(want: Need, party: &Party) -> bool
    ensures { result ≡ holds_against want party.now }
{
    party.needs().iter().any(|need| conflict(want, *need))
}

// Whether the open want of `other` conflicts with this one of `waiter`, and comes first.
fn wants_in_way(asks: &[Asked], waiter: u32, want: Need, blocker: u32, other: &Party) -> bool
    ensures { result ≡ wants_against asks.now waiter want blocker other.now }
{
    let Some(open) = other.opened() else {
        return false;
    };
    let upper = upper_of(want, open.need);
    conflict(want, open.need)
        && ((has_lock_for(other.needs(), upper) && has_asked(asks, blocker))
            || asked_before(asks, blocker, waiter, upper))
}

/// Whether the open want `want` of the owner `waiter` waits by needs for the owner `blocker`: it conflicts with a need that this
/// has got, or with an open want of it that comes first. `asks` are the nodes at which open wants were asked, in the order of
/// asking.
pub fn waits_for(asks: &[Asked], waiter: u32, want: Need, blocker: u32, other: &Party) -> bool
    ensures { result ≡ waits_by_needs asks.now waiter want blocker other.now }
{
    waiter != blocker
        && (holds_in_way(want, other) || wants_in_way(asks, waiter, want, blocker, other))
}
