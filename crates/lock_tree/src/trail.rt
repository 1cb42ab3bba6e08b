ghost use Rattle.std.specs.Prelude.{◌≡◌, ◌≤◌, ◌&&◌, ℕ, length, option_map, slice_get, vec_len, vec_capacity};
ghost use Rattle.rdb_types.specs.declared.node.Node.{Node};
ghost use Rattle.lock_tree_laws.specs.Parties.{was_asked as was_asked_at};
ghost use Rattle.lock_tree_laws.specs.Forest.{asks_of, is_asked_at, KeepsAsks};
ghost use Rattle.lock_tree_laws.specs.Order.{asks_cut};

use lock_needs::{Asked, Node, OpenWant, contains};

// Whether the want was asked at the node.
fn was_asked(want: OpenWant, node: Node) -> bool
    ensures { result ≡ was_asked_at want node }
{
    contains(node, want.here) || (node == want.here && want.is_asked)
}

// Forgets that the owner was asked for at other nodes than its want was.
pub(crate) fn cut_asks(trail: &mut Vec<Asked>, owner: u32, want: OpenWant)
    ensures cut { trail.new.items ≡ asks_cut owner want trail.old.items }
    ensures own { (n : Node) → is_asked_at trail.new.items owner n ≡ (is_asked_at trail.old.items owner n && was_asked_at want n) }
    ensures others { KeepsAsks owner trail.old.items trail.new.items }
    ensures bound { vec_len trail.new ≤ vec_len trail.old }
    ensures capacity { vec_capacity trail.new ≡ vec_capacity trail.old }
{
    trail.retain(|asked| asked.owner != owner || was_asked(want, asked.node));
}

// The node of the owner's entry at this place, from 0; None exactly where it has no more.
pub(crate) fn nth_ask(trail: &[Asked], owner: u32, nth: usize) -> Option<Node>
    ensures { result ≡ option_map (λ a. a.node) (slice_get (asks_of trail.now owner) nth) }
{
    let mut left = nth;
    for asked in trail {
        if asked.owner == owner {
            if left == 0 {
                return Some(asked.node);
            }
            left -= 1;
        }
    }
    None
}

// How many entries the owner has.
pub(crate) fn count_asks(trail: &[Asked], owner: u32) -> usize
    ensures { result ≡ length (asks_of trail.now owner) }
{
    trail.iter().filter(|asked| asked.owner == owner).count()
}
