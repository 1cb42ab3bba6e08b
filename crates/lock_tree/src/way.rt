ghost use Rattle.std.specs.Prelude.{◌≡◌, true, Some, None, IfSome, IfNone};
ghost use Rattle.lock_needs.specs.Nodes.{is_on, above_of};
ghost use Rattle.lock_tree_laws.specs.Parties.{unasked};
ghost use Rattle.lock_tree_laws.specs.Wanted.{top_from, opening_of};

use lock_needs::{Level, Need, Node, OpenWant, on_way, step_towards};

// The topmost node on the way to the node.
fn top_of(node: Node) -> Node
    ensures value { result ≡ top_from node.level node }
    ensures top { above_of result ≡ None }
    ensures way { is_on result node ≡ true }
{
    match node.level {
        Level::Journal => node,
        _ => on_way(Level::Area, node),
    }
}

// A want, as it opens: at the topmost node of its way, with nothing asked.
pub(crate) fn opening(need: Need) -> OpenWant
    ensures value { result ≡ opening_of need }
    ensures need { result.need ≡ need }
    ensures unasked { result ≡ unasked result }
    ensures top { above_of result.here ≡ None }
    ensures way { is_on result.here need.node ≡ true }
{
    OpenWant {
        need,
        here: top_of(need.node),
        is_asked: false,
    }
}

// The want, one node further down its way; None where it has come to the node of its need.
pub(crate) fn further_down(want: OpenWant) -> Option<OpenWant>
    requires way { is_on want.here want.need.node ≡ true }

    ensures need { IfSome result (λ w. w.need ≡ want.need) }
    ensures unasked { IfSome result (λ w. w ≡ unasked w) }
    ensures above { IfSome result (λ w. above_of w.here ≡ Some want.here) }
    ensures way { IfSome result (λ w. is_on w.here w.need.node ≡ true) }
    ensures there { IfNone result (want.here ≡ want.need.node) }
{
    if want.here == want.need.node {
        return None;
    }
    Some(OpenWant {
        need: want.need,
        here: step_towards(want.here, want.need.node),
        is_asked: false,
    })
}
