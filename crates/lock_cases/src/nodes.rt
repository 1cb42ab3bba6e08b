// Nodes and needs.
use crate::answers::{tell, tell_node, tell_truth};
use crate::said::Said;
use lock_needs::{
    Node, conflict, contains, covers_below, is_excess, is_on, node_above, on_way, step_towards,
};

fn tell_above(rt: &HostRuntime, node: Node) {
    match node_above(node) {
        Some(above) => tell_node(rt, "under", above),
        None => tell(rt, "under nothing"),
    }
}

/// Says what a line asks. False where it asks nothing of the kind.
pub fn say_of_nodes(rt: &HostRuntime, said: &Said<'_>) -> bool {
    let (need, second) = (said.need, said.second);
    let (upper, lower) = (need.node, second.node);
    match said.call {
        "above" => tell_above(rt, upper),
        "step" => tell_node(rt, "by", step_towards(upper, lower)),
        "way" => tell_node(rt, "by", on_way(upper.level, lower)),
        "contains" => tell_truth(rt, contains(upper, lower)),
        "on" => tell_truth(rt, is_on(upper, lower)),
        "conflict" => tell_truth(rt, conflict(need, second)),
        "covers" => tell_truth(rt, covers_below(need.mode, second.mode)),
        "excess" => tell_truth(rt, is_excess(need.mode, second.mode)),
        _ => return false,
    }
    true
}
