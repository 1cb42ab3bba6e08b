ghost use Rattle.std.specs.Prelude.{◌≡◌, ℕ, Some, true};
ghost use Rattle.rdb_types.specs.declared.node.Node.{Node};
ghost use Rattle.vms_queues.specs.Queues.{is_queued};
ghost use Rattle.vms_locks.specs.Table.{table_of, queues_at};
ghost use Rattle.vms_queues.specs.Owners.{is_owner};
ghost use Rattle.vms_locks.specs.Places.{place_of, still_at};

use crate::places::Places;
use crate::table::is_queued_at;
use indexmap::IndexMap;
use rdb_types::Node;
use vms_queues::Resource;

// The owner's place once the node's queues have changed.
fn place_after(
    table: &IndexMap<Node, Resource>,
    node: Node,
    owner: u32,
    place: Option<Node>,
) -> Option<Node>
    ensures { result ≡ still_at node (is_queued owner (queues_at (table_of table.now) node)) place }
{
    match place {
        Some(at) if at == node && !is_queued_at(table, node, owner) => None,
        _ => place,
    }
}

// Empties the places of those who no longer have a queued request at the node, since it was granted or taken back.
pub(crate) fn review(table: &IndexMap<Node, Resource>, places: &mut Places, node: Node)
    requires ranges { (owner : ℕ) (n : Node) → place_of places.old owner ≡ Some n → is_owner owner ≡ true }
    ensures { (owner : ℕ) → place_of places.new owner ≡ still_at node (is_queued owner (queues_at (table_of table.now) node)) (place_of places.old owner) }
{
    for owner in 1..17 {
        let place = place_after(table, node, owner, places.of(owner));
        places.set(owner, place);
    }
}
