// The node of a line.
ghost use Rattle.std.specs.Prelude.{◌≡◌, IfOk, IfSome, IfNone};
ghost use Rattle.index_node.specs.declared.node.IndexNode.{IndexNode as Node};
ghost use Rattle.sorted_index_laws.specs.Inner.Steps.{IsKnownAs};

use index_node::{IndexNode, read_node};
use line_view::{Seen, View};
use rdb_types::{Dbkey, NoMemory};
use std::alloc::Global;

/// The node that stands on a line, where one is known to.
pub(crate) fn node_at<V: View>(
    alloc: Global,
    view: &V,
    at: Dbkey,
) -> Result<Option<IndexNode>, NoMemory>
    ensures some { IfOk result (λ read. IfSome read (IsKnownAs ((V.knows view.now).line at))) }
    ensures none { IfOk result (λ read. IfNone read ((node : Node) → IsKnownAs ((V.knows view.now).line at) node → ⊥)) }
{
    match view.line(at) {
        Seen::Unknown | Seen::Absent => Ok(None),
        Seen::Present(image) => read_node(alloc, image),
    }
}
