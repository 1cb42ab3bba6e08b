// Nodes as a view shows them.
ghost use Rattle.std.specs.Prelude.{◌≡◌, ⊤};
ghost use Rattle.sorted_index_laws.specs.Inner.Steps.{ReadsNode};
ghost use Rattle.sorted_index.specs.Reading.{ReadsBorrowed};

use crate::IndexStop;
use index_node::{IndexNode, read_node};
use line_view::{Need, Seen, Stop, View};
use node_search::{BorrowedNode, node_in};
use rdb_types::Dbkey;
use std::alloc::Global;

/// The node that stands on a line, where it lies.
pub(crate) fn borrowed_at<V: View>(view: &V, at: Dbkey) -> Result<BorrowedNode<'_>, IndexStop>
    ensures { ReadsBorrowed (V.knows view.now) at (λ node. ⊤) result }
{
    match view.line(at) {
        Seen::Unknown => Err(Stop::Missing(Need::Line(at))),
        Seen::Absent => Err(Stop::Bad(at)),
        Seen::Present(image) => node_in(image).ok_or(Stop::Bad(at)),
    }
}

/// The node of a child, which is of this level, where it lies.
pub(crate) fn borrowed_child<V: View>(
    view: &V,
    at: Dbkey,
    level: u8,
) -> Result<BorrowedNode<'_>, IndexStop>
    ensures { ReadsBorrowed (V.knows view.now) at (λ node. node.level ≡ level) result }
{
    let node = borrowed_at(view, at)?;
    if node.level == level {
        Ok(node)
    } else {
        Err(Stop::Bad(at))
    }
}

/// The node that stands on a line.
pub(crate) fn node_at<V: View>(alloc: Global, view: &V, at: Dbkey) -> Result<IndexNode, IndexStop>
    ensures { ReadsNode (V.knows view.now) at (λ node. ⊤) result }
{
    match view.line(at) {
        Seen::Unknown => Err(Stop::Missing(Need::Line(at))),
        Seen::Absent => Err(Stop::Bad(at)),
        Seen::Present(image) => read_node(alloc, image)?.ok_or(Stop::Bad(at)),
    }
}

/// The node of a child, which is of this level.
pub(crate) fn child_at<V: View>(
    alloc: Global,
    view: &V,
    at: Dbkey,
    level: u8,
) -> Result<IndexNode, IndexStop>
    ensures { ReadsNode (V.knows view.now) at (λ node. node.level ≡ level) result }
{
    let node = node_at(alloc, view, at)?;
    if node.level == level {
        Ok(node)
    } else {
        Err(Stop::Bad(at))
    }
}
