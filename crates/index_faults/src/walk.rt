// The nodes of an index, gone over from its root.
ghost use Rattle.relation_rows.specs.Stored.{IsAreaKnown};
ghost use Rattle.std.specs.Prelude.{◌≡◌, ◌≤◌, ◌<◌, ◌++◌, ◌∷◌, [], ℕ, List, true, false, Some, length, drop, get_or, IsSome, IfOk, IfSome, IfNone, OnOk};
ghost use Rattle.std.specs.List.{All};
ghost use Rattle.rdb_types.specs.declared.keys.Dbkey.{Dbkey as Place};
ghost use Rattle.index_node.specs.declared.entry.NodeEntry.{NodeEntry as Entry};
ghost use Rattle.index_node.specs.Node.{IsAllowedNode};
ghost use Rattle.line_view.specs.Knowledge.{Lines, Agrees};
ghost use Rattle.index_faults.specs.Walks.{has_level as has_level_of, are_between as are_between_of, IsReached, IsNotFound, IsMissed, IsJudged, Walks, IsInOrderWith};

use crate::between::are_between;
use crate::nodes::node_at;
use index_node::{IndexNode, NodeEntry};
use line_view::View;
use rdb_types::{Dbkey, Items, Keys, NoMemory};
use std::alloc::Global;
use std::collections::BTreeSet;

/// What was found of an index: its logical area, the lines that were reached, the pairs of its leaves in their order, and the lines at fault.
#[derive(Drop)]
pub struct Walk {
    pub area: u32,
    pub reached: BTreeSet<Dbkey>,
    pub pairs: Items<NodeEntry>,
    pub faults: Keys,
}

// Whether a node is of this level, if one is asked for.
fn has_level(node: &IndexNode, level: Option<u8>) -> bool
    ensures { result ≡ has_level_of level node.now }
{
    match level {
        Some(level) => node.level == level,
        None => true,
    }
}

// The node of a line that is reached: a node of this level, on a line of the index's area that wasn't reached before.
fn find<V: View>(
    alloc: Global,
    view: &V,
    at: Dbkey,
    level: Option<u8>,
    walk: &mut Walk,
) -> Result<Option<IndexNode>, NoMemory>
    ensures node { IfOk result (λ read. IfSome read (λ node. IsReached (V.knows view.now) at level node walk.old walk.new)) }
    ensures none { IfOk result (λ read. IfNone read (IsNotFound (V.knows view.now) at level walk.old walk.new)) }
{
    if at.area != walk.area {
        return Ok(None);
    }
    if !walk.reached.insert(at)? {
        return Ok(None);
    }
    let Some(node) = node_at(alloc, view, at)? else {
        return Ok(None);
    };
    if has_level(&node, level) {
        Ok(Some(node))
    } else {
        Ok(None)
    }
}

// The node of a line that is reached. A line that isn't found is at fault.
fn reach<V: View>(
    alloc: Global,
    view: &V,
    at: Dbkey,
    level: Option<u8>,
    walk: &mut Walk,
) -> Result<Option<IndexNode>, NoMemory>
    ensures node { IfOk result (λ read. IfSome read (λ node. IsReached (V.knows view.now) at level node walk.old walk.new)) }
    ensures none { IfOk result (λ read. IfNone read (IsMissed (V.knows view.now) at level walk.old walk.new)) }
{
    match find(alloc, view, at, level, walk)? {
        Some(node) => Ok(Some(node)),
        None => {
            walk.faults.push(at)?;
            Ok(None)
        }
    }
}

// The child of the entry at a place.
fn child_of(entries: &[NodeEntry], at: usize) -> Dbkey
    requires within { at < length entries.now }
    requires children { All (λ e. IsSome e.child) entries.now }
    ensures { (d : Entry) → (get_or entries.now at d).child ≡ Some result }
{
    match entries[at].child {
        Some(child) => child,
        None => unreachable!(),
    }
}

// Where nothing below a child is at fault, its pairs have to stand between the entries beside it, or it is at fault.
fn judge(
    child: Dbkey,
    at: usize,
    entries: &[NodeEntry],
    pairs: usize,
    faults: usize,
    walk: &mut Walk,
) -> Result<(), NoMemory>
    requires within { at < length entries.now }
    requires pairs { pairs ≤ length walk.old.pairs }
    ensures { OnOk result (IsJudged child (are_between_of at entries.now (drop pairs walk.old.pairs)) faults walk.old walk.new) }
{
    let below = &walk.pairs.as_slice()[pairs..];
    if walk.faults.len() == faults && !are_between(at, entries, below) {
        walk.faults.push(child)?;
    }
    Ok(())
}

// Goes over what is below a node that was reached.
fn walk_below<V: View>(
    alloc: Global,
    view: &V,
    node: IndexNode,
    walk: &mut Walk,
) -> Result<(), NoMemory>
    requires { IsAllowedNode node }
    ensures { OnOk result (Walks (V.knows view.now) node walk.old walk.new) }
{
    let IndexNode { level, entries } = node;
    if level == 0 {
        walk.pairs.append(entries)?;
        return Ok(());
    }
    for at in 0..entries.len() {
        let child = child_of(entries.as_slice(), at);
        let pairs = walk.pairs.len();
        let faults = walk.faults.len();
        let Some(below) = reach(alloc, view, child, Some(level - 1), walk)? else {
            continue;
        };
        walk_below(alloc, view, below, walk)?;
        judge(child, at, entries.as_slice(), pairs, faults, walk)?;
    }
    Ok(())
}

/// Goes over the index of a root, in a view that knows its logical area. Where nothing is at fault, it is in order, with the pairs that were found; where a line is, it isn't. A line that is reached is to be a node of the index's area, of one level less than the node above it, and to be reached once; the pairs below a child are to stand between the entries beside it. Lines that aren't so are at fault, and what is below them is left out.
pub fn walk_index<V: View>(alloc: Global, view: &V, root: Dbkey) -> Result<Walk, NoMemory>
    ensures fine { IfOk result (λ walk. walk.faults ≡ [] → (all : Lines) → Agrees (V.knows view.now) all
        → IsInOrderWith all root walk.pairs) }

    // A line at fault tells that the index isn't in order.
    ensures at_fault { IfOk result (λ walk. (walk.faults ≡ [] → ⊥) → IsAreaKnown (V.knows view.now) root.area
        → (all : Lines) → Agrees (V.knows view.now) all
        → (held : List Entry) → IsInOrderWith all root held → ⊥) }
{
    let mut walk = Walk {
        area: root.area,
        reached: BTreeSet::new(alloc),
        pairs: Items::new(alloc),
        faults: Keys::new(alloc),
    };
    if let Some(node) = reach(alloc, view, root, None, &mut walk)? {
        walk_below(alloc, view, node, &mut walk)?;
    }
    Ok(walk)
}
