// A pair taken out of an index.
ghost use Rattle.std.specs.Prelude.{◌≡◌, ◌++◌, ◌∷◌, [], ℕ, Some, List, IfErr, OnOk, IfOk};
ghost use Rattle.index_node.specs.Node.{IsNode};
ghost use Rattle.line_view.specs.Knowledge.{Lines, Agrees};
ghost use Rattle.line_view.specs.declared.stop.Stop.TheVariants.{NoMemory};
ghost use Rattle.sorted_index_laws.specs.Tree.{Tree, node_of, pairs, Stands, IsIndex};
ghost use Rattle.sorted_index_laws.specs.Changes.{pair_of, without_pair, path, Changes};
ghost use Rattle.sorted_index_laws.specs.Inner.Steps.{IsLaid};
ghost use Rattle.sorted_index_laws.specs.Inner.Removal.{TakesOut};

use crate::IndexStop;
use crate::nodes::{child_at, node_at};
use crate::places::{child_of, child_place, take_pair};
use index_node::{IndexNode, put_node};
use line_view::{Stop, View, Write, Writes};
use rdb_types::{Dbkey, Value};
use std::alloc::Global;

pub(crate) fn write_node(at: Dbkey, node: &IndexNode, writes: &mut Writes) -> Result<(), IndexStop>
    requires { IsLaid node.now }
    ensures ok { OnOk result ((image : List ℕ) × (IsNode image node.now × (writes.new ≡ writes.old ++ record { key = at; image = Some image } ∷ []))) }
    ensures err { IfErr result (λ stop. stop ≡ NoMemory) }
{
    let Ok(image) = put_node(node) else {
        return Err(Stop::Bad(at));
    };
    writes.push(Write {
        key: at,
        image: Some(image),
    })?;
    Ok(())
}

// The node as it is without the pair below it. The lines below it are written, each node behind those below it; one that is left without entries is erased.
fn take_out<V: View>(
    alloc: Global,
    view: &V,
    node: IndexNode,
    key: &[Value],
    row: Dbkey,
    writes: &mut Writes,
) -> Result<IndexNode, IndexStop>
    requires { IsLaid node }
    ensures laid { IfOk result IsLaid }
    ensures takes { (all : Lines) (area level : ℕ) (tree : Tree level) → Agrees (V.knows view.now) all
        → Stands all area level tree → node_of level tree ≡ node
        → TakesOut (V.knows view.now) (pair_of key.now row) level tree writes.old writes.new result }
{
    let IndexNode { level, mut entries } = node;
    if level == 0 {
        let entries = take_pair(entries, key, row);
        return Ok(IndexNode { level, entries });
    }
    let at = child_place(entries.as_slice(), key, row);
    let Some(child) = child_of(entries.as_slice(), at) else {
        return Ok(IndexNode { level, entries });
    };
    let below = child_at(alloc, view, child, level - 1)?;
    let left = take_out(alloc, view, below, key, row, writes)?;
    if left.entries.is_empty() {
        writes.push(Write {
            key: child,
            image: None,
        })?;
        let _gone = entries.remove(at);
    } else {
        write_node(child, &left, writes)?;
    }
    Ok(IndexNode { level, entries })
}

/// The writes that take a pair out of an index: the nodes on the way to it, each of which is written, or erased where it has no entries left. The root stays.
pub fn remove<V: View>(
    alloc: Global,
    view: &V,
    root: Dbkey,
    key: &[Value],
    at: Dbkey,
) -> Result<Writes, IndexStop>
    ensures answers { (all : Lines) (level : ℕ) (tree : Tree level) → Agrees (V.knows view.now) all
        → IsIndex all root level tree
        → Changes (V.knows view.now) all root level tree (path (pair_of key.now at) level tree)
        (without_pair (pair_of key.now at) (pairs level tree)) result }
{
    let node = node_at(alloc, view, root)?;
    let mut writes = Writes::new(alloc);
    let left = take_out(alloc, view, node, key, at, &mut writes)?;
    write_node(root, &left, &mut writes)?;
    Ok(writes)
}
