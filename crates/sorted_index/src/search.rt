// Searches of an index for its pairs.
ghost use Rattle.std.specs.Prelude.{◌≡◌, ◌++◌, ℕ, IfErr, OnOk};
ghost use Rattle.index_node.specs.declared.node.IndexNode.{IndexNode};
ghost use Rattle.line_view.specs.declared.stop.Stop.TheVariants.{NoMemory};
ghost use Rattle.line_view.specs.Knowledge.{Lines, Agrees};
ghost use Rattle.node_search.specs.Nodes.{Holds};
ghost use Rattle.node_search.specs.Wanted.{interval_of};
ghost use Rattle.sorted_index_laws.specs.Keys.{only, between};
ghost use Rattle.sorted_index_laws.specs.Tree.{Tree, node_of, pairs, Stands, IsIndex};
ghost use Rattle.sorted_index_laws.specs.Search.{rows_within, reads_below, reads, Answers};
ghost use Rattle.sorted_index_laws.specs.Nodes.{Judges, JudgesIndex};
ghost use Rattle.sorted_index_laws.specs.Inner.Steps.{Adds};

use crate::IndexStop;
use crate::nodes::{borrowed_at, borrowed_child};
use line_view::View;
use node_search::{BorrowedNode, Wanted, first_entry, next_entry, wanted_child};
use rdb_types::{Dbkey, Keys, Value};
use sorted_index_laws::Bounds;
use std::alloc::Global;

// Adds the rows of the entries of a node.
fn add_rows(node: BorrowedNode<'_>, wanted: Wanted<'_>, found: &mut Keys) -> Result<(), IndexStop>
    ensures ok { OnOk result ((shown : IndexNode) → Holds node.entry shown → found.new ≡ found.old ++ rows_within (interval_of wanted.entry) shown.entries) }
    ensures err { IfErr result (λ stop. stop ≡ NoMemory) }
{
    let mut next = first_entry(node);
    while let Some(own) = next {
        if wanted.holds(own.entry.key) {
            found.push(own.entry.row)?;
        }
        next = next_entry(node, own);
    }
    Ok(())
}

// Adds the rows of the pairs below a node.
fn search_below<V: View>(
    view: &V,
    node: BorrowedNode<'_>,
    wanted: Wanted<'_>,
    found: &mut Keys,
) -> Result<(), IndexStop>
    ensures adds { (all : Lines) (area level : ℕ) (tree : Tree level) → Agrees (V.knows view.now) all
        → Stands all area level tree → Holds node.entry (node_of level tree)
        → Adds (V.knows view.now) (reads_below (interval_of wanted.entry) level tree)
        (rows_within (interval_of wanted.entry) (pairs level tree)) found.old found.new result }
    ensures nodes { (shown : IndexNode) → Holds node.entry shown → (all : Lines) → Agrees (V.knows view.now) all
        → Judges all (interval_of wanted.entry) shown.level shown.entries result }
{
    if node.level == 0 {
        return add_rows(node, wanted, found);
    }
    let mut is_first = true;
    let mut next = first_entry(node);
    while let Some(own) = next {
        next = next_entry(node, own);
        let child = wanted_child(wanted, is_first, own.entry, next);
        is_first = false;
        let Some(child) = child else {
            continue;
        };
        let below = borrowed_child(view, child, node.level - 1)?;
        search_below(view, below, wanted, found)?;
    }
    Ok(())
}

fn search<V: View>(
    alloc: Global,
    view: &V,
    root: Dbkey,
    wanted: Wanted<'_>,
) -> Result<Keys, IndexStop>
    ensures answers { (all : Lines) (level : ℕ) (tree : Tree level) → Agrees (V.knows view.now) all
        → IsIndex all root level tree
        → Answers (V.knows view.now) (reads (interval_of wanted.entry) level tree)
        (rows_within (interval_of wanted.entry) (pairs level tree)) result }
    ensures nodes { (all : Lines) → Agrees (V.knows view.now) all → JudgesIndex all (interval_of wanted.entry) root result }
{
    let node = borrowed_at(view, root)?;
    let mut found = Keys::new(alloc);
    search_below(view, node, wanted, &mut found)?;
    Ok(found)
}

/// The rows of the pairs with this key, in the order of their Dbkeys.
pub fn find<V: View>(alloc: Global, view: &V, root: Dbkey, key: &[Value]) -> Result<Keys, IndexStop>
    ensures answers { (all : Lines) (level : ℕ) (tree : Tree level) → Agrees (V.knows view.now) all
        → IsIndex all root level tree
        → Answers (V.knows view.now) (reads (only key.now) level tree)
        (rows_within (only key.now) (pairs level tree)) result }
    ensures nodes { (all : Lines) → Agrees (V.knows view.now) all → JudgesIndex all (only key.now) root result }
{
    search(alloc, view, root, Wanted::Key(key))
}

/// The rows of the pairs with keys within bounds, in the order of the pairs.
pub fn range<V: View>(
    alloc: Global,
    view: &V,
    root: Dbkey,
    bounds: &Bounds,
) -> Result<Keys, IndexStop>
    ensures answers { (all : Lines) (level : ℕ) (tree : Tree level) → Agrees (V.knows view.now) all
        → IsIndex all root level tree
        → Answers (V.knows view.now) (reads (between bounds.now) level tree)
        (rows_within (between bounds.now) (pairs level tree)) result }
    ensures nodes { (all : Lines) → Agrees (V.knows view.now) all → JudgesIndex all (between bounds.now) root result }
{
    search(alloc, view, root, Wanted::Within(bounds))
}
