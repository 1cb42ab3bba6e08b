// The nodes of an index that a search will lack, from the root down over those that are known.
ghost use Rattle.std.specs.Prelude.{◌≡◌, ◌≤◌, IfOk, IfSome, OnOk};
ghost use Rattle.index_ahead.specs.Added.{AddsOnly};
ghost use Rattle.index_ahead.specs.Ahead.{IsUnknownIn};

use line_view::{Seen, View};
use node_search::{BorrowedNode, Wanted, first_entry, next_entry, node_in, wanted_child};
use rdb_types::{Dbkey, NoMemory};
use std::collections::BTreeSet;

// The node on a known line, where it is of this level at most and above the leaves. A line of the area that isn't known is added.
fn node_above_leaves<'a, V: View>(
    view: &'a V,
    at: Dbkey,
    level: u8,
    area: u32,
    keys: &mut BTreeSet<Dbkey>,
) -> Result<Option<BorrowedNode<'a>>, NoMemory>
    ensures node { IfOk result (λ found. IfSome found (λ node. (1 ≤ node.level) × (node.level ≤ level))) }
    ensures adds { OnOk result (AddsOnly (IsUnknownIn (V.knows view.now) area) keys.old.keys keys.new.keys) }
{
    match view.line(at) {
        Seen::Unknown if at.area == area => {
            let _is_new = keys.insert(at)?;
            Ok(None)
        }
        Seen::Present(image) if level > 0 => {
            Ok(node_in(image).filter(|node| node.level > 0 && node.level <= level))
        }
        _ => Ok(None),
    }
}

// Adds what a search lacks below a node.
fn add_below<V: View>(
    view: &V,
    node: BorrowedNode<'_>,
    wanted: Wanted<'_>,
    area: u32,
    keys: &mut BTreeSet<Dbkey>,
) -> Result<(), NoMemory>
    requires { 1 ≤ node.level }
    ensures { OnOk result (AddsOnly (IsUnknownIn (V.knows view.now) area) keys.old.keys keys.new.keys) }
{
    let mut is_first = true;
    let mut next = first_entry(node);
    while let Some(own) = next {
        next = next_entry(node, own);
        let child = wanted_child(wanted, is_first, own.entry, next);
        is_first = false;
        let Some(child) = child else {
            continue;
        };
        let Some(below) = node_above_leaves(view, child, node.level - 1, area, keys)? else {
            continue;
        };
        add_below(view, below, wanted, area, keys)?;
    }
    Ok(())
}

/// Adds the lines of an index that a search lacks and the known nodes tell of: the root, or children below which a pair that is wanted may stand. Where a line isn't a node of its level, nothing below it is added.
pub fn add_unknown<V: View>(
    view: &V,
    root: Dbkey,
    wanted: Wanted<'_>,
    keys: &mut BTreeSet<Dbkey>,
) -> Result<(), NoMemory>
    ensures { OnOk result (AddsOnly (IsUnknownIn (V.knows view.now) root.area) keys.old.keys keys.new.keys) }
{
    match node_above_leaves(view, root, u8::MAX, root.area, keys)? {
        Some(node) => add_below(view, node, wanted, root.area, keys),
        None => Ok(()),
    }
}
