// The faults of lines, kind by kind, in their order.
ghost use Rattle.std.specs.Prelude.{◌≡◌, ◌++◌, ◌∷◌, [], map, OnOk, IfOk};
ghost use Rattle.line_view.specs.Held.{ordered};
ghost use Rattle.verified_lines.specs.Faults.{names_in_order};
ghost use Rattle.rmu_verify.specs.Listing.{key_fault, all_faults};

use crate::indexes::IndexFaults;
use line_faults::ascending;
use ordered_entries::Entries;
use rdb_types::{Chars, Copied, Dbkey, Items, NoMemory};
use rmu_texts::{Faults, VerifyFault};
use std::alloc::Global;
use std::collections::BTreeSet;

/// Whose line is at fault.
#[derive(Clone, Copy, Debug, PartialEq, Eq)]
pub(crate) enum LineKind {
    Catalog,
    Row,
    Node,
}

/// What is at fault of the indexes, in ascending order.
#[derive(Drop)]
pub(crate) struct SortedFaults {
    pub nodes: BTreeSet<Dbkey>,
    pub names: Entries<Chars, ()>,
}

fn put_names(alloc: Global, names: &Items<Chars>) -> Result<Entries<Chars, ()>, NoMemory>
    ensures { IfOk result (λ sorted. map (λ e. e.0) sorted ≡ names_in_order names.now) }
{
    let mut sorted = Entries::new(alloc);
    for name in names.as_slice() {
        sorted.put(name.copied(alloc)?, ())?;
    }
    Ok(sorted)
}

/// Puts what is at fault of the indexes in order.
pub(crate) fn sorted(alloc: Global, found: &IndexFaults) -> Result<SortedFaults, NoMemory>
    ensures nodes { IfOk result (λ sorted. sorted.nodes.keys ≡ ordered found.now.nodes) }
    ensures names { IfOk result (λ sorted. map (λ e. e.0) sorted.names ≡ names_in_order found.now.names) }
{
    let nodes = ascending(alloc, found.nodes.as_slice())?;
    let names = put_names(alloc, &found.names)?;
    Ok(SortedFaults { nodes, names })
}

fn fault_of(kind: LineKind, key: Dbkey) -> VerifyFault
    ensures { result ≡ key_fault kind key }
{
    match kind {
        LineKind::Catalog => VerifyFault::Catalog(key),
        LineKind::Row => VerifyFault::Row(key),
        LineKind::Node => VerifyFault::Node(key),
    }
}

fn add_keys(kind: LineKind, keys: &BTreeSet<Dbkey>, faults: &mut Faults) -> Result<(), NoMemory>
    ensures { OnOk result (faults.new ≡ faults.old ++ map (key_fault kind) keys.now.keys) }
{
    for key in keys {
        faults.push(fault_of(kind, *key))?;
    }
    Ok(())
}

fn add_name(alloc: Global, name: &Chars, faults: &mut Faults) -> Result<(), NoMemory>
    ensures { OnOk result (faults.new ≡ faults.old ++ VerifyFault.Index name.now ∷ []) }
{
    faults.push(VerifyFault::Index(name.copied(alloc)?))?;
    Ok(())
}

fn add_names(alloc: Global, names: &Entries<Chars, ()>, faults: &mut Faults) -> Result<(), NoMemory>
    ensures { OnOk result (faults.new ≡ faults.old ++ map (λ e. VerifyFault.Index e.0) names.now) }
{
    for (name, _) in names.as_slice() {
        add_name(alloc, name, faults)?;
    }
    Ok(())
}

/// Adds the faults of lines: of the catalog, of rows, of nodes, of indexes.
pub(crate) fn add_all(
    alloc: Global,
    catalog: &BTreeSet<Dbkey>,
    lines: &BTreeSet<Dbkey>,
    trees: &SortedFaults,
    faults: &mut Faults,
) -> Result<(), NoMemory>
    ensures { OnOk result (faults.new
        ≡ faults.old ++ all_faults catalog.now.keys lines.now.keys trees.now.nodes.keys (map (λ e. e.0) trees.now.names)) }
{
    add_keys(LineKind::Catalog, catalog, faults)?;
    add_keys(LineKind::Row, lines, faults)?;
    add_keys(LineKind::Node, &trees.nodes, faults)?;
    add_names(alloc, &trees.names, faults)
}
