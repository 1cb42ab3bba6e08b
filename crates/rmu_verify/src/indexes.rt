// The indexes.
ghost use Rattle.std.specs.Prelude.{◌≡◌, ◌++◌, ℕ, List, [], ◌∷◌, OnOk, IfOk};
ghost use Rattle.rdb_types.specs.declared.keys.Dbkey.{Dbkey as Place};
ghost use Rattle.rdo_ast.specs.Tree.{Name};
ghost use Rattle.rdb_meaning.specs.Contents.{Row};
ghost use Rattle.rdb_page.specs.Page.{IsOwner};
ghost use Rattle.std.specs.List.Sorted.{IsStrictlySortedBy};
ghost use Rattle.index_node.specs.declared.entry.NodeEntry.{NodeEntry as Entry};
ghost use Rattle.index_node.specs.Order.{entry_order};
ghost use Rattle.index_faults.specs.Contents.{HasTheRows, HoldsRows};
ghost use Rattle.index_faults.specs.Walks.{IsInOrderWith};
ghost use Rattle.catalog.specs.Reading.{IsWhole};
ghost use Rattle.catalog_lines.specs.Lines.{IsIndexLine, IsAllowedLine};
ghost use Rattle.sound_lines.specs.Contents.{versions_in};
ghost use Rattle.verified_lines.specs.Relations.{entry_in as entry_at, IsJudgedOf, FindsIndex, FindsIndexes};
ghost use Rattle.areas_at_rest.specs.Runs.{IsQuiet, AtRest};
ghost use Rattle.rmu_verify.specs.Added.{IsRooted};

use crate::relations::{entry_in, version_of};
use areas_at_rest::{RestReading, view_of};
use catalog::Catalog;
use catalog_lines::{CatalogLine, IndexLine};
use index_faults::{Judgement, Walk, judge_contents, walk_index};
use index_node::NodeEntry;
use line_opening::OpeningFault;
use rdb_outside::Disk;
use rdb_types::{Chars, Copied, Dbkey, Items, Keys, NoMemory};
use relation_rows::StoredRelation;
use std::alloc::Global;

/// The nodes that are at fault, and the indexes that don't hold their rows' keys, in the order of the catalog's lines.
#[derive(Drop)]
pub(crate) struct IndexFaults {
    pub nodes: Keys,
    pub names: Items<Chars>,
}

fn walk_of<D: Disk>(
    alloc: Global,
    disk: &mut D,
    held: &RestReading,
    root: Dbkey,
) -> Result<Walk, OpeningFault>
    ensures found { IfOk result (λ walk. walk.faults ≡ [] → (file : ℕ) → IsOwner file root.area
        → AtRest (D.view disk.old) held.now (λ all. IsInOrderWith all root walk.pairs)) }
    ensures at_fault { IfOk result (λ walk. (walk.faults ≡ [] → ⊥) → (file : ℕ) → IsOwner file root.area
        → AtRest (D.view disk.old) held.now (λ all. (pairs : List Entry) → IsInOrderWith all root pairs → ⊥)) }
    ensures quiet { IsQuiet held.now.faulty (D.view disk.old) (D.view disk.new) result }
{
    let known = view_of(alloc, disk, held, root.area)?;
    match walk_index(alloc, &known, root) {
        Ok(walk) => Ok(walk),
        Err(_) => Err(OpeningFault::NoMemory),
    }
}

fn judged<D: Disk>(
    alloc: Global,
    disk: &mut D,
    held: &RestReading,
    relation: &StoredRelation<'_>,
    index: &IndexLine,
    pairs: &[NodeEntry],
) -> Result<Judgement, OpeningFault>
    ensures holds { IfOk result (λ judged. judged ≡ Judgement.Holds → (file : ℕ) → IsOwner file relation.now.area
        → AtRest (D.view disk.old) held.now (λ all. (rows : List (Place × Row)) → HasTheRows relation.now all rows
        → IsStrictlySortedBy entry_order pairs.now → HoldsRows index.now.fields index.now.unique pairs.now rows)) }
    ensures differs { IfOk result (λ judged. judged ≡ Judgement.Differs → (file : ℕ) → IsOwner file relation.now.area
        → AtRest (D.view disk.old) held.now (λ all. (rows : List (Place × Row)) → HasTheRows relation.now all rows
        → IsStrictlySortedBy entry_order pairs.now → HoldsRows index.now.fields index.now.unique pairs.now rows → ⊥)) }
    ensures unjudged { IfOk result (λ judged. judged ≡ Judgement.Unjudged → (file : ℕ) → IsOwner file relation.now.area
        → AtRest (D.view disk.old) held.now (λ all. (rows : List (Place × Row)) → HasTheRows relation.now all rows → ⊥)) }
    ensures quiet { IsQuiet held.now.faulty (D.view disk.old) (D.view disk.new) result }
{
    let known = view_of(alloc, disk, held, relation.area)?;
    match judge_contents(alloc, &known, relation, index, pairs) {
        Ok(judgement) => Ok(judgement),
        Err(_) => Err(OpeningFault::NoMemory),
    }
}

fn add_name(alloc: Global, name: &Chars, names: &mut Items<Chars>) -> Result<(), NoMemory>
    ensures { OnOk result (names.new ≡ names.old ++ name.now ∷ []) }
{
    names.push(name.copied(alloc)?)?;
    Ok(())
}

// Adds what is at fault of one index.
fn verify_index<D: Disk>(
    alloc: Global,
    disk: &mut D,
    held: &RestReading,
    catalog: &Catalog,
    index: &IndexLine,
    found: &mut IndexFaults,
) -> Result<(), OpeningFault>
    requires whole { IsWhole catalog.now }
    requires allowed { IsIndexLine index.now }
    requires rooted { index.now.root.area ≡ index.now.area }
    ensures found { OnOk result (AtRest (D.view disk.old) held.now (λ all. (nodes : List Place) × (names : List Name)
        × (found.new.nodes ≡ found.old.nodes ++ nodes) × (found.new.names ≡ found.old.names ++ names)
        × IsJudgedOf all (versions_in catalog.now.lines) (entry_at index.now.relation catalog.now.tables.relations) index.now nodes names)) }
    ensures quiet { IsQuiet held.now.faulty (D.view disk.old) (D.view disk.new) result }
{
    let Some((name, relation)) = entry_in(&catalog.tables, index.relation) else {
        return Ok(());
    };
    let walk = walk_of(alloc, disk, held, index.root)?;
    if !walk.faults.is_empty() {
        let Ok(()) = found.nodes.append(walk.faults) else {
            return Err(OpeningFault::NoMemory);
        };
        return Ok(());
    }
    let stored = StoredRelation {
        area: relation.area,
        version: version_of(catalog.lines.as_slice(), name),
        fields: relation.fields.as_slice(),
    };
    match judged(alloc, disk, held, &stored, index, walk.pairs.as_slice())? {
        Judgement::Holds => Ok(()),
        Judgement::Unjudged => Ok(()),
        Judgement::Differs => match add_name(alloc, &index.name, &mut found.names) {
            Ok(()) => Ok(()),
            Err(_) => Err(OpeningFault::NoMemory),
        },
    }
}

// Adds what is at fault of a line of the catalog.
fn verify_line<D: Disk>(
    alloc: Global,
    disk: &mut D,
    held: &RestReading,
    catalog: &Catalog,
    line: &CatalogLine,
    found: &mut IndexFaults,
) -> Result<(), OpeningFault>
    requires whole { IsWhole catalog.now }
    requires allowed { IsAllowedLine line.now }
    requires rooted { IsRooted line.now }
    ensures found { OnOk result (AtRest (D.view disk.old) held.now (λ all. (nodes : List Place) × (names : List Name)
        × (found.new.nodes ≡ found.old.nodes ++ nodes) × (found.new.names ≡ found.old.names ++ names)
        × FindsIndex all (versions_in catalog.now.lines) catalog.now.tables line.now nodes names)) }
    ensures quiet { IsQuiet held.now.faulty (D.view disk.old) (D.view disk.new) result }
{
    match line {
        CatalogLine::Index(index) => verify_index(alloc, disk, held, catalog, index, found),
        CatalogLine::Relation(_) => Ok(()),
        CatalogLine::Global(_) => Ok(()),
        CatalogLine::Field(_) => Ok(()),
    }
}

/// Adds what is at fault of all indexes of a catalog. The lines of one index's area are in memory at a time, and then its pairs with the lines of its relation's area.
pub(crate) fn verify_indexes<D: Disk>(
    alloc: Global,
    disk: &mut D,
    held: &RestReading,
    catalog: &Catalog,
    found: &mut IndexFaults,
) -> Result<(), OpeningFault>
    requires { IsWhole catalog.now }
    ensures found { OnOk result (AtRest (D.view disk.old) held.now (λ all. (nodes : List Place) × (names : List Name)
        × (found.new.nodes ≡ found.old.nodes ++ nodes) × (found.new.names ≡ found.old.names ++ names)
        × FindsIndexes all (versions_in catalog.now.lines) catalog.now.tables catalog.now.lines nodes names)) }
    ensures quiet { IsQuiet held.now.faulty (D.view disk.old) (D.view disk.new) result }
{
    for line in catalog.lines.as_slice() {
        verify_line(alloc, disk, held, catalog, &line.line, found)?;
    }
    Ok(())
}
