// Laws of the pairs that indexes hold.
ghost use Rattle.std.specs.Prelude.{◌≡◌, ℕ, true, List, Some, None};
ghost use Rattle.std.specs.List.Sorted.{IsStrictlySortedBy};
ghost use Rattle.rdb_types.specs.declared.keys.Dbkey.{Dbkey as Place};
ghost use Rattle.index_node.specs.Order.{entry_order};
ghost use Rattle.index_node.specs.declared.entry.NodeEntry.{NodeEntry as Pair};
ghost use Rattle.line_view.specs.Knowledge.{Lines, Knowledge, Agrees};
ghost use Rattle.sorted_index_laws.specs.Tree.{Tree, pairs, places, IsIndex};
ghost use Rattle.sorted_index_laws.specs.Search.{first_unknown};
ghost use Rattle.sorted_index_laws.specs.Changes.{has_line, path};

/// The pairs of an index ascend by their keys, and those of equal keys by their rows. No map has two lists of pairs for one root.
pub fn pairs_are_ordered()
    ensures ascend { (lines : Lines) (root : Place) (level : ℕ) (tree : Tree level)
        → IsIndex lines root level tree → IsStrictlySortedBy entry_order (pairs level tree) }
    ensures one { (lines : Lines) (root : Place) (level other : ℕ) (a : Tree level) (b : Tree other)
        → IsIndex lines root level a → IsIndex lines root other b → pairs level a ≡ pairs other b }
{}

/// The lines on the way to a pair are lines of the index's nodes. Where all of them are known, each is known to be present.
pub fn the_way_is_in_the_index()
    ensures places { (pair : Pair) (level : ℕ) (tree : Tree level) (key : Place)
        → has_line (path pair level tree) key ≡ true → has_line (places level tree) key ≡ true }
    ensures present { (known : Knowledge) (all : Lines) (root : Place) (pair : Pair) (level : ℕ) (tree : Tree level) (key : Place)
        → Agrees known all → IsIndex all root level tree → first_unknown known (path pair level tree) ≡ None
        → has_line (path pair level tree) key ≡ true → (image : List ℕ) × (known.line key ≡ Some (Some image)) }
{}
