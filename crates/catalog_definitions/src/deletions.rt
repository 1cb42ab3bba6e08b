// What deletions leave of the catalog.
ghost use Rattle.std.specs.Prelude.{◌≡◌, None};
ghost use Rattle.line_view.specs.Knowledge.{Lines, IsInOrder};
ghost use Rattle.rdo_ast.specs.Tree.{Name};
ghost use Rattle.rdb_meaning.specs.Contents.{relation_named};
ghost use Rattle.rdb_meaning.specs.Checks.{needs_some};
ghost use Rattle.rdb_meaning.specs.Defining.{without_index, without_relation};
ghost use Rattle.rdb_meaning.specs.Execution.{area_of};
ghost use Rattle.catalog.specs.declared.reading.Catalog.{Catalog};
ghost use Rattle.catalog.specs.Deletions.{is_index_named, is_of_relation, keys_where};
ghost use Rattle.catalog.specs.Reading.{IsCatalogOf};
ghost use Rattle.catalog_definitions.specs.Leaving.{Leaves, erasures};

/// A map without the lines that `delete_index` names has the catalog without the index.
pub fn index_goes()
    ensures { (all : Lines) (before : Catalog) (name : Name) → IsInOrder all → IsCatalogOf all before
        → Leaves all (erasures (keys_where (is_index_named name) before.lines)) (without_index name before.tables) }
{}

/// A map without the lines that `delete_relation` names has the catalog without the relation and its indexes.
pub fn relation_goes()
    ensures { (all : Lines) (before : Catalog) (name : Name) → IsInOrder all → IsCatalogOf all before
        → needs_some name (relation_named name before.tables) ≡ None
        → Leaves all (erasures (keys_where (is_of_relation (area_of (relation_named name before.tables))) before.lines)) (without_relation name before.tables) }
{}
