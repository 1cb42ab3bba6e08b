// Laws of the rows that are come by.
ghost use Rattle.std.specs.Prelude.{◌≡◌, List};
ghost use Rattle.std.specs.List.{AllByRecursion};
ghost use Rattle.rdb_types.specs.declared.keys.Dbkey.{Dbkey as Place};
ghost use Rattle.rdb_meaning.specs.declared.tables.Relation.{Relation as Table};
ghost use Rattle.rdb_meaning.specs.Contents.{Row as Values};
ghost use Rattle.rdo_values.specs.Tree.{Conjunction};
ghost use Rattle.line_view.specs.Knowledge.{Lines};
ghost use Rattle.relation_rows.specs.declared.stored.StoredRelation.{StoredRelation as Stored};
ghost use Rattle.relation_rows.specs.Relations.{HasRows};
ghost use Rattle.access_paths.specs.declared.choice.IndexPath.{IndexPath as Path};
ghost use Rattle.access_paths.specs.Choice.{choice};
ghost use Rattle.access_paths.specs.Reached.{IsWide};
ghost use Rattle.index_rows.specs.Indexed.{AreIndexesOf};
ghost use Rattle.index_rows.specs.Given.{LosesNone};

/// The access that is chosen for tests serves, and leaves out only rows that the tests pass over, whatever values stand behind them.
pub fn access_loses_no_row()
    ensures { (all : Lines) (rows : List (Place × Values)) (indexes : List Path) (before : Values) (tests : Conjunction)
        → AreIndexesOf all indexes rows → AllByRecursion (λ e. AllByRecursion IsWide e.1) rows
        → LosesNone all rows (choice indexes before tests) before tests }
{}

/// The numbers in the rows of a relation have 64 bits.
pub fn rows_are_wide()
    ensures { (all : Lines) (r : Stored) (table : Table) → HasRows all r table
        → AllByRecursion (λ e. AllByRecursion IsWide e.1) table.rows }
{}
