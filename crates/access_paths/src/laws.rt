// Laws of the choice.
ghost use Rattle.std.specs.Prelude.{◌≡◌, ◌≢◌, ◌++◌, List};
ghost use Rattle.std.specs.List.{AllByRecursion};
ghost use Rattle.rdb_meaning.specs.Contents.{Row as Values};
ghost use Rattle.rdb_meaning.specs.Comparison.{passed_over};
ghost use Rattle.rdo_values.specs.Tree.{Conjunction};
ghost use Rattle.rdo_values.specs.Filled.{parts_at};
ghost use Rattle.access_paths.specs.declared.choice.IndexPath.{IndexPath as Path};
ghost use Rattle.access_paths.specs.Choice.{choice};
ghost use Rattle.access_paths.specs.Reached.{IsWide, Reaches};

/// A row that the tests don't pass over is among those that are come by: its key is the one that is looked for, or within the bounds. So an index never changes what is selected.
pub fn no_row_is_lost()
    ensures { (indexes : List Path) (tests : Conjunction) (before own : Values) → AllByRecursion IsWide own
        → parts_at (before ++ own) tests ≢ passed_over → Reaches indexes own (choice indexes before tests) }
{}
