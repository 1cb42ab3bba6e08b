// What selections read of their relations, and what of those that indexes serve.
ghost use Rattle.std.specs.Prelude.{◌≡◌, List, []};
ghost use Rattle.std.specs.List.{AllByRecursion};
ghost use Rattle.rdb_meaning.specs.declared.tables.Tables.{Tables as Kept};
ghost use Rattle.rdb_meaning.specs.Evaluation.{Scope};
ghost use Rattle.line_view.specs.declared.need.Need.{Need as Needed};
ghost use Rattle.line_view.specs.Knowledge.{Knowledge};
ghost use Rattle.sorted_index_laws.specs.Nodes.{AnyByRecursion};
ghost use Rattle.rdo_values.specs.Tree.{Expression, Condition, Ranging};
ghost use Rattle.rdo_values.specs.Places.{IsBound, IsBoundCondition, IsBoundRanging};
ghost use Rattle.rdo_values.specs.Rows.{variables_of};
ghost use Rattle.rdo_select.specs.Readings.{LacksFirst};
ghost use Rattle.rdo_select.specs.Sources.{Listed, IsShown};
ghost use Rattle.rdo_select.specs.Work.{valuing, judging, selecting};
ghost use Rattle.served_selections.specs.Ranges.{Chosen, chosen_in, chosen_in_condition, chosen_in_ranging};
ghost use Rattle.served_selections.specs.Served.{IsReadFor, IsServed, IsReadByIndex};

/// What a bound selection, expression or condition lacks over a view that shows tables is what is read of one of the relations of its selections, behind rows of the variables before that: by a scan its area or a line of it; by the index that is chosen a line of that, or of a row whose key meets the index's part of the tests.
pub fn needs_are_of_relations()
    ensures selection { (seen : Knowledge) (sources : Listed) (t : Kept) (scope : Scope) (r : Ranging) (need : Needed) → IsShown seen sources t → IsBoundRanging r t (variables_of scope)
        → LacksFirst seen (selecting r t sources scope).readings need → AnyByRecursion (IsReadFor t sources need) (chosen_in_ranging r (variables_of scope)) }
    ensures expression { (seen : Knowledge) (sources : Listed) (t : Kept) (scope : Scope) (e : Expression) (need : Needed) → IsShown seen sources t → IsBound e t (variables_of scope)
        → LacksFirst seen (valuing e t sources scope).readings need → AnyByRecursion (IsReadFor t sources need) (chosen_in e (variables_of scope)) }
    ensures condition { (seen : Knowledge) (sources : Listed) (t : Kept) (scope : Scope) (c : Condition) (need : Needed) → IsShown seen sources t → IsBoundCondition c t (variables_of scope)
        → LacksFirst seen (judging c t sources scope).readings need → AnyByRecursion (IsReadFor t sources need) (chosen_in_condition c (variables_of scope)) }
{}

/// Where indexes serve all of these relations, what is read of one of them is no area, but a line: of an index, or of a row whose key meets the index's part of the tests.
pub fn indexes_spare_areas()
    ensures { (sources : Listed) (t : Kept) (rs : List Chosen) (need : Needed) → AllByRecursion (IsServed t sources) rs
        → AnyByRecursion (IsReadFor t sources need) rs → AnyByRecursion (IsReadByIndex t sources need) rs }
{}
