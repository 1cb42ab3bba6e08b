// What actions lack whose selections indexes serve.
ghost use Rattle.std.specs.Prelude.{List, []};
ghost use Rattle.rdo_ast.specs.declared.syntax.Range.{Range as Ranged};
ghost use Rattle.rdb_meaning.specs.declared.tables.Tables.{Tables as Kept};
ghost use Rattle.line_view.specs.declared.need.Need.{Need as Needed};
ghost use Rattle.rdo_bind.specs.Acting.{Act};
ghost use Rattle.rdo_select.specs.Sources.{Listed};
ghost use Rattle.rdo_acts.specs.Selections.{chosen_in_act, IsReadAmong};
ghost use Rattle.rdo_acts.specs.Wanted.{ActWants};
ghost use Rattle.served_actions.specs.Served.{IsServedAct, IsIndexed, IsSpared};

/// Where indexes serve each relation of each selection of an action, it lacks no area; what it lacks of these relations is a line of an index, or of a row whose key meets the index's part of the tests.
pub fn indexes_spare_areas_of_actions()
    ensures reading { (t : Kept) (sources : Listed) (a : Act) (vs : List Ranged) (need : Needed) → IsServedAct t sources a vs → IsReadAmong t sources (chosen_in_act a vs) need → IsIndexed t sources (chosen_in_act a vs) need }
    ensures writing { (t : Kept) (sources : Listed) (a : Act) (vs : List Ranged) (need : Needed) → IsServedAct t sources a vs → ActWants t sources a vs need → IsSpared t sources a vs need }
{}
