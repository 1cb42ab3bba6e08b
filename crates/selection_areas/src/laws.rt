// In which logical areas selections read.
ghost use Rattle.std.specs.Prelude.{◌≡◌, Some, List, []};
ghost use Rattle.rdo_ast.specs.declared.syntax.Range.{Range as Ranged};
ghost use Rattle.rdb_meaning.specs.declared.tables.Tables.{Tables as Kept};
ghost use Rattle.rdb_meaning.specs.Checks.{expression_uses, condition_uses, ranging_uses};
ghost use Rattle.rdb_meaning.specs.Evaluation.{Scope};
ghost use Rattle.line_view.specs.Knowledge.{Knowledge, Lines};
ghost use Rattle.catalog.specs.declared.reading.Catalog.{Catalog as Directory};
ghost use Rattle.sound_changes.specs.Standing.{IsSoundAs};
ghost use Rattle.row_writes.specs.declared.target.TargetRelation.{TargetRelation as Target};
ghost use Rattle.row_writes.specs.Areas.{areas_with};
ghost use Rattle.statement_sources.specs.stored_schema.Targets.{IsTargetIn};
ghost use Rattle.statement_sources.specs.Sources.{AreIndexed};
ghost use Rattle.rdb_meaning.specs.declared.tables.Relation.{Relation as Rows};
ghost use Rattle.rdo_ast.specs.Tree.{Name};
ghost use Rattle.line_view.specs.declared.need.Need.{Need as Needed};
ghost use Rattle.statement_view.specs.Areas.{IsNeedOf};
ghost use Rattle.rdo_values.specs.Tree.{Expression, Condition, Ranging};
ghost use Rattle.rdo_values.specs.Named.{named, named_condition, named_ranging};
ghost use Rattle.rdo_values.specs.Places.{IsBound, IsBoundCondition, IsBoundRanging};
ghost use Rattle.rdo_select.specs.Readings.{LacksFirst};
ghost use Rattle.rdo_select.specs.Sources.{Listed, AreSourcesOf, IsShown};
ghost use Rattle.rdo_select.specs.Work.{valuing, judging, selecting};
ghost use Rattle.used_areas.specs.Areas.{relation_areas, areas_read};
ghost use Rattle.selection_areas.specs.Areas.{ArePlaced};

/// What a bound selection, expression or condition lacks over a view that shows tables is a line, or all lines, of the relations that it names, or of one of their indexes. It lacks no room.
pub fn selections_read_what_they_name()
    ensures selection { (known : Knowledge) (sources : Listed) (t : Kept) (scope : Scope) (vs : List Ranged) (r : Ranging) (need : Needed) → IsShown known sources t → ArePlaced t sources → IsBoundRanging r t vs
        → LacksFirst known (selecting r t sources scope).readings need → IsNeedOf (areas_read t (ranging_uses (named_ranging r))) [] need }
    ensures expression { (known : Knowledge) (sources : Listed) (t : Kept) (scope : Scope) (vs : List Ranged) (e : Expression) (need : Needed) → IsShown known sources t → ArePlaced t sources → IsBound e t vs
        → LacksFirst known (valuing e t sources scope).readings need → IsNeedOf (areas_read t (expression_uses (named e))) [] need }
    ensures condition { (known : Knowledge) (sources : Listed) (t : Kept) (scope : Scope) (vs : List Ranged) (c : Condition) (need : Needed) → IsShown known sources t → ArePlaced t sources → IsBoundCondition c t vs
        → LacksFirst known (judging c t sources scope).readings need → IsNeedOf (areas_read t (condition_uses (named_condition c))) [] need }
{}

/// The sources of a schema, and what rows of a relation are written into, are in the areas that the tables give the relation and its indexes.
pub fn areas_are_those_of_the_tables()
    ensures sources { (all : Lines) (c : Directory) (t : Kept) (sources : Listed) → IsSoundAs all c t → AreSourcesOf all t sources → AreIndexed c sources → ArePlaced t sources }
    ensures target { (c : Directory) (t : Kept) (n : Name) (rel : Rows) (r : Target) → IsTargetIn c t n rel r → areas_with rel r.indexes.now ≡ relation_areas t (Some rel) }
{}
