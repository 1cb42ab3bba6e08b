// Laws of tables and of sound maps.
ghost use Rattle.std.specs.Prelude.{◌≡◌, ℕ, not, List, [], map, filter, Option, Some, None};
ghost use Rattle.std.specs.Ordering.{is_eq};
ghost use Rattle.std.specs.FinMap.Entries.{put};
ghost use Rattle.line_view.specs.Knowledge.{Knowledge, Lines, IsInOrder, Agrees, lines_in, laid};
ghost use Rattle.line_view.specs.declared.stop.Stop.TheVariants.{Bad};
ghost use Rattle.rdb_types.specs.declared.keys.Dbkey.{Dbkey as Place};
ghost use Rattle.rdb_meaning.specs.declared.tables.Tables.{Tables as Kept};
ghost use Rattle.rdb_meaning.specs.Contents.{Row, no_tables};
ghost use Rattle.rdb_types.specs.Order.{dbkey_order};
ghost use Rattle.relation_rows.specs.declared.stored.StoredRelation.{StoredRelation as Stored};
ghost use Rattle.relation_rows.specs.Stored.{IsRowOf, AreRowsOf};
ghost use Rattle.relation_rows.specs.Relations.{stored_row};
ghost use Rattle.sound_lines.specs.Contents.{AreTablesOf};
ghost use Rattle.sound_lines.specs.Reading.{StopsTables};
ghost use Rattle.rdb_types.specs.declared.values.Field.{Field as Described};
ghost use Rattle.rdo_ast.specs.Tree.{Name};
ghost use Rattle.rdb_meaning.specs.Defining.{positions_of, longest_key as longest_of_names};
ghost use Rattle.sound_lines.specs.Sound.{longest_key, IsSound};
ghost use Rattle.sound_lines.specs.Worked.{worked_lines, worked_tables};

/// A map has one list of tables at most.
pub fn one_tables()
    ensures { (all : Lines) (a b : Kept) → AreTablesOf all a → AreTablesOf all b → a ≡ b }
{}

/// Where reading finds a bad line, the map has no tables.
pub fn bad_is_no_tables()
    ensures { (known : Knowledge) (all : Lines) (key : Place) (t : Kept) → IsInOrder all → Agrees known all
        → StopsTables known all (Bad key) → AreTablesOf all t → ⊥ }
{}

/// A sound map has tables.
pub fn sound_has_tables()
    ensures { (all : Lines) → (is : IsSound all) → AreTablesOf all is.tables }
{}

/// The map without lines is sound, and has empty tables.
pub fn empty_is_sound()
    ensures sound { IsSound [] }
    ensures tables { AreTablesOf [] no_tables }
{}

/// A map with a relation, a unique index and two rows is sound, and has those tables.
pub fn worked_is_sound()
    ensures sound { IsSound worked_lines }
    ensures tables { AreTablesOf worked_lines worked_tables }
{}

/// Where a line of a relation's logical area is written, its row is put among the relation's rows; where the line is erased, its row goes; and the lines of other areas stay.
pub fn rows_follow_lines()
    ensures put { (r : Stored) (all : Lines) (rows : List (Place × Row)) (key : Place) (image : List ℕ) (row : Row)
        → IsInOrder all → key.area ≡ r.area → AreRowsOf r (lines_in r.area all) (map stored_row rows) → IsRowOf r image row
        → AreRowsOf r (lines_in r.area (laid key (Some image) all)) (map stored_row (put dbkey_order key row rows)) }
    ensures erase { (r : Stored) (all : Lines) (rows : List (Place × Row)) (key : Place)
        → AreRowsOf r (lines_in r.area all) (map stored_row rows)
        → AreRowsOf r (lines_in r.area (laid key None all)) (map stored_row (filter (λ e. not (is_eq (dbkey_order key e.0))) rows)) }
    ensures apart { (all : Lines) (key : Place) (what : Option (List ℕ)) (area : ℕ) → (key.area ≡ area → ⊥)
        → lines_in area (laid key what all) ≡ lines_in area all }
{}

/// The longest key of an index by the positions of its fields is that by their names.
pub fn key_of_names()
    ensures { (names : List Name) (fields : List Described)
        → longest_key (positions_of names fields) fields ≡ longest_of_names names fields }
{}
