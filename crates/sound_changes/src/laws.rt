// Laws of sound maps behind the writes of one row.
ghost use Rattle.std.specs.Prelude.{◌≡◌, ℕ, ◌&&◌, not, filter, false, List, [], ◌∷◌, ◌++◌, true, length, Some, None};
ghost use Rattle.std.specs.List.{AllByRecursion, slice_get};
ghost use Rattle.std.specs.Ordering.{is_eq};
ghost use Rattle.std.specs.FinMap.Entries.{find, is_sorted};
ghost use Rattle.rdb_types.specs.declared.keys.Dbkey.{Dbkey as Place};
ghost use Rattle.rdo_ast.specs.Tree.{Name};
ghost use Rattle.rdb_meaning.specs.declared.tables.Relation.{Relation as Rows};
ghost use Rattle.rdb_meaning.specs.declared.tables.Tables.{Tables as Kept};
ghost use Rattle.rdb_meaning.specs.Contents.{Row, relation_named, rows_changed, with_row, without_row, key_of, is_used, is_taken};
ghost use Rattle.rdb_meaning.specs.Execution.{may_be_given, nowhere};
ghost use Rattle.line_view.specs.Knowledge.{Lines, IsInOrder, line_in, laid};
ghost use Rattle.line_view.specs.declared.writes.Write.{Write};
ghost use Rattle.line_view.specs.Writes.{laid_all};
ghost use Rattle.catalog_lines.specs.declared.line.IndexLine.{IndexLine};
ghost use Rattle.catalog_lines.specs.declared.line.CatalogLine.TheVariants.{Index};
ghost use Rattle.sound_lines.specs.catalog.declared.directory.PlacedLine.{PlacedLine as Line};
ghost use Rattle.sorted_index_laws.specs.Tree.{pairs};
ghost use Rattle.sorted_index_laws.specs.Changes.{pair_of, with_pair, without_pair, has_key, Leaves};
ghost use Rattle.sorted_index_laws.specs.Insertion.{IsNew};
ghost use Rattle.sound_lines.specs.catalog.declared.reading.Catalog.{Catalog as Directory};
ghost use Rattle.record_format.specs.Rows.{IsRowImage};
ghost use Rattle.sound_lines.specs.relation_rows.declared.stored.StoredRelation.{StoredRelation as Stored};
ghost use Rattle.sound_lines.specs.relation_rows.Stored.{IsRowOf, are_values_of};
ghost use Rattle.schema_alone.specs.Schema.{OneSchema};
ghost use Rattle.sound_lines.specs.Contents.{versions_in, version_of, stored, AreTablesWith, AreTablesOf};
ghost use Rattle.sound_lines.specs.Sound.{IsSound, IsSoundIndex, relation_in, versions_rise};
ghost use Rattle.sound_lines.specs.relation_rows.Indexed.{pairs_of};
ghost use Rattle.rdb_types.specs.Order.{dbkey_order};
ghost use Rattle.sound_changes.specs.Standing.{IsSoundFor, IsSoundAs, tables_for, IsDone};
ghost use Rattle.sound_changes.specs.InTurn.{IsPairPut, IsPairMoved, IsPairTaken, Turn, InTurn, laid_in_turn, AreIndexesOn};

/// A sound map has a catalog and tables, and a map that is sound with some has these.
pub fn is_sound_as()
    ensures of { (all : Lines) → IsInOrder all → (is : IsSound all) → IsSoundAs all is.catalog is.tables }
    ensures sound { (all : Lines) (c : Directory) (t : Kept) → IsSoundAs all c t → IsSound all }
    ensures tables { (all : Lines) (c : Directory) (t : Kept) → IsSoundAs all c t → AreTablesOf all t }
{}

/// Behind the write of a row's line the map is sound but for the indexes of the relation, which are those of the rows before.
pub fn a_row_is_written()
    ensures put { (all : Lines) (c : Directory) (t : Kept) (n : Name) (rel : Rows) (key : Place) (image : List ℕ) (row : Row)
        → IsSoundAs all c t → relation_named n t ≡ Some rel → key.area ≡ rel.area → IsRowOf (stored (version_of n (versions_in c.lines)) rel) image row
        → IsSoundFor (laid key (Some image) all) c (with_row n key row t) (tables_for rel.area [] t (with_row n key row t)) }
    ensures erase { (all : Lines) (c : Directory) (t : Kept) (n : Name) (rel : Rows) (key : Place)
        → IsSoundAs all c t → relation_named n t ≡ Some rel → key.area ≡ rel.area
        → IsSoundFor (laid key None all) c (without_row n key t) (tables_for rel.area [] t (without_row n key t)) }
{}

/// Once the indexes of the relation are done, or where it has none, the map is sound.
pub fn indexes_are_done()
    ensures { (all : Lines) (c : Directory) (area : ℕ) (done : List ℕ) (before after : Kept) → IsSoundFor all c after (tables_for area done before after)
        → AllByRecursion (λ p. IsDone area done p.line) c.lines → IsSoundAs all c after }
{}

/// An index of the relation that isn't done yet is that of the rows before, in which a new row's pair isn't.
pub fn an_index_waits()
    ensures own { (all : Lines) (c : Directory) (t : Kept) (n : Name) (rel : Rows) → IsSoundAs all c t → relation_named n t ≡ Some rel → relation_in rel.area t.relations ≡ Some rel }
    ensures index { (all : Lines) (c : Directory) (done : List ℕ) (t after : Kept) (rel : Rows) (i : ℕ) (p : Line) (x : IndexLine)
        → IsSoundFor all c after (tables_for rel.area done t after) → relation_in rel.area t.relations ≡ Some rel
        → slice_get c.lines i ≡ Some p → p.line ≡ Index x → x.relation ≡ rel.area → is_used x.area done ≡ false → IsSoundIndex all x (Some rel) }
    ensures pair { (positions : List ℕ) (key : Row) (k : Place) (rows : List (Place × Row)) → find dbkey_order k rows ≡ None → IsNew (pair_of key k) (pairs_of positions rows) }
{}

/// Behind the writes that put a new row's pair into an index of the relation, the index is done.
pub fn a_pair_is_put()
    ensures { (all : Lines) (c : Directory) (done : List ℕ) (t : Kept) (n : Name) (rel : Rows) (key : Place) (row : Row) (i : ℕ) (p : Line) (x : IndexLine) (writes : List Write)
        → IsSoundFor all c (with_row n key row t) (tables_for rel.area done t (with_row n key row t)) → relation_named n t ≡ Some rel → find dbkey_order key rel.rows ≡ None
        → slice_get c.lines i ≡ Some p → p.line ≡ Index x → x.relation ≡ rel.area
        → (old : IsSoundIndex all x (Some rel)) → Leaves all x.root old.is.level old.is.tree writes (with_pair (pair_of (key_of x.fields row) key) (pairs old.is.level old.is.tree))
        → (x.unique && has_key (key_of x.fields row) (pairs old.is.level old.is.tree)) ≡ false
        → IsSoundFor (laid_all writes all) c (with_row n key row t) (tables_for rel.area (x.area ∷ done) t (with_row n key row t)) }
{}

/// Behind the writes that move the pair of a changed row, that take out the pair of an erased one, or where the key stays, the index is done.
pub fn a_pair_is_moved()
    ensures sorted { (all : Lines) (c : Directory) (t : Kept) (n : Name) (rel : Rows) → IsSoundAs all c t → relation_named n t ≡ Some rel → is_sorted dbkey_order rel.rows ≡ true }
    ensures moved { (all : Lines) (c : Directory) (done : List ℕ) (t : Kept) (n : Name) (rel : Rows) (key : Place) (was row : Row) (i : ℕ) (p : Line) (x : IndexLine) (first second : List Write)
        → IsSoundFor all c (with_row n key row t) (tables_for rel.area done t (with_row n key row t)) → relation_named n t ≡ Some rel → is_sorted dbkey_order rel.rows ≡ true → find dbkey_order key rel.rows ≡ Some was
        → slice_get c.lines i ≡ Some p → p.line ≡ Index x → x.relation ≡ rel.area → (old : IsSoundIndex all x (Some rel))
        → (gone : Leaves all x.root old.is.level old.is.tree first (without_pair (pair_of (key_of x.fields was) key) (pairs old.is.level old.is.tree)))
        → Leaves (laid_all first all) x.root gone.level gone.tree second (with_pair (pair_of (key_of x.fields row) key) (pairs gone.level gone.tree))
        → (x.unique && has_key (key_of x.fields row) (pairs gone.level gone.tree)) ≡ false
        → IsSoundFor (laid_all (first ++ second) all) c (with_row n key row t) (tables_for rel.area (x.area ∷ done) t (with_row n key row t)) }
    ensures stays { (all : Lines) (c : Directory) (done : List ℕ) (t : Kept) (n : Name) (rel : Rows) (key : Place) (was row : Row) (i : ℕ) (p : Line) (x : IndexLine)
        → IsSoundFor all c (with_row n key row t) (tables_for rel.area done t (with_row n key row t)) → relation_named n t ≡ Some rel → is_sorted dbkey_order rel.rows ≡ true → find dbkey_order key rel.rows ≡ Some was
        → slice_get c.lines i ≡ Some p → p.line ≡ Index x → x.relation ≡ rel.area → IsSoundIndex all x (Some rel) → key_of x.fields was ≡ key_of x.fields row
        → IsSoundFor all c (with_row n key row t) (tables_for rel.area (x.area ∷ done) t (with_row n key row t)) }
    ensures goes { (all : Lines) (c : Directory) (done : List ℕ) (t : Kept) (n : Name) (rel : Rows) (key : Place) (was : Row) (i : ℕ) (p : Line) (x : IndexLine) (writes : List Write)
        → IsSoundFor all c (without_row n key t) (tables_for rel.area done t (without_row n key t)) → relation_named n t ≡ Some rel → is_sorted dbkey_order rel.rows ≡ true → find dbkey_order key rel.rows ≡ Some was
        → slice_get c.lines i ≡ Some p → p.line ≡ Index x → x.relation ≡ rel.area → (old : IsSoundIndex all x (Some rel))
        → Leaves all x.root old.is.level old.is.tree writes (without_pair (pair_of (key_of x.fields was) key) (pairs old.is.level old.is.tree))
        → IsSoundFor (laid_all writes all) c (without_row n key t) (tables_for rel.area (x.area ∷ done) t (without_row n key t)) }
{}

/// The tables of a map have the schema of its catalog, and keep it where the rows of a relation change.
pub fn the_schema_stays()
    ensures catalog { (all : Lines) (c : Directory) (t : Kept) → AreTablesWith all c t → OneSchema c.tables t }
    ensures rows { (n : Name) (f : List (Place × Row) → List (Place × Row)) (t : Kept) → OneSchema t (rows_changed n f (relation_named n t) t) }
{}

/// A row that fits its relation's fields is stored in the relation's version.
pub fn a_fitting_row_is_stored()
    ensures { (r : Stored) (image : List ℕ) (row : Row) → IsRowImage image r.version row → length row ≡ length r.fields.now
        → versions_rise 1 r.version r.fields.now ≡ true → are_values_of r.fields.now row ≡ true → IsRowOf r image row }
{}

/// A room of the relation's area that was free at the start of the statement and is free now may be given to a row.
pub fn a_room_may_be_given()
    ensures free { (all : Lines) (c : Directory) (t : Kept) (n : Name) (rel : Rows) (key : Place) → IsSoundAs all c t → relation_named n t ≡ Some rel → line_in key all ≡ None → find dbkey_order key rel.rows ≡ None }
    ensures given { (first now : Lines) (c : Directory) (start t : Kept) (n : Name) (rel : Rows) (key : Place) → IsSoundAs first c start → IsSoundAs now c t → relation_named n t ≡ Some rel → key.area ≡ rel.area
        → line_in key first ≡ None → line_in key now ≡ None → may_be_given n key start t ≡ true }
{}

/// Another row has the key of a row where the index of the other rows has it.
pub fn a_key_is_taken()
    ensures taken { (positions : List ℕ) (row : Row) (own : Place) (rows : List (Place × Row)) → is_taken positions row own rows ≡ has_key (key_of positions row) (pairs_of positions (filter (λ e. not (is_eq (dbkey_order own e.0))) rows)) }
    ensures new { (own : Place) (rows : List (Place × Row)) → find dbkey_order own rows ≡ None → filter (λ e. not (is_eq (dbkey_order own e.0))) rows ≡ rows }
    ensures nowhere { (all : Lines) (c : Directory) (t : Kept) (n : Name) (rel : Rows) (positions : List ℕ) (row : Row) (key : Place) → IsSoundAs all c t → relation_named n t ≡ Some rel
        → find dbkey_order key rel.rows ≡ None → is_taken positions row nowhere rel.rows ≡ is_taken positions row key rel.rows }
{}

/// The versions of a relation's fields rise from 1 to the one in which its rows are stored.
pub fn a_relation_has_its_version()
    ensures rise { (all : Lines) (c : Directory) (t : Kept) (n : Name) (rel : Rows) → IsSoundAs all c t → relation_named n t ≡ Some rel → versions_rise 1 (version_of n (versions_in c.lines)) rel.fields ≡ true }
{}

/// A row is stored, modified or erased in a relation with any number of indexes, unique or not: behind its line and the turn of each index the map is sound, with the tables of the meaning.
pub fn a_row_goes_through_its_indexes()
    ensures store { (all : Lines) (c : Directory) (t : Kept) (n : Name) (rel : Rows) (key : Place) → IsSoundAs all c t → relation_named n t ≡ Some rel → key.area ≡ rel.area
        → (image : List ℕ) (row : Row) (turns : List Turn) → line_in key all ≡ None → IsRowOf (stored (version_of n (versions_in c.lines)) rel) image row
        → AreIndexesOn c rel.area [] turns → InTurn (IsPairPut rel key row) (laid key (Some image) all) turns
        → IsSoundAs (laid_in_turn turns (laid key (Some image) all)) c (with_row n key row t) }
    ensures modify { (all : Lines) (c : Directory) (t : Kept) (n : Name) (rel : Rows) (key : Place) → IsSoundAs all c t → relation_named n t ≡ Some rel → key.area ≡ rel.area
        → (image : List ℕ) (was row : Row) (turns : List Turn) → find dbkey_order key rel.rows ≡ Some was → IsRowOf (stored (version_of n (versions_in c.lines)) rel) image row
        → AreIndexesOn c rel.area [] turns → InTurn (IsPairMoved rel key was row) (laid key (Some image) all) turns
        → IsSoundAs (laid_in_turn turns (laid key (Some image) all)) c (with_row n key row t) }
    ensures erase { (all : Lines) (c : Directory) (t : Kept) (n : Name) (rel : Rows) (key : Place) → IsSoundAs all c t → relation_named n t ≡ Some rel → key.area ≡ rel.area
        → (was : Row) (turns : List Turn) → find dbkey_order key rel.rows ≡ Some was
        → AreIndexesOn c rel.area [] turns → InTurn (IsPairTaken rel key was) (laid key None all) turns
        → IsSoundAs (laid_in_turn turns (laid key None all)) c (without_row n key t) }
{}
