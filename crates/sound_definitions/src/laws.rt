// Laws of sound maps behind definitions.
ghost use Rattle.std.specs.Prelude.{◌≡◌, ◌==◌, ℕ, ◌≤◌, ◌%◌, true, false, not, filter, List, [], ◌∷◌, ◌++◌, Some, None};
ghost use Rattle.rdb_meaning.specs.declared.tables.Relation.{Relation as Rows};
ghost use Rattle.std.specs.List.{AllByRecursion};
ghost use Rattle.std.specs.FinMap.Entries.{find, put, is_sorted};
ghost use Rattle.rdb_types.specs.declared.keys.Dbkey.{Dbkey as Place};
ghost use Rattle.rdo_ast.specs.Tree.{Name};
ghost use Rattle.rdb_meaning.specs.declared.tables.Tables.{Tables as Kept};
ghost use Rattle.rdb_meaning.specs.Contents.{Row, relation_named, key_of};
ghost use Rattle.rdb_meaning.specs.Defining.{with_field, without, without_index};
ghost use Rattle.line_view.specs.Knowledge.{Lines, line_in, lines_in, laid};
ghost use Rattle.line_view.specs.declared.writes.Write.{Write};
ghost use Rattle.line_view.specs.Writes.{laid_all};
ghost use Rattle.catalog_lines.specs.declared.line.GlobalLine.{GlobalLine};
ghost use Rattle.catalog_lines.specs.declared.line.IndexLine.{IndexLine};
ghost use Rattle.catalog_lines.specs.declared.line.CatalogLine.TheVariants.{Global, Index, Relation};
ghost use Rattle.catalog_lines.specs.declared.line.RelationLine.{RelationLine};
ghost use Rattle.catalog.specs.declared.directory.PlacedLine.{PlacedLine as Line};
ghost use Rattle.std.specs.Ordering.{is_eq};
ghost use Rattle.rdb_types.specs.Order.{dbkey_order, chars_order};
ghost use Rattle.catalog_lines.specs.Lines.{IsCatalogLine, IsIndexArea};
ghost use Rattle.index_node.specs.Node.{IsNode};
ghost use Rattle.sorted_index_laws.specs.Tree.{pairs};
ghost use Rattle.sorted_index_laws.specs.Changes.{pair_of, with_pair, Leaves};
ghost use Rattle.sound_lines.specs.Sound.{relation_in, IsSoundIndex};
ghost use Rattle.sound_definitions.specs.Apart.{IsNoIndexIn, IsUnused, IsNewLine, IsIndexErased, IsLeft};
ghost use Rattle.catalog.specs.declared.reading.Catalog.{Catalog as Directory};
ghost use Rattle.catalog.specs.Reading.{catalog_area, IsPresent, IsCatalogOf};
ghost use Rattle.relation_rows.specs.Indexed.{IsIndexOf};
ghost use Rattle.sound_changes.specs.Standing.{IsSoundAs};

/// Behind DEFINE FIELD the map is sound, with the new global field.
pub fn a_global_field_is_defined()
    ensures { (all : Lines) (c after : Directory) (t : Kept) (key : Place) (image : List ℕ) (g : GlobalLine)
        → IsSoundAs all c t → key.area ≡ catalog_area → line_in key all ≡ None → IsCatalogLine image (Global g)
        → IsCatalogOf (laid key (Some image) all) after → after.tables ≡ with_field g.name g.kind c.tables
        → IsSoundAs (laid key (Some image) all) after (with_field g.name g.kind t) }
{}

/// Behind the catalog line of an index that holds the rows of its relation the map is sound, with the new index.
pub fn an_index_is_defined()
    ensures { (all : Lines) (c after : Directory) (t : Kept) (key : Place) (image : List ℕ) (x : IndexLine)
        → IsSoundAs all c t → key.area ≡ catalog_area → line_in key all ≡ None → IsCatalogLine image (Index x)
        → IsCatalogOf (laid key (Some image) all) after → after.tables ≡ record { globals = c.tables.globals; relations = c.tables.relations; indexes = put chars_order x.name (record { area = x.area; relation = x.relation; unique = x.unique; fields = x.fields }) c.tables.indexes }
        → (x.root.area ≡ catalog_area → ⊥) → IsSoundIndex all x (relation_in x.relation t.relations)
        → IsSoundAs (laid key (Some image) all) after (record { globals = t.globals; relations = t.relations; indexes = put chars_order x.name (record { area = x.area; relation = x.relation; unique = x.unique; fields = x.fields }) t.indexes }) }
{}

/// An index that isn't in the catalog yet is filled row by row, and the map stays sound.
pub fn an_index_is_filled()
    ensures aside { (all : Lines) (c : Directory) (t : Kept) (area : ℕ) (writes : List Write) → IsSoundAs all c t → IsIndexArea area
        → AllByRecursion (λ p. IsNoIndexIn area p.line) c.lines → AllByRecursion (λ w. (w.key).area ≡ area) writes → IsSoundAs (laid_all writes all) c t }
    ensures empty { (all : Lines) (root : Place) (image : List ℕ) (positions : List ℕ) → IsNode image (record { level = 0; entries = [] }) → IsIndexOf (laid root (Some image) all) root positions [] }
    ensures grows { (all : Lines) (root : Place) (positions : List ℕ) (rows : List (Place × Row)) (key : Place) (row : Row) (writes : List Write) (old : IsIndexOf all root positions rows)
        → find dbkey_order key rows ≡ None → Leaves all root old.level old.tree writes (with_pair (pair_of (key_of positions row) key) (pairs old.level old.tree))
        → IsIndexOf (laid_all writes all) root positions (put dbkey_order key row rows) }
    ensures next { (before behind : List (Place × Row)) (key : Place) (row : Row) → is_sorted dbkey_order (before ++ (key, row) ∷ behind) ≡ true
        → (find dbkey_order key before ≡ None) × (put dbkey_order key row before ≡ before ++ (key, row) ∷ []) }
{}

/// Behind the erasing of an index's line in the catalog the map is sound, without the index. Its nodes may stay or go.
pub fn an_index_is_deleted()
    ensures { (all : Lines) (c after : Directory) (t : Kept) (writes : List Write) (n : Name)
        → IsSoundAs all c t → AllByRecursion (IsIndexErased all) writes
        → IsCatalogOf (laid_all writes all) after → after.tables ≡ without_index n c.tables → IsSoundAs (laid_all writes all) after (without_index n t) }
{}

/// Behind the catalog lines of a new relation the map is sound, with the relation and no rows.
pub fn a_relation_is_defined()
    ensures { (all : Lines) (c after : Directory) (t : Kept) (writes : List Write) (n : Name) (v : Rows)
        → IsSoundAs all c t → AllByRecursion (λ w. (w.key).area ≡ catalog_area) writes → AllByRecursion (λ w. line_in w.key all ≡ None) writes
        → IsCatalogOf (laid_all writes all) after → after.tables ≡ record { globals = c.tables.globals; relations = put chars_order n v c.tables.relations; indexes = c.tables.indexes }
        → v.rows ≡ [] → (16 ≤ v.area) × (v.area % 2 ≡ 0) → find chars_order n t.relations ≡ None → relation_in v.area t.relations ≡ None
        → AllByRecursion (λ p. IsUnused v.area p.line) c.lines
        → AllByRecursion (IsNewLine (laid_all writes all) (record { globals = t.globals; relations = put chars_order n v t.relations; indexes = t.indexes })) writes
        → IsSoundAs (laid_all writes all) after (record { globals = t.globals; relations = put chars_order n v t.relations; indexes = t.indexes }) }
{}

/// Where the lines of a relation, its catalog lines and those of its indexes are erased, the map is sound, without them. Lines of its indexes' nodes may be erased too.
pub fn a_relation_is_deleted()
    ensures { (all : Lines) (c after : Directory) (t : Kept) (writes : List Write) (n : Name) (rel : Rows) → IsSoundAs all c t → relation_named n t ≡ Some rel
        → AllByRecursion (λ w. w.image ≡ None) writes → lines_in rel.area (laid_all writes all) ≡ []
        → ((a : ℕ) → 16 ≤ a → a % 2 ≡ 0 → (rel.area == a) ≡ false → AllByRecursion (λ w. ((w.key).area == a) ≡ false) writes)
        → ((p : Line) (r : RelationLine) → p.line ≡ Relation r → (p.key.area == catalog_area) ≡ true → (rel.area == r.area) ≡ false → IsPresent all p → AllByRecursion (λ w. is_eq (dbkey_order p.key w.key) ≡ false) writes)
        → IsCatalogOf (laid_all writes all) after → after.tables ≡ record { globals = c.tables.globals; relations = without n c.tables.relations; indexes = filter (λ e. not (e.1.relation == rel.area)) c.tables.indexes }
        → AllByRecursion (λ p. IsLeft writes rel.area p.line) after.lines
        → IsSoundAs (laid_all writes all) after (record { globals = t.globals; relations = without n t.relations; indexes = filter (λ e. not (e.1.relation == rel.area)) t.indexes }) }
{}
