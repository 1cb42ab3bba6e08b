// Laws of whole definitions and deletions.
ghost use Rattle.std.specs.Prelude.{◌≡◌, ℕ, true, List, [], ◌∷◌, ◌++◌, Some, None};
ghost use Rattle.std.specs.List.{AllByRecursion, slice_get};
ghost use Rattle.rdb_types.specs.declared.keys.Dbkey.{Dbkey as Place};
ghost use Rattle.rdb_types.specs.declared.values.FieldType.{FieldType as Kind};
ghost use Rattle.rdo_ast.specs.Tree.{Name};
ghost use Rattle.rdo_ast.specs.declared.syntax.FieldDefinition.{FieldDefinition as NewField};
ghost use Rattle.rdo_ast.specs.declared.syntax.IndexDefinition.{IndexDefinition as NewIndex};
ghost use Rattle.rdb_meaning.specs.declared.tables.Relation.{Relation as Rows};
ghost use Rattle.rdb_meaning.specs.declared.tables.Tables.{Tables as Kept};
ghost use Rattle.rdb_meaning.specs.Contents.{relation_named, rows_of, new_index_area};
ghost use Rattle.rdb_meaning.specs.Defining.{with_field, relation_names, with_relation, index_names, index_refusal, with_index, without_index, without_relation};
ghost use Rattle.rdb_definitions.specs.NewIndex.{new_index};
ghost use Rattle.line_view.specs.Knowledge.{Knowledge, Lines, Agrees, lines_in, keys_of};
ghost use Rattle.line_view.specs.declared.writes.Write.{Write};
ghost use Rattle.line_view.specs.Writes.{laid_all};
ghost use Rattle.catalog.specs.declared.reading.Catalog.{Catalog as Directory};
ghost use Rattle.catalog_lines.specs.declared.line.IndexLine.{IndexLine};
ghost use Rattle.catalog_lines.specs.declared.line.CatalogLine.TheVariants.{Index};
ghost use Rattle.catalog.specs.declared.directory.PlacedLine.{PlacedLine as Line};
ghost use Rattle.catalog.specs.Deletions.{is_index_named, is_of_relation, keys_where};
ghost use Rattle.catalog_definitions.specs.Written.{AreWritten, global_line, relation_lines, IsRelationDefinition, IsIndexWritten};
ghost use Rattle.catalog_definitions.specs.Leaving.{Leaves, erasures};
ghost use Rattle.relation_rows.specs.Indexed.{IsIndexOf};
ghost use Rattle.sound_changes.specs.Standing.{IsSoundAs};
ghost use Rattle.sound_statements.specs.Owned.{IsOfIndex, IsOfRelation};

/// Behind what `catalog_definitions::define_field` writes, the map is sound with the tables of the meaning.
pub fn define_field_stays_sound()
    ensures { (known : Knowledge) (all : Lines) (c : Directory) (t : Kept) (n : Name) (type : Kind) (writes : List Write) → IsSoundAs all c t → Agrees known all
        → AreWritten known 0 (global_line n type ∷ []) writes
        → (left : Leaves all writes (with_field n type c.tables)) → IsSoundAs (laid_all writes all) left.after (with_field n type t) }
{}

/// Behind what `catalog_definitions::define_relation` writes, the map is sound with the tables of the meaning.
pub fn define_relation_stays_sound()
    ensures { (known : Knowledge) (all : Lines) (c : Directory) (t : Kept) (n : Name) (fields : List NewField) (writes : List Write) → IsSoundAs all c t → Agrees known all
        → IsRelationDefinition n fields → relation_names n fields c.tables ≡ None → AreWritten known 0 (relation_lines n fields c.tables) writes
        → (left : Leaves all writes (with_relation n fields c.tables)) → IsSoundAs (laid_all writes all) left.after (with_relation n fields t) }
{}

/// Where an index of the rows that are there was filled in the area that `catalog_definitions::define_index` names, the map behind that and behind the line in the catalog is sound with the tables of the meaning.
pub fn define_index_stays_sound()
    ensures { (known : Knowledge) (all : Lines) (c : Directory) (t : Kept) (d : NewIndex) (filling writes : List Write) → IsSoundAs all c t → Agrees known all
        → index_names d c.tables ≡ None → index_refusal d t ≡ None → (written : IsIndexWritten known d.name (new_index d c.tables) writes)
        → (left : Leaves all writes (with_index d c.tables)) → AllByRecursion (λ w. (w.key).area ≡ new_index_area c.tables) filling
        → IsIndexOf (laid_all filling all) written.root (new_index d c.tables).fields (rows_of (relation_named d.relation t))
        → IsSoundAs (laid_all (filling ++ writes) all) left.after (with_index d t) }
{}

/// Behind the erasing of the line in the catalog of the index of a name, the map is sound with the tables of the meaning, whether its nodes stay or are erased too.
pub fn delete_index_stays_sound()
    ensures line { (all : Lines) (c : Directory) (t : Kept) (n : Name) → IsSoundAs all c t
        → (after : Directory) × IsSoundAs (laid_all (erasures (keys_where (is_index_named n) c.lines)) all) after (without_index n t) }
    ensures nodes { (all : Lines) (c : Directory) (t : Kept) (n : Name) (i : ℕ) (p : Line) (x : IndexLine) (keys : List Place) → IsSoundAs all c t
        → slice_get c.lines i ≡ Some p → p.line ≡ Index x → is_index_named n (Index x) ≡ true → AllByRecursion (λ k. k.area ≡ x.area) keys
        → (after : Directory) × IsSoundAs (laid_all (erasures (keys_where (is_index_named n) c.lines) ++ erasures keys) all) after (without_index n t) }
{}

/// Behind the erasing of a relation's lines in the catalog and of all lines in its area, the map is sound with the tables of the meaning. Nodes of its indexes may be erased too.
pub fn delete_relation_stays_sound()
    ensures emptied { (all : Lines) (c : Directory) (t : Kept) (n : Name) (rel : Rows) (keys : List Place) → IsSoundAs all c t → relation_named n t ≡ Some rel
        → AllByRecursion (IsOfRelation c rel.area) keys
        → lines_in rel.area (laid_all (erasures (keys_where (is_of_relation rel.area) c.lines) ++ erasures keys) all) ≡ []
        → (after : Directory) × IsSoundAs (laid_all (erasures (keys_where (is_of_relation rel.area) c.lines) ++ erasures keys) all) after (without_relation n t) }
    ensures rows { (all : Lines) (c : Directory) (t : Kept) (n : Name) (rel : Rows) (nodes : List Place) → IsSoundAs all c t → relation_named n t ≡ Some rel
        → AllByRecursion (IsOfIndex c rel.area) nodes
        → (after : Directory) × IsSoundAs (laid_all (erasures (keys_where (is_of_relation rel.area) c.lines) ++ erasures (keys_of (lines_in rel.area all) ++ nodes)) all) after (without_relation n t) }
{}
