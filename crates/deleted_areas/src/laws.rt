// The areas of what is deleted, as the tables have them.
ghost use Rattle.std.specs.Prelude.{◌≡◌, true, [], ◌∷◌, Some};
ghost use Rattle.std.specs.FinMap.Entries.{find};
ghost use Rattle.rdb_types.specs.Order.{chars_order};
ghost use Rattle.rdo_ast.specs.Tree.{Name};
ghost use Rattle.rdb_meaning.specs.declared.tables.Index.{Index as Indexed};
ghost use Rattle.rdb_meaning.specs.declared.tables.Relation.{Relation as Rows};
ghost use Rattle.rdb_meaning.specs.declared.tables.Tables.{Tables as Kept};
ghost use Rattle.rdb_meaning.specs.Contents.{relation_named, is_used};
ghost use Rattle.rdb_meaning.specs.Checks.{use_of};
ghost use Rattle.rdb_meaning.specs.Meaning.{index_uses};
ghost use Rattle.line_view.specs.Knowledge.{Lines};
ghost use Rattle.catalog.specs.declared.reading.Catalog.{Catalog as Directory};
ghost use Rattle.sound_changes.specs.Standing.{IsSoundAs};
ghost use Rattle.schema_writes.specs.Areas.{AreOfRelation};
ghost use Rattle.used_areas.specs.Areas.{relation_areas, areas_changed};

/// The areas of a relation that is deleted and of its indexes are those of the use that changes it. The area of an index of the tables is one of its relation's, and of the use that its deletion makes of that.
pub fn deletions_keep_to_what_they_name()
    ensures relation { (all : Lines) (c : Directory) (t : Kept) (n : Name) (rel : Rows) → IsSoundAs all c t → relation_named n t ≡ Some rel → AreOfRelation c n t (areas_changed t (use_of true n ∷ [])) }
    ensures index { (t : Kept) (n : Name) (x : Indexed) (rel : Rows) → find chars_order n t.indexes ≡ Some x → x.relation ≡ rel.area → is_used x.area (relation_areas t (Some rel)) ≡ true }
    ensures own { (all : Lines) (c : Directory) (t : Kept) (n : Name) (x : Indexed) → IsSoundAs all c t → find chars_order n t.indexes ≡ Some x → is_used x.area (areas_changed t (index_uses (Some x) t)) ≡ true }
{}
