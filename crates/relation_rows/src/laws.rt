// Laws of the images of rows.
ghost use Rattle.std.specs.Prelude.{◌≡◌, ◌≤◌, ℕ, List, length};
ghost use Rattle.rdb_types.specs.declared.values.Value.{Value as RowValue};
ghost use Rattle.rdb_meaning.specs.Contents.{class_of};
ghost use Rattle.relation_rows.specs.declared.stored.StoredRelation.{StoredRelation as Relation};
ghost use Rattle.relation_rows.specs.Stored.{IsRowOf};

/// A row of a relation of the lesser class, whose lines have 208 bytes, has an image of at most 104 bytes.
pub fn rows_of_the_lesser_class_are_short()
    ensures short { (relation : Relation) (image : List ℕ) (row : List RowValue)
        → class_of relation.fields.now ≡ 208 → IsRowOf relation image row → length image ≤ 104 }
{}
