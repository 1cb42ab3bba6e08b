// Areas of more uses.
ghost use Rattle.std.specs.Prelude.{◌≡◌, ℕ, true, ◌++◌, List};
ghost use Rattle.rdb_meaning.specs.declared.tables.Tables.{Tables as Kept};
ghost use Rattle.rdb_meaning.specs.Contents.{is_used};
ghost use Rattle.rdb_meaning.specs.Checks.{Use};
ghost use Rattle.schema_alone.specs.Schema.{OneSchema};
ghost use Rattle.used_areas.specs.Areas.{areas_read, areas_changed};

/// An area that is read or changed for some uses is read or changed for these with others before or behind them, and what is changed is read.
pub fn more_uses_use_more()
    ensures read { (t : Kept) (us vs : List Use) (area : ℕ) → is_used area (areas_read t us) ≡ true → is_used area (areas_read t (us ++ vs)) ≡ true }
    ensures read_too { (t : Kept) (us vs : List Use) (area : ℕ) → is_used area (areas_read t vs) ≡ true → is_used area (areas_read t (us ++ vs)) ≡ true }
    ensures changed { (t : Kept) (us vs : List Use) (area : ℕ) → is_used area (areas_changed t us) ≡ true → is_used area (areas_changed t (us ++ vs)) ≡ true }
    ensures changed_too { (t : Kept) (us vs : List Use) (area : ℕ) → is_used area (areas_changed t vs) ≡ true → is_used area (areas_changed t (us ++ vs)) ≡ true }
    ensures is_read { (t : Kept) (us : List Use) (area : ℕ) → is_used area (areas_changed t us) ≡ true → is_used area (areas_read t us) ≡ true }
{}

/// The areas are those of the schema and its indexes, whatever rows there are.
pub fn areas_are_the_schemas()
    ensures read { (t u : Kept) → OneSchema t u → t.indexes ≡ u.indexes → (us : List Use) → areas_read t us ≡ areas_read u us }
    ensures changed { (t u : Kept) → OneSchema t u → t.indexes ≡ u.indexes → (us : List Use) → areas_changed t us ≡ areas_changed u us }
{}
