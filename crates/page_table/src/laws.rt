// A table, and the lines of an image.
ghost use Rattle.std.specs.Prelude.{◌≡◌, ◌≢◌, ◌≤◌, ◌-◌, ◌↔◌, ℕ};
ghost use Rattle.rdb_types.specs.declared.keys.Dbkey.{Dbkey as Key};
ghost use Rattle.rdb_types.specs.declared.keys.LineState.TheVariants.{Present};
ghost use Rattle.rdb_outside.specs.Disk.{Image};
ghost use Rattle.rdb_page.specs.Page.{IsOwner, IsUnused};
ghost use Rattle.area_files.specs.Areas.{IsDataPage, space_page_of};
ghost use Rattle.database_opening.specs.stable_lines.Slots.{area_file, line_at};
ghost use Rattle.database_opening.specs.stable_lines.Kept.{IsWellFormed};
ghost use Rattle.database_opening.specs.Owners.{owner_said};
ghost use Rattle.page_table.specs.Pages.{IsUsedLine, Puts};
ghost use Rattle.page_table.specs.Reading.{SaysUse, IsTableOf};

/// In an image that opening takes, the lines that have an image in the table of an area file are those that are present there.
pub fn the_table_has_the_lines()
    ensures { (image : Image) (file pages : ℕ) (table : _) → IsWellFormed image pages
        → IsTableOf image file pages table
        → (key : Key) → IsOwner file key.area → IsDataPage key.page
        → (IsUsedLine table key ↔ ((line_at image key).state ≡ Present)) }
{}

/// The table of an area file is that of the image behind a write of a page, where what the page says is kept anew; and behind a space page that gives a page that was never used an owner.
pub fn a_table_is_kept()
    ensures page { (old new : Image) (file pages page : ℕ) (used : _) (table kept : _)
        → IsTableOf old file pages table → IsDataPage page
        → ((slot : ℕ) → slot ≢ page - 1 → new (area_file file) slot ≡ old (area_file file) slot)
        → 1 ≤ owner_said new file page → SaysUse page (new (area_file file) (page - 1)) used
        → Puts page used table kept → IsTableOf new file pages kept }
    ensures owner { (old new : Image) (file pages page : ℕ) (table : _)
        → IsTableOf old file pages table → IsDataPage page
        → ((slot : ℕ) → slot ≢ space_page_of page - 1
        → new (area_file file) slot ≡ old (area_file file) slot)
        → ((other : ℕ) → IsDataPage other → other ≢ page
        → owner_said new file other ≡ owner_said old file other)
        → (owner_said old file page ≡ 0 → IsUnused (old (area_file file) (page - 1)))
        → 1 ≤ owner_said new file page → IsTableOf new file pages table }
{}
