// What a verification doesn't list.
ghost use Rattle.std.specs.Prelude.{◌≡◌, ℕ, List, []};
ghost use Rattle.rdb_types.specs.declared.keys.Dbkey.{Dbkey};
ghost use Rattle.rdb_outside.specs.Disk.{Image};
ghost use Rattle.rdo_ast.specs.Tree.{Name};
ghost use Rattle.line_view.specs.Knowledge.{Lines};
ghost use Rattle.catalog.specs.declared.reading.Catalog.{Catalog};
ghost use Rattle.catalog.specs.Reading.{IsCatalogOf};
ghost use Rattle.sound_lines.specs.Contents.{versions_in};
ghost use Rattle.sound_lines.specs.Sound.{IsSound};
ghost use Rattle.stable_lines.specs.Journal.{Journal};
ghost use Rattle.stable_lines.specs.Kept.{Kept};
ghost use Rattle.rmu_texts.specs.declared.faults.VerifyFault.{VerifyFault};
ghost use Rattle.page_faults.specs.declared.checks.PageCheck.TheVariants.{Decodes, Owned};
ghost use Rattle.page_faults.specs.Listing.{ListsAll};
ghost use Rattle.line_faults.specs.Catalog.{IsCheckedCatalog};
ghost use Rattle.verified_lines.specs.Relations.{FindsRows, FindsIndexes, strays_in};
ghost use Rattle.verified_lines.specs.Faults.{AreLineFaults};
ghost use Rattle.faultless_databases.specs.Faultless.{HasNoFaults};

/// Each page of an image that opening can start from passes its decoder.
pub fn no_page_fails()
    ensures { (classes : ℕ → ℕ) (lines : Lines) (journal : Journal) (image : Image) → Kept classes lines journal image
        → (faults : List VerifyFault) → ListsAll image Decodes faults → faults ≡ [] }
{}

/// Each page of it that is used has the owner that its space page says.
pub fn no_owner_differs()
    ensures { (classes : ℕ → ℕ) (lines : Lines) (journal : Journal) (image : Image) → Kept classes lines journal image
        → (faults : List VerifyFault) → ListsAll image Owned faults → faults ≡ [] }
{}

/// No line of the catalog of a sound map is taken out, and none that stays isn't sound.
pub fn no_catalog_line_is_at_fault()
    ensures whole { (all : Lines) → IsSound all → (c : Catalog) (faults : List Dbkey) → IsCheckedCatalog all c faults → IsCatalogOf all c }
    ensures none { (all : Lines) → IsSound all → (c : Catalog) (faults : List Dbkey) → IsCheckedCatalog all c faults → faults ≡ [] }
{}

/// The lines of a sound map's relations are rows, and no line of an even area is without a relation.
pub fn no_row_is_at_fault()
    ensures rows { (all : Lines) → IsSound all → (c : Catalog) → IsCatalogOf all c
        → (faults : List Dbkey) → FindsRows all (versions_in c.lines) c.tables.relations faults → faults ≡ [] }
    ensures strays { (all : Lines) → IsSound all → (c : Catalog) → IsCatalogOf all c
        → (areas : List ℕ) → strays_in all c.tables areas ≡ [] }
{}

/// Each index of a sound map is in order.
pub fn no_node_is_at_fault()
    ensures { (all : Lines) → IsSound all → (c : Catalog) → IsCatalogOf all c
        → (nodes : List Dbkey) (names : List Name) → FindsIndexes all (versions_in c.lines) c.tables c.lines nodes names → nodes ≡ [] }
{}

/// Each index of a sound map holds the rows of its relation.
pub fn no_index_differs()
    ensures { (all : Lines) → IsSound all → (c : Catalog) → IsCatalogOf all c
        → (nodes : List Dbkey) (names : List Name) → FindsIndexes all (versions_in c.lines) c.tables c.lines nodes names → names ≡ [] }
{}

/// Of a sound map no line is at fault.
pub fn sound_lines_have_no_fault()
    ensures { (all : Lines) → IsSound all → (faults : List VerifyFault) → AreLineFaults all faults → faults ≡ [] }
{}

/// An image that opening can start from, whose lines are sound, has no faults to list.
pub fn a_sound_database_has_no_fault()
    ensures { (classes : ℕ → ℕ) (lines : Lines) (journal : Journal) (image : Image) → Kept classes lines journal image
        → IsSound lines → HasNoFaults image }
{}
