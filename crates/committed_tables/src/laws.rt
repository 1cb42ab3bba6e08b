// What a table of pages has of the committed lines.
ghost use Rattle.std.specs.Prelude.{◌≡◌, ◌≤◌, ℕ, Bool, List, Option, Some, None, is_some, IsTrue};
ghost use Rattle.std.specs.declared.cmp.Ordering.TheVariants.{Less};
ghost use Rattle.rdb_types.specs.declared.keys.Dbkey.{Dbkey};
ghost use Rattle.rdb_types.specs.Order.{dbkey_order};
ghost use Rattle.rdb_outside.specs.Disk.{Pending};
ghost use Rattle.rdb_page.specs.Page.{IsOwner};
ghost use Rattle.stable_lines.specs.Progress.{Progress};
ghost use Rattle.stable_lines.specs.Facts.{Facts};
ghost use Rattle.line_view.specs.Knowledge.{Lines, line_in, laid};
ghost use Rattle.line_store.specs.Rooms.{IsBehind};
ghost use Rattle.page_table.specs.declared.uses.Sought.TheVariants.{Used, Ever};
ghost use Rattle.page_table.specs.Pages.{Pages, empty_of, owner_in, IsLineOf, Puts, PutsLine};
ghost use Rattle.page_table.specs.Reading.{IsTableOf};
ghost use Rattle.page_table.specs.Scans.{IsFirst, HasNone, IsNextRoom};
ghost use Rattle.committed_tables.specs.Tables.{HasCommitted, IsNextCommitted, WereUsed};

use rdb_outside::Disk;

/// The table of an area file that is read at an opening, where nothing is open, has what is committed.
pub fn a_table_begins<D: Disk>(disk: &D)
    requires { IsTrue (D.view disk.now).tells }
    ensures { (base : Progress) (file : ℕ) (table : Pages) → Facts (Pending (D.view disk.now)) base
        → ((member : ℕ) → base.going member ≡ None)
        → IsTableOf (D.view disk.now).content file base.limits.pages table
        → HasCommitted table file base.lines }
{}

/// Behind a line that is committed the table in which it is put has what is committed; so it has behind a page that is taken, and where the line is of another file.
pub fn a_table_follows_commits()
    ensures laid { (pages kept : Pages) (file : ℕ) (lines : Lines) (key : Dbkey) (image : Option (List ℕ))
        → HasCommitted pages file lines → IsOwner file key.area → IsLineOf pages key
        → PutsLine key (is_some image) pages kept → HasCommitted kept file (laid key image lines) }
    ensures other { (pages : Pages) (file : ℕ) (lines : Lines) (key : Dbkey) (image : Option (List ℕ))
        → HasCommitted pages file lines → (IsOwner file key.area → ⊥)
        → HasCommitted pages file (laid key image lines) }
    ensures taken { (pages kept : Pages) (file : ℕ) (lines : Lines) (page area class : ℕ)
        → HasCommitted pages file lines → 1 ≤ page → owner_in pages page ≡ 0
        → Puts page (empty_of area class) pages kept → HasCommitted kept file lines }
{}

/// A room that is found in the table has no committed line.
pub fn rooms_are_free()
    ensures { (pages : Pages) (file : ℕ) (lines : Lines) (area class : ℕ) (from : Option Dbkey) (key : Dbkey)
        → HasCommitted pages file lines → IsOwner file area → IsNextRoom pages area class from key
        → line_in key lines ≡ None }
{}

/// The next used line of an area is the next committed one, and there is none behind where there is none.
pub fn used_lines_are_committed()
    ensures next { (pages : Pages) (file : ℕ) (lines : Lines) (area : ℕ) (from : Option Dbkey) (key : Dbkey)
        → HasCommitted pages file lines → IsOwner file area → IsFirst pages Used area from key
        → IsNextCommitted lines area from key }
    ensures none { (pages : Pages) (file : ℕ) (lines : Lines) (area : ℕ) (from : Option Dbkey) (key : Dbkey) (image : List ℕ)
        → HasCommitted pages file lines → IsOwner file area → HasNone pages Used area from
        → key.area ≡ area → IsBehind from key → line_in key lines ≡ Some image → ⊥ }
{}

/// The lines that are committed when a reader begins were used, and go on being so, whatever is committed and taken behind that.
pub fn a_table_keeps_used_lines()
    ensures begins { (pages : Pages) (file : ℕ) (lines : Lines)
        → HasCommitted pages file lines → WereUsed pages file lines }
    ensures laid { (pages kept : Pages) (file : ℕ) (lines : Lines) (key : Dbkey) (is_present : Bool)
        → WereUsed pages file lines → IsLineOf pages key
        → PutsLine key is_present pages kept → WereUsed kept file lines }
    ensures taken { (pages kept : Pages) (file : ℕ) (lines : Lines) (page area class : ℕ)
        → WereUsed pages file lines → 1 ≤ page → owner_in pages page ≡ 0
        → Puts page (empty_of area class) pages kept → WereUsed kept file lines }
{}

/// Who goes over the lines of an area that were ever used comes to each line that a reader may see.
pub fn used_lines_are_passed()
    ensures next { (pages : Pages) (file : ℕ) (lines : Lines) (area : ℕ) (from : Option Dbkey) (key other : Dbkey) (image : List ℕ)
        → WereUsed pages file lines → IsOwner file area → IsFirst pages Ever area from key
        → other.area ≡ area → IsBehind from other → line_in other lines ≡ Some image
        → dbkey_order other key ≡ Less → ⊥ }
    ensures none { (pages : Pages) (file : ℕ) (lines : Lines) (area : ℕ) (from : Option Dbkey) (key : Dbkey) (image : List ℕ)
        → WereUsed pages file lines → IsOwner file area → HasNone pages Ever area from
        → key.area ≡ area → IsBehind from key → line_in key lines ≡ Some image → ⊥ }
{}
