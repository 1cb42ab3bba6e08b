// What is found, as the trait of stores says it.
ghost use Rattle.std.specs.Prelude.{◌≡◌, ℕ, true, Option, List};
ghost use Rattle.std.specs.FinMap.Entries.{is_sorted};
ghost use Rattle.rdb_types.specs.declared.keys.Dbkey.{Dbkey};
ghost use Rattle.rdb_types.specs.declared.keys.Line.{Line};
ghost use Rattle.rdb_types.specs.Order.{dbkey_order};
ghost use Rattle.rdb_page.specs.Page.{IsOwner};
ghost use Rattle.line_view.specs.Writes.{laid_all};
ghost use Rattle.line_store.specs.Shelves.{Shelf, seen_by};
ghost use Rattle.line_store.specs.Rooms.{IsRoom, IsFull};
ghost use Rattle.committed_tables.specs.page_table.Pages.{Pages};
ghost use Rattle.committed_tables.specs.Tables.{HasCommitted};
ghost use Rattle.store_shows.specs.Rooms.{HasPages};
ghost use Rattle.member_memory.specs.Memory.{writes_in};
ghost use Rattle.member_rooms.specs.Rooms.{IsRoomBeside, HasNoPage};

/// Where the table has the committed lines, and the session sees them under what its transaction wrote, what is found is a room for the session; where nothing is, the area is full.
pub fn rooms_beside_are_shown()
    ensures room { (tables : ℕ → Pages) (h : Shelf) (lines : List (Dbkey × Line)) (s file area class : ℕ) (from : Option Dbkey) (key : Dbkey)
        → HasPages tables h.space → IsOwner file area → HasCommitted (tables file) file h.now
        → is_sorted dbkey_order lines ≡ true → seen_by s h ≡ laid_all (writes_in lines) h.now
        → IsRoomBeside (tables file) lines area class from key → IsRoom h s area from key }
    ensures full { (tables : ℕ → Pages) (h : Shelf) (lines : List (Dbkey × Line)) (s file area : ℕ)
        → HasPages tables h.space → IsOwner file area
        → is_sorted dbkey_order lines ≡ true → seen_by s h ≡ laid_all (writes_in lines) h.now
        → HasNoPage (tables file) lines area → IsFull h s area h.space.limits.pages }
{}
