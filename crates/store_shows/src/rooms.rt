// Rooms and pages that are taken, by the tables, and what the trait of stores says of them.
ghost use Rattle.std.specs.Prelude.{◌≡◌, ◌≤◌, ℕ, None, Option};
ghost use Rattle.rdb_types.specs.declared.keys.Dbkey.{Dbkey};
ghost use Rattle.rdb_page.specs.Page.{IsOwner};
ghost use Rattle.line_view.specs.Knowledge.{line_in};
ghost use Rattle.line_store.specs.Shelves.{Shelf, Space, seen_by};
ghost use Rattle.line_store.specs.Rooms.{IsRoom, IsFull, IsTaken, TakesPage};
ghost use Rattle.page_table.specs.Pages.{Pages, IsWithin, empty_of, owner_in, Puts};
ghost use Rattle.page_table.specs.Scans.{IsNextRoom, HasNoRoom, IsNew};
ghost use Rattle.store_shows.specs.Rooms.{HasPages};

/// The next room of a table is one for the session where the line has no image as the session sees it. Where the table has none, the area is full.
pub fn rooms_are_shown()
    ensures room { (tables : ℕ → Pages) (h : Shelf) (s file area class : ℕ) (from : Option Dbkey) (key : Dbkey)
        → HasPages tables h.space → IsOwner file area
        → IsNextRoom (tables file) area class from key → line_in key (seen_by s h) ≡ None
        → IsRoom h s area from key }
    ensures full { (tables : ℕ → Pages) (h : Shelf) (s file area class : ℕ) (from : Option Dbkey)
        → HasPages tables h.space → IsOwner file area
        → HasNoRoom (tables file) area class from → IsFull h s area h.space.limits.pages }
{}

/// A page that nobody owned is taken when it is put into the table for an area, and one that isn't free was taken.
pub fn pages_are_taken()
    ensures takes { (tables kept : ℕ → Pages) (old new : Space) (file class : ℕ) (key : Dbkey)
        → HasPages tables old → HasPages kept new → IsOwner file key.area
        → IsNew (tables file) key.page
        → Puts key.page (empty_of key.area class) (tables file) (kept file)
        → ((other : ℕ) → (other ≡ file → ⊥) → kept other ≡ tables other)
        → new.limits ≡ old.limits → new.snaps ≡ old.snaps → new.slots ≡ old.slots
        → TakesPage key file old new }
    ensures was { (tables : ℕ → Pages) (space : Space) (file : ℕ) (key : Dbkey)
        → HasPages tables space → IsOwner file key.area
        → (IsNew (tables file) key.page → ⊥) → IsTaken key space }
{}
