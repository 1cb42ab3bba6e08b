// What can be opened.
ghost use Rattle.std.specs.Prelude.{ℕ, ◌≡◌, ◌≢◌};
ghost use Rattle.rdb_types.specs.declared.file.FileId.{FileId};
ghost use Rattle.rdb_types.specs.declared.file.FileKind.TheVariants.{Snap};
ghost use Rattle.rdb_types.specs.declared.keys.Limits.{Limits};
ghost use Rattle.rdb_outside.specs.Disk.{Image, LeftNow};
ghost use Rattle.new_database.specs.New.{IsNewDatabase};
ghost use Rattle.line_view.specs.Knowledge.{Lines};
ghost use Rattle.line_store.specs.Shelves.{Shelf};
ghost use Rattle.line_store.specs.Calls.{MayStand};
ghost use Rattle.stable_lines.specs.Journal.{Journal};
ghost use Rattle.stable_lines.specs.Kept.{Kept};
ghost use Rattle.line_moves.specs.Classes.{IsClassed};
ghost use Rattle.disk_store.specs.Shown.{Shown};
ghost use Rattle.store_shows.specs.Shows.{OpensTo};

use disk_store::Held;
use rdb_outside::Disk;

/// In a new database pages have the classes of their areas, whatever those are: nobody owns a page. (It is kept with no lines, as `new_is_kept` has it, so it opens as a store without lines.)
pub fn a_new_database_opens()
    ensures { (limits : Limits) (image : Image) → IsNewDatabase limits image
        → (by_area : ℕ → ℕ) → IsClassed by_area image }
{}

/// Whatever a crash leaves of a store, opening can start from it, and shows its lines. It stands for the committed lines, or for those with the commit that is under way, and its pages have the classes of their areas.
pub fn a_crash_leaves_what_opens<D: Disk>(disk: &D, held: &Held)
    ensures { (h : Shelf) → Shown (D.view disk.now) held.now h
        → (image : Image) → LeftNow (D.view disk.now) image
        → (lines : Lines) × OpensTo image lines × MayStand h lines }
{}

/// An opening needs no slot of a snapshot file: an image is kept, whatever they hold.
pub fn snapshot_slots_are_left_out()
    ensures { (classes : ℕ → ℕ) (lines : Lines) (journal : Journal) (image other : Image)
        → ((file : FileId) (slot : ℕ) → file.kind ≢ Snap → other file slot ≡ image file slot)
        → Kept classes lines journal image → Kept classes lines journal other }
{}
