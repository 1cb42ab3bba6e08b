// The headers of the before-image journals.
ghost use Rattle.std.specs.Prelude.{◌≡◌, ◌≢◌, ◌≤◌, ◌<◌, ◌^◌, ◌⊎◌, ℕ, List, Some, None, OnOk, IsTrue};
ghost use Rattle.line_store.specs.rdb_outside.Disk.{Pending, Counts};
ghost use Rattle.stable_lines.specs.root_file.declared.Root.{Root};
ghost use Rattle.stable_lines.specs.root_file.Root.{IsRoot};
ghost use Rattle.stable_lines.specs.new_database.Maker.{root_file};
ghost use Rattle.stable_lines.specs.Slots.{named, ruj_file as journal_named};
ghost use Rattle.stable_lines.specs.Progress.{Open, Progress};
ghost use Rattle.stable_lines.specs.Facts.{Facts};
ghost use Rattle.line_moves.specs.Calls.{OnlyWrites};

use crate::places::ruj_file;
use line_store::{Disk, Failed};
use rdb_types::Tsn;
use stable_lines::put_header;

/// Writes the header that names a member's open transaction.
pub fn open_header<D: Disk>(disk: &mut D, member: u32, tsn: Tsn) -> Result<(), Failed>
    requires first { 1 ≤ tsn.number }
    requires last { tsn.number < 2 ^ 62 }
    ensures counts { Counts (D.view disk.old) (D.view disk.new) result }
    ensures writes { OnlyWrites (journal_named member) 0 (D.view disk.old) (D.view disk.new) }
    ensures names { OnOk result (IsTrue (D.view disk.old).tells
        → named ((D.view disk.new).content (journal_named member) 0) ≡ tsn.number) }

    // Each header that a crash may leave then is one of those before, or names the transaction.
    ensures headers { IsTrue (D.view disk.old).tells → (header : List ℕ)
        → Pending (D.view disk.new) (journal_named member) 0 header
        → Pending (D.view disk.old) (journal_named member) 0 header ⊎ (named header ≡ tsn.number) }

    // Whatever it answers, the facts stay, where the database isn't one that was restored and not used since.
    ensures keeps { IsTrue (D.view disk.old).tells → (now : Progress) (transaction : Open)
        → Facts (Pending (D.view disk.old)) now
        → now.going member ≡ Some transaction → tsn ≡ transaction.tsn → now.former ≡ None
        → ((content : List ℕ) (root : Root) → Pending (D.view disk.old) root_file 0 content
        → IsRoot content root → root.state ≢ 3)
        → Facts (Pending (D.view disk.new)) now }
{
    let mut slot = [0; 512];
    put_header(&mut slot, Some(tsn));
    disk.write(ruj_file(member), 0, &slot)
}

/// Writes the header that names none, of a member without an open transaction.
pub fn close_header<D: Disk>(disk: &mut D, member: u32) -> Result<(), Failed>
    ensures counts { Counts (D.view disk.old) (D.view disk.new) result }
    ensures writes { OnlyWrites (journal_named member) 0 (D.view disk.old) (D.view disk.new) }
    ensures names { OnOk result (IsTrue (D.view disk.old).tells
        → named ((D.view disk.new).content (journal_named member) 0) ≡ 0) }

    // Each header that a crash may leave then is one of those before, or names none.
    ensures headers { IsTrue (D.view disk.old).tells → (header : List ℕ)
        → Pending (D.view disk.new) (journal_named member) 0 header
        → Pending (D.view disk.old) (journal_named member) 0 header ⊎ (named header ≡ 0) }

    // Whatever it answers, the facts stay.
    ensures keeps { IsTrue (D.view disk.old).tells → (now : Progress)
        → Facts (Pending (D.view disk.old)) now
        → now.going member ≡ None → 1 ≤ now.next_tsn → Facts (Pending (D.view disk.new)) now }
{
    let mut slot = [0; 512];
    put_header(&mut slot, None);
    disk.write(ruj_file(member), 0, &slot)
}
