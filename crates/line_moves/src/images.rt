// After-images, commit slots, and the root.
ghost use Rattle.std.specs.Prelude.{◌≡◌, ◌≤◌, ◌<◌, ◌+◌, ◌^◌, ◌⊎◌, ℕ, List, Some, None, IsSome, OnOk, IsTrue};
ghost use Rattle.line_store.specs.rdb_outside.Disk.{Pending, Counts};
ghost use Rattle.stable_lines.specs.aij_journal.Part.{IsAllowedWhat};
ghost use Rattle.stable_lines.specs.root_file.Root.{IsAllowed, IsRoot};
ghost use Rattle.stable_lines.specs.journal_scan.Standing.{what_stands};
ghost use Rattle.stable_lines.specs.new_database.Maker.{aij_file as aij_named, root_file as root_named};
ghost use Rattle.stable_lines.specs.Journal.{next_slot, commit_of};
ghost use Rattle.stable_lines.specs.Progress.{Flight, Progress};
ghost use Rattle.stable_lines.specs.Facts.{Facts};
ghost use Rattle.line_moves.specs.Calls.{OnlyWrites};
ghost use Rattle.line_moves.specs.Changes.{IsCommitOf};

use crate::places::{aij_file, root_file};
use line_store::{Disk, Failed};
use rdb_types::Tsn;
use stable_lines::{AijPart, Root, put_root, put_slot};

/// Journals a line as the commit leaves it, in a slot behind the groups.
pub fn write_after_image<D: Disk>(disk: &mut D, slot: u32, part: &AijPart) -> Result<(), Failed>
    requires number { part.now.number ≤ 2 ^ 62 }
    requires tsn { part.now.tsn.number < 2 ^ 62 }
    requires what { IsAllowedWhat part.now.line }
    requires line { IsSome part.now.line }
    ensures counts { Counts (D.view disk.old) (D.view disk.new) result }
    ensures writes { OnlyWrites aij_named slot (D.view disk.old) (D.view disk.new) }
    ensures stands { OnOk result (IsTrue (D.view disk.old).tells
        → what_stands ((D.view disk.new).content aij_named slot) ≡ Some part.now) }

    // Whatever it answers, the facts stay, where no group is in flight.
    ensures keeps { IsTrue (D.view disk.old).tells → (now : Progress)
        → Facts (Pending (D.view disk.old)) now
        → next_slot now.journal ≤ slot → now.former ≡ None → now.flight ≡ None
        → Facts (Pending (D.view disk.new)) now }
{
    let mut bytes = [0; 512];
    put_slot(&mut bytes, part);
    disk.write(aij_file(), slot, &bytes)
}

/// Writes the commit slot of the group that begins at a slot, behind its lines.
pub fn write_commit<D: Disk>(
    disk: &mut D,
    slot: u32,
    number: u64,
    tsn: Tsn,
    lines: u32,
) -> Result<(), Failed>
    requires number { number ≤ 2 ^ 62 }
    requires tsn { tsn.number < 2 ^ 62 }
    requires within { slot + lines < 2 ^ 32 }
    requires count { lines + 1 < 2 ^ 32 }
    ensures counts { Counts (D.view disk.old) (D.view disk.new) result }
    ensures writes { OnlyWrites aij_named (slot + lines) (D.view disk.old) (D.view disk.new) }
    ensures stands { OnOk result (IsTrue (D.view disk.old).tells → (now : Progress) (flight : Flight)
        → IsCommitOf now flight slot number tsn lines
        → what_stands ((D.view disk.new).content aij_named (slot + lines)) ≡ commit_of flight.group) }

    // Whatever it answers, the facts stay: the group is in flight.
    ensures keeps { IsTrue (D.view disk.old).tells → (now : Progress) (flight : Flight)
        → Facts (Pending (D.view disk.old)) now → IsCommitOf now flight slot number tsn lines
        → Facts (Pending (D.view disk.new)) now }
{
    let mut bytes = [0; 512];
    put_slot(
        &mut bytes,
        &AijPart {
            number,
            tsn,
            index: lines,
            count: lines + 1,
            line: None,
        },
    );
    disk.write(aij_file(), slot + lines, &bytes)
}

/// Writes the root of a whole database, with a ceiling above every transaction number that was drawn.
pub fn write_root<D: Disk>(disk: &mut D, root: &Root) -> Result<(), Failed>
    requires allowed { IsAllowed root.now }
    requires whole { root.now.state ≡ 1 }
    ensures counts { Counts (D.view disk.old) (D.view disk.new) result }
    ensures writes { OnlyWrites root_named 0 (D.view disk.old) (D.view disk.new) }
    ensures stands { OnOk result (IsTrue (D.view disk.old).tells
        → IsRoot ((D.view disk.new).content root_named 0) root.now) }

    // Each root that a crash may leave then is one of those before, or this one.
    ensures roots { IsTrue (D.view disk.old).tells → (content : List ℕ)
        → Pending (D.view disk.new) root_named 0 content
        → Pending (D.view disk.old) root_named 0 content ⊎ IsRoot content root.now }

    // Whatever it answers, the facts stay.
    ensures keeps { IsTrue (D.view disk.old).tells → (now : Progress)
        → Facts (Pending (D.view disk.old)) now
        → root.now.limits ≡ now.limits → now.next_tsn ≤ root.now.ceiling
        → Facts (Pending (D.view disk.new)) now }
{
    let mut slot = [0; 1024];
    put_root(&mut slot, root);
    disk.write(root_file(), 0, &slot)
}
