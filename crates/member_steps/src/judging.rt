// Whether a commit stands.
ghost use Rattle.std.specs.Prelude.{◌≡◌, ◌≢◌, ◌+◌, ◌<◌, ◌^◌, true, false, None, Ok, IsErr, IsTrue};
ghost use Rattle.rdb_outside.specs.Causes.{Rose};
ghost use Rattle.rdb_outside.specs.Disk.{OnlyReads};
ghost use Rattle.journal_scan.specs.Standing.{what_stands};
ghost use Rattle.new_database.specs.Maker.{aij_file as aij_named};
ghost use Rattle.disk_seats.specs.stable_lines.Journal.{commit_of};
ghost use Rattle.disk_seats.specs.stable_lines.Progress.{Flight, Progress};
ghost use Rattle.disk_seats.specs.line_moves.Changes.{IsCommitOf};

use aij_journal::{AijPart, read_slot};
use disk_seats::{GroupPlace, aij_file};
use rdb_outside::{Disk, Failed};

// Whether a part is the commit of a group with so many lines.
fn is_commit(part: &AijPart, group: GroupPlace, lines: u32) -> bool
    requires { lines + 1 < 2 ^ 32 }
    ensures yes { result ≡ true → part.now ≡ record { number = group.number; tsn = group.tsn; index = lines; count = lines + 1; line = None } }
    ensures no { result ≡ false → part.now ≢ record { number = group.number; tsn = group.tsn; index = lines; count = lines + 1; line = None } }
{
    match &part.line {
        Some(_) => false,
        None => {
            part.number == group.number
                && part.tsn.number == group.tsn.number
                && part.index == lines
                && part.count == lines + 1
        }
    }
}

/// Whether the commit slot of a group stands in what reads give. Behind a barrier this tells whether a group whose commit slot was on its way is committed.
pub fn has_commit<D: Disk>(disk: &mut D, group: GroupPlace, lines: u32) -> Result<bool, Failed>
    requires within { group.slot + lines < 2 ^ 32 }
    requires count { lines + 1 < 2 ^ 32 }
    ensures reads { OnlyReads (D.view disk.old) (D.view disk.new) }
    ensures failed { IsErr result → Rose (D.view disk.old).faults (D.view disk.new).faults }
    ensures stands { result ≡ Ok true → IsTrue (D.view disk.old).tells
        → (now : Progress) (flight : Flight)
        → IsCommitOf now flight group.slot group.number group.tsn lines
        → what_stands ((D.view disk.new).content aij_named (group.slot + lines)) ≡ commit_of flight.group }
    ensures lost { result ≡ Ok false → IsTrue (D.view disk.old).tells
        → (now : Progress) (flight : Flight)
        → IsCommitOf now flight group.slot group.number group.tsn lines
        → what_stands ((D.view disk.new).content aij_named (group.slot + lines)) ≢ commit_of flight.group }
{
    let mut slot = [0; 512];
    disk.read(aij_file(), group.slot + lines, &mut slot)?;
    match read_slot(&slot) {
        Some(part) => Ok(is_commit(&part, group, lines)),
        None => Ok(false),
    }
}
