// The headers of the members' journals, closed.
ghost use Rattle.std.specs.Prelude.{◌≡◌, ◌≤◌, ◌<◌, ℕ, None, IfOk, IsErrOf, IsTrue};
ghost use Rattle.rdb_types.specs.declared.file.FileId.{FileId as File};
ghost use Rattle.rdb_outside.specs.Causes.{Rose};
ghost use Rattle.rdb_outside.specs.Disk.{Pending};
ghost use Rattle.line_moves.specs.stable_lines.Slots.{ruj_file as ruj_named, IsMember};
ghost use Rattle.line_moves.specs.stable_lines.Kept.{IsRujHeader};
ghost use Rattle.line_moves.specs.stable_lines.Progress.{Progress};
ghost use Rattle.line_moves.specs.stable_lines.Facts.{Facts};
ghost use Rattle.line_moves.specs.Calls.{OnlyWrites};
ghost use Rattle.line_opening.specs.Headers.{AreClosed};

use crate::headers::named_by;
use line_moves::{Fault, close_header};
use rdb_outside::Disk;

/// Closes the first header, of this member or one behind, that names a transaction. The answer is the member to go on with, and 17 where there is none any more. One write at most.
pub fn close_next<D: Disk>(disk: &mut D, from: u32) -> Result<u32, Fault>
    requires { from ≤ 17 }
    ensures writes { (member : ℕ) × OnlyWrites (ruj_named member) 0 (D.view disk.old) (D.view disk.new) }
    ensures failed { IsErrOf result Fault.Failed
        → Rose (D.view disk.old).faults (D.view disk.new).faults }

    // It is refused only where the header of some member is none.
    ensures bad { (file : File) (slot : ℕ) → IsErrOf result (Fault.Bad file slot)
        → IsTrue (D.view disk.old).tells → 1 ≤ from
        → ((member : ℕ) → IsMember member → IsRujHeader ((D.view disk.old).content (ruj_named member) 0))
        → ⊥ }

    // Whatever it answers, the facts stay, where no transaction is open.
    ensures keeps { IsTrue (D.view disk.old).tells → (now : Progress)
        → Facts (Pending (D.view disk.old)) now → ((member : ℕ) → now.going member ≡ None)
        → 1 ≤ now.next_tsn → Facts (Pending (D.view disk.new)) now }

    // The headers of all members before the one to go on with name none.
    ensures closed { IfOk result (λ next. IsTrue (D.view disk.old).tells
        → AreClosed (D.view disk.old).content from → AreClosed (D.view disk.new).content next) }
    ensures further { IfOk result (λ next. from < 17 → from < next) }
    ensures last { IfOk result (λ next. next ≤ 17) }
{
    for member in from..17 {
        if named_by(disk, member)? != 0 {
            return match close_header(disk, member) {
                Ok(()) => Ok(member + 1),
                Err(failed) => Err(Fault::from(failed)),
            };
        }
    }
    Ok(17)
}
