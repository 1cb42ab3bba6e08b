// A line of a group on its page.
ghost use Rattle.std.specs.Prelude.{◌≡◌, ◌≤◌, ◌<◌, ◌^◌, ◌∷◌, [], ℕ, IfSome, IfNone, OnOk, IsErrOf, IsTrue};
ghost use Rattle.rdb_types.specs.declared.file.FileId.{FileId as File};
ghost use Rattle.rdb_outside.specs.Causes.{Rose};
ghost use Rattle.rdb_page.specs.Page.{IsClass};
ghost use Rattle.stable_lines.specs.Journal.{write_of};
ghost use Rattle.line_moves.specs.Changes.{IsPlaceOf};
ghost use Rattle.guarded_root.specs.Guarded.{RunsBehind};
ghost use Rattle.guarded_lines.specs.Laying.{IsArea};
ghost use Rattle.laid_groups.specs.Forward.{Forward, line_laid, FitsLine, IsReady, KeepsReady};
ghost use Rattle.laid_groups.specs.Laid.{LaidOver};

use aij_journal::GroupLine;
use guarded_lines::lay_line;
use line_moves::{Place, place_of};
use line_store::Fault;
use rdb_outside::Disk;
use rdb_types::{FileId, Image, Line, Tsn};

// The line as it is laid: the transaction of its group made it so, and it has no version before.
fn line_of(tsn: Tsn, line: &GroupLine) -> Line
    ensures { result ≡ line_laid tsn line.now }
{
    Line {
        state: line.state,
        tsn,
        chain: 0,
        image: Image::from_bytes(line.image.bytes()),
    }
}

// Where a line is laid that is of a class: none for a key that names no logical area or no data page.
fn place_for(line: &GroupLine) -> Option<Place>
    ensures found { IfSome result (λ place. IsPlaceOf line.now.key place) }
    ensures class { IfSome result (λ place. IsClass line.now.class) }
    ensures none { IfNone result ((place : _) → IsPlaceOf line.now.key place → IsClass line.now.class → ⊥) }
{
    if line.class != 208 && line.class != 440 {
        return None;
    }
    place_of(line.key)
}

/// Lays a line of a transaction's group on its page. Where it has none it is refused, with the slot that its group begins in.
pub(crate) fn lay_one<D: Disk>(
    disk: &mut D,
    file: FileId,
    slot: u32,
    tsn: Tsn,
    line: &GroupLine,
) -> Result<(), Fault>
    ensures failed { IsErrOf result Fault.Failed
        → Rose (D.view disk.old).faults (D.view disk.new).faults }

    // A line that fits is never refused.
    ensures bad { (named : File) (at : ℕ) → IsErrOf result (Fault.Bad named at)
        → IsTrue (D.view disk.old).tells → (forward : Forward) → IsReady forward (D.view disk.old)
        → FitsLine forward line.now → tsn.number < 2 ^ 62 → ⊥ }
    ensures laid { OnOk result (IsTrue (D.view disk.old).tells
        → (forward : Forward) → IsReady forward (D.view disk.old) → FitsLine forward line.now
        → LaidOver forward (write_of line.now ∷ []) (D.view disk.old).content (D.view disk.new).content) }

    // Whatever it answers.
    ensures runs { RunsBehind IsArea (D.view disk.old) (D.view disk.new) }
    ensures ready { IsTrue (D.view disk.old).tells → (forward : Forward)
        → FitsLine forward line.now → tsn.number < forward.top
        → KeepsReady forward (D.view disk.old) (D.view disk.new) }
{
    let Some(place) = place_for(line) else {
        return Err(Fault::Bad(file, slot));
    };
    let value = line_of(tsn, line);
    lay_line(disk, line.key, place, line.class, &value)
}
