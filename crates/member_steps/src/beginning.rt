// The beginning, behind an opening.
ghost use Rattle.std.specs.Prelude.{◌≡◌, ◌+◌, ◌-◌, ◌^◌, ◌≤◌, ◌<◌, ℕ, List, None, IfSome, IfNone, IfOk, OnOk, OnErr, IsErrOf, IsTrue};
ghost use Rattle.rdb_types.specs.declared.file.FileId.{FileId as File};
ghost use Rattle.rdb_outside.specs.Causes.{Rose};
ghost use Rattle.rdb_outside.specs.Disk.{Pending, LeavesOnly, OnlyReads, IsStable};
ghost use Rattle.root_file.specs.Root.{IsRoot, IsAllowed};
ghost use Rattle.new_database.specs.Maker.{root_file as root_named};
ghost use Rattle.disk_seats.specs.stable_lines.Progress.{Progress};
ghost use Rattle.disk_seats.specs.stable_lines.Facts.{Facts, StandsAs};
ghost use Rattle.disk_seats.specs.Ledgers.{new_ledger};
ghost use Rattle.disk_seats.specs.Members.{LedgerFacts};
ghost use Rattle.member_steps.specs.Beginning.{IsRaised, HasCeiling, IsAtRest};

use disk_seats::{make_stable, root_file, write_root};
use line_store::Fault;
use rdb_outside::Disk;
use root_file::{Root, read_root};

/// How many transaction numbers a ceiling leaves free when it is raised.
pub const NUMBERS: u64 = 64;

const LAST_CEILING: u64 = 4_611_686_018_427_387_904;

// The root of a whole database with room for more transactions, or none where the numbers are used up.
fn raised(root: &Root, next_tsn: u64) -> Option<Root>
    requires { IsAllowed root.now }
    ensures raised { IfSome result (IsRaised root.now next_tsn) }
    ensures none { IfNone result (2 ^ 62 - 64 < next_tsn) }
{
    if next_tsn > LAST_CEILING - NUMBERS {
        return None;
    }
    Some(Root {
        format: root.format,
        state: 1,
        limits: root.limits,
        ceiling: next_tsn + NUMBERS,
        applied: root.applied,
    })
}

// The root that leaves room behind a transaction number, as it is to be written.
fn next_root<D: Disk>(disk: &mut D, next_tsn: u64) -> Result<Root, Fault>
    ensures reads { OnlyReads (D.view disk.old) (D.view disk.new) }
    ensures failed { IsErrOf result Fault.Failed
        → Rose (D.view disk.old).faults (D.view disk.new).faults }
    ensures raised { IfOk result (λ root. IsAllowed root × (root.state ≡ 1)
        × (root.ceiling ≡ next_tsn + 64)) }
    ensures limits { IfOk result (λ root. IsTrue (D.view disk.old).tells → (base : Progress)
        → Facts (Pending (D.view disk.old)) base → root.limits ≡ base.limits) }
    ensures bad { (file : File) (slot : ℕ) → IsErrOf result (Fault.Bad file slot)
        → IsTrue (D.view disk.old).tells → (base : Progress)
        → Facts (Pending (D.view disk.old)) base → 2 ^ 62 - 64 < next_tsn }
{
    let mut slot = [0; 1024];
    disk.read(root_file(), 0, &mut slot)?;
    let Ok(root) = read_root(&slot) else {
        return Err(Fault::Bad(root_file(), 0));
    };
    let Some(next) = raised(&root, next_tsn) else {
        return Err(Fault::Bad(root_file(), 0));
    };
    Ok(next)
}

/// Begins the transactions of a database at whose opening nothing is open: raises the ceiling, so that so many numbers may be drawn, and says of a restored database that it is used. One write and one barrier.
pub fn begin_members<D: Disk>(disk: &mut D, next_tsn: u64) -> Result<Root, Fault>
    ensures told { (D.view disk.new).tells ≡ (D.view disk.old).tells }
    ensures no_fewer { (D.view disk.old).faults ≤ (D.view disk.new).faults }
    ensures failed { IsErrOf result Fault.Failed
        → Rose (D.view disk.old).faults (D.view disk.new).faults }

    // It is refused only where the numbers are used up.
    ensures bad { (file : File) (slot : ℕ) → IsErrOf result (Fault.Bad file slot)
        → IsTrue (D.view disk.old).tells → (base : Progress)
        → Facts (Pending (D.view disk.old)) base → 2 ^ 62 - 64 < next_tsn }

    // The root is the one that stands then.
    ensures allowed { IfOk result IsAllowed }
    ensures state { IfOk result (λ root. root.state ≡ 1) }
    ensures ceiling { IfOk result (λ root. root.ceiling ≡ next_tsn + 64) }
    ensures limits { IfOk result (λ root. IsTrue (D.view disk.old).tells → (base : Progress)
        → Facts (Pending (D.view disk.old)) base → root.limits ≡ base.limits) }
    ensures stands { IfOk result (λ root. IsTrue (D.view disk.old).tells
        → IsRoot ((D.view disk.new).content root_named 0) root) }
    ensures stable { OnOk result (IsTrue (D.view disk.old).tells → IsStable (D.view disk.new)) }

    // Whatever it answers, no other slot is written, and a crash at any moment of it leaves an image that stands for the same.
    ensures others { IsTrue (D.view disk.old).tells → (file : File) (slot : ℕ)
        → (file ≡ root_named → ⊥)
        → (D.view disk.new).content file slot ≡ (D.view disk.old).content file slot }
    ensures pending { IsTrue (D.view disk.old).tells → (file : File) (slot : ℕ) (bytes : List ℕ)
        → (file ≡ root_named → ⊥)
        → Pending (D.view disk.new) file slot bytes → Pending (D.view disk.old) file slot bytes }
    ensures beside { IsTrue (D.view disk.old).tells → (file : File) → (file ≡ root_named → ⊥)
        → LeavesOnly (D.view disk.old) (D.view disk.new)
        (λ image. (slot : ℕ) → Pending (D.view disk.old) file slot (image file slot)) }
    ensures leaves { IsTrue (D.view disk.old).tells → (base : Progress)
        → Facts (Pending (D.view disk.old)) base → base.next_tsn ≡ next_tsn
        → LeavesOnly (D.view disk.old) (D.view disk.new) (StandsAs base) }

    // Whatever it answers, the facts stay.
    ensures keeps { IsTrue (D.view disk.old).tells → (base : Progress)
        → Facts (Pending (D.view disk.old)) base → base.next_tsn ≡ next_tsn
        → Facts (Pending (D.view disk.new)) base }

    // The ledger begins, and so many numbers may be drawn.
    ensures begins { IfOk result (λ root. IsTrue (D.view disk.old).tells → (base : Progress)
        → Facts (Pending (D.view disk.old)) base → base.next_tsn ≡ next_tsn → IsAtRest base
        → LedgerFacts (D.view disk.new) (new_ledger base (D.view disk.new).moment)
        × HasCeiling (Pending (D.view disk.new)) (next_tsn + 64)) }
{
    let root = next_root(disk, next_tsn)?;
    write_root(disk, &root)?;
    make_stable(disk)?;
    Ok(root)
}
