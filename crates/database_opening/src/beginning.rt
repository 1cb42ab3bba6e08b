// The first step of an opening.
ghost use Rattle.std.specs.Prelude.{◌≡◌, ◌⊎◌, true, ℕ, IfOk, OnOk, IsErrOf, IsTrue};
ghost use Rattle.rdb_types.specs.declared.file.FileId.{FileId as File};
ghost use Rattle.rdb_outside.specs.Causes.{Rose};
ghost use Rattle.rdb_outside.specs.Disk.{OnlyReads, IsStable};
ghost use Rattle.root_file.specs.Root.{IsRoot, IsAllowed};
ghost use Rattle.new_database.specs.Maker.{root_file as root_named};
ghost use Rattle.line_view.specs.Knowledge.{Lines};
ghost use Rattle.line_opening.specs.stable_lines.Journal.{Journal};
ghost use Rattle.line_opening.specs.stable_lines.Kept.{Kept};
ghost use Rattle.line_opening.specs.Headers.{number_of};
ghost use Rattle.database_opening.specs.Stages.{OpeningFacts, IsStage};
ghost use Rattle.database_opening.specs.declared.stages.OpeningStage.TheVariants.{Undoing, Opened};

use crate::reading::{count_all, opened_root};
use crate::stages::{Found, Opening, OpeningStage};
use line_opening::{all_named, find_open, make_stable};
use line_store::Fault;
use rdb_outside::Disk;

// Whether no header names a transaction.
fn names_none(numbers: &[u64; 16]) -> bool
    ensures { result ≡ true → (member : ℕ) → number_of numbers.now member ≡ 0 }
{
    for place in 0..16 {
        if numbers[place] != 0 {
            return false;
        }
    }
    true
}

// The stage behind the readings.
fn first_stage(named: &[u64; 16], counts: &[u32; 16]) -> OpeningStage
    ensures { (((member : ℕ) → number_of named.now member ≡ 0) × (result ≡ Opened))
        ⊎ (result ≡ Undoing 1 (number_of counts.now 1)) }
{
    if names_none(named) {
        return OpeningStage::Opened;
    }
    OpeningStage::Undoing {
        member: 1,
        entries: counts[0],
    }
}

// Reads all that an opening goes by.
fn read_all<D: Disk>(disk: &mut D) -> Result<Opening, Fault>
    ensures reads { OnlyReads (D.view disk.old) (D.view disk.new) }
    ensures failed { IsErrOf result Fault.Failed
        → Rose (D.view disk.old).faults (D.view disk.new).faults }
    ensures bad { (file : File) (slot : ℕ) → IsErrOf result (Fault.Bad file slot)
        → IsTrue (D.view disk.old).tells
        → (classes : ℕ → ℕ) (lines : Lines) (journal : Journal)
        → Kept classes lines journal (D.view disk.old).content → ⊥ }
    ensures stage { IfOk result (λ opening. IsStage opening.stage) }
    ensures root { IfOk result (λ opening. IsAllowed opening.found.root) }
    ensures its_root { IfOk result (λ opening. IsTrue (D.view disk.old).tells
        → IsRoot ((D.view disk.old).content root_named 0) opening.found.root) }
    ensures found { IfOk result (λ opening. IsTrue (D.view disk.old).tells → IsStable (D.view disk.old)
        → (classes : ℕ → ℕ) (lines : Lines) (journal : Journal)
        → Kept classes lines journal (D.view disk.old).content
        → OpeningFacts classes lines journal opening.stage (D.view disk.new) opening.found) }
{
    let root = opened_root(disk)?;
    let named = all_named(disk)?;
    let mut numbers = named;
    let next = find_open(disk, &mut numbers)?;
    let counts = count_all(disk, &numbers)?;
    let stage = first_stage(&named, &counts);
    let found = Found {
        root,
        numbers,
        counts,
        next,
    };
    Ok(Opening { stage, found })
}

/// Begins the opening of a database: makes stable what a crash left, and reads the root, the headers, the groups and the entries of what is open. Where no header names a transaction, the database is open behind it. It makes one barrier and writes nothing.
pub fn begin<D: Disk>(disk: &mut D) -> Result<Opening, Fault>
    ensures reads { OnlyReads (D.view disk.old) (D.view disk.new) }
    ensures failed { IsErrOf result Fault.Failed
        → Rose (D.view disk.old).faults (D.view disk.new).faults }

    // A kept image is never refused.
    ensures bad { (file : File) (slot : ℕ) → IsErrOf result (Fault.Bad file slot)
        → IsTrue (D.view disk.old).tells
        → (classes : ℕ → ℕ) (lines : Lines) (journal : Journal)
        → Kept classes lines journal (D.view disk.old).content → ⊥ }
    ensures stage { IfOk result (λ opening. IsStage opening.stage) }
    ensures root { IfOk result (λ opening. IsAllowed opening.found.root) }
    ensures its_root { IfOk result (λ opening. IsTrue (D.view disk.old).tells
        → IsRoot ((D.view disk.old).content root_named 0) opening.found.root) }

    // What the image stands for are the lines of the opening.
    ensures found { IfOk result (λ opening. IsTrue (D.view disk.old).tells
        → (classes : ℕ → ℕ) (lines : Lines) (journal : Journal)
        → Kept classes lines journal (D.view disk.old).content
        → OpeningFacts classes lines journal opening.stage (D.view disk.new) opening.found) }

    // Behind it a crash leaves what reads give.
    ensures stable { OnOk result (IsTrue (D.view disk.old).tells → IsStable (D.view disk.new)) }
{
    make_stable(disk)?;
    read_all(disk)
}
