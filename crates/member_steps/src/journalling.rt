// A member's before-images, one write a step.
ghost use Rattle.std.specs.Prelude.{◌≡◌, ◌≢◌, ◌+◌, ◌≤◌, ◌<◌, ◌^◌, ◌⊎◌, true, false, ℕ, List, length, Ok, Some, IfOk, IsErrOf, IsTrue};
ghost use Rattle.rdb_types.specs.declared.file.FileId.{FileId as File};
ghost use Rattle.rdb_outside.specs.Causes.{Rose};
ghost use Rattle.rdb_outside.specs.Disk.{OnlyReads};
ghost use Rattle.disk_seats.specs.stable_lines.Slots.{IsMember, ruj_file, line_at, named, Undo};
ghost use Rattle.disk_seats.specs.stable_lines.Image.{IsNoneOf};
ghost use Rattle.disk_seats.specs.stable_lines.Progress.{Open};
ghost use Rattle.disk_seats.specs.line_moves.Calls.{OnlyWrites};
ghost use Rattle.disk_seats.specs.line_moves.Changes.{IsPlaceOf};
ghost use Rattle.disk_seats.specs.Ledgers.{Ledger, changing, broken, stands_as};
ghost use Rattle.disk_seats.specs.Members.{LedgerFacts, IsLeftTo};
ghost use Rattle.member_steps.specs.declared.journalling.Journalled.TheVariants.{Header};
ghost use Rattle.member_steps.specs.Journalling.{ledger_with};

use disk_seats::{Place, journal, name_header, named_by};
use line_store::Fault;
use rdb_outside::Disk;
use rdb_types::{Dbkey, Tsn};

/// What a step of journalling wrote.
#[derive(Clone, Copy, Debug, PartialEq, Eq)]
pub enum Journalled {
    /// The header, which names the transaction now.
    Header,
    /// The before-image of the line.
    BeforeImage,
}

// Whether the member's header names the transaction.
fn is_named<D: Disk>(disk: &mut D, member: u32, tsn: Tsn) -> Result<bool, Fault>
    ensures reads { OnlyReads (D.view disk.old) (D.view disk.new) }
    ensures failed { IsErrOf result Fault.Failed
        → Rose (D.view disk.old).faults (D.view disk.new).faults }
    ensures bad { (file : File) (slot : ℕ) → IsErrOf result (Fault.Bad file slot)
        → IsTrue (D.view disk.old).tells → IsMember member → (ledger : Ledger)
        → LedgerFacts (D.view disk.old) ledger → ⊥ }
    ensures names { result ≡ Ok true → IsTrue (D.view disk.old).tells
        → named ((D.view disk.new).content (ruj_file member) 0) ≡ tsn.number }
    ensures another { result ≡ Ok false → IsTrue (D.view disk.old).tells
        → named ((D.view disk.old).content (ruj_file member) 0) ≢ tsn.number }
{
    let number = named_by(disk, member)?;
    Ok(number == tsn.number)
}

// Whether the header is still to be written, before the first before-image.
fn needs_header<D: Disk>(disk: &mut D, member: u32, tsn: Tsn, written: u32) -> Result<bool, Fault>
    ensures reads { OnlyReads (D.view disk.old) (D.view disk.new) }
    ensures failed { IsErrOf result Fault.Failed
        → Rose (D.view disk.old).faults (D.view disk.new).faults }
    ensures bad { (file : File) (slot : ℕ) → IsErrOf result (Fault.Bad file slot)
        → IsTrue (D.view disk.old).tells → IsMember member → (ledger : Ledger)
        → LedgerFacts (D.view disk.old) ledger → ⊥ }
    ensures needed { result ≡ Ok true → written ≡ 0 }
    ensures another { result ≡ Ok true → IsTrue (D.view disk.old).tells
        → named ((D.view disk.old).content (ruj_file member) 0) ≢ tsn.number }
    ensures named { result ≡ Ok false → IsTrue (D.view disk.old).tells → (1 ≤ written)
        ⊎ (named ((D.view disk.new).content (ruj_file member) 0) ≡ tsn.number) }
{
    if written > 0 {
        return Ok(false);
    }
    let is_there = is_named(disk, member, tsn)?;
    Ok(!is_there)
}

/// Goes on with the before-images of a member's transaction: its header where it doesn't name the transaction yet, else the before-image of this line, behind so many. One write at most.
pub fn journal_next<D: Disk>(
    disk: &mut D,
    member: u32,
    tsn: Tsn,
    written: u32,
    key: Dbkey,
    place: Place,
) -> Result<Journalled, Fault>
    requires first { 1 ≤ tsn.number }
    requires last { tsn.number < 2 ^ 62 }
    requires room { written + 1 < 2 ^ 32 }
    requires place { IsPlaceOf key place }
    ensures writes { (slot : ℕ) × OnlyWrites (ruj_file member) slot (D.view disk.old) (D.view disk.new) }
    ensures failed { IsErrOf result Fault.Failed
        → Rose (D.view disk.old).faults (D.view disk.new).faults }

    // No slot is refused.
    ensures bad { (file : File) (slot : ℕ) → IsErrOf result (Fault.Bad file slot)
        → IsTrue (D.view disk.old).tells → IsMember member → (ledger : Ledger)
        → LedgerFacts (D.view disk.old) ledger → ⊥ }

    // A header is written where it named another transaction or none, and names this one then.
    ensures another { result ≡ Ok Header → IsTrue (D.view disk.old).tells
        → named ((D.view disk.old).content (ruj_file member) 0) ≢ tsn.number }
    ensures names { result ≡ Ok Header → IsTrue (D.view disk.old).tells
        → named ((D.view disk.new).content (ruj_file member) 0) ≡ tsn.number }

    // Whatever it answers, the ledger stays, or but for this member, who can be rolled back.
    ensures keeps { IsTrue (D.view disk.old).tells
        → (ledger : Ledger) (transaction : Open) (all : List Undo) (stable : ℕ)
        → LedgerFacts (D.view disk.old) ledger → ledger.standing member ≡ changing all stable
        → ledger.base.going member ≡ Some transaction → tsn ≡ transaction.tsn
        → written ≡ length all
        → LedgerFacts (D.view disk.new) ledger
        ⊎ LedgerFacts (D.view disk.new) (stands_as member broken ledger) }

    // The header names the transaction, or it has one before-image more.
    ensures goes_on { IfOk result (λ what. IsTrue (D.view disk.old).tells
        → (ledger : Ledger) (transaction : Open) (all : List Undo) (stable : ℕ)
        → LedgerFacts (D.view disk.old) ledger → ledger.standing member ≡ changing all stable
        → ledger.base.going member ≡ Some transaction → tsn ≡ transaction.tsn
        → written ≡ length all → IsNoneOf key all → IsLeftTo member key ledger.standing
        → key.page ≤ ledger.base.limits.pages
        → let before = line_at (D.view disk.old).content key in
        LedgerFacts (D.view disk.new)
        (ledger_with what member all (record { key = key; before = before }) stable ledger)) }
{
    let needed = needs_header(disk, member, tsn, written)?;
    if needed {
        name_header(disk, member, tsn)?;
        return Ok(Journalled::Header);
    }
    journal(disk, member, tsn, written + 1, key, place)?;
    Ok(Journalled::BeforeImage)
}
