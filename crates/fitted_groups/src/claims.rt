// Whose the pages of the area files are.
ghost use Rattle.std.specs.Prelude.{◌≡◌, ◌≤◌, ◌*◌, ◌%◌, ◌/◌, ◌+◌, [], ℕ, length, IfOk, OnOk, IsErrOf, IsTrue};
ghost use Rattle.rdb_types.specs.declared.file.FileId.{FileId as File};
ghost use Rattle.rdb_outside.specs.Causes.{Rose};
ghost use Rattle.rdb_outside.specs.Disk.{OnlyReads};
ghost use Rattle.journal_reading.specs.Journal.{EndsBy};
ghost use Rattle.stable_lines.specs.Slots.{area_file as area_named};
ghost use Rattle.fitted_groups.specs.Claims.{end_in, AreEnds, claim_at, AreFitted};

use line_moves::area_file;
use line_opening::OpeningFault;
use rdb_outside::Disk;
use slot_fields::{u16_at, u32_at};
use std::alloc::Global;

/// Whose a page is: its logical area, 0 for a page that was never used, and the class of its lines.
#[derive(Clone, Copy, Debug, PartialEq, Eq)]
pub struct PageClaim {
    pub owner: u32,
    pub class: u16,
}

/// Of each area file a number of slots behind which all is zeros.
#[derive(Clone, Copy, Debug, PartialEq, Eq)]
pub struct AreaEnds {
    pub catalog: u32,
    pub relations: u32,
    pub indexes: u32,
}

// That of this area file.
fn end_of(ends: AreaEnds, file: u32) -> u32
    ensures { result ≡ end_in ends file }
{
    if file == 1 {
        ends.catalog
    } else if file == 2 {
        ends.relations
    } else {
        ends.indexes
    }
}

// Asks the disk for them.
fn area_ends<D: Disk>(disk: &mut D) -> Result<AreaEnds, OpeningFault>
    ensures reads { OnlyReads (D.view disk.old) (D.view disk.new) }
    ensures failed { IsErrOf result OpeningFault.Failed
        → Rose (D.view disk.old).faults (D.view disk.new).faults }
    ensures bad { (named : File) (at : ℕ) → IsErrOf result (OpeningFault.Bad named at) → ⊥ }
    ensures ends { IfOk result (λ ends. IsTrue (D.view disk.old).tells
        → AreEnds (D.view disk.old).content ends) }
{
    let catalog = disk.length(area_file(1))?;
    let relations = disk.length(area_file(2))?;
    let indexes = disk.length(area_file(3))?;
    Ok(AreaEnds {
        catalog,
        relations,
        indexes,
    })
}

// What the page in this slot of an area file says. Behind the file's end it was never used, and isn't read.
fn read_claim<D: Disk>(
    disk: &mut D,
    file: u32,
    slot: u32,
    end: u32,
) -> Result<PageClaim, OpeningFault>
    ensures reads { OnlyReads (D.view disk.old) (D.view disk.new) }
    ensures failed { IsErrOf result OpeningFault.Failed
        → Rose (D.view disk.old).faults (D.view disk.new).faults }
    ensures bad { (named : File) (at : ℕ) → IsErrOf result (OpeningFault.Bad named at) → ⊥ }
    ensures claim { IfOk result (λ claim. IsTrue (D.view disk.old).tells
        → EndsBy (D.view disk.old).content (area_named file) end
        → claim ≡ claim_at ((D.view disk.old).content (area_named file) slot)) }
{
    if slot >= end {
        return Ok(PageClaim { owner: 0, class: 0 });
    }
    let mut bytes = [0; 1024];
    disk.read(area_file(file), slot, &mut bytes)?;
    Ok(PageClaim {
        owner: u32_at(&bytes, 8),
        class: u16_at(&bytes, 12),
    })
}

// Reads what all pages say, page by page, and of each number the pages of the three files.
fn read_claims<D: Disk>(
    disk: &mut D,
    ends: AreaEnds,
    claims: &mut [PageClaim],
) -> Result<(), OpeningFault>
    requires { length claims.old ≤ 196608 }
    ensures reads { OnlyReads (D.view disk.old) (D.view disk.new) }
    ensures failed { IsErrOf result OpeningFault.Failed
        → Rose (D.view disk.old).faults (D.view disk.new).faults }
    ensures bad { (named : File) (at : ℕ) → IsErrOf result (OpeningFault.Bad named at) → ⊥ }
    ensures size { length claims.new ≡ length claims.old }
    ensures fitted { OnOk result (IsTrue (D.view disk.old).tells
        → AreEnds (D.view disk.old).content ends
        → (pages : ℕ) → length claims.old ≡ pages * 3
        → AreFitted (D.view disk.old).content pages [] claims.new) }
{
    for seat in 0..claims.len() {
        let at = seat as u32;
        let file = at % 3 + 1;
        let claim = read_claim(disk, file, at / 3, end_of(ends, file))?;
        claims[seat] = claim;
    }
    Ok(())
}

/// Whose the pages of the three area files are, up to this limit. Those before the files' ends are read once each. It takes eight bytes a page and file.
pub fn page_claims<D: Disk>(
    alloc: Global,
    disk: &mut D,
    pages: u32,
) -> Result<Vec<PageClaim>, OpeningFault>
    requires { pages ≤ 65536 }
    ensures reads { OnlyReads (D.view disk.old) (D.view disk.new) }
    ensures failed { IsErrOf result OpeningFault.Failed
        → Rose (D.view disk.old).faults (D.view disk.new).faults }

    // No page is refused.
    ensures bad { (named : File) (at : ℕ) → IsErrOf result (OpeningFault.Bad named at) → ⊥ }

    // No line was looked at yet.
    ensures size { IfOk result (λ claims. length claims.items ≡ pages * 3) }
    ensures fitted { IfOk result (λ claims. IsTrue (D.view disk.old).tells
        → AreFitted (D.view disk.old).content pages [] claims.items) }
{
    let ends = area_ends(disk)?;
    let unread = PageClaim { owner: 0, class: 0 };
    let Ok(mut claims) = vec![in alloc; unread; pages as usize * 3] else {
        return Err(OpeningFault::NoMemory);
    };
    read_claims(disk, ends, claims.as_mut_slice())?;
    Ok(claims)
}
