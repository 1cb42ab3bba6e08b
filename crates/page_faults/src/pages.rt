// The pages of the area files, one after another.
ghost use Rattle.std.specs.Prelude.{◌≡◌, ◌≤◌, ◌<◌, ◌-◌, ◌++◌, ◌∷◌, [], ℕ, OnOk, IsErrOf, IsTrue};
ghost use Rattle.rdb_outside.specs.Causes.{Rose};
ghost use Rattle.rdb_outside.specs.Disk.{OnlyReads};
ghost use Rattle.page_faults.specs.Checks.{fault_of as fault_at};
ghost use Rattle.page_faults.specs.Listing.{Grows, Lists, ListsAll, ListsPages};

use crate::checks::{PageCheck, area_file, is_faulty};
use crate::stop::RmuStop;
use rdb_outside::Disk;
use rmu_texts::{Faults, VerifyFault};

fn fault_of(asked: PageCheck, file: u32, page: u32) -> VerifyFault
    ensures { result ≡ fault_at asked file page }
{
    match asked {
        PageCheck::Decodes => VerifyFault::Page(file, page),
        PageCheck::Owned => VerifyFault::Owner(file, page),
    }
}

fn add_fault(faults: &mut Faults, asked: PageCheck, file: u32, page: u32) -> Result<(), RmuStop>
    ensures ok { OnOk result (faults.new ≡ faults.old ++ fault_at asked file page ∷ []) }
    ensures memory { IsErrOf result RmuStop.Failed → ⊥ }
{
    faults.push(fault_of(asked, file, page))?;
    Ok(())
}

// Adds the faults among the pages up to this one.
fn check_to<D: Disk>(
    disk: &mut D,
    asked: PageCheck,
    file: u32,
    last: u32,
    faults: &mut Faults,
) -> Result<(), RmuStop>
    requires { last ≤ 65536 }
    ensures listed { OnOk result (IsTrue (D.view disk.old).tells
        → Grows (Lists (D.view disk.old).content asked file last) faults.old faults.new) }
    ensures failed { IsErrOf result RmuStop.Failed
        → Rose (D.view disk.old).faults (D.view disk.new).faults }
    ensures reads { OnlyReads (D.view disk.old) (D.view disk.new) }
{
    for slot in 0..last {
        if is_faulty(disk, asked, file, slot + 1)? {
            add_fault(faults, asked, file, slot + 1)?;
        }
    }
    Ok(())
}

// How many of a file's pages may have been written, where it has so many slots.
fn pages_within(length: u32) -> u32
    ensures few { result ≤ 65536 }
    ensures rest { (page : ℕ) → result < page → page ≤ 65536 → length ≤ page - 1 }
{
    if length < 65_536 { length } else { 65_536 }
}

// Adds the faults among all pages of a file.
fn check_file<D: Disk>(
    disk: &mut D,
    asked: PageCheck,
    file: u32,
    faults: &mut Faults,
) -> Result<(), RmuStop>
    ensures listed { OnOk result (IsTrue (D.view disk.old).tells
        → Grows (Lists (D.view disk.old).content asked file 65536) faults.old faults.new) }
    ensures failed { IsErrOf result RmuStop.Failed
        → Rose (D.view disk.old).faults (D.view disk.new).faults }
    ensures reads { OnlyReads (D.view disk.old) (D.view disk.new) }
{
    let length = disk.length(area_file(file))?;
    check_to(disk, asked, file, pages_within(length), faults)
}

/// Adds the pages of the three area files that are faults, in the order of files and pages. The time grows as the pages of the files, and one page is in memory at a time.
pub fn check_pages<D: Disk>(
    disk: &mut D,
    asked: PageCheck,
    faults: &mut Faults,
) -> Result<(), RmuStop>
    // Each page up to 65,536 is listed and a fault, or it isn't listed and fine.
    ensures listed { OnOk result (IsTrue (D.view disk.old).tells
        → Grows (ListsAll (D.view disk.old).content asked) faults.old faults.new) }

    // It doesn't give up by itself.
    ensures failed { IsErrOf result RmuStop.Failed
        → Rose (D.view disk.old).faults (D.view disk.new).faults }

    // Whatever it answers.
    ensures reads { OnlyReads (D.view disk.old) (D.view disk.new) }
{
    check_file(disk, asked, 1, faults)?;
    check_file(disk, asked, 2, faults)?;
    check_file(disk, asked, 3, faults)
}

/// Adds the pages that fail their decoders, and behind them those that have another owner than their space page says. It changes nothing.
pub fn verify_pages<D: Disk>(disk: &mut D, faults: &mut Faults) -> Result<(), RmuStop>
    ensures listed { OnOk result (IsTrue (D.view disk.old).tells
        → Grows (ListsPages (D.view disk.old).content) faults.old faults.new) }

    // It doesn't give up by itself.
    ensures failed { IsErrOf result RmuStop.Failed
        → Rose (D.view disk.old).faults (D.view disk.new).faults }

    // Whatever it answers.
    ensures reads { OnlyReads (D.view disk.old) (D.view disk.new) }
{
    check_pages(disk, PageCheck::Decodes, faults)?;
    check_pages(disk, PageCheck::Owned, faults)
}
