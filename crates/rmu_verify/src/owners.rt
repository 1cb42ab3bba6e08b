// The logical areas that have pages.
ghost use Rattle.std.specs.Prelude.{◌≡◌, ◌≤◌, length, IfOk, OnOk, IsTrue};
ghost use Rattle.area_files.specs.Areas.{IsPage};
ghost use Rattle.areas_at_rest.specs.lines_at_rest.declared.reading.FaultyPages.{FaultyPages as WhatBecomes};
ghost use Rattle.areas_at_rest.specs.Runs.{IsQuiet};
ghost use Rattle.rmu_verify.specs.Owners.{AddsOwner, HasOwners};

use line_moves::area_file;
use line_opening::OpeningFault;
use page_faults::passes;
use rdb_outside::Disk;
use rdb_types::NoMemory;
use slot_fields::u32_at;
use std::alloc::Global;
use std::collections::BTreeSet;

// Adds the owner that a page names, where the page passes its decoder.
fn add_owner(
    owners: &mut BTreeSet<u32>,
    page: &[u8],
    file: u32,
    number: u32,
) -> Result<(), NoMemory>
    requires size { length page.now ≡ 1024 }
    requires number { IsPage number }
    ensures { OnOk result (AddsOwner file number page.now owners.old.keys owners.new.keys) }
{
    let owner = u32_at(page, 8);
    if owner == 0 || !passes(page, file, number) {
        return Ok(());
    }
    let _is_new = owners.insert(owner)?;
    Ok(())
}

// The owners that the first pages of an area file name.
fn owners_to<D: Disk>(
    alloc: Global,
    disk: &mut D,
    file: u32,
    count: u32,
) -> Result<BTreeSet<u32>, OpeningFault>
    requires { count ≤ 65536 }
    ensures owners { IfOk result (λ owners. IsTrue (D.view disk.old).tells
        → HasOwners (D.view disk.old).content file count owners.keys) }
    ensures quiet { (faulty : WhatBecomes) → IsQuiet faulty (D.view disk.old) (D.view disk.new) result }
{
    let mut owners = BTreeSet::new(alloc);
    let mut page = [0; 1024];
    for slot in 0..count {
        disk.read(area_file(file), slot, &mut page)?;
        let Ok(()) = add_owner(&mut owners, &page, file, slot + 1) else {
            return Err(OpeningFault::NoMemory);
        };
    }
    Ok(owners)
}

/// The logical areas that own the pages of an area file, in ascending order: each is that of a page that passes its decoder, and each such page's is told. One page is in memory at a time.
pub(crate) fn owners_of<D: Disk>(
    alloc: Global,
    disk: &mut D,
    file: u32,
) -> Result<BTreeSet<u32>, OpeningFault>
    ensures owners { IfOk result (λ owners. IsTrue (D.view disk.old).tells
        → HasOwners (D.view disk.old).content file 65536 owners.keys) }
    ensures quiet { (faulty : WhatBecomes) → IsQuiet faulty (D.view disk.old) (D.view disk.new) result }
{
    let length = disk.length(area_file(file))?;
    owners_to(alloc, disk, file, length.min(65_536))
}
