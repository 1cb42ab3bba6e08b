// A new database on a disk in memory, opened.
use case_words::number_of;
use disk_line_store::DiskStore;
use new_database::make_new;
use opened_store::open;
use rdb_outside::MemoryDisk;
use rdb_types::Limits;
use root_file::are_limits;
use std::alloc::Global;
use std::marker::Brand;
use store_desk::Desk;

/// A store on a disk in memory, of whose sessions it is known where they stand.
pub type Opened = Desk<DiskStore<Brand, MemoryDisk>>;

/// Opens the database on a disk.
pub fn opened(alloc: Global, disk: MemoryDisk) -> Option<Opened> {
    let mut disk = disk;
    let held = open(alloc, &mut disk).ok()?;
    Some(Desk::new(DiskStore::new(disk, held)))
}

/// So many slots has a snapshot file, where a case doesn't ask for fewer.
pub const SNAPS: u32 = 64;

/// Opens a new database with so many slots in each snapshot file, of whose disk the call with this number fails, if the word is one.
pub fn opened_anew(alloc: Global, word: &str, snaps: u32) -> Option<Opened> {
    // Four pages may be taken in an area.
    let limits = Limits {
        pages: 6,
        snaps,
        entries: 16,
        slots: 64,
    };
    if !are_limits(&limits) {
        return None;
    }
    let fails = number_of(Some(word)).unwrap_or(0);
    let mut disk = MemoryDisk::new(alloc, 128, 4096, &[fails]).ok()?;
    make_new(&mut disk, limits).ok()?;
    opened(alloc, disk)
}
