// The stores over which the sessions of a case are driven. Nothing is told of them, and any session may die.
ghost use Rattle.std.specs.Prelude.{◌≡◌, ◌<◌, ◌^◌, All, ℕ, IfSome, length};
ghost use Rattle.line_store.specs.Seats.{outside};

use disk_line_store::DiskStore;
use line_store::LineStore;
use memory_store::MemoryStore;
use new_database::make_new;
use opened_store::open;
use rdb_outside::{Disk, MemoryDisk};
use rdb_types::{Bytes, Limits, NoMemory};
use rdo_reserving::ReservingStatements;
use root_file::are_limits;
use session_desk::{Drive, Scripts, run};
use session_states::WholeScript;
use std::alloc::Global;
use std::marker::Brand;

/// A file of the disk has so many slots.
const SLOTS: u32 = 512;

/// So many calls of the disk are remembered.
const CALLS: u32 = 65_536;

/// Drives them over a store of lines in memory.
pub fn run_in_memory(
    alloc: Global,
    limits: Limits,
    scripts: Vec<WholeScript>,
    order: &str,
    drive: Drive,
    out: &mut Bytes,
) -> Result<(), NoMemory>
    requires count { length scripts.items ≡ 4 }
    requires short { All (λ script. length script.items < 2 ^ 32) scripts.items }
{
    let store = MemoryStore::new(alloc, limits)?;
    run::<Brand, ReservingStatements, MemoryStore>(
        alloc,
        store,
        Scripts::new(scripts),
        order.as_bytes(),
        drive,
        out,
    )
}

/// What a case asks of its disk.
#[derive(Clone, Copy)]
pub struct DiskPlan {
    pub limits: Limits,
    /// The device call that fails, counted from the first of the sessions.
    pub fails: Option<u32>,
}

// The store of a new database on a disk in memory, of whose device calls this one fails.
fn opened(alloc: Global, limits: Limits, fails: u32) -> Option<DiskStore<Brand, MemoryDisk>>
    ensures { IfSome result (λ store. (s : ℕ) → (⟦<DiskStore<Brand, MemoryDisk> as LineStore>⟧.sight store).stand s ≡ outside) }
{
    if !are_limits(&limits) {
        return None;
    }
    let mut disk = MemoryDisk::new(alloc, SLOTS, CALLS, &[fails]).ok()?;
    make_new(&mut disk, limits).ok()?;
    let held = open(alloc, &mut disk).ok()?;
    Some(DiskStore::new(disk, held))
}

// So many calls are made before the sessions'.
fn calls_before(alloc: Global, limits: Limits) -> Option<u32> {
    let store = opened(alloc, limits, 0)?;
    u32::try_from(store.disk().moment().number).ok()
}

fn store_on_disk(alloc: Global, plan: DiskPlan) -> Option<DiskStore<Brand, MemoryDisk>>
    ensures { IfSome result (λ store. (s : ℕ) → (⟦<DiskStore<Brand, MemoryDisk> as LineStore>⟧.sight store).stand s ≡ outside) }
{
    match plan.fails {
        None => opened(alloc, plan.limits, 0),
        Some(fails) => {
            let before = calls_before(alloc, plan.limits)?;
            opened(alloc, plan.limits, before.saturating_add(fails))
        }
    }
}

/// Drives them over the store of a new database on a disk in memory.
pub fn run_on_disk(
    alloc: Global,
    plan: DiskPlan,
    scripts: Vec<WholeScript>,
    order: &str,
    drive: Drive,
    out: &mut Bytes,
) -> Result<(), NoMemory>
    requires count { length scripts.items ≡ 4 }
    requires short { All (λ script. length script.items < 2 ^ 32) scripts.items }
{
    let Some(store) = store_on_disk(alloc, plan) else {
        return out.extend(b"  not opened\n");
    };
    run::<Brand, ReservingStatements, DiskStore<Brand, MemoryDisk>>(
        alloc,
        store,
        Scripts::new(scripts),
        order.as_bytes(),
        drive,
        out,
    )
}
