//! The trusted edge: real files as a disk, the files of the scripts, and standard output.
#![tactic(auto)]

mod files;
mod streams;

ghost use Rattle.std.specs.Prelude.{◌≡◌, ◌≤◌, ◌+◌, ◌-◌, ◌^◌, true, min, OnOk, OnErr};
ghost use Rattle.rdb_hostdisk.specs.Host.{host_view};

use files::{Access, HostFiles};
use rdb_outside::{Disk, Failed};
use rdb_types::{FileId, Moment, NoMemory, Word};
use std::alloc::Global;
use std::fs::{File, Files};
use std::str;
pub use streams::{HostSink, HostSource};

/// How often a call is made again that signals interrupt.
const MOST_TRIES: u32 = u32::MAX;

/// The files of one database, in the folder where the program runs. The disk tells no content, and counts its faults.
///
/// The first call locks the root's file, and fails where another process uses the database; the lock ends with the disk. A file that isn't there reads as zeros; once the root's file is there, that of an area, a snapshot file or an undo journal is a fault.
///
/// A file is made stable when it is opened, and the first barrier opens every file that is there, so what another process wrote is stable behind it. Where a file couldn't be made stable, each later call fails, since the kernel may hold bytes that the disk hasn't.
#[derive(Drop)]
pub struct HostDisk<R: Files<File = File> + Clone + Drop> {
    rt: R,
    files: HostFiles,
    moment: u64,
    faults: u64,
}

impl<R: Files<File = File> + Clone + Drop> HostDisk<R> {
    /// The files whose names begin with `base`. None is opened yet. A base that is no text is refused as want of memory.
    pub fn over(rt: &R, alloc: Global, base: &Word) -> Result<HostDisk<R>, NoMemory> {
        HostDisk::with(rt, alloc, base, Access::Sole)
    }

    /// The same for a command that writes nothing: it may run beside others of its kind, and each write fails.
    pub fn reading(rt: &R, alloc: Global, base: &Word) -> Result<HostDisk<R>, NoMemory> {
        HostDisk::with(rt, alloc, base, Access::Shared)
    }

    fn with(rt: &R, alloc: Global, base: &Word, access: Access) -> Result<HostDisk<R>, NoMemory> {
        let Ok(base) = str::from_utf8(base.as_slice()) else {
            return Err(NoMemory {});
        };
        let Ok(rt) = rt.clone() else {
            return Err(NoMemory {});
        };
        Ok(HostDisk {
            rt,
            files: HostFiles::over(alloc, base, access)?,
            moment: 0,
            faults: 0,
        })
    }
}

/// Counts a call. It fails where it did, and where no moment is left.
fn counted(moment: &mut u64, faults: &mut u64, is_done: bool) -> Result<(), Failed>
    ensures done { OnOk result (is_done ≡ true) }
    ensures ok { OnOk result ((moment.new ≡ moment.old + 1) × (faults.new ≡ faults.old)) }
    ensures err { OnErr result ((moment.new ≡ moment.old)
        × (faults.new ≡ min (faults.old + 1) (2 ^ 64 - 1)) × (faults.old ≤ faults.new)) }
{
    if !is_done || *moment == u64::MAX {
        *faults = faults.saturating_add(1);
        return Err(Failed {});
    }
    *moment += 1;
    Ok(())
}

impl<R: Files<File = File> + Clone + Drop> Disk for HostDisk<R> {
    ghost view = { λ d. host_view d.moment d.faults };

    ghost content_left = { λ d t told le. tt };

    fn read(&mut self, file: FileId, slot: u32, into: &mut [u8]) -> Result<(), Failed> {
        let done = self.files.read(&self.rt, file, slot, into);
        counted(&mut self.moment, &mut self.faults, done.is_ok())?;
        Ok(())
    }

    fn write(&mut self, file: FileId, slot: u32, from: &[u8]) -> Result<(), Failed> {
        let done = self.files.write(&self.rt, file, slot, from);
        counted(&mut self.moment, &mut self.faults, done.is_ok())?;
        Ok(())
    }

    fn barrier(&mut self) -> Result<(), Failed> {
        let done = self.files.settle(&self.rt);
        counted(&mut self.moment, &mut self.faults, done.is_ok())?;
        Ok(())
    }

    fn length(&mut self, file: FileId) -> Result<u32, Failed> {
        let slots = match self.files.length(&self.rt, file) {
            Ok(slots) => u32::try_from(slots).ok(),
            Err(_) => None,
        };
        counted(&mut self.moment, &mut self.faults, slots.is_some())?;
        Ok(slots.unwrap_or(0))
    }

    fn moment(&self) -> Moment {
        Moment {
            number: self.moment,
        }
    }
}
