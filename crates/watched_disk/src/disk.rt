//! The disk, and what is kept beside it.
ghost use Rattle.std.specs.Prelude.{◌≡◌, ◌≤◌, true};
ghost use Rattle.rdb_outside.specs.Causes.{Rose};

use crate::Beginning;
use rdb_outside::{Disk, Failed};
use rdb_types::{FileId, Moment};
use std::marker::PhantomData;

/// A disk, and whether a call of it has failed since the beginning. It is the disk in all that it tells.
#[derive(Drop)]
pub struct WatchedDisk<B: Beginning, D: Disk + Drop> {
    pub disk: D,
    has_failed: bool,
    of: PhantomData<B>,
    ghost no_fewer: { B.faults ≤ (D.view disk).faults },
    ghost cause: { has_failed ≡ true → Rose B.faults (D.view disk).faults },
}

impl<B: Beginning, D: Disk + Drop> WatchedDisk<B, D> {
    /// The disk is watched from now on.
    pub fn new(disk: D) -> WatchedDisk<B, D>
        requires { B.faults ≡ (D.view disk).faults }
        ensures { result.disk ≡ disk }
    {
        WatchedDisk {
            disk,
            has_failed: false,
            of: PhantomData,
        }
    }

    /// Whether a call has failed. Then the faults of the disk rose since the beginning.
    pub fn has_failed(&self) -> bool
        ensures { result ≡ true → Rose B.faults (D.view self.now.disk).faults }
    {
        self.has_failed
    }

    /// The disk is watched no longer.
    pub fn into_disk(self) -> D
        ensures { result ≡ self.disk }
    {
        self.disk
    }
}

impl<B: Beginning, D: Disk + Drop> Disk for WatchedDisk<B, D> {
    ghost view = { λ watched. D.view watched.disk };

    ghost content_left = { λ watched t told le. D.content_left watched.disk t told le };

    fn read(&mut self, file: FileId, slot: u32, into: &mut [u8]) -> Result<(), Failed> {
        let done = self.disk.read(file, slot, into);
        if done.is_err() {
            self.has_failed = true;
        }
        done
    }

    fn write(&mut self, file: FileId, slot: u32, from: &[u8]) -> Result<(), Failed> {
        let done = self.disk.write(file, slot, from);
        if done.is_err() {
            self.has_failed = true;
        }
        done
    }

    fn barrier(&mut self) -> Result<(), Failed> {
        let done = self.disk.barrier();
        if done.is_err() {
            self.has_failed = true;
        }
        done
    }

    fn length(&mut self, file: FileId) -> Result<u32, Failed> {
        let slots = self.disk.length(file);
        if slots.is_err() {
            self.has_failed = true;
        }
        slots
    }

    fn moment(&self) -> Moment {
        self.disk.moment()
    }
}
