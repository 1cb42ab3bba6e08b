// The files of a database. Each is opened when it is first used, made when it is first written, and kept open.
ghost use Rattle.std.specs.Prelude.{◌≤◌, length, IfOk};

use crate::MOST_TRIES;
use rdb_types::{FileId, FileKind};
use std::alloc::{AllocError, Global};
use std::fs::{File, Files, OpenOptions};
use std::io;
use std::os::unix::fs::FileExt;

/// What a disk is used for, which decides how its root is locked.
#[derive(Clone, Copy, PartialEq, Eq)]
pub enum Access {
    /// Nobody else uses the database.
    Sole,
    /// It is only read, beside others who only read it.
    Shared,
}

/// What is known of the root's file.
#[derive(Clone, Copy, PartialEq, Eq)]
enum RootFile {
    Unseen,
    Absent,
    /// It is open and locked.
    Held,
}

#[derive(Drop)]
struct HostFile {
    kind: FileKind,
    name: String,
    open: Option<File>,
    /// It was written since the last barrier.
    is_dirty: bool,
}

#[derive(Drop)]
pub struct HostFiles {
    access: Access,
    root: RootFile,
    files: Vec<HostFile>,
    /// A barrier has opened every file that was there.
    are_all_open: bool,
    /// The folder wasn't made stable since the disk was made or since a file was.
    has_new: bool,
    /// What the disk holds isn't known any more, and each call fails.
    is_lost: bool,
}

const ROOT_PLACE: usize = 0;

// The place of the first file of a kind, and its first and last number.
fn places(kind: FileKind) -> (usize, u32, u32) {
    match kind {
        FileKind::Root => (0, 0, 0),
        FileKind::Aij => (1, 0, 0),
        FileKind::Area => (2, 1, 3),
        FileKind::Snap => (5, 1, 3),
        FileKind::Ruj => (8, 1, 16),
        FileKind::Backup => (24, 1, 9),
        FileKind::AijBackup => (33, 1, 9),
    }
}

fn place_of(id: FileId) -> io::Result<usize> {
    let (place, first, last) = places(id.kind);
    if id.number < first || last < id.number {
        return Err(io::Error::from(io::ErrorKind::NotFound));
    }
    Ok(place.saturating_add((id.number - first) as usize))
}

fn add_single(
    alloc: Global,
    files: &mut Vec<HostFile>,
    kind: FileKind,
    base: &str,
    ending: &str,
) -> Result<(), AllocError> {
    let name = format!(in alloc; "{base}.{ending}")?;
    files.push(HostFile::new(kind, name))?;
    Ok(())
}

fn add_numbered(
    alloc: Global,
    files: &mut Vec<HostFile>,
    kind: FileKind,
    base: &str,
    ending: &str,
) -> Result<(), AllocError> {
    let (_, first, last) = places(kind);
    for number in first..=last {
        let name = format!(in alloc; "{base}_{number}.{ending}")?;
        files.push(HostFile::new(kind, name))?;
    }
    Ok(())
}

// Whether zeros are what an engine may find in a file's first slot, so that nobody else would see that the file isn't there.
fn is_made_by_new(kind: FileKind) -> bool {
    matches!(kind, FileKind::Area | FileKind::Snap | FileKind::Ruj)
}

impl HostFile {
    fn new(kind: FileKind, name: String) -> HostFile {
        HostFile {
            kind,
            name,
            open: None,
            is_dirty: false,
        }
    }

    /// Opens a file that may not be there.
    fn found<R: Files<File = File>>(&self, rt: &R, access: Access) -> io::Result<Option<File>> {
        let opened = OpenOptions::new()
            .read(true)
            .write(access == Access::Sole)
            .open(rt, self.name.as_str());
        match opened {
            Ok(file) => Ok(Some(file)),
            Err(error) if error.kind() == io::ErrorKind::NotFound => Ok(None),
            Err(error) => Err(error),
        }
    }

    /// Makes a file that isn't there.
    fn made<R: Files<File = File>>(&self, rt: &R) -> io::Result<File> {
        OpenOptions::new()
            .read(true)
            .write(true)
            .create_new(true)
            .open(rt, self.name.as_str())
    }

    fn offset(&self, slot: u32) -> u64 {
        u64::from(slot)
            * FileId {
                kind: self.kind,
                number: 0,
            }
            .slot_bytes() as u64
    }

    /// The slots up to the file's end.
    fn length(&self, file: &File) -> io::Result<u64> {
        let bytes = file.metadata()?.len();
        Ok(bytes.div_ceil(FileId {
            kind: self.kind,
            number: 0,
        }
        .slot_bytes() as u64))
    }
}

fn lock_root(file: &File, access: Access) -> io::Result<()> {
    match access {
        Access::Sole => file.try_lock()?,
        Access::Shared => file.try_lock_shared()?,
    }
    Ok(())
}

/// One read, made again where a signal interrupts it.
fn read_some(file: &File, offset: u64, into: &mut [u8]) -> io::Result<usize>
    ensures { IfOk result (λ count. count ≤ length into.new) }
{
    for _ in 0..MOST_TRIES {
        match file.read_at(into, offset) {
            Err(error) if error.kind() == io::ErrorKind::Interrupted => {}
            done => return done,
        }
    }
    Err(io::Error::from(io::ErrorKind::Interrupted))
}

/// Reads from an offset on. Past the file's end are zeros.
fn read_all(file: &File, offset: u64, into: &mut [u8]) -> io::Result<()> {
    let mut at = 0;
    while at < into.len() {
        let count = read_some(file, offset.saturating_add(at as u64), &mut into[at..])?;
        if count == 0 {
            into[at..].fill(0);
            return Ok(());
        }
        at += count;
    }
    Ok(())
}

fn lost() -> io::Error {
    io::Error::from(io::ErrorKind::Other)
}

impl HostFiles {
    /// All files of a database whose names begin with `base`. None is opened.
    pub fn over(alloc: Global, base: &str, access: Access) -> Result<HostFiles, AllocError> {
        let mut files = Vec::new(alloc);
        add_single(alloc, &mut files, FileKind::Root, base, "RDB")?;
        add_single(alloc, &mut files, FileKind::Aij, base, "AIJ")?;
        add_numbered(alloc, &mut files, FileKind::Area, base, "RDA")?;
        add_numbered(alloc, &mut files, FileKind::Snap, base, "SNP")?;
        add_numbered(alloc, &mut files, FileKind::Ruj, base, "RUJ")?;
        add_numbered(alloc, &mut files, FileKind::Backup, base, "RBF")?;
        add_numbered(alloc, &mut files, FileKind::AijBackup, base, "AIB")?;
        Ok(HostFiles {
            access,
            root: RootFile::Unseen,
            files,
            are_all_open: false,
            has_new: true,
            is_lost: false,
        })
    }

    /// From now on each call fails.
    fn lose<T>(&mut self) -> io::Result<T> {
        self.is_lost = true;
        Err(lost())
    }

    /// Each call begins with this. The first one looks for the root's file, and locks it.
    fn enter<R: Files<File = File>>(&mut self, rt: &R) -> io::Result<()> {
        if self.is_lost {
            return Err(lost());
        }
        if self.root == RootFile::Unseen {
            self.look_for_root(rt)?;
        }
        Ok(())
    }

    fn look_for_root<R: Files<File = File>>(&mut self, rt: &R) -> io::Result<()> {
        let Some(root) = self.files.get(ROOT_PLACE) else {
            return Err(lost());
        };
        match root.found(rt, self.access)? {
            Some(file) => self.hold_root(file),
            None => {
                self.root = RootFile::Absent;
                Ok(())
            }
        }
    }

    /// Locks the root's file, and keeps it.
    fn hold_root(&mut self, file: File) -> io::Result<()> {
        if lock_root(&file, self.access).is_err() || file.sync_data().is_err() {
            return self.lose();
        }
        let Some(root) = self.files.get_mut(ROOT_PLACE) else {
            return Err(lost());
        };
        root.open = Some(file);
        self.root = RootFile::Held;
        Ok(())
    }

    /// Before the first write of a database that isn't there its root's file is made, so that two can't make it at once.
    fn make_root<R: Files<File = File>>(&mut self, rt: &R) -> io::Result<()> {
        let Some(root) = self.files.get(ROOT_PLACE) else {
            return Err(lost());
        };
        match root.made(rt) {
            Ok(file) => {
                self.has_new = true;
                self.hold_root(file)
            }
            Err(error) => {
                if error.kind() == io::ErrorKind::AlreadyExists {
                    self.is_lost = true;
                }
                Err(error)
            }
        }
    }

    /// Opens a file where it is there.
    fn open_found<R: Files<File = File>>(&mut self, rt: &R, place: usize) -> io::Result<()> {
        let Some(entry) = self.files.get_mut(place) else {
            return Err(lost());
        };
        if entry.open.is_some() || place == ROOT_PLACE {
            return Ok(());
        }
        if let Some(file) = entry.found(rt, self.access)? {
            if file.sync_data().is_err() {
                return self.lose();
            }
            entry.open = Some(file);
        }
        Ok(())
    }

    /// Whether a file that isn't there stands for one of zeros.
    fn may_be_absent(&self, kind: FileKind) -> bool {
        self.root != RootFile::Held || !is_made_by_new(kind)
    }

    pub fn read<R: Files<File = File>>(
        &mut self,
        rt: &R,
        id: FileId,
        slot: u32,
        into: &mut [u8],
    ) -> io::Result<()> {
        self.enter(rt)?;
        let place = place_of(id)?;
        self.open_found(rt, place)?;
        let Some(entry) = self.files.get(place) else {
            return Err(lost());
        };
        match &entry.open {
            Some(file) => read_all(file, entry.offset(slot), into),
            None if self.may_be_absent(id.kind) => {
                into.fill(0);
                Ok(())
            }
            None => Err(io::Error::from(io::ErrorKind::NotFound)),
        }
    }

    pub fn write<R: Files<File = File>>(
        &mut self,
        rt: &R,
        id: FileId,
        slot: u32,
        from: &[u8],
    ) -> io::Result<()> {
        self.enter(rt)?;
        if self.access == Access::Shared {
            return Err(io::Error::from(io::ErrorKind::PermissionDenied));
        }
        let place = place_of(id)?;
        if self.root == RootFile::Absent {
            self.make_root(rt)?;
        }
        self.open_found(rt, place)?;
        let Some(entry) = self.files.get_mut(place) else {
            return Err(lost());
        };
        if entry.open.is_none() {
            entry.open = Some(entry.made(rt)?);
            self.has_new = true;
        }
        entry.is_dirty = true;
        match &entry.open {
            Some(file) => file.write_all_at(from, entry.offset(slot)),
            None => Err(lost()),
        }
    }

    /// The slots up to a file's end.
    pub fn length<R: Files<File = File>>(&mut self, rt: &R, id: FileId) -> io::Result<u64> {
        self.enter(rt)?;
        let place = place_of(id)?;
        self.open_found(rt, place)?;
        let Some(entry) = self.files.get(place) else {
            return Err(lost());
        };
        match &entry.open {
            Some(file) => entry.length(file),
            None if self.may_be_absent(id.kind) => Ok(0),
            None => Err(io::Error::from(io::ErrorKind::NotFound)),
        }
    }

    /// Makes what was written stable, by whomever, and the names of the files.
    pub fn settle<R: Files<File = File>>(&mut self, rt: &R) -> io::Result<()> {
        self.enter(rt)?;
        if !self.are_all_open {
            for place in 0..self.files.len() {
                self.open_found(rt, place)?;
            }
            self.are_all_open = true;
        }
        if self.settle_written().is_err() {
            return self.lose();
        }
        if self.has_new {
            let folder = OpenOptions::new().read(true).open(rt, ".")?;
            if folder.sync_all().is_err() {
                return self.lose();
            }
            self.has_new = false;
        }
        Ok(())
    }

    fn settle_written(&mut self) -> io::Result<()> {
        for entry in self.files.iter_mut() {
            if entry.is_dirty {
                if let Some(file) = &entry.open {
                    file.sync_data()?;
                }
                entry.is_dirty = false;
            }
        }
        Ok(())
    }
}
