// NEW over what an earlier one left.
use crate::runs::{NONE, run_failing, run_on};
use crate::texts::words_in;
use rdb_outside::{Disk, MemoryDisk, MemorySink, MemorySource};
use rdb_types::{FileId, FileKind, Moment, NoMemory, Word};
use std::sync::Wait;
use std::thread::Threads;

const ROOT: FileId = FileId {
    kind: FileKind::Root,
    number: 0,
};

const AIJ: FileId = FileId {
    kind: FileKind::Aij,
    number: 0,
};

/// What stands on a disk behind a run, and the status of the run.
#[derive(Clone, Copy, Debug, PartialEq, Eq)]
struct Made {
    status: u8,
    has_root: bool,
    has_header: bool,
}

fn has_root(disk: &mut MemoryDisk) -> bool {
    let mut slot = [0; 1024];
    disk.read(ROOT, 0, &mut slot).is_ok() && slot.starts_with(b"ROOT")
}

fn has_header(disk: &mut MemoryDisk) -> bool {
    let mut slot = [0; 512];
    disk.read(AIJ, 0, &mut slot).is_ok() && slot.starts_with(b"AIJH")
}

// The words run once more over a disk.
fn made_over<R: Print + AllocGlobal + Threads + Wait + Sync>(
    rt: &R,
    words: &[Word],
    disk: MemoryDisk,
) -> Result<Made, NoMemory> {
    let alloc = rt.alloc();
    let source = MemorySource::new(alloc, Vec::new(alloc), &[])?;
    let out = MemorySink::new(alloc, 0, &[])?;
    let mut again = run_on(rt, words, source, out, disk);
    Ok(Made {
        status: again.status,
        has_root: has_root(&mut again.disk),
        has_header: has_header(&mut again.disk),
    })
}

// The disk that a run leaves.
fn left_by<R: Print + AllocGlobal + Threads + Wait + Sync>(
    rt: &R,
    words: &[Word],
) -> Result<MemoryDisk, NoMemory> {
    Ok(run_failing(rt, words, Vec::new(rt.alloc()), NONE)?.into_disk())
}

/// Runs the words twice, and tells the second status.
pub fn tell_again<R: Print + AllocGlobal + Threads + Wait + Sync>(
    rt: &R,
    line: &str,
) -> Result<(), NoMemory> {
    let words = words_in(rt.alloc(), line)?;
    let disk = left_by(rt, words.as_slice())?;
    let status = made_over(rt, words.as_slice(), disk)?.status;
    let _ = println!(rt; "  status {status}");
    Ok(())
}

// Whether a run that was stopped is done again: it makes the database, or finds it made.
fn is_made_again<R: Print + AllocGlobal + Threads + Wait + Sync>(
    rt: &R,
    words: &[Word],
    left: MemoryDisk,
) -> Result<bool, NoMemory> {
    let mut left = left;
    let stands = has_root(&mut left);
    let made = made_over(rt, words, left)?;
    Ok(made.has_root && made.has_header && made.status == if stands { 9 } else { 0 })
}

/// Stops a run at each moment, with none of its last writes and with all, and tells how often it is done again.
pub fn tell_stopped<R: Print + AllocGlobal + Threads + Wait + Sync>(
    rt: &R,
    line: &str,
) -> Result<(), NoMemory> {
    let words = words_in(rt.alloc(), line)?;
    let disk = left_by(rt, words.as_slice())?;
    let (mut made, mut all) = (0_u32, 0_u32);
    for number in 0..=disk.moment().number {
        for pick in [0, u32::MAX] {
            let left = disk.after(Moment { number }, pick)?;
            all = all.wrapping_add(1);
            if is_made_again(rt, words.as_slice(), left)? {
                made = made.wrapping_add(1);
            }
        }
    }
    let _ = println!(rt; "  {made} of {all} are made again");
    Ok(())
}
