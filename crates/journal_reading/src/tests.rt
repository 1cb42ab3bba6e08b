ghost use Rattle.std.specs.Prelude.{◌<◌, length};
ghost use Rattle.journal_scan.specs.aij_journal.Part.{IsAllowedWhat};

use crate::{AijFault, scan};
use journal_scan::{AijPart, GroupLine, put_header, put_slot};
use rdb_outside::{
    Dbkey, Disk, Failed, FileId, FileKind, Image, LineState, MemoryDisk, NoMemory, Tsn,
};
use std::alloc::Global;
use std::test::Fail;

const AIJ: FileId = FileId {
    kind: FileKind::Aij,
    number: 0,
};

// A slot of a group, with the page of its line, or none where it commits.
struct Slot {
    number: u32,
    index: u32,
    count: u32,
    page: Option<u32>,
}

// What stands behind a header that says 5, and what is found there.
struct Journal {
    slots: &'static [Slot],
    groups: usize,
    next_slot: u32,
    next_number: u64,
}

// A group of two lines, and one of none.
const TWO_GROUPS: [Slot; 4] = [
    Slot {
        number: 5,
        index: 0,
        count: 3,
        page: Some(2),
    },
    Slot {
        number: 5,
        index: 1,
        count: 3,
        page: Some(3),
    },
    Slot {
        number: 5,
        index: 2,
        count: 3,
        page: None,
    },
    Slot {
        number: 6,
        index: 0,
        count: 1,
        page: None,
    },
];

// A group of one line, one without its commit, and a slot that the third might have begun with.
const BROKEN: [Slot; 4] = [
    Slot {
        number: 5,
        index: 0,
        count: 2,
        page: Some(2),
    },
    Slot {
        number: 5,
        index: 1,
        count: 2,
        page: None,
    },
    Slot {
        number: 6,
        index: 0,
        count: 2,
        page: Some(2),
    },
    Slot {
        number: 7,
        index: 0,
        count: 1,
        page: None,
    },
];

const JOURNALS: [Journal; 3] = [
    Journal {
        slots: &[],
        groups: 0,
        next_slot: 1,
        next_number: 5,
    },
    Journal {
        slots: &TWO_GROUPS,
        groups: 2,
        next_slot: 5,
        next_number: 7,
    },
    Journal {
        slots: &BROKEN,
        groups: 1,
        next_slot: 3,
        next_number: 6,
    },
];

fn line_at(page: Option<u32>) -> Option<GroupLine>
    ensures { IsAllowedWhat result }
{
    match page {
        None => None,
        Some(page) => Some(GroupLine {
            key: Dbkey {
                area: 16,
                page,
                line: 0,
            },
            class: 208,
            state: LineState::Present,
            image: Image::from_bytes(b"\x01\x00"),
        }),
    }
}

fn lay_slot(bytes: &mut [u8; 512], slot: &Slot) {
    let number = slot.number;
    let part = AijPart {
        number: u64::from(number),
        tsn: Tsn { number: 70 },
        index: slot.index,
        count: slot.count,
        line: line_at(slot.page),
    };
    put_slot(bytes, &part);
}

// Writes the header, which says 5, and the slots behind it.
fn write_journal<D: Disk>(disk: &mut D, slots: &[Slot]) -> Result<(), Failed>
    requires few { length slots.now < 100 }
{
    let mut bytes = [0; 512];
    put_header(&mut bytes, 5);
    disk.write(AIJ, 0, &bytes)?;
    for (before, slot) in slots.iter().enumerate() {
        lay_slot(&mut bytes, slot);
        disk.write(AIJ, before as u32 + 1, &bytes)?;
    }
    Ok(())
}

// A disk of so many slots a file, with the journal up to the last of them.
fn disk_of(alloc: Global, slots: &[Slot], fails: &[u32]) -> Result<MemoryDisk, NoMemory>
    requires few { length slots.now < 100 }
{
    let mut disk = MemoryDisk::new(alloc, slots.len() as u32 + 1, 100, fails)?;
    let _ = write_journal(&mut disk, slots);
    Ok(disk)
}

#[test]
fn finds_the_whole_groups(rt: HostRuntime) -> Result<(), Fail> {
    for journal in &JOURNALS {
        assert!(rt; journal.slots.len() < 100);
        let mut disk = disk_of(rt.alloc(), journal.slots, &[])?;
        let Ok(found) = scan(rt.alloc(), &mut disk, AIJ) else {
            assert!(rt; false, "no scan");
            return Ok(());
        };
        assert_eq!(rt; found.groups.len(), journal.groups);
        assert_eq!(rt; found.next_slot, journal.next_slot);
        assert_eq!(rt; found.next_number, journal.next_number);
    }
    Ok(())
}

#[test]
fn zeros_are_no_header(rt: HostRuntime) -> Result<(), Fail> {
    let mut disk = MemoryDisk::new(rt.alloc(), 5, 5, &[])?;
    let fault = scan(rt.alloc(), &mut disk, AIJ).err();
    assert_eq!(rt; fault, Some(AijFault::BadHeader));
    Ok(())
}

// The first five calls write the journal. The scan reads the header, asks for the length and reads four slots.
#[test]
fn each_call_may_fail(rt: HostRuntime) -> Result<(), Fail> {
    for call in 6..13 {
        let mut disk = disk_of(rt.alloc(), &TWO_GROUPS, &[call])?;
        let fault = scan(rt.alloc(), &mut disk, AIJ).err();
        let expected = if call < 12 {
            Some(AijFault::Failed)
        } else {
            None
        };
        assert_eq!(rt; fault, expected, "call {call}");
    }
    Ok(())
}
