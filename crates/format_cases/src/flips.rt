// Each byte of each kind of slot changed in turn: what is read then is refused, or is a value that is written as the same bytes.
ghost use Rattle.rdb_page.specs.Lines.{IsAllowedLine};

use crate::read::{Counts, NONE, Read, compared};
use aij_journal::{AijPart, GroupLine, put_slot, read_slot};
use backup_file::{BackupHead, BackupLine};
use rdb_page::{Head, put_head, read_head};
use rdb_types::{Dbkey, Image, Limits, Line, LineState, Tsn};
use root_file::{Root, put_root, read_root};
use ruj_journal::RujEntry;
use snapshot_file::SnapEntry;

const KEY: Dbkey = Dbkey {
    area: 16,
    page: 2,
    line: 1,
};

fn root(slot: &[u8; 1024]) -> Read {
    let Ok(root) = read_root(slot) else {
        return Read::Refused;
    };
    let mut again = [0; 1024];
    put_root(&mut again, &root);
    compared(again == *slot)
}

fn page_head(slot: &[u8; 1024]) -> Read {
    let Ok(Some(head)) = read_head(slot, 2, 2) else {
        return Read::Refused;
    };
    let mut again = [0; 1024];
    put_head(&mut again, &head);
    compared(again.iter().zip(slot).take(24).all(|(a, b)| a == b))
}

fn ruj_header(slot: &[u8; 512]) -> Read {
    let Ok(tsn) = ruj_journal::open_tsn(slot) else {
        return Read::Refused;
    };
    let mut again = [0; 512];
    ruj_journal::put_header(&mut again, tsn);
    compared(again == *slot)
}

fn ruj_entry(slot: &[u8; 512]) -> Read {
    let Some(entry) = ruj_journal::read_entry(slot) else {
        return Read::Refused;
    };
    let mut again = [0; 512];
    ruj_journal::put_entry(&mut again, &entry);
    compared(again == *slot)
}

fn aij_header(slot: &[u8; 512]) -> Read {
    let Some(first) = aij_journal::read_header(slot) else {
        return Read::Refused;
    };
    let mut again = [0; 512];
    aij_journal::put_header(&mut again, first);
    compared(again == *slot)
}

fn aij_part(slot: &[u8; 512]) -> Read {
    let Some(part) = read_slot(slot) else {
        return Read::Refused;
    };
    let mut again = [0; 512];
    put_slot(&mut again, &part);
    compared(again == *slot)
}

fn snapshot(slot: &[u8; 512]) -> Read {
    let Some(entry) = snapshot_file::read_entry(slot) else {
        return Read::Refused;
    };
    let mut again = [0; 512];
    snapshot_file::put_entry(&mut again, &entry);
    compared(again == *slot)
}

fn backup_head(slot: &[u8; 512]) -> Read {
    let Some(head) = backup_file::read_backup_head(slot) else {
        return Read::Refused;
    };
    let mut again = [0; 512];
    backup_file::put_backup_head(&mut again, &head);
    compared(again == *slot)
}

fn backup_line(slot: &[u8; 512]) -> Read {
    let Some(found) = backup_file::read_backup_line(slot) else {
        return Read::Refused;
    };
    let mut again = [0; 512];
    backup_file::put_backup_line(&mut again, found.number, &found.line);
    compared(again == *slot)
}

const LIMITS: Limits = Limits {
    pages: 7,
    snaps: 8,
    entries: 9,
    slots: 10,
};

const ROOT: Root = Root {
    format: 1,
    state: 1,
    limits: LIMITS,
    ceiling: 65,
    applied: 2,
};

const BACKUP: BackupHead = BackupHead {
    format: 1,
    limits: LIMITS,
    last_group: 2,
    lines: 1,
};

fn line() -> Line
    ensures { IsAllowedLine 440 result }
{
    Line {
        state: LineState::Present,
        tsn: Tsn { number: 5 },
        chain: 3,
        image: Image::from_bytes(b"abc"),
    }
}

/// The kinds of slot.
#[derive(Clone, Copy, Debug, PartialEq, Eq)]
pub enum Kind {
    Root,
    Page,
    RujHeader,
    RujEntry,
    AijHeader,
    AijPart,
    Snapshot,
    BackupHead,
    BackupLine,
}

/// The kind that a word names.
pub fn kind_of(word: &str) -> Option<Kind> {
    match word {
        "root" => Some(Kind::Root),
        "page" => Some(Kind::Page),
        "ruj-header" => Some(Kind::RujHeader),
        "ruj-entry" => Some(Kind::RujEntry),
        "aij-header" => Some(Kind::AijHeader),
        "aij-part" => Some(Kind::AijPart),
        "snapshot" => Some(Kind::Snapshot),
        "backup-header" => Some(Kind::BackupHead),
        "backup-line" => Some(Kind::BackupLine),
        _ => None,
    }
}

fn lay_large(kind: Kind, slot: &mut [u8; 1024]) {
    match kind {
        Kind::Root => put_root(slot, &ROOT),
        _ => put_head(
            slot,
            &Head {
                page: 2,
                owner: 16,
                class: 208,
            },
        ),
    }
}

fn read_large(kind: Kind, slot: &[u8; 1024]) -> Read {
    match kind {
        Kind::Root => root(slot),
        _ => page_head(slot),
    }
}

fn lay_undo(slot: &mut [u8; 512]) {
    ruj_journal::put_entry(
        slot,
        &RujEntry {
            tsn: Tsn { number: 6 },
            index: 1,
            key: KEY,
            before: line(),
        },
    );
}

fn lay_part(slot: &mut [u8; 512]) {
    put_slot(
        slot,
        &AijPart {
            number: 1,
            tsn: Tsn { number: 6 },
            index: 0,
            count: 2,
            line: Some(GroupLine {
                key: KEY,
                class: 208,
                state: LineState::Present,
                image: Image::from_bytes(b"abc"),
            }),
        },
    );
}

fn lay_version(slot: &mut [u8; 512]) {
    snapshot_file::put_entry(
        slot,
        &SnapEntry {
            key: KEY,
            tsn: Tsn { number: 5 },
            state: LineState::Present,
            image: Image::from_bytes(b"abc"),
            pusher: Tsn { number: 6 },
            previous: 0,
        },
    );
}

fn lay_backup_line(slot: &mut [u8; 512]) {
    backup_file::put_backup_line(
        slot,
        1,
        &BackupLine {
            key: KEY,
            class: 208,
            tsn: Tsn { number: 5 },
            image: Image::from_bytes(b"abc"),
        },
    );
}

fn lay_small(kind: Kind, slot: &mut [u8; 512]) {
    match kind {
        Kind::RujHeader => ruj_journal::put_header(slot, Some(Tsn { number: 5 })),
        Kind::RujEntry => lay_undo(slot),
        Kind::AijHeader => aij_journal::put_header(slot, 1),
        Kind::AijPart => lay_part(slot),
        Kind::BackupHead => backup_file::put_backup_head(slot, &BACKUP),
        Kind::BackupLine => lay_backup_line(slot),
        _ => lay_version(slot),
    }
}

fn read_small(kind: Kind, slot: &[u8; 512]) -> Read {
    match kind {
        Kind::RujHeader => ruj_header(slot),
        Kind::RujEntry => ruj_entry(slot),
        Kind::AijHeader => aij_header(slot),
        Kind::AijPart => aij_part(slot),
        Kind::BackupHead => backup_head(slot),
        Kind::BackupLine => backup_line(slot),
        _ => snapshot(slot),
    }
}

const MASKS: [u8; 3] = [1, 128, 255];

/// What a slot of the kind is read as.
pub fn as_it_stands(kind: Kind) -> Read {
    if matches!(kind, Kind::Root | Kind::Page) {
        let mut slot = [0; 1024];
        lay_large(kind, &mut slot);
        return read_large(kind, &slot);
    }
    let mut slot = [0; 512];
    lay_small(kind, &mut slot);
    read_small(kind, &slot)
}

fn copy_front(into: &mut [u8; 64], from: &[u8]) {
    for (to, byte) in into.iter_mut().zip(from) {
        *to = *byte;
    }
}

/// The first bytes of a slot of the kind.
pub fn first_bytes(kind: Kind) -> [u8; 64] {
    let mut first = [0; 64];
    if matches!(kind, Kind::Root | Kind::Page) {
        let mut slot = [0; 1024];
        lay_large(kind, &mut slot);
        copy_front(&mut first, &slot);
    } else {
        let mut slot = [0; 512];
        lay_small(kind, &mut slot);
        copy_front(&mut first, &slot);
    }
    first
}

fn flip_large(kind: Kind) -> Counts {
    let mut counts = NONE;
    let mut slot = [0; 1024];
    lay_large(kind, &mut slot);
    for at in 0..1024 {
        for mask in MASKS {
            slot[at] ^= mask;
            counts.add(read_large(kind, &slot));
            slot[at] ^= mask;
        }
    }
    counts
}

fn flip_small(kind: Kind) -> Counts {
    let mut counts = NONE;
    let mut slot = [0; 512];
    lay_small(kind, &mut slot);
    for at in 0..512 {
        for mask in MASKS {
            slot[at] ^= mask;
            counts.add(read_small(kind, &slot));
            slot[at] ^= mask;
        }
    }
    counts
}

/// What a slot of the kind is read as where one byte is changed.
pub fn flipped(kind: Kind) -> Counts {
    match kind {
        Kind::Root | Kind::Page => flip_large(kind),
        _ => flip_small(kind),
    }
}
