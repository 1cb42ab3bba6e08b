// The first slot of a backup.
ghost use Rattle.std.specs.Prelude.{◌≡◌, ◌≤◌, ◌^◌, List, ℕ, Some, length, IfSome, IfNone};
ghost use Rattle.backup_file.specs.Header.{IsHead};
ghost use Rattle.backup_file.specs.Whole.{Stores};
ghost use Rattle.backup_file.specs.declared.line.BackupLine.{BackupLine as Line};

use rdb_types::Limits;
use slot_fields::{
    has_bytes, has_zeros, put_bytes, put_u16, put_u32, put_u64, put_zeros, u16_at, u32_at, u64_at,
};

/// What a backup says of itself: the format and the limits of the database, the number of the last group of the after-image journal that its lines have, and how many lines there are.
#[derive(Clone, Copy, Debug, PartialEq, Eq)]
pub struct BackupHead {
    pub format: u16,
    pub limits: Limits,
    pub last_group: u64,
    pub lines: u32,
}

/// Lays out a header.
pub fn put_backup_head(slot: &mut [u8], head: &BackupHead)
    requires size { length slot.old ≡ 512 }
    requires last_group { head.now.last_group ≤ 2 ^ 62 }
    ensures { IsHead slot.new head.now }
{
    put_bytes(slot, 0, b"RBFH");
    put_u16(slot, 4, head.format);
    put_zeros(slot, 6, 2);
    put_u32(slot, 8, head.limits.pages);
    put_u32(slot, 12, head.limits.snaps);
    put_u32(slot, 16, head.limits.entries);
    put_u32(slot, 20, head.limits.slots);
    put_u64(slot, 24, head.last_group);
    put_u32(slot, 32, head.lines);
    put_zeros(slot, 36, 476);
}

/// The header that a slot is. None is answered only where it is none.
pub fn read_backup_head(slot: &[u8]) -> Option<BackupHead>
    requires { length slot.now ≡ 512 }
    ensures found { IfSome result (λ head. IsHead slot.now head) }
    ensures none { IfNone result ((head : _) → IsHead slot.now head → ⊥) }

    // A header that was laid out is read again.
    ensures again { (head : _) → IsHead slot.now head → result ≡ Some head }
{
    match head_of(slot) {
        Some(head) => Some(head),
        None => None,
    }
}

fn head_of(slot: &[u8]) -> Option<BackupHead>
    requires { length slot.now ≡ 512 }
    ensures found { IfSome result (λ head. IsHead slot.now head) }
    ensures none { IfNone result ((head : _) → IsHead slot.now head → ⊥) }
{
    let head = BackupHead {
        format: u16_at(slot, 4),
        limits: Limits {
            pages: u32_at(slot, 8),
            snaps: u32_at(slot, 12),
            entries: u32_at(slot, 16),
            slots: u32_at(slot, 20),
        },
        last_group: u64_at(slot, 24),
        lines: u32_at(slot, 32),
    };
    let is_head = has_bytes(slot, 0, b"RBFH")
        && has_zeros(slot, 6, 2)
        && has_zeros(slot, 36, 476)
        && head.last_group <= 1 << 62;
    is_head.then_some(head)
}

/// A slot is one header at most.
pub fn one_head()
    ensures { (slot : List ℕ) (a b : _) → IsHead slot a → IsHead slot b → a ≡ b }
{}

/// The slots of a file are one backup at most.
pub fn one_backup()
    ensures head { (slots : ℕ → List ℕ) (a b : _) (xs ys : List Line)
        → Stores slots a xs → Stores slots b ys → a ≡ b }
    ensures lines { (slots : ℕ → List ℕ) (a b : _) (xs ys : List Line)
        → Stores slots a xs → Stores slots b ys → xs ≡ ys }
{}
