//! The root slot of a database, with its limits and the ceiling of its transaction numbers, and the slots of the cluster's members behind it.
#![tactic(auto)]

ghost use Rattle.std.specs.Prelude.{◌≡◌, List, Bool, true, false, ℕ, Ok, length, IfOk, OnErr, IfSome, IfNone, if◌then◌else◌};
ghost use Rattle.root_file.specs.Root.{IsRoot, IsAllowed, AreLimits};
ghost use Rattle.root_file.specs.Member.{IsMember};

use rdb_types::Limits;
pub use slot_fields::is_zeros;
use slot_fields::{
    has_bytes, has_zeros, put_bytes, put_u8, put_u16, put_u32, put_u64, put_zeros, u8_at, u16_at,
    u32_at, u64_at,
};

/// What the root says: the format of the files, the state of the database (1 whole, 2 an unfinished restore, 3 restored and not yet used, 4 an unfinished roll-forward), how far the files may grow, the number above every transaction number that is used, and that of the last group that a backup had applied.
#[derive(Clone, Copy, Debug, PartialEq, Eq)]
pub struct Root {
    pub format: u16,
    pub state: u8,
    pub limits: Limits,
    pub ceiling: u64,
    pub applied: u64,
}

/// The slot is no root.
#[derive(Clone, Copy, Debug, PartialEq, Eq)]
pub struct NotADatabase {}

/// Lays out a root.
pub fn put_root(slot: &mut [u8], root: &Root)
    requires size { length slot.old ≡ 1024 }
    requires allowed { IsAllowed root.now }
    ensures { IsRoot slot.new root.now }
{
    put_bytes(slot, 0, b"ROOT");
    put_u16(slot, 4, root.format);
    put_u8(slot, 6, root.state);
    put_zeros(slot, 7, 1);
    put_u32(slot, 8, root.limits.pages);
    put_u32(slot, 12, root.limits.snaps);
    put_u32(slot, 16, root.limits.entries);
    put_u32(slot, 20, root.limits.slots);
    put_u64(slot, 24, root.ceiling);
    put_u64(slot, 32, root.applied);
    put_zeros(slot, 40, 984);
}

/// Whether files may have these limits: 2 to 65,536 pages, 1 to 65,536 snapshot entries, 1 to 65,535 entries of a recovery-unit journal, 2 to 262,144 slots of the after-image journal.
pub fn are_limits(limits: &Limits) -> bool
    ensures yes { result ≡ true → AreLimits limits.now }
    ensures no { result ≡ false → AreLimits limits.now → ⊥ }
{
    2 <= limits.pages
        && limits.pages <= 65_536
        && 1 <= limits.snaps
        && limits.snaps <= 65_536
        && 1 <= limits.entries
        && limits.entries <= 65_535
        && 2 <= limits.slots
        && limits.slots <= 262_144
}

fn is_allowed(root: &Root) -> bool
    ensures yes { result ≡ true → IsAllowed root.now }
    ensures no { result ≡ false → IsAllowed root.now → ⊥ }
{
    root.format == 1
        && 1 <= root.state
        && root.state <= 4
        && 1 <= root.ceiling
        && root.ceiling <= 1 << 62
        && root.applied <= 1 << 62
        && are_limits(&root.limits)
}

/// The root that a slot is. It is refused only where the slot is none.
pub fn read_root(slot: &[u8]) -> Result<Root, NotADatabase>
    requires { length slot.now ≡ 1024 }
    ensures found { IfOk result (λ root. IsRoot slot.now root) }
    ensures none { OnErr result ((root : _) → IsRoot slot.now root → ⊥) }

    // A root that was laid out is read again.
    ensures again { (root : _) → IsRoot slot.now root → result ≡ Ok root }
{
    match root_of(slot) {
        Some(root) => Ok(root),
        None => Err(NotADatabase {}),
    }
}

fn root_of(slot: &[u8]) -> Option<Root>
    requires { length slot.now ≡ 1024 }
    ensures found { IfSome result (λ root. IsRoot slot.now root) }
    ensures none { IfNone result ((root : _) → IsRoot slot.now root → ⊥) }
{
    let root = Root {
        format: u16_at(slot, 4),
        state: u8_at(slot, 6),
        limits: Limits {
            pages: u32_at(slot, 8),
            snaps: u32_at(slot, 12),
            entries: u32_at(slot, 16),
            slots: u32_at(slot, 20),
        },
        ceiling: u64_at(slot, 24),
        applied: u64_at(slot, 32),
    };
    let is_root = has_bytes(slot, 0, b"ROOT")
        && has_zeros(slot, 7, 1)
        && has_zeros(slot, 40, 984)
        && is_allowed(&root);
    is_root.then_some(root)
}

fn attached_byte(attached: bool) -> u8
    ensures { result ≡ (if attached then 1 else 0) }
{
    if attached { 1 } else { 0 }
}

/// Lays out the slot of a member of the cluster.
pub fn put_member(slot: &mut [u8], number: u16, attached: bool)
    requires size { length slot.old ≡ 1024 }
    ensures { IsMember slot.new number attached }
{
    put_bytes(slot, 0, b"MEMB");
    put_u16(slot, 4, number);
    put_u8(slot, 6, attached_byte(attached));
    put_zeros(slot, 7, 1017);
}

/// A slot is one root at most.
pub fn one_root()
    ensures { (slot : List ℕ) (a b : _) → IsRoot slot a → IsRoot slot b → a ≡ b }
{}

/// A slot is that of one member at most, which is attached or isn't.
pub fn one_member()
    ensures number { (slot : List ℕ) (m n : ℕ) (a b : Bool) → IsMember slot m a → IsMember slot n b → m ≡ n }
    ensures attached { (slot : List ℕ) (m n : ℕ) (a b : Bool) → IsMember slot m a → IsMember slot n b → a ≡ b }
{}
