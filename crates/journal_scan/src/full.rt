// How many slots a journal has left.
ghost use Rattle.std.specs.Prelude.{◌≡◌, ◌≤◌, ◌+◌, ◌↔◌, IsOk, IfErr};

use aij_journal::Limits;

/// A group would stand past the last slot that the journal may have. `limit` counts the slots with the header.
#[derive(Clone, Copy, Debug, PartialEq, Eq)]
pub struct AijFull {
    pub limit: u32,
}

/// Whether a group of so many lines, which has a slot more than lines, may stand from this slot on. Slots count from 0, and slot 0 is the header.
pub fn room(limits: &Limits, next_slot: u32, lines: u32) -> Result<(), AijFull>
    ensures room { IsOk result ↔ next_slot + (lines + 1) ≤ limits.now.slots }
    ensures full { IfErr result (λ full. full.limit ≡ limits.now.slots) }
{
    let end = u64::from(next_slot) + u64::from(lines) + 1;
    if end <= u64::from(limits.slots) {
        Ok(())
    } else {
        Err(AijFull {
            limit: limits.slots,
        })
    }
}
