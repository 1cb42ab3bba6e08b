// The slots behind the header.
ghost use Rattle.std.specs.Prelude.{List, ◌≡◌, ◌≢◌, ◌≤◌, ◌<◌, ◌^◌, true, false, length, ℕ, IfSome, IfNone, Some, None};
ghost use Rattle.rdb_page.specs.Page.{IsClass};
ghost use Rattle.rdb_page.specs.slot_fields.Fields.{HasFrom};
ghost use Rattle.aij_journal.specs.Part.{what_fields, IsPart, IsAllowedLine, IsAllowedWhat, LeavesLine};
ghost use Rattle.aij_journal.specs.declared.part.AijPart.{AijPart as Part};

use rdb_page::{
    Dbkey, Image, LineState, Tsn, bytes_at, has_bytes, has_zeros, put_bytes, put_u8, put_u16,
    put_u32, put_u64, put_zeros, state_byte, state_of, u8_at, u16_at, u32_at, u64_at,
};

/// A line as a commit leaves it.
#[derive(Drop)]
pub struct GroupLine {
    pub key: Dbkey,
    pub class: u16,
    pub state: LineState,
    pub image: Image,
}

/// One slot of a commit's group: a line, or None for the slot that commits it. The count is that of the group's slots, and the index counts them from 0.
#[derive(Drop)]
pub struct AijPart {
    pub number: u64,
    pub tsn: Tsn,
    pub index: u32,
    pub count: u32,
    pub line: Option<GroupLine>,
}

/// Lays out a slot.
pub fn put_slot(slot: &mut [u8], part: &AijPart)
    requires size { length slot.old ≡ 512 }
    requires number { part.now.number ≤ 2 ^ 62 }
    requires tsn { part.now.tsn.number < 2 ^ 62 }
    requires what { IsAllowedWhat part.now.line }
    ensures { IsPart slot.new part.now }
{
    match &part.line {
        None => {
            put_bytes(slot, 0, b"AIJL");
            put_u64(slot, 4, part.number);
            put_u64(slot, 12, part.tsn.number);
            put_u32(slot, 20, part.index);
            put_u32(slot, 24, part.count);
            put_u8(slot, 28, 2);
            put_zeros(slot, 29, 483);
        }
        Some(line) => {
            let image = line.image.bytes();
            put_bytes(slot, 0, b"AIJL");
            put_u64(slot, 4, part.number);
            put_u64(slot, 12, part.tsn.number);
            put_u32(slot, 20, part.index);
            put_u32(slot, 24, part.count);
            put_u8(slot, 28, 1);
            put_u32(slot, 29, line.key.area);
            put_u32(slot, 33, line.key.page);
            put_u16(slot, 37, line.key.line);
            put_u8(slot, 39, state_byte(line.state));
            put_u16(slot, 40, image.len() as u16);
            put_u16(slot, 42, line.class);
            put_zeros(slot, 44, 4);
            put_bytes(slot, 48, image);
            put_zeros(slot, 48 + image.len(), 464 - image.len());
        }
    }
}

fn is_allowed_line(line: &GroupLine) -> bool
    ensures yes { result ≡ true → IsAllowedLine line.now }
    ensures no { result ≡ false → IsAllowedLine line.now → ⊥ }
{
    let length = line.image.bytes().len();
    let leaves = match line.state {
        LineState::Never => false,
        LineState::Present => true,
        LineState::Erased => length == 0,
    };
    (line.class == 208 || line.class == 440) && length <= line.class as usize && leaves
}

/// The line that a slot of a group is. None is answered only where it is none.
fn read_line(slot: &[u8]) -> Option<GroupLine>
    requires { length slot.now ≡ 512 }
    ensures found { IfSome result (λ line. HasFrom 28 (what_fields (Some line)) slot.now) }
    ensures allowed { IfSome result (λ line. IsAllowedLine line) }
    ensures none { IfNone result ((line : _) → HasFrom 28 (what_fields (Some line)) slot.now → IsAllowedLine line → ⊥) }
{
    let length = u16_at(slot, 40) as usize;
    if length > 440 {
        return None;
    }
    let Some(state) = state_of(u8_at(slot, 39)) else {
        return None;
    };
    let line = GroupLine {
        key: Dbkey {
            area: u32_at(slot, 29),
            page: u32_at(slot, 33),
            line: u16_at(slot, 37),
        },
        class: u16_at(slot, 42),
        state,
        image: Image::from_bytes(bytes_at(slot, 48, length)),
    };
    let what = u8_at(slot, 28);
    if what == 1
        && has_zeros(slot, 44, 4)
        && has_zeros(slot, 48 + length, 464 - length)
        && is_allowed_line(&line)
    {
        Some(line)
    } else {
        None
    }
}

fn is_commit(slot: &[u8]) -> bool
    requires { length slot.now ≡ 512 }
    ensures yes { result ≡ true → HasFrom 28 (what_fields None) slot.now }
    ensures no { result ≡ false → HasFrom 28 (what_fields None) slot.now → ⊥ }
{
    let what = u8_at(slot, 28);
    what == 2 && has_zeros(slot, 29, 483)
}

/// What a slot is. None is answered only where it is none of a group's.
pub fn read_slot(slot: &[u8]) -> Option<AijPart>
    requires { length slot.now ≡ 512 }
    ensures found { IfSome result (λ part. IsPart slot.now part) }
    ensures none { IfNone result ((part : Part) → IsPart slot.now part → ⊥) }

    // A slot that was laid out is read again.
    ensures again { (part : Part) → IsPart slot.now part → result ≡ Some part }
{
    match part_of(slot) {
        Some(part) => Some(part),
        None => None,
    }
}

fn part_of(slot: &[u8]) -> Option<AijPart>
    requires { length slot.now ≡ 512 }
    ensures found { IfSome result (λ part. IsPart slot.now part) }
    ensures none { IfNone result ((part : Part) → IsPart slot.now part → ⊥) }
{
    let number = u64_at(slot, 4);
    let tsn = u64_at(slot, 12);
    if !has_bytes(slot, 0, b"AIJL") || number > 1 << 62 || tsn >= 1 << 62 {
        return None;
    }
    let index = u32_at(slot, 20);
    let count = u32_at(slot, 24);
    let tsn = Tsn { number: tsn };
    if is_commit(slot) {
        return Some(AijPart {
            number,
            tsn,
            index,
            count,
            line: None,
        });
    }
    let line = read_line(slot)?;
    Some(AijPart {
        number,
        tsn,
        index,
        count,
        line: Some(line),
    })
}

/// A slot is one part of a group at most.
pub fn one_part()
    ensures { (slot : List ℕ) (a b : Part) → IsPart slot a → IsPart slot b → a ≡ b }
{}
