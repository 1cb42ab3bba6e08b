// The slots behind the header.
ghost use Rattle.std.specs.Prelude.{◌≡◌, ◌<◌, ◌^◌, List, ℕ, Some, length, IfSome, IfNone};
ghost use Rattle.rdb_page.specs.Lines.{IsAllowedLine};
ghost use Rattle.ruj_journal.specs.Entry.{IsEntry};

use rdb_page::{
    bytes_at, has_bytes, has_zeros, is_allowed_line, put_bytes, put_u8, put_u16, put_u32, put_u64,
    put_zeros, state_byte, state_of, u8_at, u16_at, u32_at, u64_at,
};
use rdb_types::{Dbkey, Image, Line, Tsn};

/// How a line was before a transaction changed it. The index counts the transaction's entries from 1, and is the entry's slot.
#[derive(Drop)]
pub struct RujEntry {
    pub tsn: Tsn,
    pub index: u32,
    pub key: Dbkey,
    pub before: Line,
}

/// Lays out an entry.
pub fn put_entry(slot: &mut [u8], entry: &RujEntry)
    requires size { length slot.old ≡ 512 }
    requires tsn { entry.now.tsn.number < 2 ^ 62 }
    requires before { IsAllowedLine 440 entry.now.before }
    ensures { IsEntry slot.new entry.now }
{
    let image = entry.before.image.bytes();
    put_bytes(slot, 0, b"RUJE");
    put_u64(slot, 4, entry.tsn.number);
    put_u32(slot, 12, entry.index);
    put_u32(slot, 16, entry.key.area);
    put_u32(slot, 20, entry.key.page);
    put_u16(slot, 24, entry.key.line);
    put_u8(slot, 26, state_byte(entry.before.state));
    put_u16(slot, 27, image.len() as u16);
    put_u64(slot, 29, entry.before.tsn.number);
    put_u32(slot, 37, entry.before.chain);
    put_zeros(slot, 41, 7);
    put_bytes(slot, 48, image);
    put_zeros(slot, 48 + image.len(), 464 - image.len());
}

/// The entry that a slot is. None is answered only where it is none.
pub fn read_entry(slot: &[u8]) -> Option<RujEntry>
    requires { length slot.now ≡ 512 }
    ensures found { IfSome result (λ entry. IsEntry slot.now entry) }
    ensures none { IfNone result ((entry : _) → IsEntry slot.now entry → ⊥) }

    // An entry that was laid out is read again.
    ensures again { (entry : _) → IsEntry slot.now entry → result ≡ Some entry }
{
    match entry_of(slot) {
        Some(entry) => Some(entry),
        None => None,
    }
}

fn entry_of(slot: &[u8]) -> Option<RujEntry>
    requires { length slot.now ≡ 512 }
    ensures found { IfSome result (λ entry. IsEntry slot.now entry) }
    ensures none { IfNone result ((entry : _) → IsEntry slot.now entry → ⊥) }
{
    let length = u16_at(slot, 27) as usize;
    if length > 440 {
        return None;
    }
    let state = state_of(u8_at(slot, 26))?;
    let entry = RujEntry {
        tsn: Tsn {
            number: u64_at(slot, 4),
        },
        index: u32_at(slot, 12),
        key: Dbkey {
            area: u32_at(slot, 16),
            page: u32_at(slot, 20),
            line: u16_at(slot, 24),
        },
        before: Line {
            state,
            tsn: Tsn {
                number: u64_at(slot, 29),
            },
            chain: u32_at(slot, 37),
            image: Image::from_bytes(bytes_at(slot, 48, length)),
        },
    };
    if has_bytes(slot, 0, b"RUJE")
        && has_zeros(slot, 41, 7)
        && has_zeros(slot, 48 + length, 464 - length)
        && entry.tsn.number < 1 << 62
        && is_allowed_line(440, &entry.before)
    {
        Some(entry)
    } else {
        None
    }
}

/// A slot is one entry at most.
pub fn one_entry()
    ensures { (slot : List ℕ) (a b : _) → IsEntry slot a → IsEntry slot b → a ≡ b }
{}

#[cfg(test)]
mod tests {
    use super::*;
    use rdb_types::LineState;

    #[test]
    fn an_entry_has_its_bytes(rt: HostRuntime) {
        let entry = RujEntry {
            tsn: Tsn { number: 7 },
            index: 1,
            key: Dbkey {
                area: 16,
                page: 2,
                line: 1,
            },
            before: Line {
                state: LineState::Present,
                tsn: Tsn { number: 5 },
                chain: 3,
                image: Image::from_bytes(b"AB"),
            },
        };
        let mut slot = [9; 512];
        put_entry(&mut slot, &entry);
        assert_eq!(rt; &slot[..16], b"RUJE\x07\0\0\0\0\0\0\0\x01\0\0\0".as_slice());
        assert_eq!(rt;
            &slot[16..29],
            b"\x10\0\0\0\x02\0\0\0\x01\0\x01\x02\0".as_slice()
        );
        assert_eq!(rt;
            &slot[29..51],
            b"\x05\0\0\0\0\0\0\0\x03\0\0\0\0\0\0\0\0\0\0AB\0".as_slice()
        );
        assert!(rt; read_entry(&slot).is_some());
        slot[511] = 1;
        assert!(rt; read_entry(&slot).is_none());
    }
}
