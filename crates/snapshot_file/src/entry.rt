// The entries of the file.
ghost use Rattle.std.specs.Prelude.{◌≡◌, List, ℕ, Some, true, false, length, IfSome, IfNone};
ghost use Rattle.snapshot_file.specs.Entry.{IsEntry, IsAllowed};

use rdb_page::{
    Dbkey, Image, LineState, Tsn, bytes_at, has_bytes, has_zeros, put_bytes, put_u8, put_u16,
    put_u32, put_u64, put_zeros, state_byte, state_of, u8_at, u16_at, u32_at, u64_at,
};

/// A version of a line, with the transaction that made it so. The transaction that pushed it aside is `pusher`; `previous` is 1 + the slot of the version before, and 0 where none is kept.
#[derive(Drop)]
pub struct SnapEntry {
    pub key: Dbkey,
    pub tsn: Tsn,
    pub state: LineState,
    pub image: Image,
    pub pusher: Tsn,
    pub previous: u32,
}

/// Lays out an entry.
pub fn put_entry(slot: &mut [u8], entry: &SnapEntry)
    requires size { length slot.old ≡ 512 }
    requires allowed { IsAllowed entry.now }
    ensures { IsEntry slot.new entry.now }
{
    let image = entry.image.bytes();
    put_bytes(slot, 0, b"SNPE");
    put_u32(slot, 4, entry.key.area);
    put_u32(slot, 8, entry.key.page);
    put_u16(slot, 12, entry.key.line);
    put_u64(slot, 14, entry.tsn.number);
    put_u8(slot, 22, state_byte(entry.state));
    put_u16(slot, 23, image.len() as u16);
    put_u64(slot, 25, entry.pusher.number);
    put_u32(slot, 33, entry.previous);
    put_zeros(slot, 37, 11);
    put_bytes(slot, 48, image);
    put_zeros(slot, 48 + image.len(), 464 - image.len());
}

fn is_allowed(entry: &SnapEntry) -> bool
    ensures yes { result ≡ true → IsAllowed entry.now }
    ensures no { result ≡ false → IsAllowed entry.now → ⊥ }
{
    let length = entry.image.bytes().len();
    let is_version = match entry.state {
        LineState::Never => false,
        LineState::Present => true,
        LineState::Erased => length == 0,
    };
    entry.tsn.number < 1 << 62 && entry.pusher.number < 1 << 62 && length <= 440 && is_version
}

/// The entry that a slot is. None is answered only where it is none.
pub fn read_entry(slot: &[u8]) -> Option<SnapEntry>
    requires { length slot.now ≡ 512 }
    ensures found { IfSome result (λ entry. IsEntry slot.now entry) }
    ensures none { IfNone result ((entry : _) → IsEntry slot.now entry → ⊥) }

    // An entry that was laid out is read again.
    ensures again { (entry : _) → IsEntry slot.now entry → result ≡ Some entry }
{
    match entry_of(slot) {
        Some(entry) => Some(entry),
        None => None,
    }
}

fn entry_of(slot: &[u8]) -> Option<SnapEntry>
    requires { length slot.now ≡ 512 }
    ensures found { IfSome result (λ entry. IsEntry slot.now entry) }
    ensures none { IfNone result ((entry : _) → IsEntry slot.now entry → ⊥) }
{
    let length = u16_at(slot, 23) as usize;
    if length > 440 {
        return None;
    }
    let state = state_of(u8_at(slot, 22))?;
    let entry = SnapEntry {
        key: Dbkey {
            area: u32_at(slot, 4),
            page: u32_at(slot, 8),
            line: u16_at(slot, 12),
        },
        tsn: Tsn {
            number: u64_at(slot, 14),
        },
        state,
        image: Image::from_bytes(bytes_at(slot, 48, length)),
        pusher: Tsn {
            number: u64_at(slot, 25),
        },
        previous: u32_at(slot, 33),
    };
    if has_bytes(slot, 0, b"SNPE")
        && has_zeros(slot, 37, 11)
        && has_zeros(slot, 48 + length, 464 - length)
        && is_allowed(&entry)
    {
        Some(entry)
    } else {
        None
    }
}

/// A slot is one entry at most.
pub fn one_entry()
    ensures { (slot : List ℕ) (a b : _) → IsEntry slot a → IsEntry slot b → a ≡ b }
{}

#[cfg(test)]
mod tests {
    use super::*;

    #[test]
    fn an_entry_has_its_bytes(rt: HostRuntime) {
        let entry = SnapEntry {
            key: Dbkey {
                area: 16,
                page: 2,
                line: 1,
            },
            tsn: Tsn { number: 5 },
            state: LineState::Present,
            image: Image::from_bytes(b"AB"),
            pusher: Tsn { number: 7 },
            previous: 3,
        };
        let mut slot = [9; 512];
        put_entry(&mut slot, &entry);
        assert_eq!(rt; &slot[..14], b"SNPE\x10\0\0\0\x02\0\0\0\x01\0".as_slice());
        assert_eq!(rt; &slot[14..25], b"\x05\0\0\0\0\0\0\0\x01\x02\0".as_slice());
        assert_eq!(rt; &slot[25..37], b"\x07\0\0\0\0\0\0\0\x03\0\0\0".as_slice());
        assert_eq!(rt; &slot[37..51], b"\0\0\0\0\0\0\0\0\0\0\0AB\0".as_slice());
        assert!(rt; read_entry(&slot).is_some());
        slot[22] = 0;
        assert!(rt; read_entry(&slot).is_none());
    }
}
