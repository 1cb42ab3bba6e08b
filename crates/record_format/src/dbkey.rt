// Dbkeys.
ghost use Rattle.std.specs.Prelude.{◌≡◌, ◌≤◌, ◌+◌, length, take, drop};
ghost use Rattle.slot_fields.specs.Fields.{laid, Fit, HasPart};
ghost use Rattle.record_format.specs.Dbkeys.{dbkey_fields};

use rdb_types::Dbkey;
use slot_fields::{put_u16, put_u32, u16_at, u32_at};

/// Writes a Dbkey at a place: its area, its page and its line, in 10 bytes. It fits them.
pub fn put_dbkey(slot: &mut [u8], at: usize, key: Dbkey)
    requires { at + 10 ≤ length slot.old }
    ensures front { take (at + 10) slot.new ≡ laid (take at slot.old) (dbkey_fields key) }
    ensures rest { drop (at + 10) slot.new ≡ drop (at + 10) slot.old }
    ensures fits { Fit (dbkey_fields key) }
{
    put_u32(slot, at, key.area);
    put_u32(slot, at + 4, key.page);
    put_u16(slot, at + 8, key.line);
}

/// The Dbkey at a place.
pub fn dbkey_at(slot: &[u8], at: usize) -> Dbkey
    requires { at + 10 ≤ length slot.now }
    ensures found { HasPart at (dbkey_fields result) slot.now }

    // A Dbkey that was laid out is read again.
    ensures again { (key : _) → HasPart at (dbkey_fields key) slot.now → result ≡ key }
{
    Dbkey {
        area: u32_at(slot, at),
        page: u32_at(slot, at + 4),
        line: u16_at(slot, at + 8),
    }
}
