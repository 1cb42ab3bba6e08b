// The sizes of keys, by the types of fields.
ghost use Rattle.std.specs.Prelude.{◌≡◌, ◌≤◌, length, slice_get};
ghost use Rattle.sound_lines.specs.Sound.{longest_in, longest_key as longest_key_of};

use catalog::longest_value;
use rdb_types::Field;

fn longest_at(position: u16, fields: &[Field]) -> u32
    ensures value { result ≡ longest_in (slice_get fields.now position) }
    ensures small { result ≤ 65538 }
{
    match fields.get(position as usize) {
        Some(field) => longest_value(&field.kind),
        None => 0,
    }
}

/// The bytes of the longest key of an index on the fields at these positions. An index has at most 8.
pub fn longest_key(positions: &[u16], fields: &[Field]) -> u32
    requires few { length positions.now ≤ 8 }
    ensures { result ≡ longest_key_of positions.now fields.now }
{
    let mut longest = 0;
    for position in positions {
        longest += longest_at(*position, fields);
    }
    longest
}
