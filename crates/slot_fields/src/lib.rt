//! Fields of slots: numbers, lowest byte first, certain bytes, and zeros. A place counts bytes from 0.
#![tactic(auto)]

ghost use Rattle.std.specs.Prelude.{◌≡◌, ◌≤◌, ◌<◌, ◌^◌, ◌+◌, ◌++◌, ◌∷◌, [], ℕ, length, take, drop, replicate, slice_index, ◌≢◌, true, false};
ghost use Rattle.slot_fields.specs.Fields.{number_at, number_bytes};

use byteorder::{ByteOrder, LittleEndian};

/// Writes a number of 1 byte at a place. It fits its bytes.
#[tactic(auto, unfolding(crate::specs::Fields::number_bytes))]
pub fn put_u8(slot: &mut [u8], at: usize, x: u8)
    requires { at + 1 ≤ length slot.old }
    ensures front { take (at + 1) slot.new ≡ take at slot.old ++ number_bytes 1 x }
    ensures rest { drop (at + 1) slot.new ≡ drop (at + 1) slot.old }
    ensures fits { x < 256 ^ 1 }
{
    slot[at] = x;
}

/// Writes a number of 2 bytes at a place. It fits its bytes.
#[tactic(auto, unfolding(crate::specs::Fields::number_bytes))]
pub fn put_u16(slot: &mut [u8], at: usize, x: u16)
    requires { at + 2 ≤ length slot.old }
    ensures front { take (at + 2) slot.new ≡ take at slot.old ++ number_bytes 2 x }
    ensures rest { drop (at + 2) slot.new ≡ drop (at + 2) slot.old }
    ensures fits { x < 256 ^ 2 }
{
    let mut bytes = [0; 2];
    LittleEndian::write_u16(&mut bytes, x);
    put_bytes(slot, at, &bytes);
}

/// Writes a number of 4 bytes at a place. It fits its bytes.
#[tactic(auto, unfolding(crate::specs::Fields::number_bytes))]
pub fn put_u32(slot: &mut [u8], at: usize, x: u32)
    requires { at + 4 ≤ length slot.old }
    ensures front { take (at + 4) slot.new ≡ take at slot.old ++ number_bytes 4 x }
    ensures rest { drop (at + 4) slot.new ≡ drop (at + 4) slot.old }
    ensures fits { x < 256 ^ 4 }
{
    let mut bytes = [0; 4];
    LittleEndian::write_u32(&mut bytes, x);
    put_bytes(slot, at, &bytes);
}

/// Writes a number of 8 bytes at a place. It fits its bytes.
#[tactic(auto, unfolding(crate::specs::Fields::number_bytes))]
pub fn put_u64(slot: &mut [u8], at: usize, x: u64)
    requires { at + 8 ≤ length slot.old }
    ensures front { take (at + 8) slot.new ≡ take at slot.old ++ number_bytes 8 x }
    ensures rest { drop (at + 8) slot.new ≡ drop (at + 8) slot.old }
    ensures fits { x < 256 ^ 8 }
{
    let mut bytes = [0; 8];
    LittleEndian::write_u64(&mut bytes, x);
    put_bytes(slot, at, &bytes);
}

/// Writes certain bytes at a place.
pub fn put_bytes(slot: &mut [u8], at: usize, bytes: &[u8])
    requires { at + length bytes.now ≤ length slot.old }
    ensures front { take (at + length bytes.now) slot.new ≡ take at slot.old ++ bytes.now }
    ensures rest { drop (at + length bytes.now) slot.new ≡ drop (at + length bytes.now) slot.old }
{
    slot[at..at + bytes.len()].copy_from_slice(bytes);
}

/// Writes `n` zeros at a place.
pub fn put_zeros(slot: &mut [u8], at: usize, n: usize)
    requires { at + n ≤ length slot.old }
    ensures front { take (at + n) slot.new ≡ take at slot.old ++ replicate n 0 }
    ensures rest { drop (at + n) slot.new ≡ drop (at + n) slot.old }
{
    slot[at..at + n].fill(0);
}

/// The number of 1 byte at a place.
#[tactic(auto, unfolding(crate::specs::Fields::number_at))]
pub fn u8_at(slot: &[u8], at: usize) -> u8
    requires { at + 1 ≤ length slot.now }
    ensures { result ≡ number_at 1 at slot.now }
{
    slot[at]
}

/// The number of 2 bytes at a place.
#[tactic(auto, unfolding(crate::specs::Fields::number_at))]
pub fn u16_at(slot: &[u8], at: usize) -> u16
    requires { at + 2 ≤ length slot.now }
    ensures { result ≡ number_at 2 at slot.now }
{
    LittleEndian::read_u16(&slot[at..])
}

/// The number of 4 bytes at a place.
#[tactic(auto, unfolding(crate::specs::Fields::number_at))]
pub fn u32_at(slot: &[u8], at: usize) -> u32
    requires { at + 4 ≤ length slot.now }
    ensures { result ≡ number_at 4 at slot.now }
{
    LittleEndian::read_u32(&slot[at..])
}

/// The number of 8 bytes at a place.
#[tactic(auto, unfolding(crate::specs::Fields::number_at))]
pub fn u64_at(slot: &[u8], at: usize) -> u64
    requires { at + 8 ≤ length slot.now }
    ensures { result ≡ number_at 8 at slot.now }
{
    LittleEndian::read_u64(&slot[at..])
}

/// Whether these bytes stand at a place.
pub fn has_bytes(slot: &[u8], at: usize, bytes: &[u8]) -> bool
    requires { at + length bytes.now ≤ length slot.now }
    ensures yes { result ≡ true → take (length bytes.now) (drop at slot.now) ≡ bytes.now }
    ensures no { result ≡ false → take (length bytes.now) (drop at slot.now) ≢ bytes.now }
{
    &slot[at..at + bytes.len()] == bytes
}

/// Whether `n` zeros stand at a place.
pub fn has_zeros(slot: &[u8], at: usize, n: usize) -> bool
    requires { at + n ≤ length slot.now }
    ensures yes { result ≡ true → take n (drop at slot.now) ≡ replicate n 0 }
    ensures no { result ≡ false → take n (drop at slot.now) ≢ replicate n 0 }
{
    slot[at..at + n].iter().all(|b| *b == 0)
}

/// The `n` bytes at a place.
pub fn bytes_at(slot: &[u8], at: usize, n: usize) -> &[u8]
    requires { at + n ≤ length slot.now }
    ensures value { result.now ≡ take n (drop at slot.now) }
    ensures len { length result.now ≡ n }
{
    &slot[at..at + n]
}

/// Whether all bytes are zero.
pub fn is_zeros(bytes: &[u8]) -> bool
    ensures yes { result ≡ true → bytes.now ≡ replicate (length bytes.now) 0 }
    ensures no { result ≡ false → bytes.now ≢ replicate (length bytes.now) 0 }
{
    bytes.iter().all(|b| *b == 0)
}

#[cfg(test)]
mod tests {
    use super::*;

    #[test]
    fn numbers_stand_lowest_byte_first(rt: HostRuntime) {
        let mut slot = [9; 20];
        put_u16(&mut slot, 1, 0x0102);
        put_u32(&mut slot, 3, 0x03040506);
        put_u64(&mut slot, 7, 0x0708090a0b0c0d0e);
        put_u8(&mut slot, 15, 0x0f);
        put_zeros(&mut slot, 16, 2);
        put_bytes(&mut slot, 18, b"A");
        let want = [
            9, 2, 1, 6, 5, 4, 3, 14, 13, 12, 11, 10, 9, 8, 7, 15, 0, 0, 65, 9,
        ];
        assert_eq!(rt; slot.as_slice(), want.as_slice());
        assert_eq!(rt; u32_at(&slot, 3), 0x03040506);
        assert!(rt; has_zeros(&slot, 16, 2) && !has_zeros(&slot, 16, 3));
    }
}
