// The slots behind the header.
ghost use Rattle.std.specs.Prelude.{◌≡◌, ℕ, List, length, Some, IfSome, IfNone, true, false};
ghost use Rattle.backup_file.specs.Line.{IsBackupLine, IsAllowed};

use rdb_types::{Dbkey, Image, Tsn};
use slot_fields::{
    bytes_at, has_bytes, has_zeros, put_bytes, put_u16, put_u32, put_u64, put_zeros, u16_at,
    u32_at, u64_at,
};

/// A present line: where it stands, the class of its page, the transaction that left it, and its bytes.
#[derive(Drop)]
pub struct BackupLine {
    pub key: Dbkey,
    pub class: u16,
    pub tsn: Tsn,
    pub image: Image,
}

/// A line, with the number of the slot that it says it stands in. Whoever reads slot i tests that it is i.
#[derive(Drop)]
pub struct NumberedLine {
    pub number: u32,
    pub line: BackupLine,
}

/// Lays out the line in the slot of this number.
pub fn put_backup_line(slot: &mut [u8], number: u32, line: &BackupLine)
    requires size { length slot.old ≡ 512 }
    requires allowed { IsAllowed line.now }
    ensures { IsBackupLine slot.new number line.now }
{
    let image = line.image.bytes();
    put_bytes(slot, 0, b"RBFL");
    put_u32(slot, 4, number);
    put_u32(slot, 8, line.key.area);
    put_u32(slot, 12, line.key.page);
    put_u16(slot, 16, line.key.line);
    put_u16(slot, 18, line.class);
    put_u64(slot, 20, line.tsn.number);
    put_u16(slot, 28, image.len() as u16);
    put_zeros(slot, 30, 18);
    put_bytes(slot, 48, image);
    put_zeros(slot, 48 + image.len(), 464 - image.len());
}

fn is_allowed(line: &BackupLine) -> bool
    ensures yes { result ≡ true → IsAllowed line.now }
    ensures no { result ≡ false → IsAllowed line.now → ⊥ }
{
    let length = line.image.bytes().len();
    (line.class == 208 || line.class == 440)
        && length <= line.class as usize
        && line.tsn.number < 1 << 62
}

/// The line that a slot is, with the number that it says it stands at. None is answered only where it is none.
pub fn read_backup_line(slot: &[u8]) -> Option<NumberedLine>
    requires { length slot.now ≡ 512 }
    ensures found { IfSome result (λ found. IsBackupLine slot.now found.number found.line) }
    ensures none { IfNone result ((number : ℕ) (line : _) → IsBackupLine slot.now number line → ⊥) }

    // A line that was laid out is read again.
    ensures again { (number : ℕ) (line : _) → IsBackupLine slot.now number line
        → result ≡ Some (record { number = number; line = line }) }
{
    match line_of(slot) {
        Some(found) => Some(found),
        None => None,
    }
}

fn line_of(slot: &[u8]) -> Option<NumberedLine>
    requires { length slot.now ≡ 512 }
    ensures found { IfSome result (λ found. IsBackupLine slot.now found.number found.line) }
    ensures none { IfNone result ((number : ℕ) (line : _) → IsBackupLine slot.now number line → ⊥) }
{
    let length = u16_at(slot, 28) as usize;
    if length > 440 {
        return None;
    }
    let line = BackupLine {
        key: Dbkey {
            area: u32_at(slot, 8),
            page: u32_at(slot, 12),
            line: u16_at(slot, 16),
        },
        class: u16_at(slot, 18),
        tsn: Tsn {
            number: u64_at(slot, 20),
        },
        image: Image::from_bytes(bytes_at(slot, 48, length)),
    };
    let number = u32_at(slot, 4);
    if has_bytes(slot, 0, b"RBFL")
        && has_zeros(slot, 30, 18)
        && has_zeros(slot, 48 + length, 464 - length)
        && is_allowed(&line)
    {
        Some(NumberedLine { number, line })
    } else {
        None
    }
}

/// A slot is one line at most, with one number.
pub fn one_line()
    ensures number { (slot : List ℕ) (m n : ℕ) (a b : _) → IsBackupLine slot m a → IsBackupLine slot n b → m ≡ n }
    ensures line { (slot : List ℕ) (m n : ℕ) (a b : _) → IsBackupLine slot m a → IsBackupLine slot n b → a ≡ b }
{}
