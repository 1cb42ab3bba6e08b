// A page as hexadecimal digits.
ghost use Rattle.std.specs.Prelude.{◌≡◌, ◌++◌, ◌∷◌, ◌<◌, false, length, OnOk};
ghost use Rattle.std.specs.List.{flat_map};
ghost use Rattle.std.specs.Fmt.{digit_glyph};
ghost use Rattle.rmu_texts.specs.Page.{hex_byte, bytes_line as line_of_bytes, page_text as text_of_page};

use rdb_types::{Bytes, NoMemory};
use slot_fields::bytes_at;

fn hex_digit(digit: u8) -> u8
    requires { digit < 16 }
    ensures { result ≡ digit_glyph false digit }
{
    if digit < 10 { 48 + digit } else { 87 + digit }
}

fn hex_byte(byte: u8, out: &mut Bytes) -> Result<(), NoMemory>
    ensures { OnOk result (out.new ≡ out.old ++ hex_byte byte) }
{
    out.push(hex_digit(byte / 16))?;
    out.push(hex_digit(byte % 16))
}

fn spaced_bytes(bytes: &[u8], out: &mut Bytes) -> Result<(), NoMemory>
    ensures { OnOk result (out.new ≡ out.old ++ flat_map (λ b. 32 ∷ hex_byte b) bytes.now) }
{
    for byte in bytes {
        out.push(b' ')?;
        hex_byte(*byte, out)?;
    }
    Ok(())
}

fn bytes_line(offset: u16, bytes: &[u8], out: &mut Bytes) -> Result<(), NoMemory>
    ensures { OnOk result (out.new ≡ out.old ++ line_of_bytes offset bytes.now) }
{
    hex_byte((offset / 256) as u8, out)?;
    hex_byte((offset % 256) as u8, out)?;
    spaced_bytes(bytes, out)?;
    out.push(b'\n')
}

/// Adds the 64 lines of a page of 1,024 bytes, each of 16 bytes.
pub fn page_text(page: &[u8], out: &mut Bytes) -> Result<(), NoMemory>
    requires { length page.now ≡ 1024 }
    ensures { OnOk result (out.new ≡ out.old ++ text_of_page page.now) }
{
    for line in 0..64u16 {
        let offset = 16 * line;
        bytes_line(offset, bytes_at(page, offset as usize, 16), out)?;
    }
    Ok(())
}
