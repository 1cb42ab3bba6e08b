// The lines of a page.
ghost use Rattle.std.specs.Prelude.{◌≡◌, ◌≢◌, ◌≤◌, ◌<◌, ◌+◌, true, false, Ok, length, take, drop, IfSome, IfNone, IfOk, OnErr, ℕ, List};
ghost use Rattle.slot_fields.specs.Fields.{HasPart};
ghost use Rattle.rdb_page.specs.Lines.{line_fields, byte_of, IsAllowedLine, IsLine, Agrees, line_place};
ghost use Rattle.rdb_page.specs.Page.{class_at, lines_of as lines_in, IsClass, IsHead, HasNoMore};
ghost use Rattle.rdb_page.specs.Whole.{IsUsedPage};

use crate::BadPage;
use rdb_types::{Image, Line, LineState, Tsn};
use slot_fields::{
    bytes_at, has_zeros, put_bytes, put_u8, put_u16, put_u32, put_u64, put_zeros, u8_at, u16_at,
    u32_at, u64_at,
};

/// The state of a line as the byte that says it.
pub fn state_byte(state: LineState) -> u8
    ensures { result ≡ byte_of state }
{
    match state {
        LineState::Never => 0,
        LineState::Present => 1,
        LineState::Erased => 2,
    }
}

/// The state that a byte says.
pub fn state_of(byte: u8) -> Option<LineState>
    ensures some { IfSome result (λ state. byte ≡ byte_of state) }
    ensures none { IfNone result ((state : _) → byte ≡ byte_of state → ⊥) }
{
    match byte {
        0 => Some(LineState::Never),
        1 => Some(LineState::Present),
        2 => Some(LineState::Erased),
        _ => None,
    }
}

/// Whether a line of this state may have this transaction number, this chain and this image.
pub fn agrees(state: LineState, tsn: u64, chain: u32, image: &Image) -> bool
    ensures yes { result ≡ true → Agrees state tsn chain image.now }
    ensures no { result ≡ false → Agrees state tsn chain image.now → ⊥ }
{
    let is_empty = image.bytes().len() == 0;
    match state {
        LineState::Never => tsn == 0 && chain == 0 && is_empty,
        LineState::Present => true,
        LineState::Erased => is_empty,
    }
}

/// Whether a line may stand where images have at most so many bytes.
pub fn is_allowed_line(class: usize, line: &Line) -> bool
    ensures yes { result ≡ true → IsAllowedLine class line.now }
    ensures no { result ≡ false → IsAllowedLine class line.now → ⊥ }
{
    let agrees = agrees(line.state, line.tsn.number, line.chain, &line.image);
    line.tsn.number < 1 << 62 && line.image.bytes().len() <= class && agrees
}

/// Puts a line in its place. All else on the page stays.
pub fn put_line(page: &mut [u8], line: u16, value: &Line)
    requires size { length page.old ≡ 1024 }
    requires class { IsClass (class_at page.old) }
    requires line { line < lines_in (class_at page.old) }
    requires allowed { IsAllowedLine (class_at page.old) value.now }
    ensures here { IsLine page.new (class_at page.old) line value.now }
    ensures others { (j : ℕ) (other : _) → j ≢ line
        → IsLine page.old (class_at page.old) j other
        → IsLine page.new (class_at page.old) j other }
    ensures before { let place = line_place (class_at page.old) line in
        take place page.new ≡ take place page.old }
    ensures behind { let end = line_place (class_at page.old) (line + 1) in
        drop end page.new ≡ drop end page.old }
    ensures class { class_at page.new ≡ class_at page.old }
    ensures head { (head : _) → IsHead page.old head → IsHead page.new head }
    ensures rest { HasNoMore page.old (class_at page.old)
        → HasNoMore page.new (class_at page.old) }

    // A whole page stays one.
    ensures whole { (file number : ℕ) → IsUsedPage file number page.old
        → IsUsedPage file number page.new }
{
    let class = u16_at(page, 12) as usize;
    let at = 24 + line as usize * (16 + class);
    lay_line(page, class, at, value);
}

/// Lays out a line at its place.
fn lay_line(page: &mut [u8], class: usize, at: usize, value: &Line)
    requires size { at + (16 + class) ≤ length page.old }
    requires class { class ≤ 440 }
    requires allowed { IsAllowedLine class value.now }
    ensures here { HasPart at (line_fields class value.now) page.new }
    ensures before { take at page.new ≡ take at page.old }
    ensures behind { drop (at + (16 + class)) page.new ≡ drop (at + (16 + class)) page.old }
{
    let image = value.image.bytes();
    put_u8(page, at, state_byte(value.state));
    put_zeros(page, at + 1, 1);
    put_u16(page, at + 2, image.len() as u16);
    put_u64(page, at + 4, value.tsn.number);
    put_u32(page, at + 12, value.chain);
    put_bytes(page, at + 16, image);
    put_zeros(page, at + 16 + image.len(), class - image.len());
}

/// The line of a number. It is refused only where none stands there.
pub fn read_line(page: &[u8], line: u16) -> Result<Line, BadPage>
    requires size { length page.now ≡ 1024 }
    requires class { IsClass (class_at page.now) }
    requires line { line < lines_in (class_at page.now) }
    ensures found { IfOk result (λ value. IsLine page.now (class_at page.now) line value) }
    ensures none { OnErr result ((value : _)
        → IsLine page.now (class_at page.now) line value → ⊥) }

    // A line that was put there is read again.
    ensures again { (value : _) → IsLine page.now (class_at page.now) line value
        → result ≡ Ok value }
{
    let class = u16_at(page, 12) as usize;
    let at = 24 + line as usize * (16 + class);
    match line_at(page, class, at) {
        Some(value) => Ok(value),
        None => Err(BadPage {}),
    }
}

fn line_at(page: &[u8], class: usize, at: usize) -> Option<Line>
    requires size { at + (16 + class) ≤ length page.now }
    requires class { class ≤ 440 }
    ensures found { IfSome result (λ value. HasPart at (line_fields class value) page.now) }
    ensures allowed { IfSome result (λ value. IsAllowedLine class value) }
    ensures none { IfNone result ((value : _) → HasPart at (line_fields class value) page.now
        → IsAllowedLine class value → ⊥) }
{
    let length = u16_at(page, at + 2) as usize;
    if length > class {
        return None;
    }
    let Some(state) = state_of(u8_at(page, at)) else {
        return None;
    };
    let line = Line {
        state,
        tsn: Tsn {
            number: u64_at(page, at + 4),
        },
        chain: u32_at(page, at + 12),
        image: Image::from_bytes(bytes_at(page, at + 16, length)),
    };
    if has_zeros(page, at + 1, 1)
        && has_zeros(page, at + 16 + length, class - length)
        && is_allowed_line(class, &line)
    {
        Some(line)
    } else {
        None
    }
}

/// One line at most stands at a place.
pub fn one_line()
    ensures { (page : List ℕ) (class line : ℕ) (a b : _) → IsLine page class line a
        → IsLine page class line b → a ≡ b }
{}
