//! Places in a script.

ghost use Rattle.std.specs.Prelude.{◌≡◌, ◌<◌, ◌≤◌, ◌+◌, ◌^◌, length, fold};
ghost use Rattle.rdo_parser.specs.Places as spec;

/// A line and a column, which counts bytes. Both begin at 1.
#[derive(Clone, Copy, Debug, PartialEq, Eq)]
pub struct Place {
    pub line: u32,
    pub column: u32,
}

impl Place {
    /// Where a script begins.
    pub const START: Place = Place { line: 1, column: 1 };

    /// The place behind these bytes, the first of which stands here.
    pub fn behind(self, bytes: &[u8]) -> Place
        requires { self.line + self.column + length bytes.now < 2 ^ 32 }
        ensures { result ≡ fold spec.behind_byte self bytes.now }
    {
        let mut place = self;
        for byte in bytes {
            if *byte == b'\n' {
                place.line += 1;
                place.column = 1;
            } else {
                place.column += 1;
            }
        }
        place
    }
}

/// How many bytes there are up to the next line.
pub fn line_len(mut text: &[u8]) -> usize
    ensures value { result ≡ spec.line_len text.entry.now }
    ensures within { result ≤ length text.entry.now }
    ensures moves { 0 < length text.entry.now → 1 ≤ result }
{
    let mut len = 0;
    while let [byte, rest @ ..] = text {
        len += 1;
        if *byte == b'\n' {
            return len;
        }
        text = rest;
    }
    len
}
