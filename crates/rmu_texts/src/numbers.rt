// Numbers within lines.
ghost use Rattle.std.specs.Prelude.{◌≡◌, ◌++◌, OnOk, decimal};
ghost use Rattle.rmu_texts.specs.Numbers.{numbered as number_behind, count_line as line_of_count};

use itoa::Buffer;
use rdb_types::{Bytes, NoMemory};

/// Adds words and a number behind them.
pub fn numbered(words: &[u8], number: u64, out: &mut Bytes) -> Result<(), NoMemory>
    ensures { OnOk result (out.new ≡ out.old ++ number_behind words.now number) }
{
    let mut buffer = Buffer::new();
    out.extend(words)?;
    out.extend(buffer.format(number).as_bytes())
}

/// Adds a line of a number and what it counts, as `2 groups`.
pub fn count_line(number: u64, unit: &[u8], out: &mut Bytes) -> Result<(), NoMemory>
    ensures { OnOk result (out.new ≡ out.old ++ line_of_count number unit.now) }
{
    numbered(b"", number, out)?;
    out.push(b' ')?;
    out.extend(unit)?;
    out.push(b'\n')
}
