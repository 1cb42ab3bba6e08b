//! What is written of a run.
ghost use Rattle.std.specs.Prelude.{◌≡◌, [], ◌∷◌, ◌++◌, ◌≤◌, OnOk, decimal, replicate, length, codes, List, ℕ};
ghost use Rattle.std.specs.List.{flat_map};
ghost use Rattle.rdb_account.specs.Transcript.{pointed as text_pointed, value_text as text_of_value, scaled_text as text_of_scaled, row_line as line_of_row, sessions_text as text_of_sessions, named as line_named, counted as line_counted, reply_text as text_of_reply, death_text as text_of_death, transcript as transcript_of};

use crate::Event;
use itoa::Buffer;
use lock_needs::{Bytes, Cause, Chars, NoMemory, Printed, Scaled, Session, Value};
use rdo_ast::reply::Reply;

/// Adds zeros.
fn zeros(count: usize, out: &mut Bytes) -> Result<(), NoMemory>
    ensures { OnOk result (out.new ≡ out.old ++ replicate count 48) }
{
    for _turn in 0..count {
        out.push(b'0')?;
    }
    Ok(())
}

/// Adds digits with a point before the last `scale` of them.
fn pointed(digits: &[u8], scale: usize, out: &mut Bytes) -> Result<(), NoMemory>
    ensures { OnOk result (out.new ≡ out.old ++ text_pointed scale digits.now) }
{
    if digits.len() <= scale {
        out.extend(b"0.")?;
        zeros(scale - digits.len(), out)?;
        out.extend(digits)
    } else {
        let whole = digits.len() - scale;
        out.extend(&digits[..whole])?;
        out.extend(b".")?;
        out.extend(&digits[whole..])
    }
}

/// Adds a number of this scale.
fn number_text(n: i64, scale: u8, out: &mut Bytes) -> Result<(), NoMemory>
    ensures { OnOk result (out.new ≡ out.old ++ text_of_value scale (Value.Number n)) }
{
    let mut buffer = Buffer::new();
    let digits = buffer.format(n.unsigned_abs()).as_bytes();
    if n < 0 {
        out.extend(b"-")?;
    }
    if scale == 0 {
        out.extend(digits)
    } else {
        pointed(digits, scale as usize, out)
    }
}

/// Adds the text of a value.
fn scaled_text(scaled: &Scaled, out: &mut Bytes) -> Result<(), NoMemory>
    ensures { OnOk result (out.new ≡ out.old ++ text_of_scaled scaled.now) }
{
    match &scaled.value {
        Value::Missing => out.extend(b"(missing)"),
        Value::Number(n) => number_text(*n, scaled.scale, out),
        Value::Text(text) => out.extend(text.as_slice()),
    }
}

/// Adds the values behind the first of a row, each with a blank in front.
fn row_rest(values: &[Scaled], out: &mut Bytes) -> Result<(), NoMemory>
    ensures { OnOk result (out.new ≡ out.old ++ flat_map (λ v. 32 ∷ text_of_scaled v) values.now) }
{
    for value in values {
        out.push(b' ')?;
        scaled_text(value, out)?;
    }
    Ok(())
}

/// Adds the line of a row.
fn row_line(row: &Printed, out: &mut Bytes) -> Result<(), NoMemory>
    ensures { OnOk result (out.new ≡ out.old ++ line_of_row row.now) }
{
    if let [first, rest @ ..] = row.as_slice() {
        scaled_text(first, out)?;
        row_rest(rest, out)?;
    }
    out.push(b'\n')
}

/// Adds the lines of rows.
fn rows_text(rows: &[Printed], out: &mut Bytes) -> Result<(), NoMemory>
    ensures { OnOk result (out.new ≡ out.old ++ flat_map line_of_row rows.now) }
{
    for row in rows {
        row_line(row, out)?;
    }
    Ok(())
}

/// Adds the digits of a number.
fn decimal_text(number: u32, out: &mut Bytes) -> Result<(), NoMemory>
    ensures { OnOk result (out.new ≡ out.old ++ decimal number) }
{
    let mut buffer = Buffer::new();
    out.extend(buffer.format(number).as_bytes())
}

/// Adds a line that ends with a name.
fn named(message: &[u8], name: &Chars, out: &mut Bytes) -> Result<(), NoMemory>
    ensures { OnOk result (out.new ≡ out.old ++ line_named message.now name.now) }
{
    out.extend(message)?;
    out.extend(name.as_slice())?;
    out.extend(b"\n")
}

/// Adds a line with a number.
fn counted(message: &[u8], number: u32, unit: &[u8], out: &mut Bytes) -> Result<(), NoMemory>
    ensures { OnOk result (out.new ≡ out.old ++ line_counted message.now number unit.now) }
{
    out.extend(message)?;
    decimal_text(number, out)?;
    out.extend(unit)?;
    out.extend(b"\n")
}

/// Adds the line of a syntax fault.
fn syntax_line(line: u32, column: u32, out: &mut Bytes) -> Result<(), NoMemory>
    ensures { OnOk result (out.new ≡ out.old ++ text_of_reply (Reply.Syntax line column)) }
{
    out.extend(b"%RDO-E-SYNTAX, line ")?;
    decimal_text(line, out)?;
    out.extend(b" column ")?;
    decimal_text(column, out)?;
    out.extend(b"\n")?;
    Ok(())
}

/// Adds sessions, each with a blank in front.
fn sessions_text(sessions: &[u32], out: &mut Bytes) -> Result<(), NoMemory>
    ensures { OnOk result (out.new ≡ out.old ++ text_of_sessions sessions.now) }
{
    for session in sessions {
        out.push(b' ')?;
        decimal_text(*session, out)?;
    }
    Ok(())
}

/// Adds the line of a deadlock.
fn deadlock_line(sessions: &[u32], out: &mut Bytes) -> Result<(), NoMemory>
    ensures { OnOk result (out.new ≡ out.old ++ text_of_reply (Reply.Deadlock sessions.now)) }
{
    out.extend(b"%RDO-E-DEADLOCK, sessions")?;
    sessions_text(sessions, out)?;
    out.extend(b"\n")
}

/// Adds what a reply writes: the printed lines of Done, and one line for any other.
pub fn render(reply: &Reply, out: &mut Bytes) -> Result<(), NoMemory>
    ensures { OnOk result (out.new ≡ out.old ++ text_of_reply reply.now) }
{
    match reply {
        Reply::Done(rows) => rows_text(rows.as_slice(), out),
        Reply::Syntax { line, column } => syntax_line(*line, *column, out),
        Reply::NoSuch(name) => named(b"%RDO-E-NOSUCH, ", name, out),
        Reply::Exists(name) => named(b"%RDO-E-EXISTS, ", name, out),
        Reply::TypeClash => out.extend(b"%RDO-E-TYPECLASH\n"),
        Reply::Overflow => out.extend(b"%RDO-E-OVERFLOW\n"),
        Reply::Duplicate(index) => named(b"%RDO-E-DUPLICATE, ", index, out),
        Reply::NoTransaction => out.extend(b"%RDO-E-NOTRAN\n"),
        Reply::InTransaction => out.extend(b"%RDO-E-INTRAN\n"),
        Reply::ReadOnly => out.extend(b"%RDO-E-READONLY\n"),
        Reply::NotReserved(relation) => named(b"%RDO-E-NOTRESERVED, ", relation, out),
        Reply::LockConflict(session) => {
            counted(b"%RDO-E-LOCKCONFLICT, session ", *session, b"", out)
        }
        Reply::Deadlock(sessions) => deadlock_line(sessions.as_slice(), out),
        Reply::AreaFull(pages) => counted(b"%RDO-E-AREAFULL, ", *pages, b" pages", out),
        Reply::RujFull(entries) => counted(b"%RDO-E-RUJFULL, ", *entries, b" entries", out),
        Reply::AijFull(slots) => counted(b"%RDO-E-AIJFULL, ", *slots, b" slots", out),
        Reply::SnapFull(slots) => counted(b"%RDO-E-SNAPFULL, ", *slots, b" slots", out),
        Reply::TooLong => out.extend(b"%RDO-E-TOOLONG\n"),
        Reply::NoMemory => out.extend(b"%RDO-E-NOMEMORY\n"),
    }
}

/// Adds the last line of a session that died.
fn death_line(cause: Cause, out: &mut Bytes) -> Result<(), NoMemory>
    ensures { OnOk result (out.new ≡ out.old ++ text_of_death cause) }
{
    match cause {
        Cause::Device => out.extend(b"%RDO-F-DIED, device\n"),
        Cause::Gate => out.extend(b"%RDO-F-DIED, gate\n"),
        Cause::Stop => out.extend(b"%RDO-F-DIED, stop\n"),
        Cause::Memory => out.extend(b"%RDO-F-DIED, memory\n"),
    }
}

/// Adds what a session writes in a run: its replies in their order, and a last line where it died.
pub fn transcript(events: &[Event], session: Session, out: &mut Bytes) -> Result<(), NoMemory>
    ensures { OnOk result (out.new ≡ out.old ++ transcript_of session.number events.now) }
{
    for event in events {
        match event {
            Event::Said(said, _, _, reply) if said.number == session.number => render(reply, out)?,
            Event::Died(died, cause) if died.number == session.number => death_line(*cause, out)?,
            _ => {}
        }
    }
    Ok(())
}
