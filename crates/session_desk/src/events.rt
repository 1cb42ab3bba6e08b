// What happened, an event a line.
use itoa::Buffer;
use rdb_account::{Event, render};
use rdb_types::{Bytes, Dbkey, Level, NoMemory, Node, Session};
use rdo_ast::reply::{Reply, Standing};
use vms_queues::Mode;

/// Adds a number.
pub fn put_number(number: u32, out: &mut Bytes) -> Result<(), NoMemory> {
    let mut buffer = Buffer::new();
    out.extend(buffer.format(number).as_bytes())
}

fn put_session(s: Session, out: &mut Bytes) -> Result<(), NoMemory> {
    put_number(s.number, out)?;
    out.push(b' ')
}

fn put_node(node: Node, out: &mut Bytes) -> Result<(), NoMemory> {
    match node.level {
        Level::Journal => return out.extend(b"journal"),
        Level::Area => out.extend(b"area ")?,
        Level::Range => out.extend(b"range ")?,
        Level::Page => out.extend(b"page ")?,
        Level::Line => out.extend(b"line ")?,
    }
    put_number(node.area, out)?;
    if let Level::Area = node.level {
        return Ok(());
    }
    out.push(b':')?;
    put_number(node.at, out)?;
    if let Level::Line = node.level {
        out.push(b':')?;
        put_number(u32::from(node.line), out)?;
    }
    Ok(())
}

fn put_mode(mode: Mode, out: &mut Bytes) -> Result<(), NoMemory> {
    out.extend(match mode {
        Mode::NL => b" NL",
        Mode::CR => b" CR",
        Mode::CW => b" CW",
        Mode::PR => b" PR",
        Mode::PW => b" PW",
        Mode::EX => b" EX",
    })
}

fn put_kind(kind: &Standing, out: &mut Bytes) -> Result<(), NoMemory> {
    match kind {
        Standing::ReadOnly => out.extend(b"read-only"),
        Standing::ReadWrite { .. } => out.extend(b"read-write"),
        Standing::Closed => out.extend(b"closed"),
    }
}

fn put_key(key: Dbkey, out: &mut Bytes) -> Result<(), NoMemory> {
    put_number(key.area, out)?;
    out.push(b':')?;
    put_number(key.page, out)?;
    out.push(b':')?;
    put_number(u32::from(key.line), out)
}

// An answer with the lines of its new rows. What it prints stands among the answers.
fn put_said(s: Session, keys: &[Dbkey], reply: &Reply, out: &mut Bytes) -> Result<(), NoMemory> {
    put_session(s, out)?;
    if let Reply::Done(_) = reply {
        out.extend(b"done")?;
    } else {
        return render(reply, out);
    }
    for key in keys {
        out.push(b' ')?;
        put_key(*key, out)?;
    }
    out.push(b'\n')
}

fn put_word(s: Session, word: &[u8], out: &mut Bytes) -> Result<(), NoMemory> {
    put_session(s, out)?;
    out.extend(word)
}

fn put_lock(node: Node, mode: Mode, out: &mut Bytes) -> Result<(), NoMemory> {
    put_node(node, out)?;
    put_mode(mode, out)
}

fn put_wanted(
    s: Session,
    node: Node,
    mode: Mode,
    asked: Node,
    out: &mut Bytes,
) -> Result<(), NoMemory> {
    put_word(s, b"wanted ", out)?;
    put_lock(node, mode, out)?;
    out.extend(b" at ")?;
    put_node(asked, out)
}

fn put_got(s: Session, node: Node, mode: Mode, out: &mut Bytes) -> Result<(), NoMemory> {
    put_word(s, b"got ", out)?;
    put_lock(node, mode, out)
}

fn put_demoted(
    s: Session,
    node: Node,
    from: Mode,
    to: Mode,
    out: &mut Bytes,
) -> Result<(), NoMemory> {
    put_word(s, b"demoted ", out)?;
    put_lock(node, from, out)?;
    out.extend(b" to")?;
    put_mode(to, out)
}

fn put_began(s: Session, kind: &Standing, out: &mut Bytes) -> Result<(), NoMemory> {
    put_word(s, b"began ", out)?;
    put_kind(kind, out)
}

fn put_recovered(s: Session, is_committed: bool, out: &mut Bytes) -> Result<(), NoMemory> {
    if is_committed {
        put_word(s, b"recovered, committed", out)
    } else {
        put_word(s, b"recovered, undone", out)
    }
}

/// Adds the line of an event.
pub fn put_event(event: &Event, out: &mut Bytes) -> Result<(), NoMemory> {
    out.extend(b"  ")?;
    match event {
        Event::Began(s, kind) => put_began(*s, kind, out)?,
        Event::Wanted(s, node, mode, asked) => put_wanted(*s, *node, *mode, *asked, out)?,
        Event::Got(s, node, mode) => put_got(*s, *node, *mode, out)?,
        Event::Demoted(s, node, from, to) => put_demoted(*s, *node, *from, *to, out)?,
        Event::Said(s, _, keys, reply) => return put_said(*s, keys.as_slice(), reply, out),
        Event::Committed(s, _) => put_word(*s, b"committed", out)?,
        Event::RolledBack(s) => put_word(*s, b"rolled back", out)?,
        Event::Died(s, _) => put_word(*s, b"died", out)?,
        Event::Recovered(s, is_committed, _) => put_recovered(*s, *is_committed, out)?,
    }
    out.push(b'\n')
}
