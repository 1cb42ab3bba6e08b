// What a database is and holds.
ghost use Rattle.std.specs.Prelude.{◌≡◌, ◌++◌, OnOk};
ghost use Rattle.std.specs.List.{flat_map};
ghost use Rattle.rmu_texts.specs.Dump.{format_line as line_of_format, limits_line as line_of_limits, ceiling_line as line_of_ceiling, root_lines as lines_of_root, counted_line as line_of_counted, groups_line as line_of_groups, dump_text as text_of_dump};

use crate::numbers::numbered;
use rdb_types::{Bytes, Chars, Items, Limits, NoMemory};
use root_file::Root;

/// A relation or an index, with its logical area and how many lines are present there.
#[derive(Debug, Drop)]
pub struct Counted {
    pub name: Chars,
    pub area: u32,
    pub lines: u64,
}

/// What a dump says: the root, the relations and the indexes by their names, and how many whole groups the after-image journal has.
#[derive(Debug, Drop)]
pub struct Dump {
    pub root: Root,
    pub relations: Items<Counted>,
    pub indexes: Items<Counted>,
    pub groups: u64,
}

fn format_line(format: u16, state: u8, out: &mut Bytes) -> Result<(), NoMemory>
    ensures { OnOk result (out.new ≡ out.old ++ line_of_format format state) }
{
    numbered(b"database format ", u64::from(format), out)?;
    numbered(b" state ", u64::from(state), out)?;
    out.push(b'\n')
}

fn limits_line(limits: &Limits, out: &mut Bytes) -> Result<(), NoMemory>
    ensures { OnOk result (out.new ≡ out.old ++ line_of_limits limits.now) }
{
    numbered(b"limits ", u64::from(limits.pages), out)?;
    numbered(b" ", u64::from(limits.snaps), out)?;
    numbered(b" ", u64::from(limits.entries), out)?;
    numbered(b" ", u64::from(limits.slots), out)?;
    out.push(b'\n')
}

fn ceiling_line(ceiling: u64, out: &mut Bytes) -> Result<(), NoMemory>
    ensures { OnOk result (out.new ≡ out.old ++ line_of_ceiling ceiling) }
{
    numbered(b"ceiling ", ceiling, out)?;
    out.push(b'\n')
}

fn root_lines(root: &Root, out: &mut Bytes) -> Result<(), NoMemory>
    ensures { OnOk result (out.new ≡ out.old ++ lines_of_root root.now) }
{
    format_line(root.format, root.state, out)?;
    limits_line(&root.limits, out)?;
    ceiling_line(root.ceiling, out)
}

fn counted_line(words: &[u8], counted: &Counted, out: &mut Bytes) -> Result<(), NoMemory>
    ensures { OnOk result (out.new ≡ out.old ++ line_of_counted words.now counted.now) }
{
    out.extend(words)?;
    out.extend(counted.name.as_slice())?;
    numbered(b" area ", u64::from(counted.area), out)?;
    numbered(b" lines ", counted.lines, out)?;
    out.push(b'\n')
}

fn counted_lines(words: &[u8], all: &[Counted], out: &mut Bytes) -> Result<(), NoMemory>
    ensures { OnOk result (out.new ≡ out.old ++ flat_map (line_of_counted words.now) all.now) }
{
    for counted in all {
        counted_line(words, counted, out)?;
    }
    Ok(())
}

fn groups_line(groups: u64, out: &mut Bytes) -> Result<(), NoMemory>
    ensures { OnOk result (out.new ≡ out.old ++ line_of_groups groups) }
{
    numbered(b"groups ", groups, out)?;
    out.push(b'\n')
}

/// Adds the lines of a dump.
pub fn dump_text(dump: &Dump, out: &mut Bytes) -> Result<(), NoMemory>
    ensures { OnOk result (out.new ≡ out.old ++ text_of_dump dump.now) }
{
    root_lines(&dump.root, out)?;
    counted_lines(b"relation ", dump.relations.as_slice(), out)?;
    counted_lines(b"index ", dump.indexes.as_slice(), out)?;
    groups_line(dump.groups, out)
}
