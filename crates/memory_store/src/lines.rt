// Lines in memory, and what transactions wrote laid over them.
ghost use Rattle.std.specs.Prelude.{◌≡◌, ℕ, map, take, option_map, OnOk, OnErr, IfOk};
ghost use Rattle.line_view.specs.Knowledge.{Lines, line_in, lines_in};
ghost use Rattle.line_view.specs.Held.{entry_of};
ghost use Rattle.line_view.specs.Writes.{laid_all};
ghost use Rattle.line_versions.specs.Lines.{shown};
ghost use Rattle.member_memory.specs.Memory.{writes_in};

use line_view::PresentLine;
use member_memory::MemberLines;
use ordered_entries::Entries;
use rdb_types::{Copied, Dbkey, Image, Line, LineState, NoMemory};
use std::alloc::Global;
use std::marker::Model;

/// The image of a line, as a map holds it.
#[derive(Drop)]
pub(crate) struct LineImage {
    held: Image,
}

impl Model for LineImage {
    ghost use Rattle.std.specs.Prelude.{ℕ, List};

    ghost Value = { List ℕ };

    ghost view = { λ i. i.held };
}

impl Copied for LineImage {
    fn copied(&self, _alloc: Global) -> Result<LineImage, NoMemory> {
        let held = Image::from_bytes(self.held.bytes());
        Ok(LineImage { held })
    }
}

impl LineImage {
    pub(crate) fn image(&self) -> Image
        ensures { result ≡ self.now }
    {
        Image::from_bytes(self.held.bytes())
    }
}

/// The present lines in the order of their Dbkeys.
pub(crate) type LineMap = Entries<Dbkey, LineImage>;

// The image of a line that was written.
fn shown_image(line: &Line) -> Option<Image>
    ensures { result ≡ shown line.now }
{
    match line.state {
        LineState::Present => Some(Image::from_bytes(line.image.bytes())),
        LineState::Never | LineState::Erased => None,
    }
}

/// Lays what a transaction wrote over lines. Where memory fails, some of it may be laid.
pub(crate) fn lay(lines: &mut LineMap, own: &[(Dbkey, Line)]) -> Result<(), NoMemory>
    ensures ok { OnOk result (lines.new ≡ laid_all (writes_in own.now) lines.old) }
    ensures err { OnErr result ((n : ℕ) × (lines.new ≡ laid_all (writes_in (take n own.now)) lines.old)) }
{
    for (key, line) in own {
        match shown_image(line) {
            Some(image) => lines.put(*key, LineImage { held: image })?,
            None => {
                let _gone = lines.remove(key);
            }
        }
    }
    Ok(())
}

/// The image of a line in a map.
pub(crate) fn image_in(lines: &LineMap, key: Dbkey) -> Option<Image>
    ensures { result ≡ line_in key lines.now }
{
    match lines.find(&key) {
        Some(image) => Some(image.image()),
        None => None,
    }
}

/// The image of a line behind what a transaction wrote.
pub(crate) fn last_image(before: Option<Image>, own: &MemberLines, key: Dbkey) -> Option<Image>
    ensures { (all : Lines) → before ≡ line_in key all → result ≡ line_in key (laid_all (writes_in own.now.lines) all) }
{
    match own.line(key) {
        Some(line) => shown_image(line),
        None => before,
    }
}

/// The present lines of an area.
pub(crate) fn lines_of(
    alloc: Global,
    lines: &[(Dbkey, LineImage)],
    area: u32,
) -> Result<Vec<PresentLine>, NoMemory>
    ensures { IfOk result (λ found. map entry_of found.items ≡ lines_in area lines.now) }
{
    let mut found = Vec::new(alloc);
    for (key, image) in lines {
        if key.area == area {
            found.push(PresentLine {
                key: *key,
                image: image.image(),
            })?;
        }
    }
    Ok(found)
}
