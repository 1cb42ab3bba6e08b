// A commit that stands is put into memory.
ghost use Rattle.std.specs.Prelude.{◌≡◌, ◌<◌, ◌≤◌, ◌+◌, ℕ, true, List, Some, is_some, length, slice_get};
ghost use Rattle.rdb_types.specs.declared.keys.Dbkey.{Dbkey as Key};
ghost use Rattle.rdb_types.specs.declared.keys.Line.{Line as Written};
ghost use Rattle.line_store.specs.Seats.{IsMember};
ghost use Rattle.rdb_page.specs.Page.{IsOwner};
ghost use Rattle.line_versions.specs.Lines.{shown};
ghost use Rattle.stable_lines.specs.Slots.{IsAreaFile};
ghost use Rattle.line_moves.specs.declared.places.Place.{Place as Spot};
ghost use Rattle.line_moves.specs.Changes.{IsPlaceOf};
ghost use Rattle.member_rooms.specs.page_table.Pages.{IsLineOf};
ghost use Rattle.disk_store.specs.declared.member.Member.{Member as Sits};
ghost use Rattle.disk_store.specs.declared.held.Tables.{Tables as Kept};
ghost use Rattle.disk_store.specs.Commits.{is_free, is_flying};
ghost use Rattle.disk_store.specs.Landing.{PutsIn, PutsAll, LieThere, landed_with};
ghost use Rattle.disk_store.specs.Shown.{pages_of};

use crate::{Held, MemberStage, Tables};
use line_moves::place_of;
use member_memory::MemberLines;
use rdb_types::{Dbkey, Line, LineState, Session};

// Whether a line has an image.
fn is_present(line: &Line) -> bool
    ensures { result ≡ is_some (shown line.now) }
{
    match line.state {
        LineState::Never => false,
        LineState::Present => true,
        LineState::Erased => false,
    }
}

// Puts a line into the table of its file.
fn put_in(tables: &mut Tables, file: u32, line: &(Dbkey, Line))
    requires file { IsAreaFile file }
    requires owner { IsOwner file line.now.0.area }
    requires line { IsLineOf (pages_of tables.old file) line.now.0 }
    ensures { PutsIn line.now tables.old tables.new }
{
    let is_present = is_present(&line.1);
    match file {
        1 => tables.catalog.put_line(line.0, is_present),
        2 => tables.relations.put_line(line.0, is_present),
        3 => tables.indexes.put_line(line.0, is_present),
        _ => unreachable!(),
    }
}

// Puts a line, which lies on a page of its area, into the table of its file.
fn put_line(tables: &mut Tables, line: &(Dbkey, Line))
    requires { (place : Spot) × IsPlaceOf line.now.0 place × IsLineOf (pages_of tables.old place.file) line.now.0 }
    ensures { PutsIn line.now tables.old tables.new }
{
    let Some(place) = place_of(line.0) else {
        unreachable!()
    };
    put_in(tables, place.file, line);
}

// Puts all lines into the tables of their files.
fn put_lines(tables: &mut Tables, lines: &[(Dbkey, Line)])
    requires { LieThere tables.old lines.now }
    ensures { PutsAll tables.old lines.now tables.new }
{
    for line in lines {
        put_line(tables, line);
    }
}

impl Held {
    /// A session's commit stands: the tables have its lines, the next group comes behind its own, and it comes to another stage without lines.
    pub fn land(&mut self, s: Session, next: MemberStage)
        requires member { IsMember s.number }
        requires free { is_free next ≡ true }
        requires flies { (m : Sits) → slice_get self.old.members s.number ≡ Some m → (is_flying m.stage ≡ true) × (1 ≤ length m.written.keys) }
        ensures within { s.number < length self.old.members }
        ensures comes { (m : Sits) × (slice_get self.old.members s.number ≡ Some m)
            × (kept : Kept) × PutsAll self.old.tables m.written.lines kept
            × (self.new ≡ landed_with next kept s.number m self.old) }
    {
        let member = &mut self.members[s.number as usize];
        let count = member.written.keys().len() as u32;
        put_lines(&mut self.tables, member.written.lines());
        member.stage = next;
        member.written = MemberLines::new(self.alloc);
        self.next.slot += count + 1;
        self.next.number += 1;
    }
}
