// What a session sees.
ghost use Rattle.std.specs.Prelude.{◌≡◌, IfOk};
ghost use Rattle.line_view.specs.Knowledge.{line_in};
ghost use Rattle.line_store.specs.Shelves.{seen_by};
ghost use Rattle.line_store.specs.Seats.{IsMember};
ghost use Rattle.memory_store.specs.Kept.{seat_of, seat_at, shelf_of, base_of};

use crate::MemoryStore;
use crate::lines::{LineMap, image_in, last_image, lay};
use crate::seat::Seat;
use rdb_types::{Copied, Dbkey, Image, NoMemory, Session};

impl MemoryStore {
    fn seat(&self, s: Session) -> &Seat
        requires { IsMember s.number }
        ensures { seat_of result.now ≡ seat_at self.now.seats s.number }
    {
        &self.seats[s.number as usize]
    }

    // The image of a line over which the session's writes are laid: at a reader's start, else as it is committed.
    fn base_line(&self, s: Session, key: Dbkey) -> Option<Image>
        requires { IsMember s.number }
        ensures { result ≡ line_in key (base_of (seat_at self.now.seats s.number) self.now.lines) }
    {
        match self.seat(s) {
            Seat::Reading(start) => image_in(start, key),
            Seat::Copying(_, start) => image_in(start, key),
            _ => self.committed.line(key),
        }
    }

    // A copy of those lines.
    fn base(&self, s: Session) -> Result<LineMap, NoMemory>
        requires { IsMember s.number }
        ensures { IfOk result (λ lines. lines ≡ base_of (seat_at self.now.seats s.number) self.now.lines) }
    {
        match self.seat(s) {
            Seat::Reading(start) => start.copied(self.alloc),
            Seat::Copying(_, start) => start.copied(self.alloc),
            _ => self.committed.copied(self.alloc),
        }
    }

    /// The image of a line as a session sees it.
    pub(crate) fn line_seen(&self, s: Session, key: Dbkey) -> Option<Image>
        requires { IsMember s.number }
        ensures { result ≡ line_in key (seen_by s.number (shelf_of self.now)) }
    {
        let base = self.base_line(s, key);
        match self.seat(s).written() {
            Some(own) => last_image(base, own, key),
            None => base,
        }
    }

    /// A copy of all lines as a session sees them.
    pub(crate) fn seen(&self, s: Session) -> Result<LineMap, NoMemory>
        requires { IsMember s.number }
        ensures { IfOk result (λ lines. lines ≡ seen_by s.number (shelf_of self.now)) }
    {
        let mut lines = self.base(s)?;
        if let Some(own) = self.seat(s).written() {
            lay(&mut lines, own.lines())?;
        }
        Ok(lines)
    }
}
