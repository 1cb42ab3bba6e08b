// The classes of the lines of a commit, by the tables of pages.
ghost use Rattle.std.specs.Prelude.{◌≡◌, ◌<◌, ◌≤◌, ◌+◌, ◌⊎◌, Some, length, slice_get, IfOk};
ghost use Rattle.line_store.specs.Seats.{IsMember};
ghost use Rattle.line_moves.specs.declared.places.Place.{Place as Spot};
ghost use Rattle.line_moves.specs.Changes.{IsPlaceOf};
ghost use Rattle.member_rooms.specs.page_table.Pages.{IsLineOf, class_in};
ghost use Rattle.disk_store.specs.declared.member.Member.{Member as Sits};
ghost use Rattle.disk_store.specs.Commits.{AreOfPages, HasRoomFor, IsPreparedWith};
ghost use Rattle.disk_store.specs.Memory.{with_member};
ghost use Rattle.disk_store.specs.Shown.{pages_of};

use crate::{Held, MemberStage};
use line_moves::place_of;
use rdb_types::{Dbkey, NoMemory, Session};

impl Held {
    // The class of a line's page.
    fn class_at(&self, key: Dbkey) -> u16
        requires { (place : Spot) × IsPlaceOf key place × IsLineOf (pages_of self.now.tables place.file) key }
        ensures { (place : Spot) → IsPlaceOf key place → result ≡ class_in (pages_of self.now.tables place.file) key.page }
    {
        let Some(place) = place_of(key) else {
            unreachable!()
        };
        self.table(place.file).use_of(key.page).class
    }

    // The class of the page of each line that a session's transaction wrote.
    pub(crate) fn classes_of(&self, s: Session) -> Result<Vec<u16>, NoMemory>
        requires { IsMember s.number }
        ensures { IfOk result (λ classes. (m : Sits) → slice_get self.now.members s.number ≡ Some m → AreOfPages self.now.tables m.written.lines classes.items) }
    {
        self.sound();
        let lines = self.written(s).lines();
        let mut classes = Vec::new(self.alloc);
        for line in lines {
            classes.push(self.class_at(line.0))?;
        }
        Ok(classes)
    }

    // A session is prepared, with the class of each of its lines.
    pub(crate) fn set_prepared(&mut self, s: Session, classes: Vec<u16>)
        requires member { IsMember s.number }
        requires classes { (m : Sits) → slice_get self.old.members s.number ≡ Some m → AreOfPages self.old.tables m.written.lines classes.items }
        requires room { (m : Sits) → slice_get self.old.members s.number ≡ Some m → HasRoomFor self.old s.number m }
        ensures within { s.number < length self.old.members }
        ensures comes { (m : Sits) × (slice_get self.old.members s.number ≡ Some m)
            × (n : Sits) × IsPreparedWith classes.items m n × (self.new ≡ with_member s.number n self.old) }
    {
        let member = &mut self.members[s.number as usize];
        member.stage = MemberStage::Prepared;
        member.classes = classes;
    }
}
