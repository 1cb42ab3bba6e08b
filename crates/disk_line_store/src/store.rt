// A store of lines on a disk, as sessions ask for it.
ghost use Rattle.std.specs.Prelude.{◌≡◌, ◌<◌, ◌^◌, ℕ, None};
ghost use Rattle.line_view.specs.Knowledge.{Lines};
ghost use Rattle.line_store.specs.Seats.{outside};
ghost use Rattle.line_store.specs.Shelves.{Shelf};
ghost use Rattle.store_shows.specs.Shows.{Leaves};
ghost use Rattle.change_steps.specs.disk_store.Seats.{stand_at, steps_at};
ghost use Rattle.change_steps.specs.disk_store.Shown.{Shown};
ghost use Rattle.store_copies.specs.Shown.{AllStand, AreReaders};
ghost use Rattle.disk_line_store.specs.Back.{IsBack};

use crate::stepping::step;
use area_files::AreaFull;
use change_steps::{
    Held, begin, begin_reading, change, commit, give_back, learn_area, learn_line, prepare, room,
    steps_are_few, take_room,
};
use commit_steps::is_at_barrier;
use line_store::{ChangeStop, CommitStop, Fault, LineStore, Progress, ReadStop, Stepped};
use line_view::{Known, Write};
use rdb_outside::Disk;
use rdb_types::{Dbkey, Moment, NoMemory, Session};
use recovery_steps::{die, end_reading, roll_back};
use std::marker::PhantomData;
use store_copies::{Copies, FormerDisk, begin_copy, copy_step};

/// A store of lines on a disk, opened over the disk that its type names: the disk, and what is kept in memory beside it, of the database and of the backups that sessions copy. What is left to do for a session is a number that a loop can count to, and who copies reads.
#[derive(Drop)]
pub struct DiskStore<O: FormerDisk, D: Disk + Drop> {
    disk: D,
    held: Held,
    copies: Copies,
    of: PhantomData<O>,
    ghost few: { (s : ℕ) → steps_at held.members s < 2 ^ 64 },
    ghost readers: { AreReaders held copies },
}

impl<O: FormerDisk, D: Disk + Drop> DiskStore<O, D> {
    /// The store of an opened database, in which no session has a transaction.
    pub fn new(disk: D, held: Held) -> DiskStore<O, D>
        requires { (s : ℕ) → stand_at held.members s ≡ outside }
        ensures outside { (s : ℕ) → (⟦<DiskStore<O, D> as LineStore>⟧.sight result).stand s ≡ outside }

        // It shows what the disk and the memory do, where each backup stands that stood in the former disk, and a crash leaves what one of the disk may leave.
        ensures shows { (h : Shelf) (shown : Shown (D.view disk) held h) → AllStand O.former (D.view disk) shown.ledger.base → (⟦<DiskStore<O, D> as LineStore>⟧.sight result).shows h }
        ensures plain { (h : Shelf) → (⟦<DiskStore<O, D> as LineStore>⟧.sight result).shows h → Shown (D.view disk) held h }
        ensures nobody { (n : ℕ) → (⟦<DiskStore<O, D> as LineStore>⟧.sight result).copier n ≡ None }
        ensures left { (t : ℕ) (lines : Lines) → (⟦<DiskStore<O, D> as LineStore>⟧.sight result).left t lines → Leaves (D.view disk) t lines }
    {
        let copies = Copies::new();
        DiskStore {
            disk,
            held,
            copies,
            of: PhantomData,
        }
    }

    /// The disk, of which all calls are the store's.
    pub fn disk(&self) -> &D {
        &self.disk
    }

    /// The store ends, and its disk is free. What the store showed, it showed of this disk.
    pub fn into_disk(self) -> D
        ensures { IsBack O.former (⟦<DiskStore<O, D> as LineStore>⟧.sight self) (D.view result) }
    {
        self.disk
    }
}

impl<O: FormerDisk, D: Disk + Drop> LineStore for DiskStore<O, D> {
    ghost use Rattle.store_copies.specs.Shown.{copied_sight};
    ghost use Rattle.store_copies.proofs.Sighted.{agreeing-with, counting-with, opening-with, standing-with};

    ghost sight = { λ store. copied_sight O.former (D.view store.disk) store.held store.copies };

    ghost agrees = { λ store. agreeing-with O.former (D.view store.disk) store.held store.copies };

    ghost counts = { λ store. counting-with O.former (D.view store.disk) store.held store.copies store.few };

    ghost stands = { λ store. standing-with O.former (D.view store.disk) store.held store.copies };

    ghost opens = { λ store. opening-with O.former (D.view store.disk) store.held store.copies };

    fn begin(&mut self, s: Session) {
        let held = &mut self.held;
        begin(&self.disk, held, s);
        steps_are_few(held, s);
    }

    fn begin_reading(&mut self, s: Session) -> Result<(), NoMemory> {
        let held = &mut self.held;
        let begun = begin_reading(&self.disk, held, s);
        steps_are_few(held, s);
        begun
    }

    fn begin_copy(&mut self, s: Session, number: u32) -> Result<(), NoMemory> {
        let held = &mut self.held;
        let begun = begin_copy::<O, D>(&self.disk, held, &mut self.copies, s, number);
        steps_are_few(held, s);
        begun
    }

    fn end_reading(&mut self, s: Session) {
        let held = &mut self.held;
        end_reading(&self.disk, held, s);
        steps_are_few(held, s);
    }

    fn learn_line(
        &mut self,
        s: Session,
        key: Dbkey,
        known: &mut Known,
    ) -> Result<Progress, ReadStop> {
        learn_line(&mut self.disk, &self.held, s, key, known)
    }

    fn learn_area(
        &mut self,
        s: Session,
        area: u32,
        known: &mut Known,
    ) -> Result<Progress, ReadStop> {
        learn_area(&mut self.disk, &self.held, s, area, known)
    }

    fn room(
        &self,
        s: Session,
        area: u32,
        class: u16,
        from: Option<Dbkey>,
    ) -> Result<Dbkey, AreaFull> {
        room(&self.disk, &self.held, s, area, class, from)
    }

    fn take_room(&mut self, s: Session, key: Dbkey, class: u16) -> Result<bool, NoMemory> {
        take_room(&self.disk, &mut self.held, s, key, class)
    }

    fn change(&mut self, s: Session, writes: &[Write]) -> Result<(), ChangeStop> {
        let held = &mut self.held;
        let changed = change(&self.disk, held, s, writes);
        steps_are_few(held, s);
        changed
    }

    fn prepare(&mut self, s: Session) -> Result<(), CommitStop> {
        let held = &mut self.held;
        let prepared = prepare(&self.disk, held, s);
        steps_are_few(held, s);
        prepared
    }

    fn give_back(&mut self, s: Session) {
        let held = &mut self.held;
        give_back(&self.disk, held, s);
        steps_are_few(held, s);
    }

    fn commit(&mut self, s: Session) {
        let held = &mut self.held;
        commit(&self.disk, held, s);
        steps_are_few(held, s);
    }

    fn roll_back(&mut self, s: Session) {
        let held = &mut self.held;
        roll_back(&self.disk, held, s);
        steps_are_few(held, s);
    }

    fn die(&mut self, s: Session) {
        let held = &mut self.held;
        die(&self.disk, held, s);
        self.copies.leave(s);
        steps_are_few(held, s);
    }

    fn step(&mut self, s: Session) -> Result<Stepped, Fault> {
        if self.copies.of(s).is_some() {
            return copy_step::<O, D>(&mut self.disk, &self.held, &mut self.copies, s);
        }
        let held = &mut self.held;
        let stepped = step(&mut self.disk, held, s);
        steps_are_few(held, s);
        stepped
    }

    fn is_at_barrier(&self, s: Session) -> bool {
        is_at_barrier(&self.held, s)
    }

    fn moment(&self) -> Moment {
        self.disk.moment()
    }
}
