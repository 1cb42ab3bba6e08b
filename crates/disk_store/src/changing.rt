// A statement's writes are laid over the lines of its transaction, in memory.
ghost use Rattle.std.specs.Prelude.{◌≡◌, ◌≤◌, ◌<◌, ◌+◌, ◌^◌, ℕ, [], true, false, drop, length, IfNone, IfOk, IfSome, IfErr, OnOk, OnErr};
ghost use Rattle.line_store.specs.Seats.{IsMember, IsWriting, changing, is_written, lines_added};
ghost use Rattle.line_store.specs.Shelves.{Shelf};
ghost use Rattle.line_store.specs.Calls.{Changes, MayStopChange};
ghost use Rattle.stable_lines.specs.Slots.{IsAreaFile};
ghost use Rattle.member_rooms.specs.page_table.Pages.{IsEverUsed};
ghost use Rattle.member_memory.specs.Memory.{writes_in};
ghost use Rattle.disk_store.specs.declared.member.Member.{Member as Sits};
ghost use Rattle.disk_store.specs.Changing.{AreFit, HasPlace, IsFreeFor, LaysOver, LaysWrites, Stops, StopsAt, all_of, one_for, size_of, stop_of, with_asides};
ghost use Rattle.disk_store.specs.Seats.{stand_at};
ghost use Rattle.disk_store.specs.Shown.{DoesOn, StaysOn, Shown, pages_of};
ghost use Rattle.disk_store.specs.Sound.{HasSlotsFor, IsUsedIn};

use crate::{Held, Member, MemberStage, Tables};
use area_files::storage_area;
use line_moves::place_of;
use line_store::ChangeStop;
use line_view::Write;
use member_memory::{AddStop, MemberLines};
use member_rooms::PageTable;
use rdb_outside::Disk;
use rdb_page::lines_of;
use rdb_types::{Dbkey, Image, Session, Tsn};
use reader_lines::{SnapshotSlots, Wanted};

fn image_size(image: &Option<Image>) -> usize
    ensures { result ≡ size_of image.now }
{
    match image {
        Some(image) => image.bytes().len(),
        None => 0,
    }
}

impl Tables {
    // The table of an area file.
    fn of_file(&self, file: u32) -> &PageTable
        requires { IsAreaFile file }
        ensures { result.now ≡ pages_of self.now file }
    {
        match file {
            1 => &self.catalog,
            2 => &self.relations,
            3 => &self.indexes,
            _ => unreachable!(),
        }
    }

    // Whether the line of a write lies on a page of its area whose class has room for its image.
    fn has_place(&self, write: &Write) -> bool
        ensures { result ≡ true → HasPlace self.now write.now }
    {
        let key = write.key;
        let Some(place) = place_of(key) else {
            return false;
        };
        let table = self.of_file(place.file);
        if key.page < 1 || key.page > table.count() {
            return false;
        }
        let used = table.use_of(key.page);
        if used.owner != key.area || key.line >= lines_of(used.class) {
            return false;
        }
        if used.class != 208 && used.class != 440 {
            return false;
        }
        image_size(&write.image) <= used.class as usize
    }

    // Whether a line of the file was ever used, so that it has to be pushed aside.
    pub(crate) fn was_used(&self, file: u32, key: Dbkey) -> bool
        requires { IsAreaFile file }
        ensures yes { result ≡ true → IsEverUsed (pages_of self.now file) key }
        ensures no { result ≡ false → IsEverUsed (pages_of self.now file) key → ⊥ }
    {
        self.of_file(file).was_used(key)
    }

    // The area file of a line that was ever used.
    fn used_in(&self, key: Dbkey) -> Option<u32>
        ensures used { IfSome result (λ file. IsUsedIn self.now file key) }
        ensures never { IfNone result ((file : ℕ) → IsUsedIn self.now file key → ⊥) }
    {
        let Some(file) = storage_area(key.area) else {
            return None;
        };
        if self.was_used(file, key) {
            return Some(file);
        }
        None
    }

    // How many of the lines have to be pushed aside, in each area file.
    fn wanted_of(&self, keys: &[Dbkey]) -> Wanted
        requires { length keys.now < 2 ^ 32 }
        ensures count { all_of result ≤ length keys.now }
        ensures enough { HasSlotsFor self.now result keys.now }
    {
        let mut wanted = Wanted {
            catalog: 0,
            relations: 0,
            indexes: 0,
        };
        for key in keys {
            let file = self.used_in(*key);
            wanted = with_one(wanted, file);
        }
        wanted
    }
}

// One slot of a file more, where there is one.
fn with_one(wanted: Wanted, file: Option<u32>) -> Wanted
    requires { all_of wanted + 1 < 2 ^ 32 }
    ensures { result ≡ one_for file wanted }
{
    let mut more = wanted;
    match file {
        Some(1) => more.catalog += 1,
        Some(2) => more.relations += 1,
        Some(_) => more.indexes += 1,
        None => {}
    }
    more
}

// Whether another session's transaction has written the line.
fn is_anothers(members: &[Member], s: Session, key: Dbkey) -> bool
    ensures { result ≡ false → IsFreeFor s.number members.now key }
{
    for place in 0..members.len() {
        if place != s.number as usize && members[place].written.line(key).is_some() {
            return true;
        }
    }
    false
}

// The first line of the writes that the session's transaction can't write.
fn first_unfit(tables: &Tables, members: &[Member], s: Session, writes: &[Write]) -> Option<Dbkey>
    ensures some { IfSome result (λ key. is_written key writes.now ≡ true) }
    ensures none { IfNone result (AreFit s.number tables.now members.now writes.now) }
{
    for write in writes {
        if !tables.has_place(write) || is_anothers(members, s, write.key) {
            return Some(write.key);
        }
    }
    None
}

// Why lines can't be added.
fn stopped(stop: AddStop, limit: u32) -> ChangeStop
    ensures { result ≡ stop_of stop limit }
{
    match stop {
        AddStop::Full => ChangeStop::RujFull(limit),
        AddStop::NoMemory => ChangeStop::NoMemory,
    }
}

// Lays the writes over the lines of a transaction, and sets aside the slots of the snapshot files that those want which are new. It tells how many.
fn lay_lines(
    tables: &Tables,
    slots: &mut SnapshotSlots,
    lines: &mut MemberLines,
    tsn: Tsn,
    limit: u32,
    writes: &[Write],
) -> Result<Wanted, ChangeStop>
    ensures laid { OnOk result (LaysOver tsn writes.now lines.old lines.new) }
    ensures enough { IfOk result (λ wanted. HasSlotsFor tables.now wanted (drop (length lines.old.keys) lines.new.keys)) }
    ensures aside { IfOk result (λ wanted. slots.new ≡ with_asides wanted slots.old) }
    ensures count { IfOk result (λ wanted. all_of wanted ≤ lines_added (writes_in lines.old.lines) writes.now) }
    ensures lines_stay { OnErr result (lines.new ≡ lines.old) }
    ensures slots_stay { OnErr result (slots.new ≡ slots.old) }
    ensures cause { IfErr result (λ stop. Stops lines.old writes.now slots.old limit stop) }
{
    let count = lines.keys().len();
    if let Err(stop) = lines.add(tsn, limit, writes) {
        return Err(stopped(stop, limit));
    }
    let wanted = tables.wanted_of(&lines.keys()[count..]);
    if let Err(full) = slots.set_aside(wanted) {
        lines.take_back(count);
        return Err(ChangeStop::SnapFull(full.limit));
    }
    lines.lay(writes);
    Ok(wanted)
}

impl Held {
    // The first line of the writes that the session's transaction can't write.
    fn unfit(&self, s: Session, writes: &[Write]) -> Option<Dbkey>
        ensures some { IfSome result (λ key. is_written key writes.now ≡ true) }
        ensures none { IfNone result (AreFit s.number self.now.tables self.now.members writes.now) }
    {
        first_unfit(&self.tables, self.members.as_slice(), s, writes)
    }

    // Lays the writes over the session's lines, and sets slots of the snapshot files aside for those that are new.
    fn lay_writes(&mut self, s: Session, writes: &[Write]) -> Result<(), ChangeStop>
        requires member { IsMember s.number }
        requires fit { AreFit s.number self.old.tables self.old.members writes.now }
        ensures laid { OnOk result (LaysWrites s.number writes.now self.old self.new) }
        ensures stays { OnErr result (self.new ≡ self.old) }
        ensures cause { IfErr result (λ stop. StopsAt s.number writes.now self.old stop) }
    {
        let limit = self.limits.entries;
        let member = &mut self.members[s.number as usize];
        let count = member.written.keys().len();
        let tsn = member.tsn;
        let wanted = lay_lines(
            &self.tables,
            &mut self.slots,
            &mut member.written,
            tsn,
            limit,
            writes,
        )?;
        member.pushed = count as u32;
        member.aside = wanted;
        member.named = false;
        member.stage = MemberStage::Changing;
        Ok(())
    }
}

/// Begins to lay a statement's writes over those of its session's transaction: in memory they are laid, and their before-images are still to be written. A line that another session's transaction has written is refused as one that has no place.
pub fn change<D: Disk>(
    _disk: &D,
    held: &mut Held,
    s: Session,
    writes: &[Write],
) -> Result<(), ChangeStop>
    requires member { IsMember s.number }
    requires seat { IsWriting (stand_at held.old.members s.number) }
    ensures ok { OnOk result (DoesOn s.number (changing []) (Changes s.number writes.now) (D.view _disk.now) held.old (D.view _disk.now) held.new) }
    ensures err { OnErr result (StaysOn s.number (D.view _disk.now) held.old (D.view _disk.now) held.new) }
    ensures cause { IfErr result (λ stop. (h : Shelf) → Shown (D.view _disk.now) held.old h → MayStopChange h s.number writes.now stop) }
    ensures tables { held.new.tables ≡ held.old.tables }
{
    held.sound();
    if let Some(key) = held.unfit(s, writes) {
        return Err(ChangeStop::Unfit(key));
    }
    if let Err(stop) = held.lay_writes(s, writes) {
        return Err(stop);
    }
    Ok(())
}
