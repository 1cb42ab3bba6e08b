// Rooms.
ghost use Rattle.std.specs.Prelude.{◌≡◌, ◌⊎◌, ℕ, true, false, Ok, Some, slice_get, IfOk, IfErr};
ghost use Rattle.rdb_page.specs.Page.{IsOwner, IsClass};
ghost use Rattle.line_store.specs.Seats.{IsMember, IsWriting};
ghost use Rattle.line_store.specs.Shelves.{Shelf};
ghost use Rattle.line_store.specs.Rooms.{IsRoom, IsFull, IsTaken, Takes};
ghost use Rattle.member_rooms.specs.page_table.Scans.{IsNew};
ghost use Rattle.stable_lines.specs.Slots.{IsAreaFile};
ghost use Rattle.member_rooms.specs.Classes.{IsClassOf, HasNoOwned};
ghost use Rattle.disk_store.specs.declared.member.Member.{Member as Sits};
ghost use Rattle.disk_store.specs.declared.held.Tables.{Tables as Kept};
ghost use Rattle.disk_store.specs.Grown.{Grow};
ghost use Rattle.disk_store.specs.Memory.{with_tables};
ghost use Rattle.disk_store.specs.Seats.{stand_at};
ghost use Rattle.disk_store.specs.Shown.{DoesOn, StaysOn, pages_of, Shown};
ghost use Rattle.disk_store.specs.Taken.{TakesIn};

use crate::Held;
use area_files::{AreaFull, storage_area};
use member_memory::MemberLines;
use member_rooms::{PageTable, class_of, is_new, next_room};
use rdb_outside::Disk;
use rdb_types::{Dbkey, NoMemory, Session};

impl Held {
    // The table of an area file.
    pub(crate) fn table(&self, file: u32) -> &PageTable
        requires { IsAreaFile file }
        ensures { result.now ≡ pages_of self.now.tables file }
    {
        match file {
            1 => &self.tables.catalog,
            2 => &self.tables.relations,
            3 => &self.tables.indexes,
            _ => unreachable!(),
        }
    }

    // Takes a page that nobody owns for an area and a class.
    fn take_page(&mut self, file: u32, page: u32, area: u32, class: u16)
        requires file { IsAreaFile file }
        requires new { IsNew (pages_of self.old.tables file) page }
        ensures { (kept : Kept) × (self.new ≡ with_tables kept self.old)
            × TakesIn file page area class self.old.tables kept }
    {
        match file {
            1 => self.tables.catalog.take_page(page, area, class),
            2 => self.tables.relations.take_page(page, area, class),
            3 => self.tables.indexes.take_page(page, area, class),
            _ => unreachable!(),
        }
    }

    // Whether a page is an area's, of a class.
    fn has_page(&self, file: u32, key: Dbkey, class: u16) -> bool
        requires { IsAreaFile file }
    {
        let table = self.table(file);
        if key.page < 1 || key.page > table.count() {
            return false;
        }
        let used = table.use_of(key.page);
        used.owner == key.area && used.class == class
    }

    // What a session's transaction wrote.
    pub(crate) fn written(&self, s: Session) -> &MemberLines
        requires { IsMember s.number }
        ensures { (m : Sits) × (slice_get self.now.members s.number ≡ Some m) × (result.now ≡ m.written) }
    {
        &self.members[s.number as usize].written
    }
}

// The class that an area has, or this one where it has no page yet.
fn class_for(table: &PageTable, area: u32, class: u16) -> u16
    ensures { IsClassOf table.now area result ⊎ HasNoOwned table.now area }
{
    match class_of(table, area) {
        Some(its) => its,
        None => class,
    }
}

/// A line on which a session's transaction may put a new one of this class: one behind `from` of a page that is taken, else the first of a new page.
pub fn room<D: Disk>(
    _disk: &D,
    held: &Held,
    s: Session,
    area: u32,
    class: u16,
    from: Option<Dbkey>,
) -> Result<Dbkey, AreaFull>
    requires member { IsMember s.number }
    requires writing { IsWriting (stand_at held.now.members s.number) }
    requires area { (file : ℕ) × IsOwner file area }
    requires class { IsClass class }
    ensures area { IfOk result (λ key. key.area ≡ area) }
    ensures found { IfOk result (λ key. (h : Shelf) → Shown (D.view _disk.now) held.now h → IsRoom h s.number area from key) }
    ensures full { IfErr result (λ full. (h : Shelf) → Shown (D.view _disk.now) held.now h → IsFull h s.number area full.limit) }
{
    let Some(file) = storage_area(area) else {
        unreachable!()
    };
    let own = held.written(s);
    // (so they are in the order of their keys)
    let _lines = own.lines();
    match next_room(held.table(file), own, area, class, from) {
        Some(key) => Ok(key),
        None => Err(AreaFull {
            limit: held.limits.pages,
        }),
    }
}

/// Takes the page of a room for the room's logical area, of the class that this has, or of the one that is asked where it has no page yet. Where the page was taken otherwise before, it answers that this is no room, and nothing changes.
pub fn take_room<D: Disk>(
    _disk: &D,
    held: &mut Held,
    _s: Session,
    key: Dbkey,
    class: u16,
) -> Result<bool, NoMemory>
    requires area { (file : ℕ) × IsOwner file key.area }
    requires class { IsClass class }
    ensures taken { result ≡ Ok true → DoesOn _s.number (stand_at held.old.members _s.number) (Takes key) (D.view _disk.now) held.old (D.view _disk.now) held.new }
    ensures refused { (result ≡ Ok true → ⊥) → StaysOn _s.number (D.view _disk.now) held.old (D.view _disk.now) held.new }
    ensures other { result ≡ Ok false → (h : Shelf) → Shown (D.view _disk.now) held.old h → IsTaken key h.space }

    // No session is another than it was, whoever takes the page.
    ensures members { held.new.members ≡ held.old.members }

    // Pages of areas stay theirs, of their classes.
    ensures grows { Grow held.old.tables held.new.tables }
{
    let Some(file) = storage_area(key.area) else {
        unreachable!()
    };
    if !is_new(held.table(file), key.page) {
        return Ok(held.has_page(file, key, class));
    }
    let its = class_for(held.table(file), key.area, class);
    held.take_page(file, key.page, key.area, its);
    Ok(true)
}
