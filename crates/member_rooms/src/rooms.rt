// What is found in the table beside a transaction's lines.
ghost use Rattle.std.specs.Prelude.{◌≡◌, ◌<◌, ◌≤◌, ◌-◌, ◌^◌, ℕ, List, None, Some, true, false, IfSome, IfNone};
ghost use Rattle.line_store.specs.Rooms.{first_line};
ghost use Rattle.line_versions.specs.Lines.{shown};
ghost use Rattle.committed_tables.specs.page_table.declared.uses.Sought.TheVariants.{Free};
ghost use Rattle.committed_tables.specs.page_table.Scans.{Fits, IsNew};
ghost use Rattle.member_rooms.specs.Rooms.{own_image, IsRoomBeside, HasNoPage};

use area_files::is_space_page;
use committed_tables::{PageTable, Sought};
use member_memory::MemberLines;
use rdb_types::{Dbkey, Line, LineState};

// Whether a line has an image.
fn is_present(line: &Line) -> bool
    ensures yes { result ≡ true → shown line.now ≡ Some line.now.image }
    ensures no { result ≡ false → shown line.now ≡ None }
{
    match line.state {
        LineState::Present => true,
        LineState::Never | LineState::Erased => false,
    }
}

// Whether the transaction wrote an image on a line.
fn has_image(own: &MemberLines, key: Dbkey) -> bool
    ensures yes { result ≡ true → (image : List ℕ) × (own_image own.now.lines key ≡ Some image) }
    ensures no { result ≡ false → own_image own.now.lines key ≡ None }
{
    match own.line(key) {
        Some(line) => is_present(line),
        None => false,
    }
}

// A line of the area's pages of a class, behind another, that has no image, and on which the transaction wrote none. It passes over each line that this wrote once.
fn free_line(
    table: &PageTable,
    own: &MemberLines,
    area: u32,
    class: u16,
    from: Option<Dbkey>,
) -> Option<Dbkey>
    ensures fits { IfSome result (Fits table.now (Free class) area from) }
    ensures free { IfSome result (λ key. own_image own.now.lines key ≡ None) }
{
    let mut behind = from;
    for _passed in 0..own.keys().len() + 1 {
        let Some(key) = table.next_line(Sought::Free { class }, area, behind) else {
            return None;
        };
        if !has_image(own, key) {
            return Some(key);
        }
        behind = Some(key);
    }
    None
}

/// Whether nobody owns a page, and it may hold lines.
pub fn is_new(table: &PageTable, page: u32) -> bool
    ensures yes { result ≡ true → IsNew table.now page }
    ensures no { result ≡ false → IsNew table.now page → ⊥ }
{
    page >= 1 && page <= table.count() && !is_space_page(page) && table.use_of(page).owner == 0
}

// The first line of a page behind another that nobody owns, on which the transaction wrote no image.
fn new_line_behind(table: &PageTable, own: &MemberLines, area: u32, behind: u32) -> Option<Dbkey>
    requires { behind < 2 ^ 32 - 1 }
    ensures page { IfSome result (λ key. IsNew table.now key.page) }
    ensures first { IfSome result (λ key. key ≡ first_line area key.page) }
    ensures free { IfSome result (λ key. own_image own.now.lines key ≡ None) }
    ensures none { IfNone result (behind ≡ 0 → HasNoPage table.now own.now.lines area) }
{
    for page in behind + 1..table.count() + 1 {
        let key = Dbkey {
            area,
            page,
            line: 0,
        };
        if is_new(table, page) && !has_image(own, key) {
            return Some(key);
        }
    }
    None
}

// The first line of a page that nobody owns, on which the transaction wrote no image: of the first such page behind another, else of the first of all. So whom one is of no use to is named another.
fn new_line(table: &PageTable, own: &MemberLines, area: u32, from: Option<Dbkey>) -> Option<Dbkey>
    ensures page { IfSome result (λ key. IsNew table.now key.page) }
    ensures first { IfSome result (λ key. key ≡ first_line area key.page) }
    ensures free { IfSome result (λ key. own_image own.now.lines key ≡ None) }
    ensures none { IfNone result (HasNoPage table.now own.now.lines area) }
{
    if let Some(from) = from
        && from.page < table.count()
    {
        if let Some(key) = new_line_behind(table, own, area, from.page) {
            return Some(key);
        }
    }
    new_line_behind(table, own, area, 0)
}

/// A line of an area's pages of a class without an image, behind another, on which the transaction wrote none; else the first line of a new page, of one behind that line where there is one. It looks at each page once for each line that the transaction wrote and that lies before the room.
pub fn next_room(
    table: &PageTable,
    own: &MemberLines,
    area: u32,
    class: u16,
    from: Option<Dbkey>,
) -> Option<Dbkey>
    ensures room { IfSome result (IsRoomBeside table.now own.now.lines area class from) }
    ensures full { IfNone result (HasNoPage table.now own.now.lines area) }
{
    if let Some(key) = free_line(table, own, area, class, from) {
        return Some(key);
    }
    new_line(table, own, area, from)
}
