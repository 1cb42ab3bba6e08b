// What is found in the table.
ghost use Rattle.std.specs.Prelude.{◌≡◌, ◌≤◌, ◌<◌, ℕ, true, false, IfSome, IfNone};
ghost use Rattle.rdb_types.specs.declared.keys.Dbkey.{Dbkey as Key};
ghost use Rattle.line_store.specs.Rooms.{IsBehind};
ghost use Rattle.page_table.specs.declared.uses.Sought.TheVariants.{Used, Ever, Free};
ghost use Rattle.page_table.specs.Pages.{IsWithin};
ghost use Rattle.page_table.specs.Lines.{IsFirstOn};
ghost use Rattle.page_table.specs.Scans.{Fits, IsFirst, HasNone, IsNew, IsFirstNew, HasNoNew, IsNextRoom, HasNoRoom};

use crate::table::PageTable;
use crate::uses::Sought;
use area_files::is_space_page;
use rdb_types::Dbkey;

// A page before which no line of the area is behind another.
fn first_page(area: u32, from: Option<Dbkey>) -> u32
    ensures first { 1 ≤ result }
    ensures none { (key : Key) → key.area ≡ area → 1 ≤ key.page → IsBehind from key
        → result ≤ key.page }
{
    let Some(from) = from else {
        return 1;
    };
    if from.area == area && 1 < from.page {
        from.page
    } else {
        1
    }
}

impl PageTable {
    // The first line of a page that is sought, where the page is the area's.
    fn line_on(&self, page: u32, sought: Sought, area: u32, from: Option<Dbkey>) -> Option<Dbkey>
        requires { IsWithin self.now page }
        ensures found { IfSome result (IsFirstOn self.now page sought area from) }
        ensures none { IfNone result ((other : Key) → Fits self.now sought area from other
            → other.page ≡ page → ⊥) }
    {
        let used = self.use_of(page);
        if used.owner == area {
            used.first_line(page, sought, from)
        } else {
            None
        }
    }

    /// The first line of a logical area, behind another, that is sought. It looks at the pages from that line's on, once each, up to the last one that anybody owns.
    pub fn next_line(&self, sought: Sought, area: u32, from: Option<Dbkey>) -> Option<Dbkey>
        ensures found { IfSome result (IsFirst self.now sought area from) }
        ensures none { IfNone result (HasNone self.now sought area from) }
    {
        for page in first_page(area, from)..self.last_of(area) + 1 {
            if let Some(key) = self.line_on(page, sought, area, from) {
                return Some(key);
            }
        }
        None
    }

    /// The next line of a logical area that has an image.
    pub fn next_used(&self, area: u32, from: Option<Dbkey>) -> Option<Dbkey>
        ensures found { IfSome result (IsFirst self.now Used area from) }
        ensures none { IfNone result (HasNone self.now Used area from) }
    {
        self.next_line(Sought::Used, area, from)
    }

    /// The next line of a logical area that was ever used.
    pub fn next_ever(&self, area: u32, from: Option<Dbkey>) -> Option<Dbkey>
        ensures found { IfSome result (IsFirst self.now Ever area from) }
        ensures none { IfNone result (HasNone self.now Ever area from) }
    {
        self.next_line(Sought::Ever, area, from)
    }

    // Whether nobody owns a page, and it may hold lines.
    fn is_new(&self, page: u32) -> bool
        requires { IsWithin self.now page }
        ensures yes { result ≡ true → IsNew self.now page }
        ensures no { result ≡ false → IsNew self.now page → ⊥ }
    {
        !is_space_page(page) && self.use_of(page).owner == 0
    }

    /// The first page that nobody owns and that may hold lines.
    pub fn new_page(&self) -> Option<u32>
        ensures found { IfSome result (IsFirstNew self.now) }
        ensures none { IfNone result (HasNoNew self.now) }
    {
        for page in 1..self.count() + 1 {
            if self.is_new(page) {
                return Some(page);
            }
        }
        None
    }

    /// The next line of a logical area's pages of a class that has no image; where there is none, the first one of a new page.
    pub fn next_room(&self, area: u32, class: u16, from: Option<Dbkey>) -> Option<Dbkey>
        ensures found { IfSome result (IsNextRoom self.now area class from) }
        ensures none { IfNone result (HasNoRoom self.now area class from) }
    {
        let sought = Sought::Free { class };
        if let Some(key) = self.next_line(sought, area, from) {
            return Some(key);
        }
        let Some(page) = self.new_page() else {
            return None;
        };
        Some(Dbkey {
            area,
            page,
            line: 0,
        })
    }
}
