// Pages, and the rooms on them.
ghost use Rattle.std.specs.Prelude.{◌≡◌, ◌≤◌, true, false, OnOk, OnErr, None, IfSome, IfNone};
ghost use Rattle.line_view.specs.Knowledge.{line_in};
ghost use Rattle.line_store.specs.Seats.{IsMember};
ghost use Rattle.line_store.specs.Shelves.{seen_by};
ghost use Rattle.line_store.specs.Rooms.{IsBehind};
ghost use Rattle.memory_store.specs.Kept.{shelf_of, is_taken, with_page, IsFree, IsNew, IsUsed, AreUsed};

use crate::MemoryStore;
use crate::store::PageUse;
use area_files::is_space_page;
use rdb_page::lines_of;
use rdb_types::{Dbkey, NoMemory, Session};

fn is_behind(from: Option<Dbkey>, key: Dbkey) -> bool
    ensures { result ≡ true → IsBehind from key }
{
    match from {
        Some(from) => from < key,
        None => true,
    }
}

impl MemoryStore {
    /// Whether a page is taken.
    pub(crate) fn is_taken(&self, file: u32, page: u32) -> bool
        ensures { result ≡ is_taken self.now.pages file page }
    {
        self.pages
            .iter()
            .any(|used| used.file == file && used.page == page)
    }

    /// Whether the page of a line is of its area and this class.
    pub(crate) fn has_page(&self, file: u32, key: Dbkey, class: u16) -> bool {
        self.pages.iter().any(|used| {
            used.file == file
                && used.page == key.page
                && used.area == key.area
                && used.class == class
        })
    }

    pub(crate) fn take_page(&mut self, page: PageUse) -> Result<(), NoMemory>
        ensures ok { OnOk result (self.new ≡ with_page page self.old) }
        ensures err { OnErr result (self.new ≡ self.old) }
    {
        self.pages.push(page)?;
        Ok(())
    }

    // The least free line of a page behind another line.
    fn free_line(&self, s: Session, page: &PageUse, from: Option<Dbkey>) -> Option<Dbkey>
        requires { IsMember s.number }
        ensures { IfSome result (λ key. IsFree self.now s.number page.now from key) }
    {
        for line in 0..lines_of(page.class) {
            let key = Dbkey {
                area: page.area,
                page: page.page,
                line,
            };
            if is_behind(from, key) && self.line_seen(s, key).is_none() {
                return Some(key);
            }
        }
        None
    }

    /// The first free line of the area and class behind another line, of a page that is taken.
    pub(crate) fn next_room(
        &self,
        s: Session,
        file: u32,
        area: u32,
        class: u16,
        from: Option<Dbkey>,
    ) -> Option<Dbkey>
        requires { IsMember s.number }
        ensures area { IfSome result (λ key. key.area ≡ area) }
        ensures taken { IfSome result (λ key. is_taken self.now.pages file key.page ≡ true) }
        ensures behind { IfSome result (λ key. IsBehind from key) }
        ensures free { IfSome result (λ key. line_in key (seen_by s.number (shelf_of self.now)) ≡ None) }
    {
        for page in &self.pages {
            if page.file == file && page.area == area && page.class == class {
                if let Some(key) = self.free_line(s, page, from) {
                    return Some(key);
                }
            }
        }
        None
    }

    // Whether a page isn't taken, has no line and may hold lines.
    fn is_new(&self, s: Session, file: u32, area: u32, page: u32) -> bool
        requires member { IsMember s.number }
        requires first { 1 ≤ page }
        ensures yes { result ≡ true → IsNew self.now s.number file area page }
        ensures no { result ≡ false → IsUsed self.now s.number file area page }
    {
        if is_space_page(page) || self.is_taken(file, page) {
            return false;
        }
        let first = Dbkey {
            area,
            page,
            line: 0,
        };
        self.line_seen(s, first).is_none()
    }

    // The first page behind another that isn't taken, has no line and may hold lines.
    fn new_page_behind(&self, s: Session, file: u32, area: u32, behind: u32) -> Option<u32>
        requires { IsMember s.number }
        ensures found { IfSome result (λ page. IsNew self.now s.number file area page) }
        ensures within { IfSome result (λ page. (1 ≤ page) × (page ≤ self.now.limits.pages)) }
        ensures none { IfNone result (behind ≡ 0 → AreUsed self.now s.number file area self.now.limits.pages) }
    {
        for before in behind..self.limits.pages {
            let page = before + 1;
            if self.is_new(s, file, area, page) {
                return Some(page);
            }
        }
        None
    }

    /// A page that isn't taken, has no line and may hold lines: the first behind another, else the first of all. So whom the first line of one is of no use to is named another.
    pub(crate) fn new_page(&self, s: Session, file: u32, area: u32, behind: u32) -> Option<u32>
        requires { IsMember s.number }
        ensures found { IfSome result (λ page. IsNew self.now s.number file area page) }
        ensures within { IfSome result (λ page. (1 ≤ page) × (page ≤ self.now.limits.pages)) }
        ensures none { IfNone result (AreUsed self.now s.number file area self.now.limits.pages) }
    {
        match self.new_page_behind(s, file, area, behind) {
            Some(page) => Some(page),
            None => self.new_page_behind(s, file, area, 0),
        }
    }
}
