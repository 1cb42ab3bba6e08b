// The table, and what is put into it.
ghost use Rattle.std.specs.Prelude.{◌≡◌, ◌≤◌, ◌<◌, ℕ, true, false, length, replicate, IfOk};
ghost use Rattle.page_table.specs.Pages.{nobodys, empty_of, use_of, owner_in, IsWithin, IsLineOf, IsUsedLine, IsEverUsed, Puts, PutsLine, HasNoneBehind};

use crate::uses::PageUse;
use rdb_page::lines_of;
use rdb_types::{Dbkey, LineState, NoMemory};
use std::alloc::Global;
use std::marker::Model;

/// What is kept of the pages of an area file up to their limit, twelve bytes a page. No call but `new` takes memory.
#[derive(Drop)]
pub struct PageTable {
    pub(crate) pages: Vec<PageUse>,
    // No page behind this one is owned, so no search for an area's lines goes on behind it.
    last_owned: u32,
}

impl Model for PageTable {
    ghost use Rattle.std.specs.Prelude.{◌≤◌, length};
    ghost use Rattle.page_table.specs.Pages.{Pages, AreNobodysBehind};

    ghost Value = { Pages };

    ghost view = { λ t. t.pages.items };

    ghost invariant = { λ t. (length t.pages.items ≤ 65536) × AreNobodysBehind t.pages.items t.last_owned };
}

impl PageTable {
    /// A table of so many pages, none of which is owned.
    pub fn new(alloc: Global, pages: u32) -> Result<PageTable, NoMemory>
        requires { pages ≤ 65536 }
        ensures { IfOk result (λ made. made ≡ replicate pages nobodys) }
    {
        let uses = vec![in alloc; PageUse::empty(0, 0); pages as usize]?;
        Ok(PageTable {
            pages: uses,
            last_owned: 0,
        })
    }

    /// How many pages there are.
    pub fn count(&self) -> u32
        ensures count { result ≡ length self.now }
        ensures limit { result ≤ 65536 }
    {
        self.pages.len() as u32
    }

    /// What is kept of a page.
    pub fn use_of(&self, page: u32) -> PageUse
        requires { IsWithin self.now page }
        ensures { result ≡ use_of self.now page }
    {
        self.pages[page as usize - 1]
    }

    /// Keeps this of a page.
    pub fn put(&mut self, page: u32, used: PageUse)
        requires { IsWithin self.old page }
        ensures { Puts page used self.old self.new }
    {
        self.pages[page as usize - 1] = used;
        if used.owner != 0 && self.last_owned < page {
            self.last_owned = page;
        }
    }

    // The last page that may be an area's.
    pub(crate) fn last_of(&self, area: u32) -> u32
        ensures within { result ≤ length self.now }
        ensures limit { result ≤ 65536 }
        ensures none { HasNoneBehind self.now area result }
    {
        match area {
            0 => self.count(),
            _ => self.last_owned,
        }
    }

    /// Takes a page that nobody owns for a logical area and a class.
    pub fn take_page(&mut self, page: u32, area: u32, class: u16)
        requires within { IsWithin self.old page }
        requires free { owner_in self.old page ≡ 0 }
        ensures { Puts page (empty_of area class) self.old self.new }
    {
        self.put(page, PageUse::empty(area, class));
    }

    /// Keeps that a line has an image, or has none any more.
    pub fn put_line(&mut self, key: Dbkey, is_present: bool)
        requires { IsLineOf self.old key }
        ensures { PutsLine key is_present self.old self.new }
    {
        let used = self.use_of(key.page);
        let state = if is_present {
            LineState::Present
        } else {
            LineState::Erased
        };
        self.put(key.page, used.with_line(key.line, state));
    }

    /// Whether a line has an image.
    pub fn has_line(&self, key: Dbkey) -> bool
        ensures yes { result ≡ true → IsUsedLine self.now key }
        ensures no { result ≡ false → IsUsedLine self.now key → ⊥ }
    {
        if key.page < 1 || key.page > self.count() {
            return false;
        }
        let used = self.use_of(key.page);
        used.owner == key.area && key.line < lines_of(used.class) && used.has_image(key.line)
    }

    /// Whether a line was ever used.
    pub fn was_used(&self, key: Dbkey) -> bool
        ensures yes { result ≡ true → IsEverUsed self.now key }
        ensures no { result ≡ false → IsEverUsed self.now key → ⊥ }
    {
        if key.page < 1 || key.page > self.count() {
            return false;
        }
        let used = self.use_of(key.page);
        used.owner == key.area && key.line < lines_of(used.class) && used.was_used(key.line)
    }
}
