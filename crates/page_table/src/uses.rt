// What is kept of one page.
ghost use Rattle.std.specs.Prelude.{◌≡◌, ◌≢◌, ◌<◌, ◌≤◌, ℕ, true, false, length, IfSome, IfNone};
ghost use Rattle.rdb_types.specs.declared.keys.Dbkey.{Dbkey as Key};
ghost use Rattle.rdb_page.specs.Page.{lines_of as lines_in};
ghost use Rattle.line_store.specs.Rooms.{IsBehind};
ghost use Rattle.page_table.specs.Pages.{empty_of, state_in, has_image, was_used, is_present as is_present_in};
ghost use Rattle.page_table.specs.Scans.{IsSought};
ghost use Rattle.page_table.specs.Lines.{FitsAt, IsFirstAt};

use rdb_page::lines_of;
use rdb_types::{Dbkey, LineState};

/// The logical area that owns a page, 0 being nobody; the class of its lines; and of each of them whether it has an image, or had one.
#[derive(Clone, Copy)]
pub struct PageUse {
    pub owner: u32,
    pub class: u16,
    pub lines: [LineState; 4],
}

/// Lines that are looked for: those that have an image, those that were ever used, or those without an image on pages of a class.
#[derive(Clone, Copy)]
pub enum Sought {
    Used,
    Ever,
    Free { class: u16 },
}

// Whether a line of this state has an image.
fn is_present(state: LineState) -> bool
    ensures { result ≡ is_present_in state }
{
    match state {
        LineState::Never => false,
        LineState::Present => true,
        LineState::Erased => false,
    }
}

/// Whether a line is behind another.
pub(crate) fn is_behind(from: Option<Dbkey>, key: Dbkey) -> bool
    ensures yes { result ≡ true → IsBehind from key }
    ensures no { result ≡ false → IsBehind from key → ⊥ }
{
    match from {
        Some(from) => from < key,
        None => true,
    }
}

impl PageUse {
    /// A page on which no line was ever used.
    pub fn empty(owner: u32, class: u16) -> PageUse
        ensures { result ≡ empty_of owner class }
    {
        PageUse {
            owner,
            class,
            lines: [LineState::Never; 4],
        }
    }

    // The state of a line; one that there is not was never used.
    fn state_of(&self, line: u16) -> LineState
        ensures { result ≡ state_in self.now line }
    {
        if line < 4 {
            self.lines[line as usize]
        } else {
            LineState::Never
        }
    }

    /// Whether a line has an image.
    pub fn has_image(&self, line: u16) -> bool
        ensures { result ≡ has_image self.now line }
    {
        is_present(self.state_of(line))
    }

    /// Whether a line was ever used.
    pub fn was_used(&self, line: u16) -> bool
        ensures { result ≡ was_used self.now line }
    {
        match self.state_of(line) {
            LineState::Never => false,
            LineState::Present => true,
            LineState::Erased => true,
        }
    }

    /// The same with another state of a line.
    pub fn with_line(self, line: u16, state: LineState) -> PageUse
        requires { line < 4 }
        ensures here { state_in result line ≡ state }
        ensures others { (other : ℕ) → other ≢ line
            → state_in result other ≡ state_in self other }
        ensures owner { result.owner ≡ self.owner }
        ensures class { result.class ≡ self.class }
    {
        let mut lines = self.lines;
        lines[line as usize] = state;
        PageUse {
            owner: self.owner,
            class: self.class,
            lines,
        }
    }

    fn is_sought(&self, sought: Sought, line: u16) -> bool
        ensures yes { result ≡ true → IsSought sought self.now line }
        ensures no { result ≡ false → IsSought sought self.now line → ⊥ }
    {
        match sought {
            Sought::Used => self.has_image(line),
            Sought::Ever => self.was_used(line),
            Sought::Free { class } => self.class == class && !self.has_image(line),
        }
    }

    // Whether a line of this page is behind another, and sought.
    fn fits_at(&self, page: u32, line: u16, sought: Sought, from: Option<Dbkey>) -> bool
        ensures yes { result ≡ true → FitsAt self.now page sought from line }
        ensures no { result ≡ false → FitsAt self.now page sought from line → ⊥ }
    {
        let key = Dbkey {
            area: self.owner,
            page,
            line,
        };
        is_behind(from, key) && self.is_sought(sought, line)
    }

    /// The first line of this page, behind another, that is sought.
    pub(crate) fn first_line(&self, page: u32, sought: Sought, from: Option<Dbkey>) -> Option<Dbkey>
        ensures found { IfSome result (IsFirstAt self.now page sought from) }
        ensures none { IfNone result ((line : ℕ) → line < lines_in self.now.class
            → FitsAt self.now page sought from line → ⊥) }
    {
        for line in 0..lines_of(self.class) {
            if self.fits_at(page, line, sought, from) {
                return Some(Dbkey {
                    area: self.owner,
                    page,
                    line,
                });
            }
        }
        None
    }
}
