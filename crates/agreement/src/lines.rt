// The lines of a database in memory.
use line_view::{Known, PresentLine, Seen, View};
use rdb_types::{Copied, Dbkey, Image, NoMemory};
use std::alloc::Global;

/// A page has so many lines here.
const LINES: u16 = 4;

/// The first page of an area with lines.
const FIRST_PAGE: u32 = 2;

/// No area has more pages here.
const PAGES: u32 = 1_000_000;

fn image_of(seen: Seen<'_>) -> Option<Image> {
    match seen {
        Seen::Present(bytes) if bytes.len() <= 440 => Some(Image::from_bytes(bytes)),
        _ => None,
    }
}

/// The lines of a database: all of them are known. An area of which nothing was said is empty.
pub struct Lines {
    known: Known,
}

// By hand, so that it is one call wherever they are let go.
impl Drop for Lines {
    fn drop(self) {
        let Lines { known: _known } = self;
    }
}

impl Lines {
    pub fn new(alloc: Global) -> Lines {
        Lines {
            known: Known::new(alloc),
        }
    }

    /// A copy of them all.
    pub fn copied(&self, alloc: Global) -> Result<Lines, NoMemory> {
        let known = self.known.copied(alloc)?;
        Ok(Lines { known })
    }

    /// A view of them, in which areas are known that were written or begun.
    pub fn view(&self) -> &Known {
        &self.known
    }

    /// Knows an area in the view.
    pub fn begin_area(&mut self, alloc: Global, area: u32) -> Result<(), NoMemory> {
        if self.known.area(area).is_some() {
            return Ok(());
        }
        self.known.learn_area(alloc, area, &[])
    }

    /// Lays a write over them.
    pub fn lay(&mut self, alloc: Global, key: Dbkey, image: Option<Image>) -> Result<(), NoMemory> {
        self.begin_area(alloc, key.area)?;
        self.known.put(alloc, key, image)
    }

    /// The image of a line, where it is present.
    pub fn line(&self, key: Dbkey) -> Option<Image> {
        image_of(self.known.line(key))
    }

    /// The present lines of an area, in the order of their Dbkeys.
    pub fn lines_of(&self, alloc: Global, area: u32) -> Result<Vec<PresentLine>, NoMemory> {
        let mut lines = Vec::new(alloc);
        if let Some(keys) = self.known.area(area) {
            for key in keys {
                if let Some(image) = self.line(*key) {
                    lines.push(PresentLine { key: *key, image })?;
                }
            }
        }
        Ok(lines)
    }

    // The first line of a page that isn't present.
    fn absent_line_of(&self, area: u32, page: u32) -> Option<Dbkey> {
        for line in 0..LINES {
            let key = Dbkey { area, page, line };
            if !matches!(self.known.line(key), Seen::Present(_)) {
                return Some(key);
            }
        }
        None
    }

    /// The first line of an area that isn't present, on a page behind this one. None where all pages are full.
    pub fn absent_line(&self, area: u32, behind: u32) -> Option<Dbkey> {
        for page in FIRST_PAGE.max(behind.saturating_add(1))..PAGES {
            let key = self.absent_line_of(area, page);
            if key.is_some() {
                return key;
            }
        }
        None
    }
}
