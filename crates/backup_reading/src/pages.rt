// The pages of the lines.
ghost use Rattle.std.specs.Prelude.{◌≡◌, ◌⊎◌, IfSome, IfNone};
ghost use Rattle.backup_file.specs.Whole.{HasPage};
ghost use Rattle.backup_reading.specs.declared.pages.PageTurn.TheVariants.{New, Known};
ghost use Rattle.backup_reading.specs.Passing.{has, IsPageOf};

use backup_file::BackupLine;
use line_moves::place_of;
use rdb_page::lines_of;
use std::collections::BTreeSet;

/// A page of an area file.
#[derive(Clone, Copy, PartialEq, Eq, PartialOrd, Ord)]
pub struct FilePage {
    pub file: u32,
    pub page: u32,
}

/// The page on which a line stands, where a database of so many pages has one for it.
pub(crate) fn page_for(pages: u32, line: &BackupLine) -> Option<FilePage>
    ensures fits { IfSome result (λ page. HasPage pages line.now) }
    ensures found { IfSome result (λ page. IsPageOf line.now page) }
    ensures none { IfNone result (HasPage pages line.now → ⊥) }
{
    let Some(place) = place_of(line.key) else {
        return None;
    };
    if line.key.page > pages || line.key.line >= lines_of(line.class) {
        return None;
    }
    Some(FilePage {
        file: place.file,
        page: place.page,
    })
}

/// What came of adding a page.
#[derive(Clone, Copy)]
pub(crate) enum PageTurn {
    New,
    Known,
    NoMemory,
}

/// Adds a page, which is new or was known.
pub(crate) fn add_page(pages: &mut BTreeSet<FilePage>, page: FilePage) -> PageTurn
    ensures added { result ≡ New → has pages.new page }
    ensures kept { result ≡ New → (other : FilePage) → has pages.old other → has pages.new other }
    ensures only { result ≡ New → (other : FilePage) → has pages.new other
        → has pages.old other ⊎ (other ≡ page) }
    ensures fresh { result ≡ New → has pages.old page → ⊥ }
    ensures known { result ≡ Known → has pages.old page }
{
    match pages.insert(page) {
        Ok(true) => PageTurn::New,
        Ok(false) => PageTurn::Known,
        Err(_) => PageTurn::NoMemory,
    }
}
