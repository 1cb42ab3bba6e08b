//! The files of the storage areas: which pages they have, what each page is for, and how a file grows.
#![tactic(auto)]

ghost use Rattle.std.specs.Prelude.{◌≡◌, ◌≤◌, ◌<◌, ◌-◌, ◌↔◌, ℕ, Err, IfOk, OnErr, IfSome, IfNone, IsTrue};
ghost use Rattle.rdb_page.specs.Page.{IsOwner};
ghost use Rattle.area_files.specs.Areas.{IsPage, IsDataPage, IsSpacePage, IsNextPage, space_page_of as space_of, entry_of};

use rdb_page::Limits;
pub use rdb_page::{
    BadPage, Head, has_bytes, has_zeros, is_allowed_line, is_zeros, lines_of, put_bytes, put_head,
    put_line, put_u8, put_u32, put_zeros, read_head, read_line, u8_at, u32_at,
};

/// Where the entry of a page stands: the number of its space page, and the entry's place among those there, counted from 0.
#[derive(Clone, Copy, Debug, PartialEq, Eq)]
pub struct SpaceEntry {
    pub space_page: u32,
    pub index: u32,
}

/// A storage area has as many pages as it may, and none is left for lines.
#[derive(Clone, Copy, Debug, PartialEq, Eq)]
pub struct AreaFull {
    pub limit: u32,
}

/// The slot of a page in its file. Pages count from 1.
pub fn slot_of(page: u32) -> u32
    requires { 1 ≤ page }
    ensures { result ≡ page - 1 }
{
    page - 1
}

/// Whether a page is a space-management page: page 1, and each page 200 behind one.
pub fn is_space_page(page: u32) -> bool
    requires { 1 ≤ page }
    ensures { IsTrue result ↔ IsSpacePage page }
{
    (page - 1) % 200 == 0
}

/// The space-management page that speaks of a page. A space page is its own.
pub fn space_page_of(page: u32) -> u32
    requires { IsPage page }
    ensures { result ≡ space_of page }
{
    page - (page - 1) % 200
}

/// Where the entry of a data page stands.
pub fn space_entry_of(page: u32) -> SpaceEntry
    requires { IsDataPage page }
    ensures { result ≡ entry_of page }
{
    SpaceEntry {
        space_page: space_page_of(page),
        index: (page - 1) % 200 - 1,
    }
}

/// The area file in which a logical area lies: 1 that of the catalog, 2 those of relations, 3 those of indexes. None is answered for a number that no logical area has.
pub fn storage_area(owner: u32) -> Option<u32>
    ensures found { IfSome result (λ file. IsOwner file owner) }
    ensures none { IfNone result ((file : ℕ) → IsOwner file owner → ⊥) }
{
    if owner == 1 {
        Some(1)
    } else if owner < 16 {
        None
    } else if owner % 2 == 0 {
        Some(2)
    } else {
        Some(3)
    }
}

/// The next data page of a file whose pages up to `used` are in use.
pub fn grow(limits: &Limits, used: u32) -> Result<u32, AreaFull>
    ensures next { IfOk result (λ page. IsNextPage limits.now.pages used page) }

    // It is refused only where no data page is left.
    ensures full { OnErr result ((page : ℕ) → used < page → page ≤ limits.now.pages → IsSpacePage page) }
    ensures limit { OnErr result (result ≡ Err (record { limit = limits.now.pages })) }
{
    let limit = limits.pages;
    if used >= limit {
        return Err(AreaFull { limit });
    }
    let next = used + 1;
    if !is_space_page(next) {
        Ok(next)
    } else if next < limit {
        Ok(next + 1)
    } else {
        Err(AreaFull { limit })
    }
}

#[cfg(test)]
mod tests {
    use super::*;

    fn limits(pages: u32) -> Limits {
        Limits {
            pages,
            snaps: 1,
            entries: 1,
            slots: 2,
        }
    }

    #[test]
    fn pages_stand_where_they_should(rt: HostRuntime) {
        assert_eq!(rt; slot_of(65_536), 65_535);
        assert!(rt; is_space_page(1) && is_space_page(201) && is_space_page(65_401));
        assert!(rt; !is_space_page(2) && !is_space_page(200) && !is_space_page(65_536));
        assert_eq!(rt; space_page_of(200), 1);
        assert_eq!(rt; space_page_of(201), 201);
        let last = space_entry_of(65_536);
        assert_eq!(rt; last.space_page, 65_401);
        assert_eq!(rt; last.index, 134);
        assert_eq!(rt; storage_area(1), Some(1));
        assert_eq!(rt; storage_area(15), None);
        assert_eq!(rt; storage_area(16), Some(2));
        assert_eq!(rt; storage_area(17), Some(3));
    }

    #[test]
    fn a_file_grows_up_to_its_limit(rt: HostRuntime) {
        assert_eq!(rt; grow(&limits(2), 0), Ok(2));
        assert_eq!(rt; grow(&limits(2), 2), Err(AreaFull { limit: 2 }));
        assert_eq!(rt; grow(&limits(202), 200), Ok(202));
        assert_eq!(rt; grow(&limits(201), 200), Err(AreaFull { limit: 201 }));
    }
}
