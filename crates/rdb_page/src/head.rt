// The head of a page.
ghost use Rattle.std.specs.Prelude.{◌≡◌, ◌<◌, ◌↔◌, ℕ, true, false, Some, None, Ok, length, IfOk, IfSome, IfNone, OnErr, MatchOption, List};
ghost use Rattle.rdb_page.specs.Page.{lines_of as lines_in, IsHead, IsClass, IsOwner, HasNoMore, IsUnused, StandsAs};
ghost use Rattle.rdb_page.specs.Lines.{IsLine, never};
ghost use Rattle.rdb_page.specs.Whole.{IsUsedPage};

use crate::BadPage;
use slot_fields::{
    has_bytes, has_zeros, is_zeros, put_bytes, put_u16, put_u32, put_zeros, u16_at, u32_at,
};

/// What a page says of itself: its number, its logical area and the class of its lines.
#[derive(Clone, Copy, Debug, PartialEq, Eq)]
pub struct Head {
    pub page: u32,
    pub owner: u32,
    pub class: u16,
}

/// How many lines a page of a class has.
pub fn lines_of(class: u16) -> u16
    ensures { result ≡ lines_in class }
{
    if class == 208 { 4 } else { 2 }
}

/// Lays out a page whose lines were never used.
pub fn put_head(page: &mut [u8], head: &Head)
    requires size { length page.old ≡ 1024 }
    requires class { IsClass head.now.class }
    ensures head { IsHead page.new head.now }
    ensures lines { (line : ℕ) → line < lines_in head.now.class
        → IsLine page.new head.now.class line never }

    // Where an area file may hold the logical area, it is a whole page of that file.
    ensures stands { (file : ℕ) → IsOwner file head.now.owner
        → StandsAs page.new file head.now.page head.now }
    ensures whole { (file : ℕ) → IsOwner file head.now.owner
        → IsUsedPage file head.now.page page.new }
{
    put_bytes(page, 0, b"PAGE");
    put_u32(page, 4, head.page);
    put_u32(page, 8, head.owner);
    put_u16(page, 12, head.class);
    put_zeros(page, 14, 1010);
}

fn is_rest_empty(page: &[u8], class: u16) -> bool
    requires { length page.now ≡ 1024 }
    ensures class { result ≡ true → IsClass class }
    ensures rest { result ≡ true → HasNoMore page.now class }
    ensures no { result ≡ false → IsClass class → HasNoMore page.now class → ⊥ }
{
    match class {
        208 => has_zeros(page, 920, 104),
        440 => has_zeros(page, 936, 88),
        _ => false,
    }
}

fn is_owner(file: u32, owner: u32) -> bool
    ensures yes { result ≡ true → IsOwner file owner }
    ensures no { result ≡ false → IsOwner file owner → ⊥ }
{
    match file {
        1 => owner == 1,
        2 => owner >= 16 && owner % 2 == 0,
        3 => owner >= 17 && owner % 2 == 1,
        _ => false,
    }
}

/// The head of a page of an area file, and None for a page that was never used. It is refused only where neither stands there.
pub fn read_head(page: &[u8], file: u32, number: u32) -> Result<Option<Head>, BadPage>
    requires { length page.now ≡ 1024 }
    ensures found { IfOk result (λ found. IfSome found (StandsAs page.now file number)) }
    ensures unused { (result ≡ Ok None) ↔ IsUnused page.now }
    ensures none { OnErr result ((head : _) → StandsAs page.now file number head → ⊥) }

    // A head that was laid out is read again.
    ensures again { (head : _) → StandsAs page.now file number head → result ≡ Ok (Some head) }
{
    if is_zeros(page) {
        return Ok(None);
    }
    match head_of(page, file, number) {
        Some(head) => Ok(Some(head)),
        None => Err(BadPage {}),
    }
}

fn head_of(page: &[u8], file: u32, number: u32) -> Option<Head>
    requires { length page.now ≡ 1024 }
    ensures found { IfSome result (StandsAs page.now file number) }
    ensures none { IfNone result ((head : _) → StandsAs page.now file number head → ⊥) }
{
    let head = Head {
        page: u32_at(page, 4),
        owner: u32_at(page, 8),
        class: u16_at(page, 12),
    };
    let is_rest_empty = is_rest_empty(page, head.class);
    let is_owned = is_owner(file, head.owner);
    if has_bytes(page, 0, b"PAGE")
        && has_zeros(page, 14, 10)
        && is_rest_empty
        && head.page == number
        && is_owned
    {
        Some(head)
    } else {
        None
    }
}

/// A page has one head at most.
pub fn one_head()
    ensures { (page : List ℕ) (a b : _) → IsHead page a → IsHead page b → a ≡ b }
{}
