//! Space-management pages: which logical area owns each page, and how full it is.
#![tactic(auto)]

ghost use Rattle.std.specs.Prelude.{◌≡◌, ◌≤◌, ◌<◌, ◌+◌, ◌*◌, ◌/◌, length, take, drop, true, false, ℕ, List, OnOk, OnErr};
ghost use Rattle.area_files.specs.rdb_page.Page.{IsUnused};
ghost use Rattle.area_files.specs.slot_fields.Fields.{HasPart};
ghost use Rattle.area_files.specs.Areas.{IsPage, IsDataPage, space_page_of as space_of, index_of};
ghost use Rattle.space_pages.specs.Space.{head_fields, entry_place, owner_at, level_at as level_in, owner_of, level_of as level_said, entries_of as count_of, HasNoMore, IsWritten, IsSpace, IsBeside, level_for};

use area_files::{
    BadPage, has_bytes, has_zeros, is_space_page, is_zeros, put_bytes, put_u8, put_u32, put_zeros,
    space_entry_of, u8_at, u32_at,
};

/// Where the entry of a page stands.
fn place_of(page: u32) -> usize
    requires { IsDataPage page }
    ensures value { result ≡ entry_place (index_of page) }
    ensures within { result + 5 ≤ 1019 }
{
    24 + 5 * space_entry_of(page).index as usize
}

/// The logical area that owns a page by its space page, and 0 where none does.
pub fn owner(spam: &[u8], page: u32) -> u32
    requires size { length spam.now ≡ 1024 }
    requires page { IsDataPage page }
    ensures { result ≡ owner_of page spam.now }
{
    u32_at(spam, place_of(page))
}

/// How full a page is by its space page: a level from 0 to 3, as it was last written.
pub fn level(spam: &[u8], page: u32) -> u8
    requires size { length spam.now ≡ 1024 }
    requires page { IsDataPage page }
    ensures { result ≡ level_said page spam.now }
{
    u8_at(spam, place_of(page) + 4)
}

/// The level of a page of which so many lines are used: 0 below 70 percent, 1 below 85, 2 below 95, else 3.
pub fn level_of(used: u32, lines: u32) -> u8
    requires lines { 1 ≤ lines }
    requires used { used ≤ lines }
    ensures { result ≡ level_for (100 * used / lines) }
{
    let percent = 100 * u64::from(used) / u64::from(lines);
    if percent < 70 {
        0
    } else if percent < 85 {
        1
    } else if percent < 95 {
        2
    } else {
        3
    }
}

fn put_entry(spam: &mut [u8], index: usize, owner: u32, level: u8)
    requires size { length spam.old ≡ 1024 }
    requires index { index < 199 }
    ensures owner { owner_at index spam.new ≡ owner }
    ensures level { level_in index spam.new ≡ level }
    ensures before { take (entry_place index) spam.new ≡ take (entry_place index) spam.old }
    ensures behind { drop (entry_place (index + 1)) spam.new ≡ drop (entry_place (index + 1)) spam.old }
{
    let at = 24 + 5 * index;
    put_u32(spam, at, owner);
    put_u8(spam, at + 4, level);
}

fn put_head(spam: &mut [u8], number: u32)
    requires size { length spam.old ≡ 1024 }
    ensures head { HasPart 0 (head_fields number) spam.new }
    ensures behind { drop 24 spam.new ≡ drop 24 spam.old }
{
    put_bytes(spam, 0, b"SPAM");
    put_u32(spam, 4, number);
    put_zeros(spam, 8, 16);
}

/// Says of a page who owns it, 0 for nobody, and how full it is.
pub fn set(spam: &mut [u8], page: u32, owner: u32, level: u8)
    requires size { length spam.old ≡ 1024 }
    requires page { IsDataPage page }
    requires level { level ≤ 3 }
    ensures owner { owner_of page spam.new ≡ owner }
    ensures level { level_said page spam.new ≡ level }

    // What is said of other pages stays.
    ensures other_owners { (other : ℕ) → IsBeside page other
        → owner_of other spam.new ≡ owner_of other spam.old }
    ensures other_levels { (other : ℕ) → IsBeside page other
        → level_said other spam.new ≡ level_said other spam.old }

    // A space page that was there, or zeros, are a space page then.
    ensures kept { IsSpace spam.old (space_of page) → IsWritten spam.new (space_of page) }
{
    let entry = space_entry_of(page);
    put_head(spam, entry.space_page);
    put_entry(spam, entry.index as usize, owner, level);
}

fn entries_of(space_page: u32) -> usize
    ensures { result ≡ count_of space_page }
{
    if space_page == 65_401 { 135 } else { 199 }
}

fn are_levels(spam: &[u8], count: usize) -> bool
    requires size { length spam.now ≡ 1024 }
    requires count { count ≤ 199 }
    ensures yes { result ≡ true → (index : ℕ) → index < count → level_in index spam.now ≤ 3 }
    ensures no { result ≡ false
        → ((index : ℕ) → index < count → level_in index spam.now ≤ 3) → ⊥ }
{
    for index in 0..count {
        if u8_at(spam, 24 + 5 * index + 4) > 3 {
            return false;
        }
    }
    true
}

fn is_written(spam: &[u8], space_page: u32) -> bool
    requires { length spam.now ≡ 1024 }
    ensures yes { result ≡ true → IsWritten spam.now space_page }
    ensures no { result ≡ false → IsWritten spam.now space_page → ⊥ }
{
    let count = entries_of(space_page);
    let end = 24 + 5 * count;
    let number = u32_at(spam, 4);
    has_bytes(spam, 0, b"SPAM")
        && number == space_page
        && has_zeros(spam, 8, 16)
        && has_zeros(spam, end, 1024 - end)
        && are_levels(spam, count)
}

/// Whether a slot is the space page of this number. It is refused only where it isn't.
pub fn check(spam: &[u8], number: u32) -> Result<(), BadPage>
    requires size { length spam.now ≡ 1024 }
    requires page { IsPage number }
    ensures found { OnOk result (IsSpace spam.now number) }
    ensures none { OnErr result (IsSpace spam.now number → ⊥) }
{
    if is_space_page(number) && (is_zeros(spam) || is_written(spam, number)) {
        Ok(())
    } else {
        Err(BadPage {})
    }
}

/// A space page of zeros says of each page that nobody owns it and that none of its lines is used.
pub fn zeros_own_nothing()
    ensures owner { (spam : List ℕ) (page : ℕ) → length spam ≡ 1024 → IsUnused spam → IsDataPage page
        → owner_of page spam ≡ 0 }
    ensures level { (spam : List ℕ) (page : ℕ) → length spam ≡ 1024 → IsUnused spam → IsDataPage page
        → level_said page spam ≡ 0 }
{}

#[cfg(test)]
mod tests {
    use super::*;

    #[test]
    fn entries_stand_behind_one_another(rt: HostRuntime) {
        let mut spam = [0; 1024];
        assert!(rt; check(&spam, 1).is_ok());
        set(&mut spam, 2, 16, 3);
        set(&mut spam, 3, 16, 0);
        assert_eq!(rt; &spam[..8], b"SPAM\x01\x00\x00\x00".as_slice());
        assert_eq!(rt;
            &spam[24..34],
            b"\x10\x00\x00\x00\x03\x10\x00\x00\x00\x00".as_slice()
        );
        assert_eq!(rt; owner(&spam, 2), 16);
        assert_eq!(rt; level(&spam, 2), 3);
        assert!(rt;
            check(&spam, 1).is_ok() && check(&spam, 201).is_err() && check(&spam, 2).is_err()
        );
    }

    #[test]
    fn the_last_space_page_has_fewer_entries(rt: HostRuntime) {
        let mut spam = [0; 1024];
        set(&mut spam, 65_536, 17, 2);
        assert_eq!(rt; &spam[694..699], b"\x11\x00\x00\x00\x02".as_slice());
        assert!(rt; check(&spam, 65_401).is_ok());
        spam[699] = 1;
        assert!(rt; check(&spam, 65_401).is_err());
    }

    #[test]
    fn levels_go_by_percent(rt: HostRuntime) {
        assert_eq!(rt; level_of(69, 100), 0);
        assert_eq!(rt; level_of(70, 100), 1);
        assert_eq!(rt; level_of(85, 100), 2);
        assert_eq!(rt; level_of(95, 100), 3);
        assert_eq!(rt; level_of(3, 4), 1);
    }
}
