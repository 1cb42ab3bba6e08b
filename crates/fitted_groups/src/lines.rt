// Lines of a group on the pages that they meet.
ghost use Rattle.std.specs.Prelude.{◌≡◌, ◌≢◌, ◌≤◌, ◌<◌, ◌∷◌, [], ◌++◌, ℕ, length, List, true, false, slice_get, Some, None};
ghost use Rattle.rdb_outside.specs.Disk.{Image};
ghost use Rattle.aij_journal.specs.declared.part.GroupLine.{GroupLine as Line};
ghost use Rattle.aij_journal.specs.Part.{IsAllowedLine};
ghost use Rattle.stable_lines.specs.Rolling.{groups_above};
ghost use Rattle.fitted_groups.specs.Meeting.{lines_among, FitsPage, FitOver};
ghost use Rattle.fitted_groups.specs.Claims.{seat_of, MayClaim, AreFitted};

use crate::PageClaim;
use aij_journal::GroupLine;
use journal_scan::Group;
use line_moves::{Place, place_of};
use rdb_page::lines_of;
use rdb_types::Dbkey;

// Where the claim of a page stands.
fn seat_in(place: Place) -> usize
    requires first { 1 ≤ place.page }
    requires last { place.page ≤ 65536 }
    requires low { 1 ≤ place.file }
    requires high { place.file ≤ 3 }
    ensures { result ≡ seat_of place.file place.page }
{
    (place.page as usize - 1) * 3 + (place.file as usize - 1)
}

// Claims a page, where nobody has claimed it before, or somebody the same.
fn claim_seat(claims: &mut [PageClaim], seat: usize, claim: PageClaim) -> bool
    requires { seat < length claims.old }
    ensures size { length claims.new ≡ length claims.old }
    ensures others { (k : ℕ) → k ≢ seat → slice_get claims.new k ≡ slice_get claims.old k }
    ensures claimed { result ≡ true → slice_get claims.new seat ≡ Some claim }
    ensures was { result ≡ true → MayClaim claim (slice_get claims.old seat) }
    ensures refused { result ≡ false → MayClaim claim (slice_get claims.old seat) → ⊥ }
{
    let found = claims[seat];
    if found.owner == 0 {
        claims[seat] = claim;
        return true;
    }
    found.owner == claim.owner && found.class == claim.class
}

// Whether the line fits the page that it meets behind earlier lines. A page that was never used is the line's from now on.
fn fit_line(claims: &mut [PageClaim], line: &GroupLine) -> bool
    ensures fitted { result ≡ true → (image : Image) (pages : ℕ) (before : List Line)
        → IsAllowedLine line.now → AreFitted image pages before claims.old
        → AreFitted image pages (before ++ line.now ∷ []) claims.new }
    ensures unfit { result ≡ false → (image : Image) (pages : ℕ) (before : List Line)
        → AreFitted image pages before claims.old
        → FitsPage image pages (before ++ line.now ∷ []) line.now → ⊥ }
{
    let Some(place) = place_of(line.key) else {
        return false;
    };
    let seat = seat_in(place);
    let seats = claims.len();
    if seat >= seats {
        return false;
    }
    let lines = lines_of(line.class);
    if line.key.line >= lines {
        return false;
    }
    let claim = PageClaim {
        owner: line.key.area,
        class: line.class,
    };
    claim_seat(claims, seat, claim)
}

// The first of the lines that doesn't fit the page that it meets.
fn fit_lines(claims: &mut [PageClaim], lines: &[GroupLine]) -> Option<Dbkey>
    ensures fitted { result ≡ None → (image : Image) (pages : ℕ) (before : List Line)
        → ((i : ℕ) (l : Line) → slice_get lines.now i ≡ Some l → IsAllowedLine l)
        → AreFitted image pages before claims.old
        → AreFitted image pages (before ++ lines.now) claims.new }
    ensures unfit { (key : _) → result ≡ Some key
        → (image : Image) (pages : ℕ) (before behind : List Line)
        → ((i : ℕ) (l : Line) → slice_get lines.now i ≡ Some l → IsAllowedLine l)
        → AreFitted image pages before claims.old
        → FitOver image pages (before ++ (lines.now ++ behind)) → ⊥ }
{
    for line in lines {
        if !fit_line(claims, line) {
            return Some(line.key);
        }
    }
    None
}

/// The first line of the group that doesn't fit the page that it meets, where the group's number is above the last one that is behind.
pub(crate) fn fit_above(claims: &mut [PageClaim], last: u64, group: &Group) -> Option<Dbkey>
    ensures fitted { result ≡ None → (image : Image) (pages : ℕ) (before : List Line)
        → ((i : ℕ) (l : Line) → slice_get group.now.lines i ≡ Some l → IsAllowedLine l)
        → AreFitted image pages before claims.old
        → AreFitted image pages (before ++ lines_among (groups_above last (group.now ∷ []))) claims.new }
    ensures unfit { (key : _) → result ≡ Some key
        → (image : Image) (pages : ℕ) (before behind : List Line)
        → ((i : ℕ) (l : Line) → slice_get group.now.lines i ≡ Some l → IsAllowedLine l)
        → AreFitted image pages before claims.old
        → FitOver image pages (before ++ (lines_among (groups_above last (group.now ∷ [])) ++ behind)) → ⊥ }
{
    if last < group.number {
        fit_lines(claims, group.lines.as_slice())
    } else {
        None
    }
}
