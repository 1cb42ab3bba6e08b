// Whole pages.
ghost use Rattle.std.specs.Prelude.{◌≡◌, length, true, false, IfOk, IfSome, OnOk, OnErr};
ghost use Rattle.rdb_page.specs.Page.{IsClass, StandsAs, class_at};
ghost use Rattle.rdb_page.specs.Whole.{HasLines, IsPageOf};

use crate::BadPage;
use crate::head::{Head, lines_of, read_head};
use crate::line::read_line;

/// Whether a line stands in each place of this class.
fn has_lines(page: &[u8], class: u16) -> bool
    requires size { length page.now ≡ 1024 }
    requires class { IsClass class }
    requires same { class_at page.now ≡ class }
    ensures yes { result ≡ true → HasLines page.now class }
    ensures no { result ≡ false → HasLines page.now class → ⊥ }
{
    for line in 0..lines_of(class) {
        match read_line(page, line) {
            Ok(_) => {}
            Err(_) => return false,
        }
    }
    true
}

/// The head of the page of this number of an area file, and None for a page that was never used. It is refused only where the page is neither a whole page of that place nor one of zeros.
pub fn check_page(page: &[u8], file: u32, number: u32) -> Result<Option<Head>, BadPage>
    requires { length page.now ≡ 1024 }
    ensures whole { OnOk result (IsPageOf file number page.now) }
    ensures head { IfOk result (λ found. IfSome found (StandsAs page.now file number)) }
    ensures refused { OnErr result (IsPageOf file number page.now → ⊥) }
{
    let Some(head) = read_head(page, file, number)? else {
        return Ok(None);
    };
    if has_lines(page, head.class) {
        Ok(Some(head))
    } else {
        Err(BadPage {})
    }
}
