// What is asked of one page.
ghost use Rattle.std.specs.Prelude.{◌≡◌, true, false, length, IfOk, IfSome, IfNone, IsErr, IsTrue};
ghost use Rattle.rdb_outside.specs.Causes.{Rose};
ghost use Rattle.rdb_outside.specs.Disk.{OnlyReads};
ghost use Rattle.rdb_page.specs.Whole.{IsUsedPage};
ghost use Rattle.area_files.specs.Areas.{IsPage, IsDataPage, space_page_of as space_of};
ghost use Rattle.space_pages.specs.Space.{IsSpace, owner_of as owner_said};
ghost use Rattle.page_faults.specs.Checks.{Passes, HasOwner, SaysOwner, IsFault, IsFine};

use area_files::{is_space_page, slot_of, space_page_of};
use rdb_outside::{Disk, Failed};
use rdb_page::{check_page, read_head};
use rdb_types::{FileId, FileKind};
use space_pages::{check, owner};

/// What is asked of a page: whether it passes its decoder, or whether its owner is the one that its space page says.
#[derive(Clone, Copy, Debug, PartialEq, Eq)]
pub enum PageCheck {
    Decodes,
    Owned,
}

/// The file of a storage area.
pub fn area_file(number: u32) -> FileId
    ensures { result ≡ record { kind = FileKind.Area; number = number } }
{
    FileId {
        kind: FileKind::Area,
        number,
    }
}

/// Whether a slot is the page or the space page of this number.
pub fn passes(bytes: &[u8], file: u32, page: u32) -> bool
    requires size { length bytes.now ≡ 1024 }
    requires page { IsPage page }
    ensures yes { result ≡ true → Passes file page bytes.now }
    ensures no { result ≡ false → Passes file page bytes.now → ⊥ }
{
    if is_space_page(page) {
        check(bytes, page).is_ok()
    } else {
        check_page(bytes, file, page).is_ok()
    }
}

// The owner of a page that is used and passes its decoder.
fn used_owner(bytes: &[u8], file: u32, page: u32) -> Option<u32>
    requires { length bytes.now ≡ 1024 }
    ensures some { IfSome result (HasOwner file page bytes.now) }
    ensures none { IfNone result (IsUsedPage file page bytes.now → ⊥) }
{
    let Ok(Some(head)) = read_head(bytes, file, page) else {
        return None;
    };
    match check_page(bytes, file, page) {
        Ok(_) => Some(head.owner),
        Err(_) => None,
    }
}

// The owner that a page's space page says, where that passes its decoder.
fn said_owner(spam: &[u8], page: u32) -> Option<u32>
    requires size { length spam.now ≡ 1024 }
    requires page { IsDataPage page }
    ensures some { IfSome result (SaysOwner page spam.now) }
    ensures none { IfNone result (IsSpace spam.now (space_of page) → ⊥) }
{
    match check(spam, space_page_of(page)) {
        Ok(()) => Some(owner(spam, page)),
        Err(_) => None,
    }
}

fn fails<D: Disk>(disk: &mut D, file: u32, page: u32) -> Result<bool, Failed>
    requires { IsPage page }
    ensures yes { IfOk result (λ fails. IsTrue (D.view disk.old).tells → fails ≡ true
        → IsFault (D.view disk.old).content PageCheck.Decodes file page) }
    ensures no { IfOk result (λ fails. IsTrue (D.view disk.old).tells → fails ≡ false
        → IsFine (D.view disk.old).content PageCheck.Decodes file page) }
    ensures failed { IsErr result → Rose (D.view disk.old).faults (D.view disk.new).faults }
    ensures reads { OnlyReads (D.view disk.old) (D.view disk.new) }
{
    let mut bytes = [0; 1024];
    disk.read(area_file(file), slot_of(page), &mut bytes)?;
    Ok(!passes(&bytes, file, page))
}

fn is_misowned<D: Disk>(disk: &mut D, file: u32, page: u32) -> Result<bool, Failed>
    requires { IsDataPage page }
    ensures yes { IfOk result (λ differs. IsTrue (D.view disk.old).tells → differs ≡ true
        → IsFault (D.view disk.old).content PageCheck.Owned file page) }
    ensures no { IfOk result (λ differs. IsTrue (D.view disk.old).tells → differs ≡ false
        → IsFine (D.view disk.old).content PageCheck.Owned file page) }
    ensures failed { IsErr result → Rose (D.view disk.old).faults (D.view disk.new).faults }
    ensures reads { OnlyReads (D.view disk.old) (D.view disk.new) }
{
    let mut bytes = [0; 1024];
    disk.read(area_file(file), slot_of(page), &mut bytes)?;
    let Some(owner) = used_owner(&bytes, file, page) else {
        return Ok(false);
    };
    disk.read(area_file(file), slot_of(space_page_of(page)), &mut bytes)?;
    match said_owner(&bytes, page) {
        Some(said) => Ok(said != owner),
        None => Ok(false),
    }
}

/// Whether the page of this number of an area file is a fault. One page is in memory at a time; a page that is used takes two reads for its owner.
pub fn is_faulty<D: Disk>(
    disk: &mut D,
    asked: PageCheck,
    file: u32,
    page: u32,
) -> Result<bool, Failed>
    requires { IsPage page }
    ensures yes { IfOk result (λ faulty. IsTrue (D.view disk.old).tells → faulty ≡ true
        → IsFault (D.view disk.old).content asked file page) }
    ensures no { IfOk result (λ faulty. IsTrue (D.view disk.old).tells → faulty ≡ false
        → IsFine (D.view disk.old).content asked file page) }
    ensures failed { IsErr result → Rose (D.view disk.old).faults (D.view disk.new).faults }
    ensures reads { OnlyReads (D.view disk.old) (D.view disk.new) }
{
    match asked {
        PageCheck::Decodes => fails(disk, file, page),
        PageCheck::Owned => {
            if is_space_page(page) {
                Ok(false)
            } else {
                is_misowned(disk, file, page)
            }
        }
    }
}
