// Where lines stand.
ghost use Rattle.std.specs.Prelude.{◌≡◌, IfSome, IfNone};
ghost use Rattle.stable_lines.specs.new_database.Maker.{aij_file as aij_named, root_file as root_named};
ghost use Rattle.stable_lines.specs.Slots.{area_file as file_named, ruj_file as journal_named};
ghost use Rattle.line_moves.specs.Changes.{IsPlaceOf};

use line_store::storage_area;
use rdb_types::{Dbkey, FileId, FileKind};

/// The number of an area file, and a page of it.
#[derive(Clone, Copy, Debug, PartialEq, Eq)]
pub struct Place {
    pub file: u32,
    pub page: u32,
}

/// The file of a storage area.
pub fn area_file(number: u32) -> FileId
    ensures { result ≡ file_named number }
{
    FileId {
        kind: FileKind::Area,
        number,
    }
}

/// The before-image journal of a member.
pub fn ruj_file(member: u32) -> FileId
    ensures { result ≡ journal_named member }
{
    FileId {
        kind: FileKind::Ruj,
        number: member,
    }
}

/// The after-image journal.
pub fn aij_file() -> FileId
    ensures { result ≡ aij_named }
{
    FileId {
        kind: FileKind::Aij,
        number: 0,
    }
}

/// The root.
pub fn root_file() -> FileId
    ensures { result ≡ root_named }
{
    FileId {
        kind: FileKind::Root,
        number: 0,
    }
}

/// The place of a line. None is answered for a key that names no logical area or no data page.
pub fn place_of(key: Dbkey) -> Option<Place>
    ensures found { IfSome result (IsPlaceOf key) }
    ensures none { IfNone result ((place : _) → IsPlaceOf key place → ⊥) }
{
    let Some(file) = storage_area(key.area) else {
        return None;
    };
    if key.page < 1 || key.page > 65_536 || (key.page - 1) % 200 == 0 {
        return None;
    }
    Some(Place {
        file,
        page: key.page,
    })
}
