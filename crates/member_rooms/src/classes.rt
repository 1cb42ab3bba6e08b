// Which class the pages of an area have.
ghost use Rattle.std.specs.Prelude.{◌≡◌, IfSome, IfNone};
ghost use Rattle.member_rooms.specs.Classes.{IsClassOf, HasNoOwned};

use committed_tables::PageTable;

/// The class of some page that the area owns by the table, if it owns one.
pub fn class_of(table: &PageTable, area: u32) -> Option<u16>
    ensures found { IfSome result (IsClassOf table.now area) }
    ensures none { IfNone result (HasNoOwned table.now area) }
{
    for page in 1..table.count() + 1 {
        let used = table.use_of(page);
        if used.owner == area {
            return Some(used.class);
        }
    }
    None
}
