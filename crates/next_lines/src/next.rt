// The line that was used next.
ghost use Rattle.std.specs.Prelude.{◌≡◌, ◌≤◌, ℕ, true, IfSome, IfNone};
ghost use Rattle.rdb_types.specs.declared.keys.Dbkey.{Dbkey as Key};
ghost use Rattle.line_view.specs.Knowledge.{Lines};
ghost use Rattle.page_table.specs.declared.uses.Sought.TheVariants.{Ever};
ghost use Rattle.page_table.specs.Scans.{HasNone};
ghost use Rattle.partial_backup.specs.Partial.{is_left};
ghost use Rattle.next_lines.specs.Next.{table_in, AreFew, IsLow, IsNextUsed, HasNoneUsed, HaveLines, AreClasses, Leads};
ghost use Rattle.next_lines.specs.Areas.{IsFirstIn, IsNextWithin, HasNoneWithin};

use crate::areas::next_area;
use area_files::storage_area;
use page_table::PageTable;
use rdb_types::Dbkey;

/// A line that is looked at next, and the class of its page.
#[derive(Clone, Copy, Debug, PartialEq, Eq)]
pub struct NextLine {
    pub key: Dbkey,
    pub class: u16,
}

// The next line of an area, by the table of its file.
fn next_in(table: &PageTable, area: u32, from: Option<Dbkey>) -> Option<NextLine>
    ensures found { IfSome result (IsFirstIn table.now area from) }
    ensures none { IfNone result (HasNone table.now Ever area from) }
{
    let Some(key) = table.next_ever(area, from) else {
        return None;
    };
    let class = table.use_of(key.page).class;
    Some(NextLine { key, class })
}

// The table of an area file.
fn table_for<'a>(
    catalog: &'a PageTable,
    relations: &'a PageTable,
    indexes: &'a PageTable,
    file: u32,
) -> &'a PageTable
    ensures { result.now ≡ table_in catalog.now relations.now indexes.now file }
{
    match file {
        1 => catalog,
        2 => relations,
        _ => indexes,
    }
}

// The next line of an area.
fn next_within(
    catalog: &PageTable,
    relations: &PageTable,
    indexes: &PageTable,
    area: u32,
    from: Option<Dbkey>,
) -> Option<NextLine>
    ensures found { IfSome result (IsNextWithin (table_in catalog.now relations.now indexes.now) area from) }
    ensures none { IfNone result (HasNoneWithin (table_in catalog.now relations.now indexes.now) area from) }
{
    let Some(file) = storage_area(area) else {
        return None;
    };
    let table = table_for(catalog, relations, indexes, file);
    next_in(table, area, from)
}

// The area of the line that was looked at last; before all lines one before all areas.
fn first_area(from: Option<Dbkey>) -> u32
    ensures { (key : Key) → is_left from key ≡ true → result ≤ key.area }
{
    match from {
        Some(last) => last.area,
        None => 0,
    }
}

/// The line that was used next behind another, in the order of Dbkeys, with the class of its page: by the tables of pages of the area files of the catalog, of relations and of indexes. It looks at the pages of the area from that line's on, and at all pages only where no line of the area is left.
pub fn next_line(
    catalog: &PageTable,
    relations: &PageTable,
    indexes: &PageTable,
    from: Option<Dbkey>,
) -> Option<NextLine>
    ensures found { IfSome result (IsNextUsed (table_in catalog.now relations.now indexes.now) from) }
    ensures none { IfNone result (HasNoneUsed (table_in catalog.now relations.now indexes.now) from) }

    ensures low { AreFew (table_in catalog.now relations.now indexes.now)
        → IfSome result (λ next. IsLow next.key) }

    // Of the lines of a map that the tables have it is the next one.
    ensures leads { (classes : ℕ → ℕ) (lines : Lines)
        → HaveLines (table_in catalog.now relations.now indexes.now) lines
        → AreClasses (table_in catalog.now relations.now indexes.now) classes
        → Leads classes lines from result }
{
    let mut area = first_area(from);
    loop {
        if let Some(next) = next_within(catalog, relations, indexes, area, from) {
            return Some(next);
        }
        let Some(behind) = next_area(catalog, relations, indexes, area) else {
            return None;
        };
        area = behind;
    }
}
