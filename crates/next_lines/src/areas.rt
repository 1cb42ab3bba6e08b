// The next logical area that owns a page.
ghost use Rattle.std.specs.Prelude.{◌≤◌, ◌<◌, ℕ, IfSome};
ghost use Rattle.page_table.specs.Pages.{IsWithin, owner_in};
ghost use Rattle.next_lines.specs.Areas.{Reaches};

use page_table::PageTable;

// The lesser of two areas.
fn lesser(first: Option<u32>, second: Option<u32>) -> Option<u32>
    ensures behind { (area : ℕ) → IfSome first (λ a. area < a) → IfSome second (λ a. area < a)
        → IfSome result (λ a. area < a) }
    ensures first { (area owner : ℕ) → Reaches area first owner → Reaches area result owner }
    ensures second { (area owner : ℕ) → Reaches area second owner → Reaches area result owner }
{
    let Some(a) = first else {
        return second;
    };
    let Some(b) = second else {
        return first;
    };
    Some(if b < a { b } else { a })
}

// The owner of a page, where it lies behind an area.
fn owner_behind(table: &PageTable, page: u32, area: u32) -> Option<u32>
    requires { IsWithin table.now page }
    ensures behind { IfSome result (λ a. area < a) }
    ensures reaches { Reaches area result (owner_in table.now page) }
{
    let owner = table.use_of(page).owner;
    if area < owner { Some(owner) } else { None }
}

// The least area behind another that owns a page of the table.
fn next_owner(table: &PageTable, area: u32) -> Option<u32>
    ensures behind { IfSome result (λ a. area < a) }
    ensures reaches { (page : ℕ) → IsWithin table.now page
        → Reaches area result (owner_in table.now page) }
{
    let mut least = None;
    for page in 1..table.count() + 1 {
        least = lesser(least, owner_behind(table, page, area));
    }
    least
}

/// The least area behind another that owns a page of the tables.
pub(crate) fn next_area(
    catalog: &PageTable,
    relations: &PageTable,
    indexes: &PageTable,
    area: u32,
) -> Option<u32>
    ensures behind { IfSome result (λ a. area < a) }
    ensures catalog { (page : ℕ) → IsWithin catalog.now page
        → Reaches area result (owner_in catalog.now page) }
    ensures relations { (page : ℕ) → IsWithin relations.now page
        → Reaches area result (owner_in relations.now page) }
    ensures indexes { (page : ℕ) → IsWithin indexes.now page
        → Reaches area result (owner_in indexes.now page) }
{
    let first = lesser(next_owner(catalog, area), next_owner(relations, area));
    lesser(first, next_owner(indexes, area))
}
