//! The Dbkey that a stored row is given.
ghost use Rattle.std.specs.Prelude.{◌≡◌, true, Some, IfOk};
ghost use Rattle.std.specs.Option.{option_copied};
ghost use Rattle.rdb_types.specs.declared.keys.Dbkey.{Dbkey};
ghost use Rattle.rdb_tables.specs.Rooms.{may_take as may_be_taken};

use ordered_entries::Key;
use rdb_meaning::Relation;
use rdb_types::{Dbkey, NoMemory, Row};

// A relation's rows begin on this page, and a page has that many lines.
const FIRST_PAGE: u32 = 2;

const LINES: usize = 65536;

// The Dbkey of a line of an area, where the lines are counted from 0.
fn nth_key(area: u32, n: usize) -> Option<Dbkey> {
    let page = u32::try_from(n / LINES).ok()?.checked_add(FIRST_PAGE)?;
    Some(Dbkey {
        area,
        page,
        line: (n % LINES) as u16,
    })
}

// The first line from the n-th on that has no row.
fn gap_from(area: u32, rows: &[(Dbkey, Row)], n: usize) -> usize {
    let Some(first) = nth_key(area, n) else {
        return n;
    };
    let Ok(start) = rows.binary_search_by(|entry| entry.0.order(&first)) else {
        return n;
    };
    let mut low = start;
    let mut high = rows.len();
    while low < high {
        let middle = low + (high - low) / 2;
        if nth_key(area, n.saturating_add(middle - start)) == Some(rows[middle].0) {
            low = middle + 1;
        } else {
            high = middle;
        }
    }
    n.saturating_add(low - start)
}

fn may_take(relation: &Relation, saved: Option<&Relation>, key: &Dbkey) -> bool
    ensures { result ≡ may_be_taken key.now relation.now (option_copied saved.entry) }
{
    if key.area != relation.area || relation.row(key).is_some() {
        return false;
    }
    match saved {
        Some(saved) => saved.row(key).is_none(),
        None => true,
    }
}

/// A Dbkey that a new row of the relation may be given, where `saved` is what the relation was at the start of the statement, if rows of it were erased: the choice where it may be given, else the least that may.
pub fn free_key(
    relation: &Relation,
    saved: Option<&Relation>,
    choice: Option<Dbkey>,
) -> Result<Dbkey, NoMemory>
    ensures free { IfOk result (λ key. may_be_taken key relation.now (option_copied saved.entry) ≡ true) }
    ensures chosen { IfOk result
        (λ key. (chosen : Dbkey) → choice ≡ Some chosen → may_be_taken chosen relation.now (option_copied saved.entry) ≡ true → key ≡ chosen) }
{
    if let Some(key) = choice {
        if may_take(relation, saved, &key) {
            return Ok(key);
        }
    }
    let area = relation.area;
    let rows = relation.rows.as_slice();
    let mut n = 0;
    // Each turn passes a row that stands now, so there are not more.
    for _ in 0..=rows.len().saturating_add(1) {
        n = gap_from(area, rows, n);
        let key = nth_key(area, n).ok_or(NoMemory {})?;
        if may_take(relation, saved, &key) {
            return Ok(key);
        }
        if let Some(saved) = saved {
            n = gap_from(area, saved.rows.as_slice(), n);
        }
    }
    Err(NoMemory {})
}
