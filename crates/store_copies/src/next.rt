// The line that is next, by the tables of a store.
ghost use Rattle.std.specs.Prelude.{◌≡◌, ℕ, true, IfSome};
ghost use Rattle.line_view.specs.Knowledge.{Lines};
ghost use Rattle.backup_steps.specs.next_lines.Next.{Leads};
ghost use Rattle.backup_steps.specs.Steps.{GoesOn};
ghost use Rattle.disk_store.specs.Classed.{LieClassed};

use backup_steps::{NextLine, next_line};
use disk_store::Tables;
use rdb_types::Dbkey;

/// The line that was used next behind another, by a store's tables as they are now, with the class of its page. Of a map whose lines lie on pages of these classes it is the next one, with its area's class, whichever pages and lines came behind: so the classes of a reader's start serve at every moment.
pub fn next_line_in(tables: &Tables, from: Option<Dbkey>) -> Option<NextLine>
    ensures leads { (classes : ℕ → ℕ) (lines : Lines) → LieClassed tables.now classes lines → Leads classes lines from result }
    ensures goes_on { GoesOn from result }
{
    let _catalog = tables.catalog.count();
    let _relations = tables.relations.count();
    let _indexes = tables.indexes.count();
    next_line(&tables.catalog, &tables.relations, &tables.indexes, from)
}
