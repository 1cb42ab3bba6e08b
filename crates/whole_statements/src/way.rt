ghost use Rattle.std.specs.Prelude.{◌≡◌};
ghost use Rattle.rdo_ast.specs.Views.{uttered_of};
ghost use Rattle.whole_statements.specs.Ways.{IsWay};

use rdb_checks::is_retrieval;
use rdo_ast::reply::Standing;
use rdo_ast::syntax::{Item, Statement};

/// How an item is worked here.
#[derive(Clone, Copy)]
pub(crate) enum Way {
    /// It would take locks.
    Locking,
    /// It reads no lines.
    Unread,
    Reading,
}

pub(crate) fn way_of(standing: &Standing, item: &Item) -> Way
    ensures { IsWay result standing.now (uttered_of item.now) }
{
    match standing {
        Standing::ReadWrite { .. } => Way::Locking,
        Standing::ReadOnly => Way::Reading,
        Standing::Closed => match item {
            Item::Statement(Statement::StartReadWrite { .. }) => Way::Locking,
            Item::Statement(Statement::StartReadOnly | Statement::BackUp(_)) => Way::Reading,
            Item::Statement(Statement::Act(action)) if is_retrieval(action) => Way::Reading,
            _ => Way::Unread,
        },
    }
}
