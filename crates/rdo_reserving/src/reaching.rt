// Changes that nothing refuses before their work, by the catalog of what is known.
ghost use Rattle.std.specs.Prelude.{◌≡◌, ℕ, true, List, Ok};
ghost use Rattle.rdo_ast.specs.declared.reply.Reply.TheVariants.{AreaFull};
ghost use Rattle.rdo_ast.specs.Views.{uttered_of};
ghost use Rattle.rdb_account.specs.Lawful.{Replaces};
ghost use Rattle.line_view.specs.Held.{knows};
ghost use Rattle.sound_maps.specs.Maps.{IsSoundWith};
ghost use Rattle.session_jobs.specs.Jobs.{WhereItAgrees};

use catalog::read_catalog;
use line_view::{Known, Stop};
use rdb_types::NoMemory;
use rdo_ast::reply::Standing;
use rdo_ast::syntax::Item;
use reached_changes::is_reached_in;
use std::alloc::Global;

/// Whether an item is a change that nothing refuses before its work, by the catalog of what is known.
pub(crate) fn reached_by_catalog(
    alloc: Global,
    known: &Known,
    standing: &Standing,
    item: &Item,
) -> Result<bool, NoMemory>
    ensures { result ≡ Ok true → (word : List ℕ) (limit : ℕ) → WhereItAgrees IsSoundWith (knows known.now) (λ t. Replaces word standing.now t (uttered_of item.now) (AreaFull limit)) }
{
    let Item::Statement(statement) = item else {
        return Ok(false);
    };
    match read_catalog(alloc, known) {
        Ok(catalog) => {
            let mut catalog = catalog;
            is_reached_in(alloc, &mut catalog.tables, standing, statement)
        }
        Err(Stop::NoMemory) => Err(NoMemory {}),
        Err(_) => Ok(false),
    }
}
