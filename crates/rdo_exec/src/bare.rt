// Actions that mean the same over all tables, so that they are done over no lines.
ghost use Rattle.std.specs.Prelude.{◌≡◌, ℕ, List, [], true, IfOk};
ghost use Rattle.rdo_ast.specs.Tree.{said, perform};
ghost use Rattle.rdo_ast.specs.Views.{act_of};
ghost use Rattle.line_view.specs.Knowledge.{Agrees};
ghost use Rattle.line_view.specs.Held.{knows};
ghost use Rattle.rdo_exec.specs.Answers.{IsAnswered};
ghost use Rattle.rdo_exec.specs.Ways.{is_bare};
ghost use Rattle.rdo_exec.specs.Acted.{IsSettled, IsAlone};

use crate::acting::act_by;
use crate::records::Returned;
use crate::schema::schema_of;
use line_view::Known;
use rdb_types::{Items, NoMemory};
use rdo_ast::reply::Standing;
use rdo_ast::syntax::Action;
use session_jobs::{Found, TxRecord};
use std::alloc::Global;

// Such an action writes no line and reads none, so it lacks none.
fn alone(alloc: Global, found: Found) -> Found
    requires { IsSettled found }
    ensures { IsAlone found result }
{
    match found {
        Found::Done(
            TxRecord {
                choices,
                reply,
                standing,
                writes: _,
            },
        ) => Found::Done(TxRecord {
            choices,
            reply,
            standing,
            writes: Items::new(alloc),
        }),
        Found::NoMemory => Found::NoMemory,
        Found::Missing { .. } | Found::Bad(_) | Found::Unworked => unreachable!(),
    }
}

// That no line of the catalog is present, as in the map of no lines.
fn no_lines(alloc: Global) -> Result<Known, NoMemory>
    ensures { IfOk result (λ known. Agrees (knows known) []) }
{
    let mut known = Known::new(alloc);
    known.learn_area(alloc, 1, &[])?;
    Ok(known)
}

/// Does an action that means the same over all tables.
pub(crate) fn act_bare(alloc: Global, standing: &Standing, action: &Action) -> Found
    requires { is_bare (act_of action.now) ≡ true }
    ensures { (word : List ℕ) → IsAnswered word standing.now (said (perform (act_of action.now))) result }
{
    let Ok(known) = no_lines(alloc) else {
        return Found::NoMemory;
    };
    match schema_of(alloc, &known) {
        Ok(schema) => {
            let Returned { known: _, found } = act_by(alloc, &schema, standing, action, known);
            alone(alloc, found)
        }
        Err(_) => Found::NoMemory,
    }
}
