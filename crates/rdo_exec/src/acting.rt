// STORE, FOR, PRINT, MODIFY and ERASE.
ghost use Rattle.std.specs.Prelude.{◌≡◌, ◌⊎◌, ℕ, List, [], None, IfOk};
ghost use Rattle.rdo_ast.specs.declared.reply.Standing.{Standing as State};
ghost use Rattle.rdo_ast.specs.Tree.{said, perform};
ghost use Rattle.rdo_ast.specs.Views.{act_of};
ghost use Rattle.rdb_meaning.specs.Meaning.{act_refusal, standing_for};
ghost use Rattle.rdb_checks.specs.Answers.{Finds};
ghost use Rattle.line_view.specs.Held.{knows};
ghost use Rattle.rdo_bind.specs.Acting.{act_of as bound_act_of, written_act, IsBoundAct};
ghost use Rattle.rdo_acts.specs.Ends.{reply_of};
ghost use Rattle.rdo_acts.specs.Acted.{AreNeeds, NamesNeeds};
ghost use Rattle.rdo_exec.specs.Coming.{IsCatalogOfKnown, Comes, ActStays};
ghost use Rattle.rdo_exec.specs.Acted.{found_refused, Lists, AreTogether, IsFoundOf};
ghost use Rattle.rdo_exec.specs.Needed.{ActNeeds};

use crate::records::{Returned, answered_by};
use crate::standing::standing_for;
use line_view::{Known, Need};
use rdb_checks::{Stop as CheckStop, check_action};
use rdb_types::{Copied, Items, Keys, NoMemory};
use rdo_acts::{Acted, Ended, Given, Outcome, Refusal, act, sources};
use rdo_ast::reply::{Reply, Standing};
use rdo_ast::syntax::Action;
use rdo_bind::{BoundAction, bind_action};
use rdo_select::Sources;
use session_jobs::{Found, TxRecord};
use std::alloc::Global;
use stored_schema::Schema;

// Names in the order of the text, then reservations, then types.
fn bound_in(
    alloc: Global,
    schema: &Schema,
    standing: &Standing,
    action: &Action,
) -> Result<BoundAction, CheckStop>
    ensures refusal { Finds result (act_refusal (act_of action.now) standing.now schema.now.tables) }
    ensures written { IfOk result (λ bound. written_act bound ≡ act_of action.now) }
    ensures bound { IfOk result (λ bound. IsBoundAct (bound_act_of bound) schema.now.tables []) }
{
    let tables = &schema.catalog().tables;
    check_action(alloc, tables, standing, action)?;
    bind_action(alloc, tables, &Items::new(alloc), action)
}

// The reply of a refusal on the way; none where no script gives such a row, or it has no room.
fn reply_to(alloc: Global, refusal: Refusal<'_>) -> Result<Option<Reply>, NoMemory>
    ensures { IfOk result (λ reply. reply ≡ reply_of refusal.entry) }
{
    match refusal {
        Refusal::Overflow => Ok(Some(Reply::Overflow)),
        Refusal::TooLong => Ok(Some(Reply::TooLong)),
        Refusal::Duplicate(index) => Ok(Some(Reply::Duplicate(index.copied(alloc)?))),
        Refusal::Unwritten(_) => Ok(None),
    }
}

fn refused(alloc: Global, refusal: Refusal<'_>, given: Keys, behind: Standing) -> Found
    ensures { (result ≡ found_refused (reply_of refusal.entry) given behind) ⊎ (result ≡ Found.NoMemory) }
{
    match reply_to(alloc, refusal) {
        Ok(Some(reply)) => Found::Done(TxRecord {
            choices: given,
            reply,
            standing: behind,
            writes: Items::new(alloc),
        }),
        Ok(None) => Found::Unworked,
        Err(_) => Found::NoMemory,
    }
}

// The need that the work wants next, and those behind it.
fn lacking(known: &Known, needs: Items<Need>) -> Found
    requires { AreNeeds needs (knows known.now) }
    ensures { Lists needs (knows known.now) result }
{
    let mut later = needs;
    let next = later.remove(0);
    Found::Missing { next, later }
}

fn found_of(alloc: Global, known: &Known, outcome: Outcome<'_>, behind: Standing) -> Found
    requires { NamesNeeds outcome (knows known.now) }
    ensures { IsFoundOf outcome.entry (knows known.now) behind result }
{
    match outcome {
        Outcome::Done(
            Acted {
                lines,
                given,
                writes,
            },
        ) => Found::Done(TxRecord {
            choices: given,
            reply: Reply::Done(lines),
            standing: behind,
            writes,
        }),
        Outcome::Refused { refusal, given } => refused(alloc, refusal, given, behind),
        Outcome::Missing(needs) => lacking(known, needs),
        Outcome::Bad(key) => Found::Bad(key),
        Outcome::NoMemory => Found::NoMemory,
    }
}

// Does a bound action, where these are the sources of the catalog.
fn run_from<'a>(
    alloc: Global,
    schema: &'a Schema,
    sources: &'a Sources<'a>,
    action: &BoundAction,
    behind: Standing,
    known: Known,
) -> Returned
    requires together { AreTogether schema.now sources.now.entries }
    requires catalog { IsCatalogOfKnown (knows known) schema.now }
    requires bound { IsBoundAct (bound_act_of action.now) schema.now.tables [] }
    ensures known { result.known ≡ known }
    ensures stays { ActStays (written_act action.now) (knows known) result.found }
    ensures needs { ActNeeds (written_act action.now) (knows known) result.found }
    ensures comes { (word : List ℕ) (standing : State) → act_refusal (written_act action.now) standing schema.now.tables ≡ None → behind ≡ standing_for (written_act action.now) standing
        → Comes word standing (said (perform (written_act action.now))) (knows known) result.found }
{
    let given = Given {
        alloc,
        schema,
        sources,
    };
    let Ended { known, outcome } = act(&given, known, action);
    let found = found_of(alloc, &known, outcome, behind);
    Returned { known, found }
}

// The same, with the sources for its own, so that they end before the catalog.
fn run_with<'a>(
    alloc: Global,
    schema: &'a Schema,
    sources: Sources<'a>,
    action: &BoundAction,
    behind: Standing,
    known: Known,
) -> Returned
    requires together { AreTogether schema.now sources.entries }
    requires catalog { IsCatalogOfKnown (knows known) schema.now }
    requires bound { IsBoundAct (bound_act_of action.now) schema.now.tables [] }
    ensures known { result.known ≡ known }
    ensures stays { ActStays (written_act action.now) (knows known) result.found }
    ensures needs { ActNeeds (written_act action.now) (knows known) result.found }
    ensures comes { (word : List ℕ) (standing : State) → act_refusal (written_act action.now) standing schema.now.tables ≡ None → behind ≡ standing_for (written_act action.now) standing
        → Comes word standing (said (perform (written_act action.now))) (knows known) result.found }
{
    run_from(alloc, schema, &sources, action, behind, known)
}

// Does a bound action.
fn run(
    alloc: Global,
    schema: &Schema,
    action: &BoundAction,
    behind: Standing,
    known: Known,
) -> Returned
    requires catalog { IsCatalogOfKnown (knows known) schema.now }
    requires bound { IsBoundAct (bound_act_of action.now) schema.now.tables [] }
    ensures known { result.known ≡ known }
    ensures stays { ActStays (written_act action.now) (knows known) result.found }
    ensures needs { ActNeeds (written_act action.now) (knows known) result.found }
    ensures comes { (word : List ℕ) (standing : State) → act_refusal (written_act action.now) standing schema.now.tables ≡ None → behind ≡ standing_for (written_act action.now) standing
        → Comes word standing (said (perform (written_act action.now))) (knows known) result.found }
{
    match sources(alloc, schema) {
        Ok(sources) => run_with(alloc, schema, sources, action, behind, known),
        Err(_) => Returned {
            known,
            found: Found::NoMemory,
        },
    }
}

// The same, where memory may have failed.
fn run_behind(
    alloc: Global,
    schema: &Schema,
    action: &BoundAction,
    behind: Result<Standing, NoMemory>,
    known: Known,
) -> Returned
    requires catalog { IsCatalogOfKnown (knows known) schema.now }
    requires bound { IsBoundAct (bound_act_of action.now) schema.now.tables [] }
    ensures known { result.known ≡ known }
    ensures stays { ActStays (written_act action.now) (knows known) result.found }
    ensures needs { ActNeeds (written_act action.now) (knows known) result.found }
    ensures comes { (word : List ℕ) (standing : State) → act_refusal (written_act action.now) standing schema.now.tables ≡ None → IfOk behind (λ left. left ≡ standing_for (written_act action.now) standing)
        → Comes word standing (said (perform (written_act action.now))) (knows known) result.found }
{
    match behind {
        Ok(behind) => run(alloc, schema, action, behind, known),
        Err(_) => Returned {
            known,
            found: Found::NoMemory,
        },
    }
}

/// Does an action over what is known, by this catalog.
pub(crate) fn act_by(
    alloc: Global,
    schema: &Schema,
    standing: &Standing,
    action: &Action,
    known: Known,
) -> Returned
    requires catalog { IsCatalogOfKnown (knows known) schema.now }
    ensures known { result.known ≡ known }
    ensures stays { ActStays (act_of action.now) (knows known) result.found }
    ensures needs { ActNeeds (act_of action.now) (knows known) result.found }
    ensures comes { (word : List ℕ) → Comes word standing.now (said (perform (act_of action.now))) (knows known) result.found }
{
    let behind = standing_for(alloc, standing, action);
    match bound_in(alloc, schema, standing, action) {
        Ok(bound) => run_behind(alloc, schema, &bound, behind, known),
        Err(CheckStop::Refused(reply)) => Returned {
            known,
            found: answered_by(alloc, Ok(reply), behind),
        },
        Err(CheckStop::Memory) => Returned {
            known,
            found: Found::NoMemory,
        },
    }
}
