// Who works statements over lines.
ghost use Rattle.std.specs.Prelude.{◌≡◌, ℕ, List, None, Some, Ok, IfOk, IfErr};
ghost use Rattle.rdo_ast.specs.Tree.{said};
ghost use Rattle.rdo_ast.specs.Views.{command_of, uttered_of};
ghost use Rattle.rdo_ast.specs.declared.reply.Standing.TheVariants.{Closed as closed};
ghost use Rattle.rdb_meaning.specs.Meaning.{standing_refusal};
ghost use Rattle.rdb_account.specs.Lawful.{first_refusal as refusal_first};
ghost use Rattle.rdb_account.specs.Places.{begins};
ghost use Rattle.line_view.specs.Held.{knows};
ghost use Rattle.catalog.specs.declared.reading.Catalog.{Catalog};
ghost use Rattle.catalog.specs.Reading.{IsWhole, StopsCatalog};
ghost use Rattle.sound_maps.specs.Maps.{IsSoundWith};
ghost use Rattle.session_jobs.specs.Jobs.{IsFound, IsFoundFor, HasCause, NamesOnce, IsOutside, NamesNoNeed};
ghost use Rattle.rdo_exec.specs.Acted.{IsSettled};
ghost use Rattle.rdo_exec.specs.Answers.{IsAnswered};
ghost use Rattle.rdo_exec.specs.Left.{IsLeft};
ghost use Rattle.rdo_exec.specs.Needed.{ItemNeeds};
ghost use Rattle.rdo_exec.specs.Ways.{IsBare, IsReserving, IsViewing};
ghost use Rattle.rdo_exec.specs.Coming.{IsCatalogOfKnown, Asks, Comes, FitsKnown};
ghost use Rattle.rdo_exec.specs.Lasting.{StaysKept};

use crate::acting::act_by;
use crate::bare::act_bare;
use crate::defining::{define_by, reserve};
use crate::plain::plain;
use crate::records::{Returned, Worked, answered_by, stopped};
use crate::schema::schema_of;
use crate::standing::first_refusal;
use crate::way::{Way, way_of};
use line_view::{Known, Never, Stop};
use rdb_types::{Copied, Word};
use rdo_ast::reply::Standing;
use rdo_ast::syntax::{Item, Statement};
use session_jobs::{Answer, Found, Job, Statements};
use std::alloc::Global;
use stored_schema::Schema;

/// It works each statement over the lines that it reads, and over no others.
#[derive(Drop)]
pub struct RdoStatements {}

// An action that means the same over all tables.
fn bare(alloc: Global, standing: &Standing, statement: &Statement) -> Found
    requires { IsBare (command_of statement.now) }
    ensures { (word : List ℕ) → IsAnswered word standing.now (said (command_of statement.now)) result }
{
    match statement {
        Statement::Act(action) => act_bare(alloc, standing, action),
        _ => unreachable!(),
    }
}

// START_TRANSACTION with reservations, which the transaction that is open doesn't refuse.
fn reserving(alloc: Global, standing: &Standing, statement: &Statement, known: &Known) -> Found
    requires way { IsReserving (command_of statement.now) }
    requires standing { standing_refusal (command_of statement.now) standing.now ≡ None }
    ensures asked { Asks standing.now (said (command_of statement.now)) (knows known.now) result }
    ensures comes { (word : List ℕ) → Comes word standing.now (said (command_of statement.now)) (knows known.now) result }
{
    match statement {
        Statement::StartReadWrite { wait, reserved } => reserve(alloc, known, *wait, reserved),
        _ => unreachable!(),
    }
}

// Works a statement by the catalog that is known.
fn work_by(
    alloc: Global,
    schema: &Schema,
    standing: &Standing,
    statement: &Statement,
    known: Known,
) -> Returned
    requires catalog { IsCatalogOfKnown (knows known) schema.now }
    requires whole { IsWhole schema.now }
    requires way { IsViewing (command_of statement.now) }
    requires standing { standing_refusal (command_of statement.now) standing.now ≡ None }
    ensures known { result.known ≡ known }
    ensures asked { Asks standing.now (said (command_of statement.now)) (knows known) result.found }
    ensures needs { ItemNeeds (said (command_of statement.now)) (knows known) result.found }
    ensures comes { (word : List ℕ) → Comes word standing.now (said (command_of statement.now)) (knows known) result.found }
{
    match statement {
        Statement::Act(action) => act_by(alloc, schema, standing, action, known),
        _ => define_by(alloc, schema, standing, statement, known),
    }
}

// The catalog that was kept, or else that of what is known.
fn catalog_of(alloc: Global, known: &Known, kept: Option<Schema>) -> Result<Schema, Stop<Never>>
    requires { FitsKnown kept (knows known.now) }
    ensures catalog { IfOk result (IsCatalogOfKnown (knows known.now)) }
    ensures whole { IfOk result IsWhole }
    ensures stop { IfErr result (StopsCatalog (knows known.now)) }
    ensures same { (c : Catalog) → kept ≡ Some c → result ≡ Ok c }
{
    match kept {
        Some(schema) => Ok(schema),
        None => schema_of(alloc, known),
    }
}

// Works a statement over a view of its own.
fn viewed(
    alloc: Global,
    standing: &Standing,
    statement: &Statement,
    known: Known,
    kept: Option<Schema>,
) -> Worked
    requires way { IsViewing (command_of statement.now) }
    requires standing { standing_refusal (command_of statement.now) standing.now ≡ None }
    requires kept { FitsKnown kept (knows known) }
    ensures known { result.known ≡ known }
    ensures kept { FitsKnown result.kept (knows known) }
    ensures same { StaysKept kept result.kept }
    ensures asked { Asks standing.now (said (command_of statement.now)) (knows known) result.found }
    ensures needs { ItemNeeds (said (command_of statement.now)) (knows known) result.found }
    ensures comes { (word : List ℕ) → Comes word standing.now (said (command_of statement.now)) (knows known) result.found }
{
    let schema = match catalog_of(alloc, &known, kept) {
        Ok(schema) => schema,
        Err(stop) => {
            return Worked {
                known,
                kept: None,
                found: stopped(alloc, stop),
            };
        }
    };
    let Returned { known, found } = work_by(alloc, &schema, standing, statement, known);
    Worked {
        known,
        kept: Some(schema),
        found,
    }
}

// Works a statement that the transaction that is open doesn't refuse.
fn work_statement(
    alloc: Global,
    word: &Word,
    standing: &Standing,
    statement: &Statement,
    known: Known,
    kept: Option<Schema>,
) -> Worked
    requires standing { standing_refusal (command_of statement.now) standing.now ≡ None }
    requires kept { FitsKnown kept (knows known) }
    ensures known { result.known ≡ known }
    ensures kept { FitsKnown result.kept (knows known) }
    ensures same { StaysKept kept result.kept }
    ensures asked { Asks standing.now (said (command_of statement.now)) (knows known) result.found }
    ensures needs { ItemNeeds (said (command_of statement.now)) (knows known) result.found }
    ensures comes { Comes word.now standing.now (said (command_of statement.now)) (knows known) result.found }
    ensures outside { standing.now ≡ closed → begins (said (command_of statement.now)) ≡ None → IsSettled result.found }
{
    match way_of(statement) {
        Way::Acting => viewed(alloc, standing, statement, known, kept),
        Way::Defining => viewed(alloc, standing, statement, known, kept),
        Way::Plain => Worked {
            known,
            kept,
            found: plain(alloc, word, standing, statement),
        },
        Way::Bare => Worked {
            known,
            kept,
            found: bare(alloc, standing, statement),
        },
        Way::Reserving => {
            let found = reserving(alloc, standing, statement, &known);
            Worked { known, kept, found }
        }
        Way::Strange => Worked {
            known,
            kept,
            found: Found::Unworked,
        },
    }
}

// Works an item that the transaction that is open doesn't refuse.
fn work_on(
    alloc: Global,
    word: &Word,
    standing: &Standing,
    item: &Item,
    known: Known,
    kept: Option<Schema>,
) -> Worked
    requires standing { refusal_first standing.now (uttered_of item.now) ≡ None }
    requires kept { FitsKnown kept (knows known) }
    ensures known { result.known ≡ known }
    ensures kept { FitsKnown result.kept (knows known) }
    ensures same { StaysKept kept result.kept }
    ensures asked { Asks standing.now (uttered_of item.now) (knows known) result.found }
    ensures needs { ItemNeeds (uttered_of item.now) (knows known) result.found }
    ensures comes { Comes word.now standing.now (uttered_of item.now) (knows known) result.found }
    ensures outside { standing.now ≡ closed → begins (uttered_of item.now) ≡ None → IsSettled result.found }
{
    match item {
        Item::Statement(statement) => {
            work_statement(alloc, word, standing, statement, known, kept)
        }
        Item::SyntaxAt { .. } => unreachable!(),
    }
}

// Works an item: what the transaction that is open refuses comes first.
fn worked(
    alloc: Global,
    word: &Word,
    standing: &Standing,
    item: &Item,
    known: Known,
    kept: Option<Schema>,
) -> Worked
    requires { FitsKnown kept (knows known) }
    ensures known { result.known ≡ known }
    ensures kept { FitsKnown result.kept (knows known) }
    ensures same { StaysKept kept result.kept }
    ensures right { IsFound IsSoundWith word.now standing.now (uttered_of item.now) (knows known) result.found }
    ensures left { result.found ≡ Found.Unworked → IsLeft word.now standing.now (uttered_of item.now) (knows known) }
    ensures once { NamesOnce result.found }
    ensures needs { ItemNeeds (uttered_of item.now) (knows known) result.found }
    ensures outside { standing.now ≡ closed → begins (uttered_of item.now) ≡ None → IsSettled result.found }
{
    match first_refusal(standing, item) {
        Some(reply) => Worked {
            known,
            kept,
            found: answered_by(alloc, Ok(reply), standing.copied(alloc)),
        },
        None => work_on(alloc, word, standing, item, known, kept),
    }
}

impl Statements for RdoStatements {
    ghost use Rattle.sound_maps.specs.Maps.{IsSoundWith};
    ghost use Rattle.sound_maps.specs.Laws.{orderly, empty};
    ghost use Rattle.rdo_exec.specs.Coming.{FitsKnown};
    ghost use Rattle.rdo_exec.specs.Left.{IsLeft};
    ghost use Rattle.rdo_exec.specs.Lasting.{lasts};

    // The catalog of what is known, once it was read.
    type Kept = Option<Schema>;

    ghost stands = { IsSoundWith };

    ghost fits = { FitsKnown };

    ghost leaves = { IsLeft };

    fn nothing() -> Option<Schema> {
        None
    }

    // Beside what each executor promises: what the item lacks first; that what begins no transaction and is said outside one is answered, unless memory fails; and that what was kept is kept.
    fn work(job: Job, kept: Option<Schema>) -> Answer<Option<Schema>>
        requires { FitsKnown kept (knows job.known) }
        ensures job { result.job ≡ job }
        ensures kept { FitsKnown result.kept (knows job.known) }
        ensures right { IsFoundFor IsSoundWith job result.found }
        ensures cause { HasCause IsLeft job result.found }
        ensures once { NamesOnce result.found }
        ensures outside { IsOutside job → NamesNoNeed result.found }
        ensures needs { ItemNeeds (uttered_of job.item) (knows job.known) result.found }
        ensures settled { IsOutside job → IsSettled result.found }
        ensures same { StaysKept kept result.kept }
    {
        let Job {
            alloc,
            word,
            standing,
            item,
            known,
        } = job;
        let Worked { known, kept, found } = worked(alloc, &word, &standing, &item, known, kept);
        Answer {
            job: Job {
                alloc,
                word,
                standing,
                item,
                known,
            },
            kept,
            found,
        }
    }

    ghost orderly = { orderly };

    ghost empty = { empty };

    ghost lasts = { lasts };
}
