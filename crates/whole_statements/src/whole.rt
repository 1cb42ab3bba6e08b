ghost use Rattle.std.specs.Prelude.{◌≡◌, false};
ghost use Rattle.rdo_ast.specs.Views.{uttered_of};
ghost use Rattle.rdb_meaning.specs.Contents.{no_tables as empty_tables};
ghost use Rattle.session_jobs.specs.Asked.{locks};
ghost use Rattle.session_jobs.specs.Jobs.{IsFoundFor, HasCause, NamesOnce, IsOutside, NamesNoNeed};
ghost use Rattle.whole_statements.specs.Standings.{IsReading};
ghost use Rattle.whole_statements.specs.Ways.{TakesLocks};
ghost use Rattle.sound_maps.specs.Maps.{IsSoundWith};
ghost use Rattle.whole_statements.specs.Sound.{DoneOn};

use crate::way::{Way, way_of};
use line_view::Stop;
use ordered_entries::Entries;
use rdb_meaning::Tables;
use rdb_tables::does;
use rdb_types::Items;
use session_jobs::{Answer, Found, Job, Statements, TxRecord};
use sound_lines::read_tables;
use std::alloc::Global;

/// It works a statement over all tables of what is known.
#[derive(Drop)]
pub struct WholeStatements {}

fn no_tables(alloc: Global) -> Tables
    ensures { result ≡ empty_tables }
{
    Tables {
        globals: Entries::new(alloc),
        relations: Entries::new(alloc),
        indexes: Entries::new(alloc),
    }
}

// Does the job's item on these tables, which it leaves.
fn do_on(tables: Tables, job: &Job) -> Found
    requires { IsReading job.now.standing }
    ensures { DoneOn job.now.word job.now.standing (uttered_of job.now.item) tables result }
{
    let mut tables = tables;
    match does(
        &mut tables,
        job.alloc,
        &job.word,
        &job.standing,
        &job.item,
        &[],
    ) {
        Ok(told) => Found::Done(TxRecord {
            choices: told.taken,
            reply: told.reply,
            standing: told.standing,
            writes: Items::new(job.alloc),
        }),
        Err(_) => Found::NoMemory,
    }
}

// Reads the tables, and does the job's item on them.
fn read_and_do(job: &Job) -> Found
    requires reads { IsReading job.now.standing }
    requires locks { locks job.now.standing (uttered_of job.now.item) ≡ false }
    ensures right { IsFoundFor IsSoundWith job.now result }
    ensures cause { HasCause TakesLocks job.now result }
    ensures once { NamesOnce result }
{
    match read_tables(job.alloc, &job.known) {
        Ok(tables) => do_on(tables, job),
        Err(Stop::Missing(need)) => Found::Missing {
            next: need,
            later: Items::new(job.alloc),
        },
        Err(Stop::Bad(key)) => Found::Bad(key),
        Err(Stop::NoMemory) => Found::NoMemory,
    }
}

// What the job comes to.
fn found_for(job: &Job) -> Found
    ensures right { IsFoundFor IsSoundWith job.now result }
    ensures cause { HasCause TakesLocks job.now result }
    ensures once { NamesOnce result }
    ensures outside { IsOutside job.now → NamesNoNeed result }
{
    match way_of(&job.standing, &job.item) {
        Way::Locking => Found::Unworked,
        Way::Unread => do_on(no_tables(job.alloc), job),
        Way::Reading => read_and_do(job),
    }
}

impl Statements for WholeStatements {
    ghost use Rattle.sound_maps.specs.Maps.{IsSoundWith};
    ghost use Rattle.sound_maps.specs.Laws.{orderly, empty};
    ghost use Rattle.whole_statements.specs.Ways.{TakesLocks};

    // Nothing is kept: each job reads all tables.
    type Kept = ();

    ghost stands = { IsSoundWith };

    ghost fits = { λ kept known. Unit {0} };

    ghost leaves = { TakesLocks };

    fn nothing() {}

    fn work(job: Job, kept: ()) -> Answer<()> {
        let found = found_for(&job);
        Answer { job, kept, found }
    }

    ghost orderly = { orderly };

    ghost empty = { empty };

    ghost lasts = { λ kept old new fits same. tt };
}
