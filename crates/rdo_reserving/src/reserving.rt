ghost use Rattle.std.specs.Prelude.{◌≢◌, [], IfOk, IfErr};
ghost use Rattle.line_view.specs.Held.{knows};
ghost use Rattle.sound_maps.specs.Maps.{IsSoundWith};
ghost use Rattle.session_jobs.specs.Jobs.{WhereItAgrees};
ghost use Rattle.reserved_locks.specs.Reserved.{AreLocksOf, AreOnAreas, IsUnnamed};

use crate::reaching::reached_by_catalog;
use catalog::read_catalog;
use lent_jobs::Remembers;
use line_view::{Known, Stop};
use rdb_types::NoMemory;
use rdo_ast::reply::Standing;
use rdo_ast::syntax::{Item, Reservation};
use reached_changes::Reaches;
use remembered_catalog::{CatalogMemory, RdoStatements};
use reserved_locks::{LockNeeds, Reserves, Unnamed, locks_in};
use session_jobs::{Answer, Job, Statements};
use std::alloc::Global;
use stored_schema::Schema;

/// It works statements as `RdoStatements` does, and remembers the catalog from job to job; and by the catalog of what is known it names
/// the locks of reservations, and tells of changes that nothing refuses before their work.
#[derive(Drop)]
pub struct ReservingStatements {}

impl Statements for ReservingStatements {
    ghost use Rattle.sound_maps.specs.Maps.{IsSoundWith};
    ghost use Rattle.sound_maps.specs.Laws.{orderly, empty};
    ghost use Rattle.remembered_catalog.specs.rdo_exec.Coming.{FitsKnown};
    ghost use Rattle.remembered_catalog.specs.rdo_exec.Left.{IsLeft};
    ghost use Rattle.remembered_catalog.specs.rdo_exec.Lasting.{lasts};

    type Kept = Option<Schema>;

    ghost stands = { IsSoundWith };

    ghost fits = { FitsKnown };

    ghost leaves = { IsLeft };

    fn nothing() -> Option<Schema> {
        RdoStatements::nothing()
    }

    fn work(job: Job, kept: Option<Schema>) -> Answer<Option<Schema>> {
        RdoStatements::work(job, kept)
    }

    ghost orderly = { orderly };

    ghost empty = { empty };

    ghost lasts = { lasts };
}

impl Remembers for ReservingStatements {
    type Memory = CatalogMemory;

    fn nothing_yet() -> CatalogMemory {
        CatalogMemory::new()
    }

    fn work_again(job: Job, memory: &mut CatalogMemory) -> Answer<()> {
        memory.work(job)
    }
}

// The locks of reservations, by the catalog of what is known.
fn locks_by_catalog(
    alloc: Global,
    known: &Known,
    reserved: &[Reservation],
) -> Result<LockNeeds, Unnamed>
    requires { reserved.now ≢ [] }
    ensures locks { IfOk result (λ locks. WhereItAgrees IsSoundWith (knows known.now) (λ t. AreLocksOf reserved.now t locks)) }
    ensures areas { IfOk result AreOnAreas }
    ensures cause { IfErr result (IsUnnamed IsSoundWith (knows known.now) reserved.now) }
{
    let catalog = match read_catalog(alloc, known) {
        Ok(catalog) => catalog,
        Err(Stop::Missing(need)) => return Err(Unnamed::Lacking(need)),
        Err(Stop::Bad(_)) => return Err(Unnamed::Unknown),
        Err(Stop::NoMemory) => return Err(Unnamed::NoMemory),
    };
    match locks_in(alloc, &catalog.tables, reserved) {
        Ok(Some(locks)) => Ok(locks),
        Ok(None) => Err(Unnamed::Unknown),
        Err(_) => Err(Unnamed::NoMemory),
    }
}

impl Reserves for ReservingStatements {
    fn reserved_locks(
        alloc: Global,
        known: &Known,
        reserved: &[Reservation],
    ) -> Result<LockNeeds, Unnamed> {
        locks_by_catalog(alloc, known, reserved)
    }
}

impl Reaches for ReservingStatements {
    fn is_reached(
        alloc: Global,
        known: &Known,
        standing: &Standing,
        item: &Item,
    ) -> Result<bool, NoMemory> {
        reached_by_catalog(alloc, known, standing, item)
    }
}
