// Jobs worked by what is remembered of the catalog.
ghost use Rattle.std.specs.Prelude.{◌≡◌, true, IfSome};
ghost use Rattle.line_view.specs.Held.{knows};
ghost use Rattle.sound_maps.specs.Maps.{IsSoundWith};
ghost use Rattle.session_jobs.specs.Jobs.{IsFoundFor, HasCause, NamesOnce};
ghost use Rattle.rdo_exec.specs.Left.{IsLeft};
ghost use Rattle.remembered_catalog.specs.Part.{IsPartOf};

use crate::shown::{Shown, Worked};
use line_view::Known;
use rdo_exec::{RdoStatements, is_viewed};
use session_jobs::{Answer, Job, Statements};
use std::alloc::Global;

/// The catalog that a job before had, whosever it was, if one had some.
#[derive(Drop)]
pub struct CatalogMemory {
    shown: Option<Shown>,
}

// What a job comes to by the catalog that it knows.
fn work_alone(job: Job) -> Answer<()>
    ensures job { result.job ≡ job }
    ensures right { IsFoundFor IsSoundWith job result.found }
    ensures cause { HasCause IsLeft job result.found }
    ensures once { NamesOnce result.found }
{
    let Answer {
        job,
        kept: _,
        found,
    } = RdoStatements::work(job, None);
    Answer {
        job,
        kept: (),
        found,
    }
}

impl CatalogMemory {
    /// Nothing is remembered.
    pub fn new() -> CatalogMemory {
        CatalogMemory { shown: None }
    }

    // Takes what is remembered, if what is known shows the same; or else the catalog of what is known, if that can be read. What is known of no catalog leaves what is remembered.
    fn take(&mut self, alloc: Global, known: &Known) -> Option<Shown>
        ensures { IfSome result (λ shown. IsPartOf (knows known.now) shown.part) }
    {
        if let Some(shown) = self.shown.take() {
            if shown.is_shown_by(known) {
                return Some(shown);
            }
            self.shown = Some(shown);
        }
        Shown::of(alloc, known)
    }

    /// What a job comes to. Where its item wants the catalog, and what it knows shows the catalog that is remembered, that is not read again; and the catalog that it was worked by is remembered.
    pub fn work(&mut self, job: Job) -> Answer<()>
        ensures job { result.job ≡ job }
        ensures right { IsFoundFor IsSoundWith job result.found }
        ensures cause { HasCause IsLeft job result.found }
        ensures once { NamesOnce result.found }
    {
        if !is_viewed(&job.item) {
            return work_alone(job);
        }
        match self.take(job.alloc, &job.known) {
            Some(shown) => {
                let Worked { job, found, shown } = shown.work(job);
                self.shown = shown;
                Answer {
                    job,
                    kept: (),
                    found,
                }
            }
            None => work_alone(job),
        }
    }
}
