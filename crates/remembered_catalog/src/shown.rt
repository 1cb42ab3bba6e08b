// A catalog beside the lines that it was read from.
ghost use Rattle.std.specs.Prelude.{◌≡◌, true, IfSome};
ghost use Rattle.line_view.specs.Held.{knows};
ghost use Rattle.sound_maps.specs.Maps.{IsSoundWith};
ghost use Rattle.session_jobs.specs.Jobs.{IsFoundFor, HasCause, NamesOnce};
ghost use Rattle.rdo_exec.specs.Left.{IsLeft};
ghost use Rattle.remembered_catalog.specs.Part.{IsPartOf};

use crate::part::CatalogPart;
use catalog::read_catalog;
use line_view::Known;
use rdo_exec::RdoStatements;
use session_jobs::{Answer, Found, Job, Statements};
use std::alloc::Global;
use std::marker::Model;
use stored_schema::Schema;

/// A catalog, and the lines that it was read from.
#[derive(Drop)]
pub(crate) struct Shown {
    part: CatalogPart,
    schema: Schema,
}

impl Model for Shown {
    ghost use Rattle.remembered_catalog.specs.Shown.{Shown as Shows, IsOfPart};

    ghost Value = { Shows };

    ghost view = { λ s. record { part = s.part; schema = s.schema } };

    ghost invariant = { λ s. IsOfPart (record { part = s.part; schema = s.schema }) };
}

/// A job that was worked by a catalog, what it came to, and the catalog.
#[derive(Drop)]
pub(crate) struct Worked {
    pub job: Job,
    pub found: Found,
    pub shown: Option<Shown>,
}

impl Shown {
    /// The catalog of what is known, where it can be read and there is memory for it.
    pub(crate) fn of(alloc: Global, known: &Known) -> Option<Shown>
        ensures { IfSome result (λ shown. IsPartOf (knows known.now) shown.part) }
    {
        let Ok(Some(part)) = CatalogPart::of(alloc, known) else {
            return None;
        };
        let Ok(catalog) = read_catalog(alloc, &part) else {
            return None;
        };
        match Schema::new(alloc, catalog) {
            Ok(schema) => Some(Shown { part, schema }),
            Err(_) => None,
        }
    }

    /// Whether each of its lines is known the same, and no others of the catalog's area.
    pub(crate) fn is_shown_by(&self, known: &Known) -> bool
        ensures { result ≡ true → IsPartOf (knows known.now) (self.now).part }
    {
        self.part.is_part_of(known)
    }

    /// What a job comes to that knows these lines.
    pub(crate) fn work(self, job: Job) -> Worked
        requires { IsPartOf (knows job.known) self.part }
        ensures job { result.job ≡ job }
        ensures right { IsFoundFor IsSoundWith job result.found }
        ensures cause { HasCause IsLeft job result.found }
        ensures once { NamesOnce result.found }
    {
        let Shown { part, schema } = self;
        let Answer { job, kept, found } = RdoStatements::work(job, Some(schema));
        let shown = match kept {
            Some(schema) => Some(Shown { part, schema }),
            None => None,
        };
        Worked { job, found, shown }
    }
}
