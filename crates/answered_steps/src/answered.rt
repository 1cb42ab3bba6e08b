//! A statement whose job was worked outside the lock: what it came to is taken.
ghost use Rattle.std.specs.Prelude.{◌≡◌, ℕ};
ghost use Rattle.line_store.specs.Seats.{IsMember};
ghost use Rattle.job_steps.specs.session_stands.Seated.{IsSeated};
ghost use Rattle.job_steps.specs.session_measure.Nearer.{AreRounds};
ghost use Rattle.job_steps.specs.stage_steps.Scenes.{ComesIn, scene};
ghost use Rattle.answered_steps.specs.Absences.{phase_with};

use job_steps::{Common, ReaderTerms, Terms, Turned, take_found, take_found_reading};
use lent_jobs::WorkedJob;
use line_store::LineStore;
use rdb_types::Session;
use reserved_locks::Reserves;

/// What a transaction has beside the job of its statement, while that is out.
#[derive(Clone, Copy)]
pub enum Absence {
    Writing { spoken: bool, waits: bool },
    Reading { spoken: bool },
}

/// Takes what a job came to that was worked in a database of this word.
pub fn take_answered<S: Reserves, L: LineStore>(
    common: &mut Common<L>,
    s: Session,
    absence: Absence,
    worked: WorkedJob<S>,
) -> Turned
    requires member { IsMember s.number }
    requires seated { IsSeated (L.sight common.old.store).stand common.old.tree s.number (phase_with absence worked.job) }
    requires word { worked.job.word ≡ common.old.word }
    ensures comes { ComesIn S.stands s.number (scene common.old.word (L.sight common.old.store) common.old.tree) (phase_with absence worked.job)
        (scene common.new.word (L.sight common.new.store) common.new.tree) result.phase result.happened }
    ensures rounds { (rounds : ℕ) → AreRounds (phase_with absence worked.job) result.phase rounds rounds }
{
    let (job, found) = worked.into_parts();
    match absence {
        Absence::Writing { spoken, waits } => {
            let terms = Terms {
                standing: job.standing,
                known: job.known,
                spoken,
                waits,
            };
            take_found::<S, L>(common, s, terms, job.item, found)
        }
        Absence::Reading { spoken } => {
            let terms = ReaderTerms {
                standing: job.standing,
                known: job.known,
                spoken,
            };
            let store = &mut common.store;
            take_found_reading::<S, L>(common.alloc, store, s, terms, job.item, found)
        }
    }
}
