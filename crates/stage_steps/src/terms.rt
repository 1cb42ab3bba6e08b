// Transactions without their stage.
ghost use Rattle.std.specs.Prelude.{◌≡◌};
ghost use Rattle.stage_steps.specs.Turns.{at_stage, reads_at};

use line_view::Known;
use rdo_ast::reply::Standing;
use session_limits::{Phase, Reader, ReaderStage, Stage, Writer};

/// What a read-write transaction has beside its stage.
#[derive(Drop)]
pub struct Terms {
    pub standing: Standing,
    pub known: Known,
    /// Something was said in it.
    pub spoken: bool,
    /// It waits for locks.
    pub waits: bool,
}

impl Terms {
    /// The transaction at a stage.
    pub fn at(self, stage: Stage) -> Phase
        ensures { result ≡ at_stage self stage }
    {
        Phase::Writing(Writer {
            standing: self.standing,
            known: self.known,
            spoken: self.spoken,
            waits: self.waits,
            stage,
        })
    }
}

/// What a read-only transaction has beside its stage.
#[derive(Drop)]
pub struct ReaderTerms {
    pub standing: Standing,
    pub known: Known,
    /// Something was said in it.
    pub spoken: bool,
}

impl ReaderTerms {
    /// The transaction at a stage.
    pub fn at(self, stage: ReaderStage) -> Phase
        ensures { result ≡ reads_at self stage }
    {
        Phase::Reading(Reader {
            standing: self.standing,
            known: self.known,
            spoken: self.spoken,
            stage,
        })
    }
}
