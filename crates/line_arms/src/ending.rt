//! The end of a read-write transaction, step by step.
ghost use Rattle.std.specs.Prelude.{◌≡◌};
ghost use Rattle.line_store.specs.Seats.{IsMember};
ghost use Rattle.job_steps.specs.session_stands.Seated.{IsSeated};
ghost use Rattle.job_steps.specs.stage_steps.Scenes.{ComesIn, scene};
ghost use Rattle.job_steps.specs.stage_steps.Turns.{at_stage};
ghost use Rattle.line_arms.specs.Going.{IsAmong};

use job_steps::{
    Common, End, Stage, Terms, Turned, commit, go_away, land, prepare, quiet, roll_back,
    want_journal,
};
use line_store::LineStore;
use rdb_types::{Level, Node, Session};
use session_jobs::Statements;

/// The after-image journal.
const JOURNAL: Node = Node {
    level: Level::Journal,
    area: 0,
    at: 0,
    line: 0,
};

/// One step of a transaction's end.
pub(crate) fn go_on_ending<S: Statements, L: LineStore>(
    common: &mut Common<L>,
    s: Session,
    terms: Terms,
    end: End,
) -> Turned
    requires member { IsMember s.number }
    requires seated { IsSeated (L.sight common.old.store).stand common.old.tree s.number (at_stage terms (Stage.Ending end)) }
    requires among { IsAmong (L.sight common.old.store).stand common.old.tree s.number }
    ensures { ComesIn S.stands s.number (scene common.old.word (L.sight common.old.store) common.old.tree) (at_stage terms (Stage.Ending end))
        (scene common.new.word (L.sight common.new.store) common.new.tree) result.phase result.happened }
{
    match end {
        End::Preparing => prepare::<S, L>(common, s, terms),
        End::Journal => want_journal::<S, L>(common, s, terms),
        End::Ready => begin_commit::<S, L>(common, s, terms),
        End::Committing => land::<S, L>(common, s, terms),
        End::RollingBack => roll_back::<S, L>(common, s, terms),
        End::Leaving => go_away::<S, L>(common, s, terms),
    }
}

// Who has got the journal is alone in its commit.
fn begin_commit<S: Statements, L: LineStore>(
    common: &mut Common<L>,
    s: Session,
    terms: Terms,
) -> Turned
    requires member { IsMember s.number }
    requires seated { IsSeated (L.sight common.old.store).stand common.old.tree s.number (at_stage terms (Stage.Ending End.Ready)) }
    requires among { IsAmong (L.sight common.old.store).stand common.old.tree s.number }
    ensures { ComesIn S.stands s.number (scene common.old.word (L.sight common.old.store) common.old.tree) (at_stage terms (Stage.Ending End.Ready))
        (scene common.new.word (L.sight common.new.store) common.new.tree) result.phase result.happened }
{
    // (so what it has got is apart from what others have got)
    let _mode = common.tree.mode_of(s.number, JOURNAL);
    quiet(commit::<S, L>(&mut common.store, s, terms))
}
