//! A session that dies, and its recovery.
ghost use Rattle.std.specs.Prelude.{◌≡◌, ℕ, List, true};
ghost use Rattle.line_store.specs.Seats.{IsAlive, IsMember};
ghost use Rattle.lock_tree_laws.specs.Forest.{State};
ghost use Rattle.session_limits.specs.session_states.declared.stage.Phase.{Phase};
ghost use Rattle.stage_steps.specs.Deaths.{DiesIn, RecoversIn};
ghost use Rattle.stage_steps.specs.Scenes.{scene};

use crate::common::Common;
use line_store::{Fault, LineStore, Stepped};
use rdb_types::{Moment, Session};
use session_jobs::Statements;

/// How far the recovery of a session has come.
#[derive(Clone, Copy, Debug)]
pub enum Recovery {
    /// There is more to do.
    More,
    /// Its transaction is undone, or its commit stands.
    Done { is_committed: bool, moment: Moment },
}

/// The session dies where it stands, and keeps its locks.
pub fn die<S: Statements, L: LineStore>(store: &mut L, s: Session)
    requires member { IsMember s.number }
    requires alive { IsAlive ((L.sight store.old).stand s.number) }
    ensures { (word : List ℕ) (locks : State) (x : Phase) → DiesIn S.stands s.number x (scene word (L.sight store.old) locks) (scene word (L.sight store.new) locks) }
{
    store.die(s);
}

/// One step of the recovery of a session that died. Once the store has undone it, or says that its commit stands, its locks are
/// released.
///
/// Fails where a device call does, or a slot isn't what it has to be; the session awaits its recovery still.
pub fn recover<S: Statements, L: LineStore>(
    common: &mut Common<L>,
    s: Session,
) -> Result<Recovery, Fault>
    requires member { IsMember s.number }
    requires died { IsAlive ((L.sight common.old.store).stand s.number) → ⊥ }
    ensures { (x : Phase) → RecoversIn S.stands s.number x (scene common.old.word (L.sight common.old.store) common.old.tree) (scene common.new.word (L.sight common.new.store) common.new.tree) result }
{
    match common.store.step(s) {
        Ok(
            Stepped::Recovered {
                is_committed,
                moment,
            },
        ) => {
            common.tree.release_all(s.number);
            Ok(Recovery::Done {
                is_committed,
                moment,
            })
        }
        Ok(Stepped::More) => Ok(Recovery::More),
        Ok(Stepped::Done) | Ok(Stepped::Committed(_)) => unreachable!(),
        Err(fault) => Err(fault),
    }
}
