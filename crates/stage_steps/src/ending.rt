//! The end of a read-write transaction.
ghost use Rattle.std.specs.Prelude.{◌≡◌, ℕ, List, [], false, true, None, Some};
ghost use Rattle.journal_waits.specs.Holders.{OthersKeepTo};
ghost use Rattle.session_limits.specs.line_steps.Images.{journal_node};
ghost use Rattle.line_store.specs.Seats.{done_at, is_committing, outside, IsMember, IsPrepared, IsWriting};
ghost use Rattle.line_store.specs.Sights.{StandsAlone};
ghost use Rattle.lock_needs.specs.Waits.{converts_at};
ghost use Rattle.lock_tree_laws.specs.Forest.{State, opened_of};
ghost use Rattle.lock_tree_laws.specs.Wanted.{needs_of};
ghost use Rattle.stage_steps.specs.Scenes.{ComesIn, EndsIn, scene};
ghost use Rattle.stage_steps.specs.Turns.{at_stage};

use crate::common::Common;
use crate::happening::{Happening, Turned, failed, quiet};
use crate::journal::want_journal;
use crate::limits::refuse_at_limit;
use crate::storing::work_on;
use crate::terms::Terms;
use crate::working::forgo;
use line_store::{CommitStop, LineStore, Progress, Stepped};
use rdb_types::Session;
use rdo_ast::reply::Reply;
use rdo_ast::syntax::{Item, Statement};
use session_jobs::Statements;
use session_limits::{End, Phase, Stage};

/// The script is at its end: the store undoes what the transaction wrote.
pub fn leave<S: Statements, L: LineStore>(store: &mut L, s: Session, terms: Terms) -> Phase
    requires member { IsMember s.number }
    requires seat { IsWriting ((L.sight store.old).stand s.number) }
    ensures { (word : List ℕ) (locks : State) → EndsIn S.stands s.number (scene word (L.sight store.old) locks) (at_stage terms Stage.Between) (scene word (L.sight store.new) locks) result Happening.Quiet }
{
    store.roll_back(s);
    terms.at(Stage::Ending(End::Leaving))
}

/// The store takes the room and the memory of a COMMIT, which wants the journal then, in one step. Where there is no room or no memory
/// the COMMIT is refused, and its transaction goes on.
pub fn prepare<S: Statements, L: LineStore>(
    common: &mut Common<L>,
    s: Session,
    terms: Terms,
) -> Turned
    requires member { IsMember s.number }
    requires seat { IsWriting ((L.sight common.old.store).stand s.number) }
    requires idle { opened_of common.old.tree s.number ≡ None }
    requires without { converts_at (needs_of common.old.tree s.number) journal_node ≡ false }
    requires rest { OthersKeepTo common.old.tree s.number journal_node }
    ensures { ComesIn S.stands s.number (scene common.old.word (L.sight common.old.store) common.old.tree) (at_stage terms (Stage.Ending End.Preparing))
        (scene common.new.word (L.sight common.new.store) common.new.tree) result.phase result.happened }
{
    match common.store.prepare(s) {
        Ok(()) => want_journal::<S, L>(common, s, terms),
        Err(CommitStop::NoMemory) => {
            forgo::<S, L>(common, s, terms, Item::Statement(Statement::Commit))
        }
        Err(CommitStop::AijFull(limit)) => {
            let commit = Item::Statement(Statement::Commit);
            refuse_at_limit(common.alloc, terms, commit, Reply::AijFull(limit))
        }
    }
}

/// A COMMIT that is prepared and has got the journal has the store commit.
pub fn commit<S: Statements, L: LineStore>(store: &mut L, s: Session, terms: Terms) -> Phase
    requires member { IsMember s.number }
    requires prepared { IsPrepared ((L.sight store.old).stand s.number) }
    requires alone { StandsAlone s.number (L.sight store.old) }
    ensures { (word : List ℕ) (locks : State) → ComesIn S.stands s.number (scene word (L.sight store.old) locks) (at_stage terms (Stage.Ending End.Ready)) (scene word (L.sight store.new) locks) result Happening.Quiet }
{
    store.commit(s);
    terms.at(Stage::Ending(End::Committing))
}

/// The store commits. Once the commit stands the transaction has ended, and its locks are released.
pub fn land<S: Statements, L: LineStore>(common: &mut Common<L>, s: Session, terms: Terms) -> Turned
    requires member { IsMember s.number }
    requires committing { is_committing ((L.sight common.old.store).stand s.number) ≡ true }
    ensures { ComesIn S.stands s.number (scene common.old.word (L.sight common.old.store) common.old.tree) (at_stage terms (Stage.Ending End.Committing))
        (scene common.new.word (L.sight common.new.store) common.new.tree) result.phase result.happened }
{
    match common.store.step(s) {
        Ok(Stepped::Committed(moment)) => {
            common.tree.release_all(s.number);
            Turned {
                phase: Phase::Closing,
                happened: Happening::Committed(moment),
            }
        }
        Ok(Stepped::More) => quiet(terms.at(Stage::Ending(End::Committing))),
        Ok(Stepped::Done) | Ok(Stepped::Recovered { .. }) => unreachable!(),
        Err(fault) => failed(fault, terms.at(Stage::Ending(End::Committing))),
    }
}

/// The store undoes for a ROLLBACK. Then the transaction has ended, and its locks are released.
pub fn roll_back<S: Statements, L: LineStore>(
    common: &mut Common<L>,
    s: Session,
    terms: Terms,
) -> Turned
    requires member { IsMember s.number }
    requires rolling_back { done_at ((L.sight common.old.store).stand s.number) ≡ Some outside }
    ensures { ComesIn S.stands s.number (scene common.old.word (L.sight common.old.store) common.old.tree) (at_stage terms (Stage.Ending End.RollingBack))
        (scene common.new.word (L.sight common.new.store) common.new.tree) result.phase result.happened }
{
    match work_on(&mut common.store, s) {
        Ok(Progress::Done) => {
            common.tree.release_all(s.number);
            Turned {
                phase: Phase::Outside,
                happened: Happening::RolledBack,
            }
        }
        Ok(Progress::More) => quiet(terms.at(Stage::Ending(End::RollingBack))),
        Err(fault) => failed(fault, terms.at(Stage::Ending(End::RollingBack))),
    }
}

/// The store undoes at the end of the script. Then the transaction has ended, and its locks are released.
pub fn go_away<S: Statements, L: LineStore>(
    common: &mut Common<L>,
    s: Session,
    terms: Terms,
) -> Turned
    requires member { IsMember s.number }
    requires rolling_back { done_at ((L.sight common.old.store).stand s.number) ≡ Some outside }
    ensures { ComesIn S.stands s.number (scene common.old.word (L.sight common.old.store) common.old.tree) (at_stage terms (Stage.Ending End.Leaving))
        (scene common.new.word (L.sight common.new.store) common.new.tree) result.phase result.happened }
{
    match work_on(&mut common.store, s) {
        Ok(Progress::Done) => {
            common.tree.release_all(s.number);
            Turned {
                phase: Phase::Over,
                happened: Happening::Left,
            }
        }
        Ok(Progress::More) => quiet(terms.at(Stage::Ending(End::Leaving))),
        Err(fault) => failed(fault, terms.at(Stage::Ending(End::Leaving))),
    }
}
