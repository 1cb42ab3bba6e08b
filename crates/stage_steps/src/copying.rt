//! An online backup, a read-only transaction of its own: the store copies the lines at its start.
ghost use Rattle.std.specs.Prelude.{◌≡◌, ℕ, List, true, Some, is_some};
ghost use Rattle.rdo_ast.specs.Views.{uttered_of};
ghost use Rattle.rdb_account.specs.Places.{backup_of};
ghost use Rattle.line_store.specs.Seats.{copied_at, outside, IsBackupNumber, IsMember};
ghost use Rattle.lock_tree_laws.specs.Forest.{State};
ghost use Rattle.stage_steps.specs.Leaving.{IsLeftFor};
ghost use Rattle.stage_steps.specs.Scenes.{BacksIn, ComesIn, TakesUpIn, scene};
ghost use Rattle.stage_steps.specs.Turns.{reads_at};

use crate::begun::{begun, unbegun};
use crate::happening::{Happening, Turned, failed, quiet};
use crate::storing::work_on;
use crate::terms::ReaderTerms;
use line_store::{LineStore, Progress};
use rdb_types::Session;
use rdo_ast::syntax::Item;
use session_jobs::Statements;
use session_limits::{Phase, ReaderStage, ReaderWork};
use std::alloc::Global;

/// Begins an online backup, the store's copying of the lines that are committed now.
pub(crate) fn begin_copying<S: Statements, L: LineStore>(
    alloc: Global,
    store: &mut L,
    s: Session,
    item: Item,
    number: u32,
) -> Turned
    requires member { IsMember s.number }
    requires seat { (L.sight store.old).stand s.number ≡ outside }
    requires asked { backup_of (uttered_of item) ≡ Some number }
    requires numbered { IsBackupNumber number }
    ensures begins { (word : List ℕ) (locks : State) → TakesUpIn S.stands s.number item (scene word (L.sight store.old) locks) Phase.Outside (scene word (L.sight store.new) locks) result.phase result.happened }
    ensures cause { (word : List ℕ) → IsLeftFor S.leaves word item result.happened }
{
    match store.begin_copy(s, number) {
        Ok(()) => begun(alloc, item, ReaderWork::Copying),
        Err(_) => unbegun(alloc, item),
    }
}

/// The store copies. Once that is done the transaction ends, and the backup is said.
pub fn go_on_copying<S: Statements, L: LineStore>(
    store: &mut L,
    s: Session,
    terms: ReaderTerms,
    item: Item,
) -> Turned
    requires member { IsMember s.number }
    requires copying { is_some (copied_at ((L.sight store.old).stand s.number)) ≡ true }
    ensures comes { (word : List ℕ) (locks : State) → ComesIn S.stands s.number (scene word (L.sight store.old) locks) (reads_at terms (ReaderStage.Working item ReaderWork.Copying)) (scene word (L.sight store.new) locks) result.phase result.happened }
    ensures backed { BacksIn s.number result.happened (L.sight store.old) (L.sight store.new) }
{
    match work_on(store, s) {
        Ok(Progress::Done) => {
            store.end_reading(s);
            let moment = store.moment();
            Turned {
                phase: Phase::Outside,
                happened: Happening::BackedUp(item, moment),
            }
        }
        Ok(Progress::More) => quiet(terms.at(ReaderStage::Working(item, ReaderWork::Copying))),
        Err(fault) => failed(
            fault,
            terms.at(ReaderStage::Working(item, ReaderWork::Copying)),
        ),
    }
}
