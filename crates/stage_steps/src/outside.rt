//! A session that has no transaction open.
ghost use Rattle.std.specs.Prelude.{◌≡◌, ◌∷◌, ◌++◌, ℕ, List, [], true, None, Some};
ghost use Rattle.rdo_ast.specs.Views.{uttered_of};
ghost use Rattle.rdb_account.specs.Places.{backup_of, begins, is_writer};
ghost use Rattle.line_store.specs.Seats.{outside, done_at, IsMember};
ghost use Rattle.lock_tree_laws.specs.Forest.{State};
ghost use Rattle.rdo_ast.specs.declared.syntax.Item.{Item as ItemValue};
ghost use Rattle.session_limits.specs.session_states.Shared.{Shared};
ghost use Rattle.session_limits.specs.session_states.States.{session};
ghost use Rattle.session_measure.specs.Weights.{Beside};
ghost use Rattle.stage_steps.specs.Happenings.{events_of, handed_back};
ghost use Rattle.stage_steps.specs.Leaving.{IsLeftFor};
ghost use Rattle.stage_steps.specs.Nearer.{Nearer};
ghost use Rattle.stage_steps.specs.Scenes.{ComesIn, TakesUpIn, scene};
ghost use Rattle.stage_steps.specs.Turns.{TakesUp};

use crate::begun::{begun, unbegun};
use crate::copying::begin_copying;
use crate::happening::{Answer, Happening, Turned, failed, quiet};
use crate::items::{backed_up, is_nowait, kind_begun, refused, writes};
use crate::storing::work_on;
use line_store::{LineStore, Progress};
use line_view::Known;
use rdb_types::{Copied, Session, Word};
use rdo_ast::reply::{Reply, Standing};
use rdo_ast::syntax::Item;
use session_jobs::{Answer as Worked, Found, Job, Statements};
use session_limits::{Phase, ReaderWork, Stage, Work, Writer};
use std::alloc::Global;

/// Answers an item that begins no transaction: it is worked over nothing that is known, and reads nothing.
fn answer_outside<S: Statements>(alloc: Global, word: &Word, item: Item) -> Happening
    requires { begins (uttered_of item) ≡ None }
    ensures says { (s : ℕ) (c : Shared) → c.word ≡ word.now → TakesUp S.stands s item c Phase.Outside c Phase.Outside (handed_back result) (events_of s result) }
    ensures cause { IsLeftFor S.leaves word.now item result }
    ensures nearer { (s : ℕ) (c d : Beside) (left : List ItemValue) (total : ℕ) → Nearer s result c d (session (item ∷ left) total Phase.Outside) (session (handed_back result ++ left) total Phase.Outside) }
{
    let Ok(word) = word.copied(alloc) else {
        return Happening::Answered(refused(alloc, item, Reply::NoMemory));
    };
    let job = Job {
        alloc,
        word,
        standing: Standing::Closed,
        item,
        known: Known::new(alloc),
    };
    let Worked { job, found, .. } = S::work(job, S::nothing());
    let Job { item, .. } = job;
    match found {
        Found::Done(done) => Happening::Answered(Answer {
            item,
            keys: done.choices,
            reply: done.reply,
        }),
        Found::Unworked => Happening::Unanswered(item),
        Found::NoMemory => Happening::Answered(refused(alloc, item, Reply::NoMemory)),
        Found::Missing { .. } | Found::Bad(_) => unreachable!(),
    }
}

/// Begins a read-write transaction with its first item.
fn begin_writing<S: Statements, L: LineStore>(
    alloc: Global,
    store: &mut L,
    s: Session,
    item: Item,
    kind: Standing,
) -> Turned
    requires member { IsMember s.number }
    requires seat { (L.sight store.old).stand s.number ≡ outside }
    requires kind { begins (uttered_of item) ≡ Some kind }
    requires writes { is_writer kind ≡ true }
    ensures begins { (word : List ℕ) (locks : State) → TakesUpIn S.stands s.number item (scene word (L.sight store.old) locks) Phase.Outside (scene word (L.sight store.new) locks) result.phase result.happened }
    ensures cause { (word : List ℕ) → IsLeftFor S.leaves word item result.happened }
{
    store.begin(s);
    Turned {
        phase: Phase::Writing(Writer {
            standing: Standing::Closed,
            known: Known::new(alloc),
            spoken: false,
            waits: !is_nowait(&kind),
            stage: Stage::Working(item, Work::Opening),
        }),
        happened: Happening::Began(kind),
    }
}

/// Begins a read-only transaction with its first item.
fn begin_reading<S: Statements, L: LineStore>(
    alloc: Global,
    store: &mut L,
    s: Session,
    item: Item,
) -> Turned
    requires member { IsMember s.number }
    requires seat { (L.sight store.old).stand s.number ≡ outside }
    requires kind { begins (uttered_of item) ≡ Some Standing.ReadOnly }
    requires plain { backup_of (uttered_of item) ≡ None }
    ensures begins { (word : List ℕ) (locks : State) → TakesUpIn S.stands s.number item (scene word (L.sight store.old) locks) Phase.Outside (scene word (L.sight store.new) locks) result.phase result.happened }
    ensures cause { (word : List ℕ) → IsLeftFor S.leaves word item result.happened }
{
    match store.begin_reading(s) {
        Ok(()) => begun(alloc, item, ReaderWork::Due),
        Err(_) => unbegun(alloc, item),
    }
}

/// Takes up the next item: it begins a transaction, or is answered outside of one. One that who works statements leaves unworked is
/// handed back.
pub fn start<S: Statements, L: LineStore>(
    alloc: Global,
    word: &Word,
    store: &mut L,
    s: Session,
    item: Item,
) -> Turned
    requires member { IsMember s.number }
    requires seat { (L.sight store.old).stand s.number ≡ outside }
    ensures starts { (locks : State) → TakesUpIn S.stands s.number item (scene word.now (L.sight store.old) locks) Phase.Outside (scene word.now (L.sight store.new) locks) result.phase result.happened }
    ensures cause { IsLeftFor S.leaves word.now item result.happened }
{
    match kind_begun(alloc, &item) {
        Ok(Some(kind)) => {
            if writes(&kind) {
                begin_writing::<S, L>(alloc, store, s, item, kind)
            } else if let Some(number) = backed_up(&item) {
                begin_copying::<S, L>(alloc, store, s, item, number)
            } else {
                begin_reading::<S, L>(alloc, store, s, item)
            }
        }
        Ok(None) => Turned {
            phase: Phase::Outside,
            happened: answer_outside::<S>(alloc, word, item),
        },
        Err(_) => unbegun(alloc, item),
    }
}

/// The store puts away what a transaction left.
pub fn put_away<S: Statements, L: LineStore>(store: &mut L, s: Session) -> Turned
    requires member { IsMember s.number }
    requires closing { done_at ((L.sight store.old).stand s.number) ≡ Some outside }
    ensures { (word : List ℕ) (locks : State) → ComesIn S.stands s.number (scene word (L.sight store.old) locks) Phase.Closing (scene word (L.sight store.new) locks) result.phase result.happened }
{
    match work_on(store, s) {
        Ok(Progress::Done) => quiet(Phase::Outside),
        Ok(Progress::More) => quiet(Phase::Closing),
        Err(fault) => failed(fault, Phase::Closing),
    }
}
