//! A read-only transaction, which wants no lock and has nothing to undo.
ghost use Rattle.std.specs.Prelude.{◌≡◌, ◌||◌, ℕ, List, [], not, true, false, Some};
ghost use Rattle.rdo_ast.specs.Views.{uttered_of};
ghost use Rattle.line_store.specs.Seats.{IsMember, IsReader};
ghost use Rattle.line_view.specs.Held.{knows};
ghost use Rattle.session_jobs.specs.Jobs.{IsFound};
ghost use Rattle.lock_tree_laws.specs.Forest.{State};
ghost use Rattle.rdo_ast.specs.declared.syntax.Item.{Item as ItemValue};
ghost use Rattle.session_limits.specs.session_states.Shared.{Shared};
ghost use Rattle.session_limits.specs.session_states.States.{reader_item, session};
ghost use Rattle.session_limits.specs.session_states.declared.stage.Phase.{Phase as PhaseValue};
ghost use Rattle.session_measure.specs.Weights.{Beside, items_in};
ghost use Rattle.session_measure.specs.Nearer.{has_out};
ghost use Rattle.session_limits.specs.session_states.declared.stage.ReaderStage.{ReaderStage as ReaderStageValue};
ghost use Rattle.stage_steps.specs.Happenings.{events_of};
ghost use Rattle.stage_steps.specs.Leaving.{NamesBad, OnUnworked};
ghost use Rattle.stage_steps.specs.Nearer.{Nearer};
ghost use Rattle.stage_steps.specs.Scenes.{ComesIn, EndsIn, PassesOn, TakesUpIn, scene};
ghost use Rattle.stage_steps.specs.Turns.{Comes, reads_at};

use crate::happening::{Answer, Happening, Turned, failed, quiet};
use crate::items::{End, end_of, goes_on, refused};
use crate::reader_round::ReaderRound;
use crate::terms::ReaderTerms;
use line_store::{LineStore, Progress, ReadStop};
use line_view::Need;
use rdb_types::{Copied, Session, Word};
use rdo_ast::reply::{Reply, Standing};
use rdo_ast::syntax::Item;
use session_jobs::{Found, Job, Needs, Outcome, Statements, TxRecord};
use session_limits::{Phase, ReaderStage, ReaderWork};
use std::alloc::Global;
use stepped_jobs::fetch;

/// Takes up the next item. A COMMIT or ROLLBACK is done at once.
pub fn take_up_reading<S: Statements, L: LineStore>(
    store: &mut L,
    s: Session,
    terms: ReaderTerms,
    item: Item,
) -> Turned
    requires member { IsMember s.number }
    requires seat { IsReader ((L.sight store.old).stand s.number) }
    ensures { (word : List ℕ) (locks : State) → TakesUpIn S.stands s.number item (scene word (L.sight store.old) locks) (reads_at terms ReaderStage.Between) (scene word (L.sight store.new) locks) result.phase result.happened }
{
    match end_of(&item) {
        End::Nothing => quiet(terms.at(ReaderStage::Working(item, ReaderWork::Due))),
        End::Commit => {
            store.end_reading(s);
            let moment = store.moment();
            Turned {
                phase: Phase::Outside,
                happened: Happening::Committed(moment),
            }
        }
        End::Rollback => {
            store.end_reading(s);
            Turned {
                phase: Phase::Outside,
                happened: Happening::RolledBack,
            }
        }
    }
}

/// The script is at its end, and the transaction with it.
pub fn leave_reading<S: Statements, L: LineStore>(
    store: &mut L,
    s: Session,
    _terms: ReaderTerms,
) -> Turned
    requires member { IsMember s.number }
    requires seat { IsReader ((L.sight store.old).stand s.number) }
    ensures { (word : List ℕ) (locks : State) → EndsIn S.stands s.number (scene word (L.sight store.old) locks) (reads_at _terms ReaderStage.Between) (scene word (L.sight store.new) locks) result.phase result.happened }
{
    store.end_reading(s);
    Turned {
        phase: Phase::Over,
        happened: Happening::Left,
    }
}

/// The job of a statement is handed out.
pub fn hand_out_reading<S: Statements>(terms: ReaderTerms, item: Item) -> Phase
    ensures passes { PassesOn S.stands (reads_at terms (ReaderStage.Working item ReaderWork.Due)) result }
    ensures out { result ≡ reads_at terms (ReaderStage.Working item ReaderWork.Out) }
{
    terms.at(ReaderStage::Working(item, ReaderWork::Out))
}

// The transaction behind a statement that was said.
fn spoken(terms: ReaderTerms) -> Phase
    ensures { result ≡ reads_at (record { standing = Standing.ReadOnly; known = terms.known; spoken = true }) ReaderStage.Between }
{
    ReaderTerms {
        standing: Standing::ReadOnly,
        known: terms.known,
        spoken: true,
    }
    .at(ReaderStage::Between)
}

/// Refuses a statement, since no memory was found. The refusal of a START_TRANSACTION leaves no transaction.
pub fn forgo_reading<S: Statements, L: LineStore>(
    alloc: Global,
    store: &mut L,
    s: Session,
    terms: ReaderTerms,
    item: Item,
) -> Turned
    requires member { IsMember s.number }
    requires seat { IsReader ((L.sight store.old).stand s.number) }
    ensures forgoes { (word : List ℕ) (locks : State) (stage : ReaderStageValue) → reader_item stage ≡ Some (uttered_of item) → ComesIn S.stands s.number (scene word (L.sight store.old) locks) (reads_at terms stage) (scene word (L.sight store.new) locks) result.phase result.happened }
    ensures worked { OnUnworked result.happened ⊥ }
    ensures rests { has_out result.phase ≡ false }
    ensures nearer { (c d : Beside) (x : PhaseValue) (left : List ItemValue) (total : ℕ) → items_in x ≡ 1 → Nearer s.number result.happened c d (session left total x) (session left total result.phase) }
{
    if goes_on(terms.spoken, &item) {
        return Turned {
            phase: spoken(terms),
            happened: Happening::Answered(refused(alloc, item, Reply::NoMemory)),
        };
    }
    store.end_reading(s);
    Turned {
        phase: Phase::Outside,
        happened: Happening::Unstarted(refused(alloc, item, Reply::NoMemory)),
    }
}

/// Says what a statement came to.
fn say_reading<S: Statements>(terms: ReaderTerms, item: Item, worked: TxRecord) -> Turned
    ensures worked { OnUnworked result.happened ⊥ }
    ensures says { (s : ℕ) (c : Shared) → IsFound S.stands c.word terms.standing (uttered_of item) (knows terms.known) (Found.Done worked) →
        Comes S.stands s c (reads_at terms (ReaderStage.Working item ReaderWork.Out)) c result.phase (events_of s result.happened) }
    ensures phase { result.phase ≡ reads_at (record { standing = Standing.ReadOnly; known = terms.known; spoken = true }) ReaderStage.Between }
    ensures nearer { (s : ℕ) (c d : Beside) (x : PhaseValue) (left : List ItemValue) (total : ℕ) → items_in x ≡ 1 → Nearer s result.happened c d (session left total x) (session left total result.phase) }
{
    Turned {
        phase: spoken(terms),
        happened: Happening::Answered(Answer {
            item,
            keys: worked.choices,
            reply: worked.reply,
        }),
    }
}

// What a job lacked is read: this need first, and then those behind it.
fn read_in_turn(terms: ReaderTerms, item: Item, next: Need, later: Needs) -> Phase
    ensures { result ≡ reads_at terms (ReaderStage.Gathering item next later 0) }
{
    let round = ReaderRound {
        item,
        later,
        place: 0,
    };
    terms.at(round.at(next))
}

/// Takes what a job came to: it is said, or all that it named is read, and want of memory is answered. Where it was left unworked, or calls a
/// line bad, its job is due again, and the session has to stop.
pub fn take_found_reading<S: Statements, L: LineStore>(
    alloc: Global,
    store: &mut L,
    s: Session,
    terms: ReaderTerms,
    item: Item,
    found: Found,
) -> Turned
    requires member { IsMember s.number }
    requires seat { IsReader ((L.sight store.old).stand s.number) }
    ensures comes { (word : List ℕ) (locks : State) → IsFound S.stands word terms.standing (uttered_of item) (knows terms.known) found →
        ComesIn S.stands s.number (scene word (L.sight store.old) locks) (reads_at terms (ReaderStage.Working item ReaderWork.Out)) (scene word (L.sight store.new) locks) result.phase result.happened }
    ensures unworked { OnUnworked result.happened (found ≡ Found.Unworked) }
    ensures bad { NamesBad found result.happened }
{
    match found {
        Found::Done(worked) => say_reading::<S>(terms, item, worked),
        Found::Missing { next, later } => quiet(read_in_turn(terms, item, next, later)),
        Found::Bad(key) => Turned {
            phase: terms.at(ReaderStage::Working(item, ReaderWork::Due)),
            happened: Happening::Unsound(key),
        },
        Found::Unworked => Turned {
            phase: terms.at(ReaderStage::Working(item, ReaderWork::Due)),
            happened: Happening::Unworked,
        },
        Found::NoMemory => forgo_reading::<S, L>(alloc, store, s, terms, item),
    }
}

/// Works the job of a statement at once, and takes what it came to. Where it is left unworked, that has a cause.
pub fn compute_reading<S: Statements, L: LineStore>(
    alloc: Global,
    word: &Word,
    store: &mut L,
    s: Session,
    terms: ReaderTerms,
    item: Item,
) -> Turned
    requires member { IsMember s.number }
    requires seat { IsReader ((L.sight store.old).stand s.number) }
    ensures comes { (locks : State) → ComesIn S.stands s.number (scene word.now (L.sight store.old) locks) (reads_at terms (ReaderStage.Working item ReaderWork.Out)) (scene word.now (L.sight store.new) locks) result.phase result.happened }
    ensures cause { OnUnworked result.happened (S.leaves word.now terms.standing (uttered_of item) (knows terms.known)) }
{
    let Ok(word) = word.copied(alloc) else {
        return forgo_reading::<S, L>(alloc, store, s, terms, item);
    };
    let job = Job {
        alloc,
        word,
        standing: terms.standing,
        item,
        known: terms.known,
    };
    let (job, _, found) = Outcome::<S>::of(job, S::nothing()).into_parts();
    let back = ReaderTerms {
        standing: job.standing,
        known: job.known,
        spoken: terms.spoken,
    };
    take_found_reading::<S, L>(alloc, store, s, back, job.item, found)
}

/// Reads a need of a statement; then the next one is read, and behind the last the job is due again.
pub fn fetch_reading<S: Statements, L: LineStore>(
    alloc: Global,
    store: &mut L,
    s: Session,
    terms: ReaderTerms,
    round: ReaderRound,
    need: Need,
) -> Turned
    requires member { IsMember s.number }
    requires seat { IsReader ((L.sight store.old).stand s.number) }
    ensures { (word : List ℕ) (locks : State) → ComesIn S.stands s.number (scene word (L.sight store.old) locks) (reads_at terms (ReaderStage.Gathering round.item need round.later round.place)) (scene word (L.sight store.new) locks) result.phase result.happened }
{
    // (readers write on no room)
    if let Need::Room(_) = need {
        return quiet(terms.at(round.behind()));
    }
    let mut terms = terms;
    match fetch(store, s, need, &mut terms.known) {
        Ok(Progress::Done) => quiet(terms.at(round.behind())),
        Ok(Progress::More) => quiet(terms.at(round.at(need))),
        Err(ReadStop::NoMemory) => forgo_reading::<S, L>(alloc, store, s, terms, round.item),
        Err(ReadStop::Fault(fault)) => failed(fault, terms.at(round.at(need))),
    }
}
