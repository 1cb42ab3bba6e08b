//! A statement that was worked: the writes of its record are laid, and it is said.
ghost use Rattle.std.specs.Prelude.{◌≡◌, ◌||◌, ◌⊎◌, ℕ, List, [], true, false, None, is_some};
ghost use Rattle.rdb_account.specs.Places.{is_done as is_done_reply};
ghost use Rattle.line_store.specs.Seats.{done_at, IsMember, IsWriting};
ghost use Rattle.session_limits.specs.Some.{WriteSome};
ghost use Rattle.session_limits.specs.session_states.Locks.{lock_of};
ghost use Rattle.session_limits.specs.session_states.Turns.{said_writer};
ghost use Rattle.lock_tree_laws.specs.Forest.{State};
ghost use Rattle.stage_steps.specs.Scenes.{ComesIn, Scene, scene};
ghost use Rattle.stage_steps.specs.Turns.{at_stage};

use crate::common::Common;
use crate::happening::{Answer, Happening, Turned, failed, quiet};
use crate::items::{is_done, stands};
use crate::limits::refuse_at_limit;
use crate::terms::Terms;
use crate::working::forgo;
use line_store::{ChangeStop, LineStore, Stepped};
use rdb_types::Session;
use rdo_ast::reply::Reply;
use rdo_ast::syntax::Item;
use session_jobs::{Statements, TxRecord};
use session_limits::{Laying, Phase, Spoken, Stage, speak};
use stepped_jobs::apply;

/// Answers a START_TRANSACTION that isn't done as its record says: its transaction ends.
fn refuse_start<S: Statements, L: LineStore>(
    common: &mut Common<L>,
    s: Session,
    terms: Terms,
    item: Item,
    worked: TxRecord,
) -> Turned
    requires member { IsMember s.number }
    requires seat { IsWriting ((L.sight common.old.store).stand s.number) }
    requires undone { (terms.spoken || is_done_reply worked.reply) ≡ false }
    ensures { (place : ℕ) →
        ComesIn S.stands s.number (scene common.old.word (L.sight common.old.store) common.old.tree) (at_stage terms (Stage.Saying item worked (Laying.Claiming place)))
        (scene common.new.word (L.sight common.new.store) common.new.tree) result.phase result.happened }
{
    common.store.roll_back(s);
    common.tree.release_all(s.number);
    Turned {
        phase: Phase::Closing,
        happened: Happening::Unstarted(Answer {
            item,
            keys: worked.choices,
            reply: worked.reply,
        }),
    }
}

/// Says what a statement came to, of which nothing is left to be laid.
fn say(terms: Terms, item: Item, worked: TxRecord) -> Turned
    ensures phase { result.phase ≡ Phase.Writing (said_writer worked terms.known terms.waits) }
    ensures happened { result.happened ≡ Happening.Answered (record { item = item; keys = worked.choices; reply = worked.reply }) }
{
    let Spoken {
        writer,
        item,
        choices,
        reply,
    } = speak(item, worked, terms.known, terms.waits);
    Turned {
        phase: Phase::Writing(writer),
        happened: Happening::Answered(Answer {
            item,
            keys: choices,
            reply,
        }),
    }
}

// Whether a record has writes that are to be laid. One that isn't done leaves the tables as they are.
fn has_to_lay(worked: &TxRecord) -> bool
    ensures lays { result ≡ true → (is_done_reply (worked.now).reply ≡ true) × WriteSome (worked.now).writes }
    ensures rests { result ≡ false → (is_done_reply (worked.now).reply ≡ false) ⊎ ((worked.now).writes ≡ []) }
{
    if !is_done(&worked.reply) {
        return false;
    }
    !worked.writes.is_empty()
}

/// The lines of all writes of a record are locked: the store begins to lay them, and what the session knows follows. A record that
/// writes nothing is said at once, and so is one that isn't done, since that leaves the tables as they are. Where the store has no room
/// the statement is refused at that limit.
pub fn lay<S: Statements, L: LineStore>(
    common: &mut Common<L>,
    s: Session,
    terms: Terms,
    item: Item,
    worked: TxRecord,
    place: usize,
) -> Turned
    requires member { IsMember s.number }
    requires seat { IsWriting ((L.sight common.old.store).stand s.number) }
    requires locked { lock_of (Stage.Saying item worked (Laying.Claiming place)) ≡ None }
    ensures { ComesIn S.stands s.number (scene common.old.word (L.sight common.old.store) common.old.tree) (at_stage terms (Stage.Saying item worked (Laying.Claiming place)))
        (scene common.new.word (L.sight common.new.store) common.new.tree) result.phase result.happened }
{
    if !stands(terms.spoken, &worked.reply) {
        return refuse_start::<S, L>(common, s, terms, item, worked);
    }
    if !has_to_lay(&worked) {
        return say(terms, item, worked);
    }
    let mut terms = terms;
    let writes = worked.writes.as_slice();
    match apply(common.alloc, &mut common.store, s, &mut terms.known, writes) {
        Ok(()) => quiet(terms.at(Stage::Saying(item, worked, Laying::Changing))),
        Err(ChangeStop::NoMemory) => forgo::<S, L>(common, s, terms, item),
        Err(ChangeStop::RujFull(limit)) => {
            refuse_at_limit(common.alloc, terms, item, Reply::RujFull(limit))
        }
        Err(ChangeStop::SnapFull(limit)) => {
            refuse_at_limit(common.alloc, terms, item, Reply::SnapFull(limit))
        }
        Err(ChangeStop::Unfit(key)) => Turned {
            phase: terms.at(Stage::Saying(item, worked, Laying::Claiming(place))),
            happened: Happening::Unlaid(key),
        },
    }
}

/// The store lays the writes of a record, which is said when that is done. A step that fails breaks the change, and its session can only die.
pub fn change<S: Statements, L: LineStore>(
    store: &mut L,
    s: Session,
    terms: Terms,
    item: Item,
    worked: TxRecord,
) -> Turned
    requires member { IsMember s.number }
    requires changing { is_some (done_at ((L.sight store.old).stand s.number)) ≡ true }
    ensures { (word : List ℕ) (locks : State) → ComesIn S.stands s.number (scene word (L.sight store.old) locks) (at_stage terms (Stage.Saying item worked Laying.Changing)) (scene word (L.sight store.new) locks) result.phase result.happened }
{
    match store.step(s) {
        Ok(Stepped::Done) => say(terms, item, worked),
        Ok(Stepped::More) => quiet(terms.at(Stage::Saying(item, worked, Laying::Changing))),
        Ok(Stepped::Committed(_)) | Ok(Stepped::Recovered { .. }) => unreachable!(),
        Err(fault) => failed(fault, terms.at(Stage::Saying(item, worked, Laying::Broken))),
    }
}
