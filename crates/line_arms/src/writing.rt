//! A read-write transaction, by its stage.
ghost use Rattle.std.specs.Prelude.{◌≡◌, false};
ghost use Rattle.line_store.specs.Seats.{IsMember};
ghost use Rattle.job_steps.specs.session_states.declared.stage.Phase.TheVariants.{Writing};
ghost use Rattle.job_steps.specs.session_stands.Seated.{IsSeated};
ghost use Rattle.job_steps.specs.session_measure.Nearer.{AreRounds, is_broken, is_laid_broken, is_stage_broken};
ghost use Rattle.job_steps.specs.stage_steps.Scenes.{ComesIn, scene};
ghost use Rattle.job_steps.specs.stage_steps.Turns.{at_stage};
ghost use Rattle.line_arms.specs.Going.{GoesOn, IsAmong, TakesOne};

use crate::Allotment;
use crate::ending::go_on_ending;
use crate::gathering::go_on_gathering;
use crate::working::{go_on_working, want_lock};
use job_steps::{
    Common, ItemQueue, Laying, Reserving, Stage, Terms, Turned, Writer, change, lay, leave, quiet,
    take_up, want_reserved,
};
use line_store::LineStore;
use rdb_types::Session;
use rdo_ast::syntax::Item;
use reached_changes::Reaches;
use reserved_locks::Reserves;
use room_steps::Round;
use session_jobs::{Statements, TxRecord};

/// One step of a read-write transaction.
pub(crate) fn go_on_writing<S: Reserves + Reaches, L: LineStore>(
    common: &mut Common<L>,
    s: Session,
    left: &mut ItemQueue,
    allotment: &mut Allotment,
    writer: Writer,
) -> Turned
    requires member { IsMember s.number }
    requires seated { IsSeated (L.sight common.old.store).stand common.old.tree s.number (Writing writer) }
    requires among { IsAmong (L.sight common.old.store).stand common.old.tree s.number }
    requires whole { is_broken (Writing writer) ≡ false }
    ensures goes { GoesOn S.stands s.number (scene common.old.word (L.sight common.old.store) common.old.tree) left.old (Writing writer)
        (scene common.new.word (L.sight common.new.store) common.new.tree) left.new result.phase result.happened }
    ensures rounds { AreRounds (Writing writer) result.phase allotment.old.rounds allotment.new.rounds }
    ensures one { TakesOne left.old left.new (Writing writer) }
{
    let Writer {
        standing,
        known,
        spoken,
        waits,
        stage,
    } = writer;
    let terms = Terms {
        standing,
        known,
        spoken,
        waits,
    };
    match stage {
        Stage::Between => take_next::<S, L>(common, s, left, allotment, terms),
        stage => go_on_stage::<S, L>(common, s, terms, allotment, stage),
    }
}

// One step of a stage that takes nothing of the script.
fn go_on_stage<S: Reserves + Reaches, L: LineStore>(
    common: &mut Common<L>,
    s: Session,
    terms: Terms,
    allotment: &mut Allotment,
    stage: Stage,
) -> Turned
    requires member { IsMember s.number }
    requires seated { IsSeated (L.sight common.old.store).stand common.old.tree s.number (at_stage terms stage) }
    requires among { IsAmong (L.sight common.old.store).stand common.old.tree s.number }
    requires under { stage ≡ Stage.Between → ⊥ }
    requires whole { is_stage_broken stage ≡ false }
    ensures comes { ComesIn S.stands s.number (scene common.old.word (L.sight common.old.store) common.old.tree) (at_stage terms stage)
        (scene common.new.word (L.sight common.new.store) common.new.tree) result.phase result.happened }
    ensures rounds { AreRounds (at_stage terms stage) result.phase allotment.old.rounds allotment.new.rounds }
{
    match stage {
        Stage::Between => unreachable!(),
        Stage::Working(item, work) => {
            go_on_working::<S, L>(common, s, terms, allotment, item, work)
        }
        Stage::Gathering(item, gather, later, place) => {
            let round = Round { item, later, place };
            go_on_gathering::<S, L>(common, s, terms, &mut allotment.rooms, round, gather)
        }
        Stage::Reserving(item, worked, locks, place) => {
            let reserving = Reserving {
                item,
                worked,
                locks,
                place,
            };
            want_reserved::<S, L>(common, s, terms, reserving)
        }
        Stage::Saying(item, worked, laying) => {
            go_on_saying::<S, L>(common, s, terms, item, worked, laying)
        }
        Stage::Ending(end) => go_on_ending::<S, L>(common, s, terms, end),
    }
}

// The next item is taken up, which was given no room yet; at the end of the script the transaction ends.
fn take_next<S: Statements, L: LineStore>(
    common: &mut Common<L>,
    s: Session,
    left: &mut ItemQueue,
    allotment: &mut Allotment,
    terms: Terms,
) -> Turned
    requires member { IsMember s.number }
    requires seated { IsSeated (L.sight common.old.store).stand common.old.tree s.number (at_stage terms Stage.Between) }
    ensures goes { GoesOn S.stands s.number (scene common.old.word (L.sight common.old.store) common.old.tree) left.old (at_stage terms Stage.Between)
        (scene common.new.word (L.sight common.new.store) common.new.tree) left.new result.phase result.happened }
    ensures one { TakesOne left.old left.new (at_stage terms Stage.Between) }
{
    match left.pop() {
        Some(item) => {
            allotment.renew(common.alloc);
            quiet(take_up::<S, L>(&mut common.store, s, terms, item))
        }
        None => quiet(leave::<S, L>(&mut common.store, s, terms)),
    }
}

// The lines of a record's writes are locked, and then it is laid.
fn go_on_saying<S: Statements, L: LineStore>(
    common: &mut Common<L>,
    s: Session,
    terms: Terms,
    item: Item,
    worked: TxRecord,
    laying: Laying,
) -> Turned
    requires member { IsMember s.number }
    requires seated { IsSeated (L.sight common.old.store).stand common.old.tree s.number (at_stage terms (Stage.Saying item worked laying)) }
    requires whole { is_laid_broken laying ≡ false }
    ensures { ComesIn S.stands s.number (scene common.old.word (L.sight common.old.store) common.old.tree) (at_stage terms (Stage.Saying item worked laying))
        (scene common.new.word (L.sight common.new.store) common.new.tree) result.phase result.happened }
{
    match laying {
        // (its session has died)
        Laying::Broken => unreachable!(),
        Laying::Changing => change::<S, L>(&mut common.store, s, terms, item, worked),
        Laying::Claiming(place) => {
            if place < worked.writes.len() {
                want_lock::<S, L>(common, s, terms, Stage::Saying(item, worked, laying))
            } else {
                lay::<S, L>(common, s, terms, item, worked, place)
            }
        }
    }
}
