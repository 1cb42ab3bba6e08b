//! A read-only transaction, by its stage.
ghost use Rattle.std.specs.Prelude.{◌≡◌, List, [], true, is_some};
ghost use Rattle.rdo_ast.specs.declared.syntax.Item.{Item as ItemValue};
ghost use Rattle.line_store.specs.Seats.{IsMember};
ghost use Rattle.job_steps.specs.session_states.declared.stage.Phase.TheVariants.{Reading};
ghost use Rattle.job_steps.specs.session_stands.Seated.{IsSeated};
ghost use Rattle.job_steps.specs.session_measure.Nearer.{AreRounds};
ghost use Rattle.job_steps.specs.stage_steps.Happenings.{handed_back};
ghost use Rattle.job_steps.specs.session_states.States.{copies_at, copies_in};
ghost use Rattle.job_steps.specs.stage_steps.Scenes.{BacksIn, ComesIn, scene};
ghost use Rattle.job_steps.specs.stage_steps.Turns.{reads_at};
ghost use Rattle.line_arms.specs.Going.{GoesOn, TakesOne};

use crate::Allotment;
use job_steps::{
    Common, ItemQueue, Reader, ReaderRound, ReaderStage, ReaderTerms, ReaderWork, Turned,
    compute_reading, fetch_reading, forgo_reading, go_on_copying, hand_out_reading, leave_reading,
    quiet, take_up_reading,
};
use line_store::LineStore;
use rdb_types::Session;
use rdo_ast::syntax::Item;
use session_jobs::Statements;

/// One step of a read-only transaction.
pub(crate) fn go_on_reading<S: Statements, L: LineStore>(
    common: &mut Common<L>,
    s: Session,
    left: &mut ItemQueue,
    allotment: &mut Allotment,
    reader: Reader,
) -> Turned
    requires member { IsMember s.number }
    requires seated { IsSeated (L.sight common.old.store).stand common.old.tree s.number (Reading reader) }
    ensures goes { handed_back result.happened ≡ [] → GoesOn S.stands s.number (scene common.old.word (L.sight common.old.store) common.old.tree) left.old (Reading reader)
        (scene common.new.word (L.sight common.new.store) common.new.tree) left.new result.phase result.happened }
    ensures some { (rest : List ItemValue) × GoesOn S.stands s.number (scene common.old.word (L.sight common.old.store) common.old.tree) left.old (Reading reader)
        (scene common.new.word (L.sight common.new.store) common.new.tree) rest result.phase result.happened }
    ensures rounds { AreRounds (Reading reader) result.phase allotment.old.rounds allotment.new.rounds }
    ensures backed { is_some (copies_in (Reading reader)) ≡ true → BacksIn s.number result.happened (L.sight common.old.store) (L.sight common.new.store) }
    ensures one { TakesOne left.old left.new (Reading reader) }
{
    let Reader {
        standing,
        known,
        spoken,
        stage,
    } = reader;
    let terms = ReaderTerms {
        standing,
        known,
        spoken,
    };
    match stage {
        ReaderStage::Between => read_next::<S, L>(common, s, left, allotment, terms),
        ReaderStage::Working(item, work) => {
            look::<S, L>(common, s, terms, allotment, item, work)
        }
        ReaderStage::Gathering(item, need, later, place) => {
            let round = ReaderRound { item, later, place };
            fetch_reading::<S, L>(common.alloc, &mut common.store, s, terms, round, need)
        }
    }
}

// The next item is taken up; at the end of the script the transaction ends.
fn read_next<S: Statements, L: LineStore>(
    common: &mut Common<L>,
    s: Session,
    left: &mut ItemQueue,
    allotment: &mut Allotment,
    terms: ReaderTerms,
) -> Turned
    requires member { IsMember s.number }
    requires seated { IsSeated (L.sight common.old.store).stand common.old.tree s.number (reads_at terms ReaderStage.Between) }
    ensures goes { handed_back result.happened ≡ [] → GoesOn S.stands s.number (scene common.old.word (L.sight common.old.store) common.old.tree) left.old (reads_at terms ReaderStage.Between)
        (scene common.new.word (L.sight common.new.store) common.new.tree) left.new result.phase result.happened }
    ensures some { (rest : List ItemValue) × GoesOn S.stands s.number (scene common.old.word (L.sight common.old.store) common.old.tree) left.old (reads_at terms ReaderStage.Between)
        (scene common.new.word (L.sight common.new.store) common.new.tree) rest result.phase result.happened }
    ensures one { TakesOne left.old left.new (reads_at terms ReaderStage.Between) }
{
    match left.pop() {
        Some(item) => {
            allotment.renew(common.alloc);
            take_up_reading::<S, L>(&mut common.store, s, terms, item)
        }
        None => leave_reading::<S, L>(&mut common.store, s, terms),
    }
}

// One step of a statement's work.
fn look<S: Statements, L: LineStore>(
    common: &mut Common<L>,
    s: Session,
    terms: ReaderTerms,
    allotment: &mut Allotment,
    item: Item,
    work: ReaderWork,
) -> Turned
    requires member { IsMember s.number }
    requires seated { IsSeated (L.sight common.old.store).stand common.old.tree s.number (reads_at terms (ReaderStage.Working item work)) }
    ensures comes { ComesIn S.stands s.number (scene common.old.word (L.sight common.old.store) common.old.tree) (reads_at terms (ReaderStage.Working item work))
        (scene common.new.word (L.sight common.new.store) common.new.tree) result.phase result.happened }
    ensures rounds { AreRounds (reads_at terms (ReaderStage.Working item work)) result.phase allotment.old.rounds allotment.new.rounds }
    ensures backed { is_some (copies_at (ReaderStage.Working item work)) ≡ true → BacksIn s.number result.happened (L.sight common.old.store) (L.sight common.new.store) }
{
    match work {
        ReaderWork::Due => {
            if allotment.rounds == 0 {
                return forgo_reading::<S, L>(common.alloc, &mut common.store, s, terms, item);
            }
            allotment.rounds -= 1;
            quiet(hand_out_reading::<S>(terms, item))
        }
        ReaderWork::Out => {
            let store = &mut common.store;
            compute_reading::<S, L>(common.alloc, &common.word, store, s, terms, item)
        }
        ReaderWork::Copying => go_on_copying::<S, L>(&mut common.store, s, terms, item),
    }
}
