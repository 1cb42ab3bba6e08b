//! One step of a session that lives, by its phase.
ghost use Rattle.std.specs.Prelude.{◌≡◌, List, [], true, false, is_some};
ghost use Rattle.rdo_ast.specs.declared.syntax.Item.{Item as ItemValue};
ghost use Rattle.line_store.specs.Seats.{IsMember};
ghost use Rattle.job_steps.specs.session_stands.Seated.{IsSeated};
ghost use Rattle.job_steps.specs.session_measure.Nearer.{AreRounds, is_broken};
ghost use Rattle.job_steps.specs.stage_steps.Happenings.{handed_back};
ghost use Rattle.job_steps.specs.session_states.States.{copies_in};
ghost use Rattle.job_steps.specs.stage_steps.Scenes.{BacksIn, scene};
ghost use Rattle.line_arms.specs.Going.{GoesOn, IsAmong, TakesOne, is_done};

use crate::Allotment;
use crate::reading::go_on_reading;
use crate::writing::go_on_writing;
use job_steps::{Common, ItemQueue, Phase, Turned, put_away, start};
use line_store::LineStore;
use rdb_types::Session;
use reached_changes::Reaches;
use reserved_locks::Reserves;

/// One step of a session that has something left to do and isn't broken, with what its statement is allotted. An item that is handed back
/// isn't in what is left; it goes on also then, with some rest of its script.
pub fn go_on<S: Reserves + Reaches, L: LineStore>(
    common: &mut Common<L>,
    s: Session,
    left: &mut ItemQueue,
    allotment: &mut Allotment,
    phase: Phase,
) -> Turned
    requires member { IsMember s.number }
    requires seated { IsSeated (L.sight common.old.store).stand common.old.tree s.number phase }
    requires among { IsAmong (L.sight common.old.store).stand common.old.tree s.number }
    requires going { is_done left.old phase ≡ false }
    requires whole { is_broken phase ≡ false }
    ensures goes { handed_back result.happened ≡ [] → GoesOn S.stands s.number (scene common.old.word (L.sight common.old.store) common.old.tree) left.old phase
        (scene common.new.word (L.sight common.new.store) common.new.tree) left.new result.phase result.happened }
    ensures some { (rest : List ItemValue) × GoesOn S.stands s.number (scene common.old.word (L.sight common.old.store) common.old.tree) left.old phase
        (scene common.new.word (L.sight common.new.store) common.new.tree) rest result.phase result.happened }
    ensures rounds { AreRounds phase result.phase allotment.old.rounds allotment.new.rounds }
    ensures backed { is_some (copies_in phase) ≡ true → BacksIn s.number result.happened (L.sight common.old.store) (L.sight common.new.store) }
    ensures one { TakesOne left.old left.new phase }
{
    match phase {
        Phase::Outside => start_next::<S, L>(common, s, left, allotment),
        Phase::Closing => put_away::<S, L>(&mut common.store, s),
        Phase::Writing(writer) => go_on_writing::<S, L>(common, s, left, allotment, writer),
        Phase::Reading(reader) => go_on_reading::<S, L>(common, s, left, allotment, reader),
        Phase::Over => unreachable!(),
    }
}

// The next item begins a transaction, or is answered outside of one.
fn start_next<S: Reserves + Reaches, L: LineStore>(
    common: &mut Common<L>,
    s: Session,
    left: &mut ItemQueue,
    allotment: &mut Allotment,
) -> Turned
    requires member { IsMember s.number }
    requires seated { IsSeated (L.sight common.old.store).stand common.old.tree s.number Phase.Outside }
    requires going { is_done left.old Phase.Outside ≡ false }
    ensures goes { handed_back result.happened ≡ [] → GoesOn S.stands s.number (scene common.old.word (L.sight common.old.store) common.old.tree) left.old Phase.Outside
        (scene common.new.word (L.sight common.new.store) common.new.tree) left.new result.phase result.happened }
    ensures some { (rest : List ItemValue) × GoesOn S.stands s.number (scene common.old.word (L.sight common.old.store) common.old.tree) left.old Phase.Outside
        (scene common.new.word (L.sight common.new.store) common.new.tree) rest result.phase result.happened }
    ensures one { TakesOne left.old left.new Phase.Outside }
{
    let Some(item) = left.pop() else {
        unreachable!();
    };
    *allotment = Allotment::new(common.alloc);
    start::<S, L>(common.alloc, &common.word, &mut common.store, s, item)
}
