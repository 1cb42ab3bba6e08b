//! A step of a session, from its phase or from what its job came to.
ghost use Rattle.std.specs.Prelude.{◌≡◌, List, [], true, false, is_some};
ghost use Rattle.rdo_ast.specs.declared.syntax.Item.{Item as ItemValue};
ghost use Rattle.line_store.specs.Seats.{IsMember};
ghost use Rattle.line_account.specs.session_stands.Seated.{IsSeated};
ghost use Rattle.session_measure.specs.Nearer.{AreRounds, is_broken};
ghost use Rattle.line_account.specs.stage_steps.Happenings.{handed_back};
ghost use Rattle.line_account.specs.stage_steps.Scenes.{BacksIn, scene};
ghost use Rattle.session_states.specs.States.{copies_in};
ghost use Rattle.lent_members.specs.line_arms.Going.{GoesOn, IsAmong, TakesOne, is_done};
ghost use Rattle.lent_members.specs.Whereabouts.{IsPresent, phase_at};

use lent_members::{Allotment, Presence, go_on, take_answered};
use line_account::{Common, Turned};
use line_store::LineStore;
use rdb_types::Session;
use reached_changes::Reaches;
use reserved_locks::Reserves;
use session_states::ItemQueue;

/// One step of a session that has something left to do, as `go_on` has it; where its job came back, what that came to is taken.
pub(crate) fn go_on_from<S: Reserves + Reaches, L: LineStore>(
    common: &mut Common<L>,
    s: Session,
    left: &mut ItemQueue,
    allotment: &mut Allotment,
    presence: Presence<S>,
) -> Turned
    requires member { IsMember s.number }
    requires seated { IsSeated (L.sight common.old.store).stand common.old.tree s.number (phase_at presence) }
    requires among { IsAmong (L.sight common.old.store).stand common.old.tree s.number }
    requires going { is_done left.old (phase_at presence) ≡ false }
    requires whole { is_broken (phase_at presence) ≡ false }
    requires word { IsPresent common.old.word presence }
    ensures goes { handed_back result.happened ≡ [] → GoesOn S.stands s.number (scene common.old.word (L.sight common.old.store) common.old.tree) left.old (phase_at presence)
        (scene common.new.word (L.sight common.new.store) common.new.tree) left.new result.phase result.happened }
    ensures some { (rest : List ItemValue) × GoesOn S.stands s.number (scene common.old.word (L.sight common.old.store) common.old.tree) left.old (phase_at presence)
        (scene common.new.word (L.sight common.new.store) common.new.tree) rest result.phase result.happened }
    ensures rounds { AreRounds (phase_at presence) result.phase allotment.old.rounds allotment.new.rounds }
    ensures backed { is_some (copies_in (phase_at presence)) ≡ true → BacksIn s.number result.happened (L.sight common.old.store) (L.sight common.new.store) }
    ensures one { TakesOne left.old left.new (phase_at presence) }
{
    match presence {
        Presence::Here(phase) => go_on::<S, L>(common, s, left, allotment, phase),
        Presence::Back(absence, answer) => take_answered::<S, L>(common, s, absence, answer),
    }
}
