//! Sessions that die, and their recovery.
ghost use Rattle.std.specs.Prelude.{◌≡◌, ◌≤◌, ◌+◌, ◌-◌, ◌&&◌, ◌++◌, ◌∷◌, [], length, map, not, true, false, None, Some, slice_get, slice_set, IfSome};
ghost use Rattle.std.specs.Vec.{vec_len, vec_capacity};
ghost use Rattle.rdb_account.specs.Events.{event_of, Died};
ghost use Rattle.rdb_drive.specs.Boards.{Less};
ghost use Rattle.session_states.specs.declared.stage.Member.{Member as MemberValue};
ghost use Rattle.session_states.specs.States.{may_die_in};
ghost use Rattle.line_account.specs.session_stands.Sessions.{dead_in};
ghost use Rattle.line_account.specs.stage_steps.Deaths.{life_behind as life_behind_it};
ghost use Rattle.line_account.specs.stage_steps.Scenes.{scene};
ghost use Rattle.line_cluster.specs.Deaths.{CountsFaults, device_deaths, faults_of, is_device, is_stop, lives_in};
ghost use Rattle.lent_members.specs.Going.{IsDeadAt, with_life};
ghost use Rattle.line_cluster.specs.Sound.{AreWhole, IsSound, IsOneOf};
ghost use Rattle.line_cluster.specs.Turned.{DeathCame, GoesOn, RecoveryCame, sessions};

use crate::origin::Origin;
use crate::sessions::{Core, Halt, Turn};
use lent_members::{LentMember, is_over, member_at, put_member, take_member};
use lent_values::Naming;
use line_account::{Recovery, die, record_death, record_recovery, recover};
use line_store::{Fault, LineStore};
use rdb_types::{Cause, Session};
use reached_changes::Reaches;
use reserved_locks::Reserves;
use session_jobs::Statements;
use session_states::Life;

/// The place of the first session that died and awaits its recovery.
pub(crate) fn first_dead<O: Naming, S: Statements>(members: &[LentMember<O, S>]) -> Option<usize>
    ensures dead { IfSome result (λ at. IsDeadAt members.now at) }
    ensures none { result ≡ None → dead_in members.now ≡ 0 }
{
    for at in 0..members.len() {
        if members[at].is_dead() {
            return Some(at);
        }
    }
    None
}

// How a session lives behind a step of its recovery.
fn life_behind(step: &Result<Recovery, Fault>) -> Life
    ensures { result ≡ life_behind_it step.now }
{
    match step {
        Ok(Recovery::Done { .. }) => Life::Gone,
        Ok(Recovery::More) | Err(_) => Life::Dead,
    }
}

impl<O: Origin + Naming, S: Reserves + Reaches, L: LineStore> Core<O, S, L> {
    /// A session dies where it stands, of something other than a device or a stop. Nothing changes where it has nothing left to do, nor
    /// behind a halt. Takes no memory.
    pub fn die(&mut self, s: Session, stops: bool, cause: Cause)
        requires one { IsOneOf self.old.members.items s.number }
        requires mortal { (O.opening.may_die s.number cause && not (is_stop cause)) ≡ true }
        requires own { is_device cause ≡ false }
        requires stops { stops ≡ O.opening.stops s.number }
        requires sound { IsSound S.stands O.told O.opening O.faults (scene self.old.common.word (L.sight self.old.common.store) self.old.common.tree) self.old.members.items (map event_of self.old.events.items) self.old.halt }
        requires unbroken { self.old.halt ≡ None → AreWhole self.old.members.items }
        requires kept { lives_in self.old.members.items ≤ vec_capacity self.old.events - vec_len self.old.events }
        ensures sound { IsSound S.stands O.told O.opening O.faults (scene self.new.common.word (L.sight self.new.common.store) self.new.common.tree) self.new.members.items (map event_of self.new.events.items) self.new.halt }
        ensures unbroken { self.new.halt ≡ None → AreWhole self.new.members.items }
        ensures kept { lives_in self.new.members.items ≤ vec_capacity self.new.events - vec_len self.new.events }
        ensures count { length self.new.members.items ≡ length self.old.members.items }
        ensures came { DeathCame O.opening.stops s.number cause (sessions self.old.members.items self.old.events.items self.old.allotments (L.sight self.old.common.store) self.old.common.tree self.old.halt) (sessions self.new.members.items self.new.events.items self.new.allotments (L.sight self.new.common.store) self.new.common.tree self.new.halt) }
    {
        if self.halt.is_some() {
            return;
        }
        let at = s.number as usize - 1;
        if is_over(member_at(&self.members, at), stops) {
            return;
        }
        self.fall(s, at, cause);
    }

    /// A session that lives dies where it stands, and keeps its locks. A death of a device has a fault of its own, and one of a stop comes only
    /// where its script has come to one. Its event takes of the room that is kept.
    pub(crate) fn fall(&mut self, s: Session, at: usize, cause: Cause)
        requires one { IsOneOf self.old.members.items s.number }
        requires at { at ≡ s.number - 1 }
        requires mortal { (m : MemberValue) → slice_get self.old.members.items at ≡ Some m → may_die_in O.opening s.number m.left m.phase cause ≡ true }
        requires caused { O.told → CountsFaults O.faults (device_deaths (map event_of self.old.events.items) + faults_of cause) (L.sight self.old.common.store) }
        requires sound { IsSound S.stands O.told O.opening O.faults (scene self.old.common.word (L.sight self.old.common.store) self.old.common.tree) self.old.members.items (map event_of self.old.events.items) self.old.halt }
        requires kept { lives_in self.old.members.items ≤ vec_capacity self.old.events - vec_len self.old.events }
        requires going { self.old.halt ≡ None }
        requires lives { (m : MemberValue) → slice_get self.old.members.items at ≡ Some m → m.life ≡ Life.Alive }
        ensures sound { IsSound S.stands O.told O.opening O.faults (scene self.new.common.word (L.sight self.new.common.store) self.new.common.tree) self.new.members.items (map event_of self.new.events.items) self.new.halt }
        ensures kept { lives_in self.new.members.items ≤ vec_capacity self.new.events - vec_len self.new.events }
        ensures count { length self.new.members.items ≡ length self.old.members.items }
        ensures died { (m : MemberValue) → slice_get self.old.members.items at ≡ Some m → self.new.members.items ≡ slice_set self.old.members.items at (with_life Life.Dead m) }
        ensures events { map event_of self.new.events.items ≡ map event_of self.old.events.items ++ Died s.number cause ∷ [] }
        ensures going { self.new.halt ≡ None }
    {
        let member = take_member(&mut self.members, at, self.common.alloc);
        die::<S, L>(&mut self.common.store, s);
        put_member(&mut self.members, at, member.with_life(Life::Dead));
        record_death(&mut self.events, s, cause);
    }

    /// A step of the recovery of the first session that died. Its event takes of the room that is kept.
    pub fn recover(&mut self) -> Turn
        requires few { length self.old.members.items ≤ 16 }
        requires sound { IsSound S.stands O.told O.opening O.faults (scene self.old.common.word (L.sight self.old.common.store) self.old.common.tree) self.old.members.items (map event_of self.old.events.items) self.old.halt }
        requires unbroken { self.old.halt ≡ None → AreWhole self.old.members.items }
        requires kept { lives_in self.old.members.items ≤ vec_capacity self.old.events - vec_len self.old.events }
        ensures sound { IsSound S.stands O.told O.opening O.faults (scene self.new.common.word (L.sight self.new.common.store) self.new.common.tree) self.new.members.items (map event_of self.new.events.items) self.new.halt }
        ensures unbroken { self.new.halt ≡ None → AreWhole self.new.members.items }
        ensures kept { lives_in self.new.members.items ≤ vec_capacity self.new.events - vec_len self.new.events }
        ensures count { length self.new.members.items ≡ length self.old.members.items }
        ensures came { RecoveryCame (sessions self.old.members.items self.old.events.items self.old.allotments (L.sight self.old.common.store) self.old.common.tree self.old.halt) (sessions self.new.members.items self.new.events.items self.new.allotments (L.sight self.new.common.store) self.new.common.tree self.new.halt) result }
        ensures nearer { result ≡ Turn.Moved → Less (sessions self.new.members.items self.new.events.items self.new.allotments (L.sight self.new.common.store) self.new.common.tree self.new.halt).measure (sessions self.old.members.items self.old.events.items self.old.allotments (L.sight self.old.common.store) self.old.common.tree self.old.halt).measure }
    {
        if self.halt.is_some() {
            return Turn::Stopped;
        }
        let Some(at) = first_dead(&self.members) else {
            return Turn::Ended;
        };
        self.recover_at(at)
    }

    fn recover_at(&mut self, at: usize) -> Turn
        requires few { length self.old.members.items ≤ 16 }
        requires sound { IsSound S.stands O.told O.opening O.faults (scene self.old.common.word (L.sight self.old.common.store) self.old.common.tree) self.old.members.items (map event_of self.old.events.items) self.old.halt }
        requires unbroken { AreWhole self.old.members.items }
        requires kept { lives_in self.old.members.items ≤ vec_capacity self.old.events - vec_len self.old.events }
        requires going { self.old.halt ≡ None }
        requires dead { IsDeadAt self.old.members.items at }
        ensures sound { IsSound S.stands O.told O.opening O.faults (scene self.new.common.word (L.sight self.new.common.store) self.new.common.tree) self.new.members.items (map event_of self.new.events.items) self.new.halt }
        ensures unbroken { AreWhole self.new.members.items }
        ensures kept { lives_in self.new.members.items ≤ vec_capacity self.new.events - vec_len self.new.events }
        ensures count { length self.new.members.items ≡ length self.old.members.items }
        ensures came { RecoveryCame (sessions self.old.members.items self.old.events.items self.old.allotments (L.sight self.old.common.store) self.old.common.tree self.old.halt) (sessions self.new.members.items self.new.events.items self.new.allotments (L.sight self.new.common.store) self.new.common.tree self.new.halt) result }
        ensures nearer { result ≡ Turn.Moved → Less (sessions self.new.members.items self.new.events.items self.new.allotments (L.sight self.new.common.store) self.new.common.tree self.new.halt).measure (sessions self.old.members.items self.old.events.items self.old.allotments (L.sight self.old.common.store) self.old.common.tree self.old.halt).measure }
        ensures on { GoesOn result }
    {
        let _count = self.members.len();
        let s = Session {
            number: at as u32 + 1,
        };
        let member = take_member(&mut self.members, at, self.common.alloc);
        let step = recover::<S, L>(&mut self.common, s);
        put_member(&mut self.members, at, member.with_life(life_behind(&step)));
        match step {
            Ok(step) => {
                record_recovery(&mut self.events, s, step);
                Turn::Moved
            }
            Err(fault) => {
                self.halt = Some(Halt::Device(fault));
                Turn::Stopped
            }
        }
    }
}
