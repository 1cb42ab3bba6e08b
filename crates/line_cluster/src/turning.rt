//! A turn of a session.
ghost use Rattle.std.specs.Prelude.{◌≡◌, ℕ, ◌≤◌, ◌<◌, ◌+◌, ◌-◌, ◌++◌, ◌∷◌, ◌⊎◌, [], length, map, None, Some, true, false, is_some, slice_get, slice_set, IfSome};
ghost use Rattle.rdb_account.specs.Events.{event_of, Died};
ghost use Rattle.rdb_drive.specs.Boards.{Less};
ghost use Rattle.session_states.specs.declared.stage.Life.TheVariants.{Alive, Dead};
ghost use Rattle.session_states.specs.declared.stage.Member.{Member as MemberValue};
ghost use Rattle.session_states.specs.States.{may_die_in};
ghost use Rattle.lent_members.specs.line_arms.Going.{is_done};
ghost use Rattle.line_account.specs.session_stands.Sessions.{dead_in};
ghost use Rattle.lock_tree_laws.specs.Forest.{party_of};
ghost use Rattle.lock_tree_laws.specs.LockTable.{granted_at};
ghost use Rattle.lock_tree_laws.specs.Progress.{is_spare, Falls as LocksFall};
ghost use Rattle.lock_tree.specs.Sleeping.{is_sleeping};
ghost use Rattle.line_account.specs.stage_steps.Nearer.{is_patient_at};
ghost use Rattle.line_account.specs.stage_steps.Scenes.{scene};
ghost use Rattle.line_cluster.specs.Asleep.{sleeps};
ghost use Rattle.line_cluster.specs.Deaths.{faults_in, is_device, is_own, lives_in};
ghost use Rattle.line_cluster.specs.Sound.{AreWhole, IsSound, IsOneOf, MayFail, is_over_slot, is_unsound};
ghost use Rattle.lent_members.specs.Going.{IsWriterAt, is_over as is_over_at, with_life};
ghost use Rattle.line_cluster.specs.Turned.{Came, GoesOn, GrowsQuietly, Rests, Waits, sessions};
ghost use Rattle.std.specs.Vec.{vec_len, vec_capacity};

use crate::behind::{Behind, Notice, behind_of};
use crate::falls::first_dead;
use crate::going::go_on_from;
use crate::origin::Origin;
use crate::sessions::{Core, Halt, Turn};
use lent_members::{
    LentMember, Present, Whereabouts, is_over, is_patient, is_stopping, member_at, put_member,
    take_present,
};
use lent_values::Naming;
use line_account::{record, record_demotion, reserve_step, serve};
use line_store::LineStore;
use rdb_types::{Cause, Session};
use reached_changes::Reaches;
use reserved_locks::Reserves;
use std::mem::forget;

impl<O: Origin + Naming, S: Reserves + Reaches, L: LineStore> Core<O, S, L> {
    // No session goes on, for something else than a device, a slot or an unsound line.
    pub(crate) fn stop(&mut self, halt: Halt) -> Turn
        requires cause { faults_in (Some halt) ≡ 0 }
        requires agrees { is_unsound (Some halt) ≡ false }
        requires slot { is_over_slot (Some halt) ≡ false }
        requires sound { IsSound S.stands O.told O.opening O.faults (scene self.old.common.word (L.sight self.old.common.store) self.old.common.tree) self.old.members.items (map event_of self.old.events.items) self.old.halt }
        ensures sound { IsSound S.stands O.told O.opening O.faults (scene self.new.common.word (L.sight self.new.common.store) self.new.common.tree) self.new.members.items (map event_of self.new.events.items) self.new.halt }
        ensures members { self.new.members.items ≡ self.old.members.items }
        ensures events { self.new.events ≡ self.old.events }
        ensures allotments { self.new.allotments ≡ self.old.allotments }
        ensures common { self.new.common ≡ self.old.common }
        ensures halted { is_some self.new.halt ≡ true }
        ensures stopped { result ≡ Turn.Stopped }
        ensures came { (s : ℕ) → Came O.opening.stops s (sessions self.old.members.items self.old.events.items self.old.allotments (L.sight self.old.common.store) self.old.common.tree self.old.halt) (sessions self.new.members.items self.new.events.items self.new.allotments (L.sight self.new.common.store) self.new.common.tree self.new.halt) result }
        ensures on { GoesOn result }
    {
        self.halt = Some(halt);
        Turn::Stopped
    }

    /// A turn of a session: its next step, its death at the stop of its script, or whom it waits for. Where no memory is found for the
    /// events of its step it dies of that.
    pub fn turn(&mut self, s: Session, stops: bool) -> Turn
        requires one { IsOneOf self.old.members.items s.number }
        requires mortal { MayFail O.opening }
        requires stops { stops ≡ O.opening.stops s.number }
        requires sound { IsSound S.stands O.told O.opening O.faults (scene self.old.common.word (L.sight self.old.common.store) self.old.common.tree) self.old.members.items (map event_of self.old.events.items) self.old.halt }
        requires unbroken { self.old.halt ≡ None → AreWhole self.old.members.items }
        requires kept { lives_in self.old.members.items ≤ vec_capacity self.old.events - vec_len self.old.events }
        ensures sound { IsSound S.stands O.told O.opening O.faults (scene self.new.common.word (L.sight self.new.common.store) self.new.common.tree) self.new.members.items (map event_of self.new.events.items) self.new.halt }
        ensures unbroken { self.new.halt ≡ None → AreWhole self.new.members.items }
        ensures kept { lives_in self.new.members.items ≤ vec_capacity self.new.events - vec_len self.new.events }
        ensures count { length self.new.members.items ≡ length self.old.members.items }
        ensures came { Came O.opening.stops s.number (sessions self.old.members.items self.old.events.items self.old.allotments (L.sight self.old.common.store) self.old.common.tree self.old.halt) (sessions self.new.members.items self.new.events.items self.new.allotments (L.sight self.new.common.store) self.new.common.tree self.new.halt) result }
        ensures nearer { result ≡ Turn.Moved → Less (sessions self.new.members.items self.new.events.items self.new.allotments (L.sight self.new.common.store) self.new.common.tree self.new.halt).measure (sessions self.old.members.items self.old.events.items self.old.allotments (L.sight self.old.common.store) self.old.common.tree self.old.halt).measure }
        ensures rests { O.told → Rests O.opening s.number (sessions self.old.members.items self.old.events.items self.old.allotments (L.sight self.old.common.store) self.old.common.tree self.old.halt) result }
    {
        if self.halt.is_some() {
            return Turn::Stopped;
        }
        if first_dead(&self.members).is_some() {
            return Turn::Frozen;
        }
        let at = s.number as usize - 1;
        if is_over(member_at(&self.members, at), stops) {
            return Turn::Ended;
        }
        if let Some(other) = self.blocker(s, at) {
            return Turn::Asleep(other);
        }
        if is_stopping(member_at(&self.members, at), stops) {
            return self.fall_here(s, at, stops, Cause::Stop);
        }
        if reserve_step(&mut self.events).is_err() {
            return self.fall_here(s, at, stops, Cause::Memory);
        }
        self.step(s, at)
    }

    // A session dies in its turn, in place of a step: of the stop to which its script has come, or of want of memory.
    fn fall_here(&mut self, s: Session, at: usize, stops: bool, cause: Cause) -> Turn
        requires one { IsOneOf self.old.members.items s.number }
        requires at { at ≡ s.number - 1 }
        requires stops { stops ≡ O.opening.stops s.number }
        requires own { is_own cause ≡ true }
        requires whole { is_device cause ≡ false }
        requires mortal { (m : MemberValue) → slice_get self.old.members.items at ≡ Some m → may_die_in O.opening s.number m.left m.phase cause ≡ true }
        requires sound { IsSound S.stands O.told O.opening O.faults (scene self.old.common.word (L.sight self.old.common.store) self.old.common.tree) self.old.members.items (map event_of self.old.events.items) self.old.halt }
        requires unbroken { AreWhole self.old.members.items }
        requires kept { lives_in self.old.members.items ≤ vec_capacity self.old.events - vec_len self.old.events }
        requires going { self.old.halt ≡ None }
        requires work { (m : MemberValue) → slice_get self.old.members.items at ≡ Some m → is_over_at stops m m.life ≡ false }
        ensures sound { IsSound S.stands O.told O.opening O.faults (scene self.new.common.word (L.sight self.new.common.store) self.new.common.tree) self.new.members.items (map event_of self.new.events.items) self.new.halt }
        ensures unbroken { AreWhole self.new.members.items }
        ensures kept { lives_in self.new.members.items ≤ vec_capacity self.new.events - vec_len self.new.events }
        ensures count { length self.new.members.items ≡ length self.old.members.items }
        ensures came { Came O.opening.stops s.number (sessions self.old.members.items self.old.events.items self.old.allotments (L.sight self.old.common.store) self.old.common.tree self.old.halt) (sessions self.new.members.items self.new.events.items self.new.allotments (L.sight self.new.common.store) self.new.common.tree self.new.halt) result }
        ensures died { result ≡ Turn.Died }
        ensures on { GoesOn result }
    {
        let _member = member_at(&self.members, at);
        self.fall(s, at, cause);
        Turn::Died
    }

    // For whom a session waits that has something left to do. Under NOWAIT it does so for a COMMIT alone.
    fn blocker(&self, s: Session, at: usize) -> Option<Session>
        requires one { IsOneOf self.now.members.items s.number }
        requires at { at ≡ s.number - 1 }
        requires going { self.now.halt ≡ None }
        requires mourns_none { dead_in self.now.members.items ≡ 0 }
        requires lives { (m : MemberValue) → slice_get self.now.members.items at ≡ Some m → m.life ≡ Alive }
        ensures waits { IfSome result (λ t. Waits s.number t.number (sessions self.now.members.items self.now.events.items self.now.allotments (L.sight self.now.common.store) self.now.common.tree self.now.halt)) }
        ensures awake { result ≡ None → (m : MemberValue) → slice_get self.now.members.items at ≡ Some m → is_patient_at m.phase ≡ true → is_sleeping self.now.common.tree s.number ≡ false }
    {
        if !is_patient(member_at(&self.members, at)) {
            return None;
        }
        match self.common.tree.blocker(s.number) {
            Some(number) => Some(Session { number }),
            None => None,
        }
    }

    /// Whether a turn of a session would come to nothing, since it waits for another.
    pub(crate) fn is_asleep(&self, s: Session) -> bool
        requires one { IsOneOf self.now.members.items s.number }
        ensures { result ≡ sleeps (sessions self.now.members.items self.now.events.items self.now.allotments (L.sight self.now.common.store) self.now.common.tree self.now.halt) s.number }
    {
        if self.halt.is_some() {
            return false;
        }
        if first_dead(&self.members).is_some() {
            return false;
        }
        if !is_patient(member_at(&self.members, s.number as usize - 1)) {
            return false;
        }
        self.common.tree.blocker(s.number).is_some()
    }

    // Serves a notice that a session's want found due. Whose lock is stronger than it has to be has a read-write transaction, and its
    // lock comes down. Where no memory is found for that the session whose want it is dies of it.
    fn serve_notice(&mut self, s: Session, at: usize, notice: Notice) -> Turn
        requires one { IsOneOf self.old.members.items s.number }
        requires at { at ≡ s.number - 1 }
        requires mortal { MayFail O.opening }
        requires sound { IsSound S.stands O.told O.opening O.faults (scene self.old.common.word (L.sight self.old.common.store) self.old.common.tree) self.old.members.items (map event_of self.old.events.items) self.old.halt }
        requires room { lives_in self.old.members.items < vec_capacity self.old.events - vec_len self.old.events }
        requires going { self.old.halt ≡ None }
        requires lives { dead_in self.old.members.items ≡ 0 }
        requires alive { (m : MemberValue) → slice_get self.old.members.items at ≡ Some m → m.life ≡ Alive }
        requires due { is_spare (granted_at self.old.common.tree.table notice.to.number) (party_of self.old.common.tree.parties notice.to.number) notice.node ≡ true }
        ensures sound { IsSound S.stands O.told O.opening O.faults (scene self.new.common.word (L.sight self.new.common.store) self.new.common.tree) self.new.members.items (map event_of self.new.events.items) self.new.halt }
        ensures kept { lives_in self.new.members.items ≤ vec_capacity self.new.events - vec_len self.new.events }
        ensures count { length self.new.members.items ≡ length self.old.members.items }
        ensures writer { IsWriterAt self.old.members.items notice.to.number }
        ensures members { result ≡ Turn.Moved → self.new.members.items ≡ self.old.members.items }
        ensures allotments { result ≡ Turn.Moved → self.new.allotments ≡ self.old.allotments }
        ensures store { result ≡ Turn.Moved → self.new.common.store ≡ self.old.common.store }
        ensures parties { result ≡ Turn.Moved → self.new.common.tree.parties ≡ self.old.common.tree.parties }
        ensures events { result ≡ Turn.Moved → GrowsQuietly self.old.events.items self.new.events.items }
        ensures falls { result ≡ Turn.Moved → (self.new.halt ≡ None) × LocksFall notice.to.number self.old.common.tree self.new.common.tree }
        ensures died { result ≡ Turn.Died → (m : MemberValue) → slice_get self.old.members.items at ≡ Some m → self.new.members.items ≡ slice_set self.old.members.items at (with_life Dead m) }
        ensures death { result ≡ Turn.Died → map event_of self.new.events.items ≡ map event_of self.old.events.items ++ Died s.number Cause.Memory ∷ [] }
        ensures done { (result ≡ Turn.Moved) ⊎ (result ≡ Turn.Died) }
        ensures on { GoesOn result }
    {
        // (so the tree is whole)
        let _ = self.common.tree.blocker(s.number);
        let Notice { to, node, mode } = notice;
        match serve::<S>(&mut self.common.tree, to, node, mode) {
            Ok(demotion) => {
                record_demotion(&mut self.events, to, node, demotion);
                Turn::Moved
            }
            Err(_) => {
                self.fall(s, at, Cause::Memory);
                Turn::Died
            }
        }
    }

    // The next step of a session, in room for its events, a notice and all deaths and recoveries that may still come.
    fn step(&mut self, s: Session, at: usize) -> Turn
        requires one { IsOneOf self.old.members.items s.number }
        requires at { at ≡ s.number - 1 }
        requires sound { IsSound S.stands O.told O.opening O.faults (scene self.old.common.word (L.sight self.old.common.store) self.old.common.tree) self.old.members.items (map event_of self.old.events.items) self.old.halt }
        requires unbroken { AreWhole self.old.members.items }
        requires going { self.old.halt ≡ None }
        requires lives { dead_in self.old.members.items ≡ 0 }
        requires mortal { MayFail O.opening }
        requires room { vec_len self.old.events + 39 ≤ vec_capacity self.old.events }
        requires awake { (m : MemberValue) → slice_get self.old.members.items at ≡ Some m → is_patient_at m.phase ≡ true → is_sleeping self.old.common.tree s.number ≡ false }
        requires work { (m : MemberValue) → slice_get self.old.members.items at ≡ Some m → is_done m.left m.phase ≡ false }
        requires alive { (m : MemberValue) → slice_get self.old.members.items at ≡ Some m → m.life ≡ Alive }
        ensures sound { IsSound S.stands O.told O.opening O.faults (scene self.new.common.word (L.sight self.new.common.store) self.new.common.tree) self.new.members.items (map event_of self.new.events.items) self.new.halt }
        ensures unbroken { self.new.halt ≡ None → AreWhole self.new.members.items }
        ensures kept { lives_in self.new.members.items ≤ vec_capacity self.new.events - vec_len self.new.events }
        ensures count { length self.new.members.items ≡ length self.old.members.items }
        ensures came { Came O.opening.stops s.number (sessions self.old.members.items self.old.events.items self.old.allotments (L.sight self.old.common.store) self.old.common.tree self.old.halt) (sessions self.new.members.items self.new.events.items self.new.allotments (L.sight self.new.common.store) self.new.common.tree self.new.halt) result }
        ensures nearer { result ≡ Turn.Moved → Less (sessions self.new.members.items self.new.events.items self.new.allotments (L.sight self.new.common.store) self.new.common.tree self.new.halt).measure (sessions self.old.members.items self.old.events.items self.old.allotments (L.sight self.old.common.store) self.old.common.tree self.old.halt).measure }
        ensures on { GoesOn result }
    {
        let alloc = self.common.alloc;
        let present = match take_present(&mut self.members, at, alloc, &self.common.word) {
            Some(present) => present,
            None => return self.stop(Halt::Lost),
        };
        let Present {
            left,
            total,
            life,
            presence,
        } = present;
        let mut left = left;
        let mut allotment = self.allotments.take(s, alloc);
        let turned = go_on_from::<S, L>(&mut self.common, s, &mut left, &mut allotment, presence);
        self.allotments.put(s, allotment);
        let behind = LentMember {
            left,
            total,
            life,
            place: Whereabouts::Here(turned.phase),
        };
        put_member(&mut self.members, at, behind);
        let then = behind_of(&turned.happened);
        if let Behind::Die = then {
            // (a fault owns nothing)
            forget(turned.happened);
            self.fall(s, at, Cause::Device);
            return Turn::Died;
        }
        record(&mut self.events, self.common.alloc, s, turned.happened);
        match then {
            Behind::Nothing => Turn::Moved,
            Behind::Serve(notice) => self.serve_notice(s, at, notice),
            Behind::Stop(halt) => {
                self.halt = Some(halt);
                Turn::Stopped
            }
            Behind::Die => unreachable!(),
        }
    }
}
