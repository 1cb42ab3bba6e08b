//! The steps of an open want, from the topmost node on its way down to the node of its need.

ghost use Rattle.std.specs.Prelude.{◌≡◌, ◌<◌, ◌≤◌, ◌+◌, ◌-◌, ◌++◌, ◌∷◌, [], Bool, true, false, Some, length, vec_len, vec_capacity};
ghost use Rattle.vms_queues.specs.Modes.{at_most};
ghost use Rattle.vms_queues.specs.Owners.{is_owner};
ghost use Rattle.lock_needs.specs.Needs.{is_covered, is_plain};
ghost use Rattle.lock_needs.specs.Wants.{mode_for};
ghost use Rattle.lock_tree_laws.specs.LockTable.{granted_at, RaisedAt};
ghost use Rattle.lock_tree_laws.specs.Inner.Answering.{HasTakenWhole};
ghost use Rattle.lock_tree_laws.specs.Asking.{whole_mode};
ghost use Rattle.lock_tree_laws.specs.Inner.Releasing.{IsQuiet};
ghost use Rattle.lock_tree_laws.specs.Inner.Spare.{UsesSpare};
ghost use Rattle.lock_tree.specs.Inner.Rooms.{HasRoomFor, LeavesRoom, StaysRoomy};
ghost use Rattle.lock_tree_laws.specs.Room.{depth};
ghost use Rattle.lock_tree_laws.specs.Parties.{resting, unasked};
ghost use Rattle.lock_tree_laws.specs.Forest.{IsWhole, KeepsParties, opened_of, party_of};
ghost use Rattle.lock_tree_laws.specs.Order.{asked_last, MakesWay};
ghost use Rattle.lock_tree_laws.specs.Rule.{Finishes, GoesDown};
ghost use Rattle.lock_tree_laws.specs.Progress.{LeavesLocks, MovesOn};
ghost use Rattle.lock_tree.specs.Inner.Stepping.{StepFinishes, StepsOn, Steps};
ghost use Rattle.lock_tree.specs.declared.steps.Step.TheVariants.{Ends};
ghost use Rattle.lock_tree_laws.specs.declared.answer.Want.TheVariants.{Got};
ghost use Rattle.lock_tree.specs.States.{state_of};
ghost use Rattle.lock_tree_laws.specs.Wanted.{MayTakeWhole, needs_of, IsOpen, Answered};

use crate::asking::take_whole;
use crate::closing::{end_open, mark_asked, note_ask};
use crate::ending::is_covered as has_cover;
use crate::looking::{Look, look_here};
use crate::parties::{get_for, go_to};
use crate::parts::Parts;
use crate::sleeping::{find_blocker, is_asleep, is_crowded};
use crate::way::further_down;
use lock_needs::{Need, OpenWant};
use lock_tree_laws::Want;
use vms_locks::Enq;

// What comes of a step of an open want.
#[derive(Debug, Drop)]
pub(crate) enum Step {
    // It has come to the next node down its way, where nothing was asked yet.
    Down(OpenWant),
    // The call ends with this answer.
    Ends(Want),
}

impl Parts {
    // The owner has got the need of its open want, which its locks cover.
    fn get_need(&mut self, owner: u32, need: Need)
        requires whole { IsWhole (state_of self.old) }
        requires open { IsOpen (state_of self.old) owner (needs_of (state_of self.old) owner) need }
        requires covered { is_covered (granted_at self.old.locks owner) need ≡ true }
        requires plain { is_plain need ≡ true }
        requires quiet { IsQuiet self.old.locks owner }

        ensures got { party_of self.new.parties.entries owner ≡ resting (needs_of (state_of self.old) owner ++ need ∷ []) }
        ensures table { self.new.locks ≡ self.old.locks }
        ensures trail { self.new.trail ≡ self.old.trail }
        ensures whole { IsWhole (state_of self.new) }
        ensures others { KeepsParties owner self.old.parties.entries self.new.parties.entries }
    {
        get_for(&mut self.parties, owner);
    }

    // Where nothing is queued at the node that the want has come to, and the whole need can be granted there at once, the owner
    // gets it so: one lock in place of many.
    fn get_whole(&mut self, owner: u32, want: OpenWant) -> bool
        requires owner { is_owner owner ≡ true }
        requires room { HasRoomFor 1 owner self.old }
        requires whole { IsWhole (state_of self.old) }
        requires opened { opened_of (state_of self.old) owner ≡ Some (unasked want) }
        requires uncovered { is_covered (granted_at self.old.locks owner) want.need ≡ false }
        requires plain { is_plain want.need ≡ true }

        ensures got { result ≡ true → party_of self.new.parties.entries owner ≡ resting (needs_of (state_of self.old) owner ++ want.need ∷ []) }
        ensures may { result ≡ true → MayTakeWhole self.old.locks owner want }
        ensures taken { result ≡ true → HasTakenWhole owner want self.old.locks self.new.locks }
        ensures strong { MayTakeWhole self.old.locks owner want → result ≡ true }
        ensures asked { result ≡ true → self.new.trail.items ≡ self.old.trail.items ++ (record { owner = owner; node = want.here }) ∷ [] }
        ensures left { result ≡ false → (party_of self.new.parties.entries owner ≡ party_of self.old.parties.entries owner) × (self.new.locks ≡ self.old.locks) × (self.new.trail ≡ self.old.trail) }
        ensures whole { IsWhole (state_of self.new) }
        ensures others { KeepsParties owner self.old.parties.entries self.new.parties.entries }
    {
        if is_crowded(&self.locks, &self.parties, want.here) {
            return false;
        }
        if !take_whole(&mut self.locks, &mut self.parties, owner, want) {
            return false;
        }
        note_ask(&mut self.trail, owner, want.here);
        true
    }

    // The open want was granted its mode at the node that it has come to: there it ends, or it goes one node down.
    fn go_on(&mut self, owner: u32, want: OpenWant) -> Step
        requires whole { IsWhole (state_of self.old) }
        requires opened { opened_of (state_of self.old) owner ≡ Some want }
        requires asked { want.is_asked ≡ true }
        requires granted { at_most (mode_for want.need want.here) (granted_at self.old.locks owner want.here) ≡ true }
        requires plain { is_plain want.need ≡ true }

        ensures step { (wait : Bool) → Steps (needs_of (state_of self.old) owner) (state_of self.new) owner want wait result }
        ensures progress { StepsOn owner (state_of self.old) (state_of self.new) result }
        ensures table { self.new.locks ≡ self.old.locks }
        ensures trail { self.new.trail ≡ self.old.trail }
        ensures whole { IsWhole (state_of self.new) }
        ensures others { KeepsParties owner self.old.parties.entries self.new.parties.entries }
    {
        let Some(next) = further_down(want) else {
            self.get_need(owner, want.need);
            return Step::Ends(Want::Got);
        };
        go_to(&mut self.parties, owner, next);
        Step::Down(next)
    }

    // The owner's open want ends without being got, in the room that is kept for that.
    pub(crate) fn close_want(&mut self, owner: u32, want: OpenWant)
        requires whole { IsWhole (state_of self.old) }
        requires opened { opened_of (state_of self.old) owner ≡ Some want }

        ensures ended { party_of self.new.parties.entries owner ≡ resting (needs_of (state_of self.old) owner) }
        ensures trail { self.new.trail ≡ self.old.trail }
        ensures locks { LeavesLocks owner self.old.locks self.new.locks }
        ensures way { MakesWay owner self.old.locks self.new.locks }
        ensures spare { UsesSpare (length (needs_of (state_of self.old) owner)) self.old.locks self.new.locks }
        ensures whole { IsWhole (state_of self.new) }
        ensures others { KeepsParties owner self.old.parties.entries self.new.parties.entries }
    {
        end_open(&mut self.locks, &mut self.parties, owner, want);
    }

    // The open want was asked at the node that it has come to. Where it is queued there still it sleeps, or it ends where it isn't
    // to wait; else it was granted its mode, and goes on.
    pub(crate) fn stand(&mut self, owner: u32, want: OpenWant, wait: bool) -> Step
        requires whole { IsWhole (state_of self.old) }
        requires opened { opened_of (state_of self.old) owner ≡ Some want }
        requires asked { want.is_asked ≡ true }
        requires plain { is_plain want.need ≡ true }

        ensures trail { self.new.trail ≡ self.old.trail }
        ensures finish { StepFinishes owner result self.old.locks self.new.locks }
        ensures step { Steps (needs_of (state_of self.old) owner) (state_of self.new) owner want wait result }
        ensures progress { StepsOn owner (state_of self.old) (state_of self.new) result }
        ensures room { StaysRoomy owner self.old self.new result }
        ensures whole { IsWhole (state_of self.new) }
        ensures others { KeepsParties owner self.old.parties.entries self.new.parties.entries }
    {
        if !is_asleep(&self.locks, owner, Some(want), want.here) {
            return self.go_on(owner, want);
        }
        let Some(other) = find_blocker(&self.locks, &self.parties, owner) else {
            unreachable!();
        };
        if wait {
            return Step::Ends(Want::Asleep(other));
        }
        self.close_want(owner, want);
        Step::Ends(Want::Conflict(other))
    }

    // The open want was asked at the node that it has come to, wasn't granted its mode there, and ends.
    fn refuse(&mut self, owner: u32, want: OpenWant)
        requires whole { IsWhole (state_of self.old) }
        requires opened { opened_of (state_of self.old) owner ≡ Some (unasked want) }
        requires room { vec_len self.old.trail < vec_capacity self.old.trail }

        ensures ended { party_of self.new.parties.entries owner ≡ resting (needs_of (state_of self.old) owner) }
        ensures asked { self.new.trail.items ≡ self.old.trail.items ++ (record { owner = owner; node = want.here }) ∷ [] }
        ensures locks { LeavesLocks owner self.old.locks self.new.locks }
        ensures way { MakesWay owner self.old.locks self.new.locks }
        ensures whole { IsWhole (state_of self.new) }
        ensures others { KeepsParties owner self.old.parties.entries self.new.parties.entries }
    {
        self.close_want(
            owner,
            OpenWant {
                need: want.need,
                here: want.here,
                is_asked: false,
            },
        );
        note_ask(&mut self.trail, owner, want.here);
    }

    // The open want, which no lock covers, looks at its node and asks there.
    fn ask_node(&mut self, owner: u32, want: OpenWant, wait: bool) -> Step
        requires owner { is_owner owner ≡ true }
        requires room { HasRoomFor 1 owner self.old }
        requires whole { IsWhole (state_of self.old) }
        requires opened { opened_of (state_of self.old) owner ≡ Some (unasked want) }
        requires uncovered { is_covered (granted_at self.old.locks owner) want.need ≡ false }
        requires not_whole { MayTakeWhole self.old.locks owner want → ⊥ }
        requires plain { is_plain want.need ≡ true }

        ensures went { GoesDown owner want.need wait (StepFinishes owner result) (state_of self.old) (state_of self.new) }
        ensures few { length self.new.trail.items ≤ length self.old.trail.items + 1 }
        ensures step { Steps (needs_of (state_of self.old) owner) (state_of self.new) owner want wait result }
        ensures progress { StepsOn owner (state_of self.old) (state_of self.new) result }
        ensures room { LeavesRoom owner self.old self.new result }
        ensures whole { IsWhole (state_of self.new) }
        ensures others { KeepsParties owner self.old.parties.entries self.new.parties.entries }
    {
        let Some(party) = self.parties.get(&owner) else {
            unreachable!();
        };
        match look_here(&mut self.locks, &self.parties, owner, party, want, wait) {
            Look::NoticeTo(other, mode) => Step::Ends(Want::NoticeTo(other, want.here, mode)),
            Look::Asked(Enq::Granted) => {
                let asked = mark_asked(&mut self.parties, &mut self.trail, owner, want);
                self.go_on(owner, asked)
            }
            Look::Asked(Enq::Asleep) => {
                let asked = mark_asked(&mut self.parties, &mut self.trail, owner, want);
                self.stand(owner, asked, wait)
            }
            Look::Asked(Enq::NotQueued(other)) => {
                self.refuse(owner, want);
                Step::Ends(Want::Conflict(other))
            }
            Look::Asked(Enq::Deadlock(cycle)) => {
                self.refuse(owner, want);
                Step::Ends(Want::Deadlock(cycle))
            }
        }
    }

    // A step of the open want at its node, where it wasn't asked yet: where a lock covers its need, it is got.
    fn step(&mut self, owner: u32, want: OpenWant, wait: bool) -> Step
        requires owner { is_owner owner ≡ true }
        requires room { HasRoomFor 1 owner self.old }
        requires whole { IsWhole (state_of self.old) }
        requires opened { opened_of (state_of self.old) owner ≡ Some (unasked want) }
        requires plain { is_plain want.need ≡ true }

        ensures went { GoesDown owner want.need wait (StepFinishes owner result) (state_of self.old) (state_of self.new) }
        ensures few { length self.new.trail.items ≤ length self.old.trail.items + 1 }
        ensures step { Steps (needs_of (state_of self.old) owner) (state_of self.new) owner want wait result }
        ensures progress { StepsOn owner (state_of self.old) (state_of self.new) result }
        ensures room { LeavesRoom owner self.old self.new result }
        ensures covered { is_covered (granted_at self.old.locks owner) want.need ≡ true → (result ≡ Ends Got) × (self.new.locks ≡ self.old.locks) × (self.new.trail ≡ self.old.trail) }
        ensures strong { is_covered (granted_at self.old.locks owner) want.need ≡ false → MayTakeWhole self.old.locks owner want → (result ≡ Ends Got) × RaisedAt self.old.locks self.new.locks owner want.here (whole_mode self.old.locks owner want) × (self.new.trail.items ≡ asked_last self.old.trail.items owner want.here) }
        ensures whole { IsWhole (state_of self.new) }
        ensures others { KeepsParties owner self.old.parties.entries self.new.parties.entries }
    {
        if has_cover(&self.locks, owner, want.need) {
            self.get_need(owner, want.need);
            return Step::Ends(Want::Got);
        }
        if self.get_whole(owner, want) {
            return Step::Ends(Want::Got);
        }
        self.ask_node(owner, want, wait)
    }

    // The open want goes down its way from its node, where it wasn't asked yet, as far as it comes.
    pub(crate) fn go_down(&mut self, owner: u32, mut want: OpenWant, wait: bool) -> Want
        requires owner { is_owner owner ≡ true }
        requires room { HasRoomFor (4 - depth want.here.level) owner self.old }
        requires whole { IsWhole (state_of self.old) }
        requires opened { opened_of (state_of self.old) owner ≡ Some (unasked want) }
        requires plain { is_plain want.need ≡ true }

        ensures went { GoesDown owner want.need wait (Finishes owner result) (state_of self.old) (state_of self.new) }
        ensures few { length self.new.trail.items ≤ length self.old.trail.items + (4 - depth want.here.level) }
        ensures answer { Answered (needs_of (state_of self.old) owner) (state_of self.new) owner want.need wait result }
        ensures progress { MovesOn owner (state_of self.old) (state_of self.new) result }
        ensures covered { is_covered (granted_at self.old.locks owner) want.need ≡ true → (result ≡ Got) × (self.new.locks ≡ self.old.locks) × (self.new.trail ≡ self.old.trail) }
        ensures strong { is_covered (granted_at self.old.locks owner) want.need ≡ false → MayTakeWhole self.old.locks owner want → (result ≡ Got) × RaisedAt self.old.locks self.new.locks owner want.here (whole_mode self.old.locks owner want) × (self.new.trail.items ≡ asked_last self.old.trail.items owner want.here) }
        ensures whole { IsWhole (state_of self.new) }
        ensures others { KeepsParties owner self.old.parties.entries self.new.parties.entries }
    {
        loop {
            match self.step(owner, want, wait) {
                Step::Down(next) => want = next,
                Step::Ends(answer) => return answer,
            }
        }
    }
}
