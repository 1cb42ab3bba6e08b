//! Wants, from their opening on.

ghost use Rattle.std.specs.Prelude.{◌≡◌, ◌≤◌, ◌<◌, ◌+◌, ◌*◌, ◌^◌, true, false, None, Some, is_some, length, IfOk, OnOk, OnErr};
ghost use Rattle.vms_queues.specs.Owners.{is_owner};
ghost use Rattle.lock_needs.specs.Needs.{is_covered, is_plain};
ghost use Rattle.lock_tree_laws.specs.Forest.{IsWhole, KeepsParties, party_of, opened_of as open_want_of, places_kept as places_of_all};
ghost use Rattle.lock_tree_laws.specs.LockTable.{granted_at, KeepsLocks};
ghost use Rattle.lock_tree_laws.specs.Rule.{Finishes, GoesDown, entered};
ghost use Rattle.lock_tree_laws.specs.Progress.{LeavesLocks, MovesOn};
ghost use Rattle.lock_tree.specs.States.{state_of};
ghost use Rattle.lock_tree_laws.specs.Wanted.{MayTakeWhole, needs_of, IsOf, IsLooking, Answered, GotAtOnce, GotWhole, AddsAsks, trail_of_want, opening_of, want_of};
ghost use Rattle.lock_tree.specs.Inner.Rooms.{HasRoomFor, HasRoomToOpen};
ghost use Rattle.lock_tree_laws.specs.Room.{IsAsBefore};

use crate::parties::{admit, open_for};
use crate::parts::Parts;
use crate::places::places_kept;
use crate::steps::Step;
use crate::trail::cut_asks;
use crate::way::opening;
use indexmap::IndexMap;
use lock_needs::{Need, OpenWant, Party};
use lock_tree_laws::Want;
use rdb_types::NoMemory;

/// How many nodes are on the way of a need, its own with them.
const WAY_NODES: usize = 4;

// How many needs the owner has got.
fn count_needs(parties: &IndexMap<u32, Party>, owner: u32) -> usize
    ensures value { result ≡ length (party_of parties.now.entries owner).needs }
    ensures small { result < 2 ^ 59 }
{
    match parties.get(&owner) {
        Some(party) => party.needs().len(),
        None => 0,
    }
}

// How many places are to be spare in the lock table as a want goes its way: at each node on it one for its lock, and one for each
// need of its owner that is to be taken lower; and those that the ends of open wants may take, its own among them.
fn places_for(parties: &IndexMap<u32, Party>, owner: u32) -> usize
    ensures { result ≡ 4 * (length (party_of parties.now.entries owner).needs + 1) + (places_of_all parties.now.entries + length (party_of parties.now.entries owner).needs) }
{
    let needs = count_needs(parties, owner);
    WAY_NODES * (needs + 1) + (places_kept(parties) + needs)
}

impl Parts {
    // The owner's open want.
    pub(crate) fn opened_of(&self, owner: u32) -> Option<OpenWant>
        ensures { result ≡ open_want_of (state_of self.now) owner }
    {
        self.parties.get(&owner)?.opened()
    }

    // Takes the memory that the owner's want may need.
    fn make_room(&mut self, owner: u32) -> Result<(), NoMemory>
        ensures same { IsAsBefore (state_of self.old) (state_of self.new) }
        ensures parties { self.new.parties ≡ self.old.parties }
        ensures spare { self.old.locks.spare ≤ self.new.locks.spare }
        ensures ok { OnOk result (HasRoomToOpen owner self.new) }
    {
        self.trail.reserve(WAY_NODES)?;
        self.locks.reserve(places_for(&self.parties, owner))
    }

    // Opens a want of the need for an owner that has none open.
    fn open_want(&mut self, owner: u32, need: Need, wait: bool) -> Result<Want, NoMemory>
        requires owner { is_owner owner ≡ true }
        requires room { HasRoomToOpen owner self.old }
        requires whole { IsWhole (state_of self.old) }
        requires resting { open_want_of (state_of self.old) owner ≡ None }
        requires plain { is_plain need ≡ true }

        ensures went { IfOk result (λ a. GoesDown owner need wait (Finishes owner a) (entered (state_of self.old) owner) (state_of self.new)) }
        ensures few { IfOk result (λ a. length self.new.trail.items ≤ length (trail_of_want (state_of self.old) owner) + 4) }
        ensures answer { IfOk result (Answered (needs_of (state_of self.old) owner) (state_of self.new) owner need wait) }
        ensures covered { is_covered (granted_at self.old.locks owner) need ≡ true → IfOk result (GotAtOnce owner (state_of self.old) (state_of self.new)) }
        ensures strong { is_covered (granted_at self.old.locks owner) need ≡ false → MayTakeWhole self.old.locks owner (opening_of need) → IfOk result (GotWhole owner (opening_of need) (state_of self.old) (state_of self.new)) }
        ensures err { OnErr result (IsAsBefore (state_of self.old) (state_of self.new)) }
        ensures whole { IsWhole (state_of self.new) }
        ensures others { KeepsParties owner self.old.parties.entries self.new.parties.entries }
    {
        admit(&mut self.parties, owner)?;
        let want = opening(need);
        open_for(&mut self.parties, owner, want)?;
        cut_asks(&mut self.trail, owner, want);
        Ok(self.go_down(owner, want, wait))
    }

    // Goes on with an open want that was asked at the node that it has come to.
    fn look_again(&mut self, owner: u32, want: OpenWant, wait: bool) -> Want
        requires owner { is_owner owner ≡ true }
        requires room { HasRoomFor 4 owner self.old }
        requires whole { IsWhole (state_of self.old) }
        requires opened { open_want_of (state_of self.old) owner ≡ Some want }
        requires asked { want.is_asked ≡ true }
        requires plain { is_plain want.need ≡ true }

        ensures went { GoesDown owner want.need wait (Finishes owner result) (state_of self.old) (state_of self.new) }
        ensures few { length self.new.trail.items ≤ length self.old.trail.items + 4 }
        ensures answer { Answered (needs_of (state_of self.old) owner) (state_of self.new) owner want.need wait result }
        ensures progress { MovesOn owner (state_of self.old) (state_of self.new) result }
        ensures whole { IsWhole (state_of self.new) }
        ensures others { KeepsParties owner self.old.parties.entries self.new.parties.entries }
    {
        match self.stand(owner, want, wait) {
            Step::Down(next) => self.go_down(owner, next, wait),
            Step::Ends(answer) => answer,
        }
    }

    // Opens a want of the need, or goes on with the want that is open.
    fn want_in_room(&mut self, owner: u32, need: Need, wait: bool) -> Result<Want, NoMemory>
        requires owner { is_owner owner ≡ true }
        requires room { HasRoomToOpen owner self.old }
        requires whole { IsWhole (state_of self.old) }
        requires plain { is_plain need ≡ true }
        requires same { IsOf need (open_want_of (state_of self.old) owner) }

        ensures went { IfOk result (λ a. GoesDown owner need wait (Finishes owner a) (entered (state_of self.old) owner) (state_of self.new)) }
        ensures few { IfOk result (λ a. length self.new.trail.items ≤ length (trail_of_want (state_of self.old) owner) + 4) }
        ensures answer { IfOk result (Answered (needs_of (state_of self.old) owner) (state_of self.new) owner need wait) }
        ensures progress { is_some (open_want_of (state_of self.old) owner) ≡ true → IfOk result (MovesOn owner (state_of self.old) (state_of self.new)) }
        ensures covered { is_covered (granted_at self.old.locks owner) need ≡ true → IsLooking (open_want_of (state_of self.old) owner) → IfOk result (GotAtOnce owner (state_of self.old) (state_of self.new)) }
        ensures strong { let w = want_of (open_want_of (state_of self.old) owner) need in is_covered (granted_at self.old.locks owner) need ≡ false → IsLooking (open_want_of (state_of self.old) owner) → MayTakeWhole self.old.locks owner w → IfOk result (GotWhole owner w (state_of self.old) (state_of self.new)) }
        ensures err { OnErr result (IsAsBefore (state_of self.old) (state_of self.new)) }
        ensures whole { IsWhole (state_of self.new) }
        ensures others { KeepsParties owner self.old.parties.entries self.new.parties.entries }
    {
        match self.opened_of(owner) {
            Some(want) if want.is_asked => Ok(self.look_again(owner, want, wait)),
            Some(want) => Ok(self.go_down(owner, want, wait)),
            None => self.open_want(owner, need, wait),
        }
    }

    // Asks for the need: opens a want of it, or goes on with the want that is open. All memory is taken before anything changes.
    pub(crate) fn want(&mut self, owner: u32, need: Need, wait: bool) -> Result<Want, NoMemory>
        requires owner { is_owner owner ≡ true }
        requires whole { IsWhole (state_of self.old) }
        requires plain { is_plain need ≡ true }
        requires same { IsOf need (open_want_of (state_of self.old) owner) }

        ensures went { IfOk result (λ a. GoesDown owner need wait (Finishes owner a) (entered (state_of self.old) owner) (state_of self.new)) }
        ensures few { IfOk result (λ a. length self.new.trail.items ≤ length (trail_of_want (state_of self.old) owner) + 4) }
        ensures trail { IfOk result (λ a. AddsAsks owner need (trail_of_want (state_of self.old) owner) self.new.trail.items) }
        ensures locks { IfOk result (λ a. KeepsLocks owner self.old.locks self.new.locks) }
        ensures no_weaker { IfOk result (λ a. LeavesLocks owner self.old.locks self.new.locks) }
        ensures answer { IfOk result (Answered (needs_of (state_of self.old) owner) (state_of self.new) owner need wait) }
        ensures progress { is_some (open_want_of (state_of self.old) owner) ≡ true → IfOk result (MovesOn owner (state_of self.old) (state_of self.new)) }
        ensures covered { is_covered (granted_at self.old.locks owner) need ≡ true → IsLooking (open_want_of (state_of self.old) owner) → IfOk result (GotAtOnce owner (state_of self.old) (state_of self.new)) }
        ensures strong { let w = want_of (open_want_of (state_of self.old) owner) need in is_covered (granted_at self.old.locks owner) need ≡ false → IsLooking (open_want_of (state_of self.old) owner) → MayTakeWhole self.old.locks owner w → IfOk result (GotWhole owner w (state_of self.old) (state_of self.new)) }
        ensures err { OnErr result (IsAsBefore (state_of self.old) (state_of self.new)) }
        ensures whole { IsWhole (state_of self.new) }
        ensures others { KeepsParties owner self.old.parties.entries self.new.parties.entries }
    {
        self.make_room(owner)?;
        self.want_in_room(owner, need, wait)
    }
}
