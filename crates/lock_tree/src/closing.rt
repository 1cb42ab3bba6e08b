ghost use Rattle.std.specs.Prelude.{◌≡◌, ◌++◌, ◌∷◌, [], ◌<◌, ◌≤◌, ◌+◌, true, Some, is_some, length, vec_len, vec_capacity};
ghost use Rattle.lock_tree_laws.specs.LockTable.{HasIntents};
ghost use Rattle.lock_tree_laws.specs.Parties.{IsKept, KeepsOthers, resting, asked_at};
ghost use Rattle.lock_tree_laws.specs.Order.{MakesWay, StandsByNeeds};
ghost use Rattle.lock_tree_laws.specs.Forest.{party_of, KeepsParties};
ghost use Rattle.lock_tree_laws.specs.Inner.Spare.{HasSpare, UsesSpare};

use crate::ending::end_want;
use crate::parties::{close_for, go_to};
use indexmap::IndexMap;
use lock_needs::{Asked, Node, OpenWant, Party};
use vms_locks::Locks;

// Adds the entry that the owner was asked for at the node, for which there is room.
pub(crate) fn note_ask(trail: &mut Vec<Asked>, owner: u32, node: Node)
    requires room { vec_len trail.old < vec_capacity trail.old }

    ensures trail { trail.new.items ≡ trail.old.items ++ (record { owner = owner; node = node }) ∷ [] }
    ensures length { vec_len trail.new ≡ vec_len trail.old + 1 }
    ensures capacity { vec_capacity trail.old ≤ vec_capacity trail.new }
{
    let Ok(()) = trail.push(Asked { owner, node }) else {
        unreachable!();
    };
}

// Notes that the owner's open want was asked at the node that it has come to, and gives it as it then stands.
pub(crate) fn mark_asked(
    parties: &mut IndexMap<u32, Party>,
    trail: &mut Vec<Asked>,
    owner: u32,
    want: OpenWant,
) -> OpenWant
    requires opened { is_some (party_of parties.old.entries owner).opened ≡ true }
    requires room { vec_len trail.old < vec_capacity trail.old }

    ensures want { result ≡ asked_at want want.here }
    ensures own { party_of parties.new.entries owner ≡ record (party_of parties.old.entries owner) { opened = Some (asked_at want want.here) } }
    ensures others { KeepsParties owner parties.old.entries parties.new.entries }
    ensures trail { trail.new.items ≡ trail.old.items ++ (record { owner = owner; node = want.here }) ∷ [] }
    ensures length { vec_len trail.new ≡ vec_len trail.old + 1 }
    ensures capacity { vec_capacity trail.old ≤ vec_capacity trail.new }
{
    let asked = OpenWant {
        need: want.need,
        here: want.here,
        is_asked: true,
    };
    note_ask(trail, owner, want.here);
    go_to(parties, owner, asked);
    asked
}

// Ends the owner's open want, as `end_want` does.
pub(crate) fn end_open(
    locks: &mut Locks,
    parties: &mut IndexMap<u32, Party>,
    owner: u32,
    want: OpenWant,
)
    requires intents { HasIntents locks.old }
    requires kept { IsKept locks.old owner (party_of parties.old.entries owner) }
    requires opened { (party_of parties.old.entries owner).opened ≡ Some want }
    requires room { HasSpare (length (party_of parties.old.entries owner).needs) locks.old }

    ensures ended { party_of parties.new.entries owner ≡ resting (party_of parties.old.entries owner).needs }
    ensures rests { StandsByNeeds locks.old owner (party_of parties.old.entries owner) → StandsByNeeds locks.new owner (party_of parties.new.entries owner) }
    ensures way { MakesWay owner locks.old locks.new }
    ensures intents { HasIntents locks.new }
    ensures kept { IsKept locks.new owner (party_of parties.new.entries owner) }
    ensures others { KeepsOthers owner locks.old locks.new }
    ensures parties { KeepsParties owner parties.old.entries parties.new.entries }
    ensures spare { UsesSpare (length (party_of parties.old.entries owner).needs) locks.old locks.new }
{
    let Some(party) = parties.get(&owner) else {
        unreachable!();
    };
    end_want(locks, owner, party, want);
    close_for(parties, owner);
}
