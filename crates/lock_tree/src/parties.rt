ghost use Rattle.std.specs.Prelude.{◌≡◌, ◌==◌, ◌++◌, ◌∷◌, [], ℕ, true, false, Some, is_some, OnOk, OnErr};
ghost use Rattle.lock_needs.specs.declared.party.OpenWant.{OpenWant};
ghost use Rattle.lock_tree_laws.specs.Parties.{resting};
ghost use Rattle.lock_tree_laws.specs.Forest.{idle, party_of, has_party, KeepsParties};

use indexmap::IndexMap;
use lock_needs::{OpenWant, Party};
use rdb_types::NoMemory;

// Makes the owner known.
pub(crate) fn admit(parties: &mut IndexMap<u32, Party>, owner: u32) -> Result<(), NoMemory>
    ensures known { OnOk result (has_party parties.new.entries owner ≡ true) }
    ensures same { (u : ℕ) → party_of parties.new.entries u ≡ party_of parties.old.entries u }
{
    if parties.contains_key(&owner) {
        return Ok(());
    }
    let party = Party::new(*parties.allocator());
    let Ok(_) = parties.insert(owner, party) else {
        return Err(NoMemory {});
    };
    Ok(())
}

// Opens a want of an owner that is known. The room for its need is taken here.
pub(crate) fn open_for(
    parties: &mut IndexMap<u32, Party>,
    owner: u32,
    want: OpenWant,
) -> Result<(), NoMemory>
    requires { has_party parties.old.entries owner ≡ true }

    ensures own { OnOk result (party_of parties.new.entries owner ≡ record (party_of parties.old.entries owner) { opened = Some want }) }
    ensures err { OnErr result (party_of parties.new.entries owner ≡ party_of parties.old.entries owner) }
    ensures others { KeepsParties owner parties.old.entries parties.new.entries }
{
    match parties.get_mut(&owner) {
        Some(party) => party.open_want(want),
        None => Ok(()),
    }
}

// Puts another want in the place of the owner's open one.
pub(crate) fn go_to(parties: &mut IndexMap<u32, Party>, owner: u32, want: OpenWant)
    requires { is_some (party_of parties.old.entries owner).opened ≡ true }

    ensures own { party_of parties.new.entries owner ≡ record (party_of parties.old.entries owner) { opened = Some want } }
    ensures others { KeepsParties owner parties.old.entries parties.new.entries }
{
    if let Some(party) = parties.get_mut(&owner) {
        party.go_to(want);
    }
}

// Closes the owner's open want.
pub(crate) fn close_for(parties: &mut IndexMap<u32, Party>, owner: u32)
    ensures own { party_of parties.new.entries owner ≡ resting (party_of parties.old.entries owner).needs }
    ensures others { KeepsParties owner parties.old.entries parties.new.entries }
{
    if let Some(party) = parties.get_mut(&owner) {
        party.close();
    }
}

// The owner has got the need of its open want.
pub(crate) fn get_for(parties: &mut IndexMap<u32, Party>, owner: u32)
    ensures own { (want : OpenWant) → (party_of parties.old.entries owner).opened ≡ Some want → party_of parties.new.entries owner ≡ resting ((party_of parties.old.entries owner).needs ++ want.need ∷ []) }
    ensures others { KeepsParties owner parties.old.entries parties.new.entries }
{
    if let Some(party) = parties.get_mut(&owner) {
        party.get();
    }
}

// Forgets an owner.
pub(crate) fn forget(parties: &mut IndexMap<u32, Party>, owner: u32)
    ensures own { party_of parties.new.entries owner ≡ idle }
    ensures others { KeepsParties owner parties.old.entries parties.new.entries }
{
    let _gone = parties.swap_remove(&owner);
}
