ghost use Rattle.std.specs.Prelude.{◌≡◌, ◌==◌, ◌+◌, ◌≤◌, ℕ, true, false, length, IfOk, OnOk, OnErr};
ghost use Rattle.lock_needs.specs.Keeping.{is_excess as exceeds};
ghost use Rattle.lock_needs.specs.Wants.{opened_at, kept_at};
ghost use Rattle.lock_tree_laws.specs.LockTable.{granted_at, HasIntents};
ghost use Rattle.lock_tree_laws.specs.Parties.{IsKept, KeepsOthers};
ghost use Rattle.lock_tree_laws.specs.Forest.{places_kept as places_of_all};
ghost use Rattle.lock_tree.specs.Notices.{notice_answer};
ghost use Rattle.lock_tree_laws.specs.Order.{MakesWay, StandsByNeeds};
ghost use Rattle.lock_tree_laws.specs.Progress.{IsServedAt};
ghost use Rattle.lock_tree_laws.specs.Inner.Spare.{HasSpare, UsesSpare};

use crate::coming_down::bring_down;
use crate::holding::granted_of;
use crate::places::places_kept;
use indexmap::IndexMap;
use lock_needs::{Node, OpenWant, Party, contains, is_excess, mode_for};
use rdb_types::NoMemory;
use vms_locks::Locks;
use vms_queues::{Mode, is_at_most};

/// A lock's mode before and after it was weakened; NL where it was released.
#[derive(Clone, Copy, Debug, PartialEq, Eq, Drop)]
pub struct Demotion {
    pub from: Mode,
    pub to: Mode,
}

// The mode that the open want has been granted at the node; NL where none.
pub(crate) fn opened_mode(locks: &Locks, owner: u32, opened: Option<OpenWant>, node: Node) -> Mode
    ensures { result ≡ opened_at (granted_at locks.now owner) opened node }
{
    let Some(want) = opened else {
        return Mode::NL;
    };
    let mode = mode_for(want.need, node);
    if contains(node, want.here)
        || (node == want.here
            && want.is_asked
            && is_at_most(mode, granted_of(locks, owner, node)))
    {
        mode
    } else {
        Mode::NL
    }
}

// The least mode that a notice leaves the owner at the node.
pub(crate) fn kept_mode(locks: &Locks, owner: u32, party: &Party, node: Node) -> Mode
    ensures { result ≡ kept_at (granted_at locks.now owner) party.now node }
{
    let opened = opened_mode(locks, owner, party.opened(), node);
    party.must_keep(opened, node)
}

// Serves a notice: where the owner's lock at the node is stronger than it has to be, it comes down to the least mode that must be
// kept.
pub(crate) fn serve_notice(
    locks: &mut Locks,
    owner: u32,
    party: &Party,
    node: Node,
) -> Option<Demotion>
    requires intents { HasIntents locks.old }
    requires kept { IsKept locks.old owner party.now }
    requires room { exceeds (granted_at locks.old owner node) (kept_at (granted_at locks.old owner) party.now node) ≡ true → HasSpare (length party.now.needs) locks.old }

    ensures answer { result ≡ notice_answer (granted_at locks.old owner node) (kept_at (granted_at locks.old owner) party.now node) }
    ensures least { exceeds (granted_at locks.old owner node) (kept_at (granted_at locks.old owner) party.now node) ≡ true → granted_at locks.new owner node ≡ kept_at (granted_at locks.old owner) party.now node }
    ensures unchanged { exceeds (granted_at locks.old owner node) (kept_at (granted_at locks.old owner) party.now node) ≡ false → locks.new ≡ locks.old }
    ensures served { IsServedAt owner party.now node locks.old locks.new }
    ensures intents { HasIntents locks.new }
    ensures kept { IsKept locks.new owner party.now }
    ensures others { KeepsOthers owner locks.old locks.new }
    ensures way { MakesWay owner locks.old locks.new }
    ensures stands { StandsByNeeds locks.old owner party.now → StandsByNeeds locks.new owner party.now }
    ensures spare { UsesSpare (length party.now.needs) locks.old locks.new }
{
    let held = granted_of(locks, owner, node);
    let keep = kept_mode(locks, owner, party, node);
    if !is_excess(held, keep) {
        return None;
    }
    bring_down(locks, party.needs(), owner, node, keep);
    Some(Demotion {
        from: held,
        to: keep,
    })
}

// How many places are to be spare in the lock table where the party is served a notice: one for each of its needs, and those that
// the ends of open wants may take.
fn places_for_notice(parties: &IndexMap<u32, Party>, party: &Party) -> usize
    ensures { result ≡ length party.now.needs + places_of_all parties.now.entries }
{
    party.needs().len() + places_kept(parties)
}

// Makes room for all that the owner's needs may take lower, where a notice to it is due at the node, beside what is kept for the
// ends of open wants.
fn make_room_for_notice(
    locks: &mut Locks,
    parties: &IndexMap<u32, Party>,
    owner: u32,
    party: &Party,
    node: Node,
) -> Result<(), NoMemory>
    ensures entries { locks.new.entries ≡ locks.old.entries }
    ensures spare { locks.old.spare ≤ locks.new.spare }
    ensures ok { OnOk result (exceeds (granted_at locks.old owner node) (kept_at (granted_at locks.old owner) party.now node) ≡ true → HasSpare (length party.now.needs + places_of_all parties.now.entries) locks.new) }
    ensures unchanged { OnOk result (exceeds (granted_at locks.old owner node) (kept_at (granted_at locks.old owner) party.now node) ≡ false → locks.new ≡ locks.old) }
{
    let held = granted_of(locks, owner, node);
    if !is_excess(held, kept_mode(locks, owner, party, node)) {
        return Ok(());
    }
    locks.reserve(places_for_notice(parties, party))
}

// Answers a notice, as `serve_notice` does. All memory is taken before anything changes, and the room for the ends of open wants
// stays.
pub(crate) fn answer_notice(
    locks: &mut Locks,
    parties: &IndexMap<u32, Party>,
    owner: u32,
    party: &Party,
    node: Node,
) -> Result<Option<Demotion>, NoMemory>
    requires intents { HasIntents locks.old }
    requires kept { IsKept locks.old owner party.now }

    ensures answer { IfOk result (λ d. d ≡ notice_answer (granted_at locks.old owner node) (kept_at (granted_at locks.old owner) party.now node)) }
    ensures least { OnOk result (exceeds (granted_at locks.old owner node) (kept_at (granted_at locks.old owner) party.now node) ≡ true → granted_at locks.new owner node ≡ kept_at (granted_at locks.old owner) party.now node) }
    ensures unchanged { OnOk result (exceeds (granted_at locks.old owner node) (kept_at (granted_at locks.old owner) party.now node) ≡ false → locks.new ≡ locks.old) }
    ensures served { OnOk result (IsServedAt owner party.now node locks.old locks.new) }
    ensures err { OnErr result (locks.new.entries ≡ locks.old.entries) }
    ensures intents { HasIntents locks.new }
    ensures kept { IsKept locks.new owner party.now }
    ensures others { KeepsOthers owner locks.old locks.new }
    ensures way { MakesWay owner locks.old locks.new }
    ensures stands { StandsByNeeds locks.old owner party.now → StandsByNeeds locks.new owner party.now }
    ensures room { HasSpare (places_of_all parties.now.entries) locks.old → HasSpare (places_of_all parties.now.entries) locks.new }
{
    make_room_for_notice(locks, parties, owner, party, node)?;
    Ok(serve_notice(locks, owner, party, node))
}
