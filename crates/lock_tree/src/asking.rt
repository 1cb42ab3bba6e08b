ghost use Rattle.std.specs.Prelude.{◌≡◌, ◌++◌, ◌∷◌, [], List, true, false, Some, length};
ghost use Rattle.vms_queues.specs.Modes.{at_most};
ghost use Rattle.vms_queues.specs.Owners.{is_owner};
ghost use Rattle.vms_locks.specs.Table.{queues_at, IsLive};
ghost use Rattle.vms_locks.specs.Answers.{Answers};
ghost use Rattle.lock_needs.specs.declared.need.Need.{Need};
ghost use Rattle.lock_needs.specs.Needs.{covered_above, is_plain};
ghost use Rattle.lock_needs.specs.Wants.{kept_at};
ghost use Rattle.lock_tree_laws.specs.LockTable.{granted_at, HasIntents};
ghost use Rattle.lock_tree_laws.specs.Parties.{IsKept, KeepsOthers, wanting, resting, unasked};
ghost use Rattle.lock_tree_laws.specs.Inner.Releasing.{IsQuiet};
ghost use Rattle.lock_tree_laws.specs.Inner.Answering.{ComesDown, was_granted, TakesAnswer, TakesWhole, HasTakenWhole};
ghost use Rattle.lock_tree_laws.specs.Progress.{IsServedAt, LeavesLocks};
ghost use Rattle.lock_tree_laws.specs.Inner.Spare.{HasSpare, UsesSpare};
ghost use Rattle.lock_tree_laws.specs.Asking.{request_at, asked_mode, AnswersAt};
ghost use Rattle.lock_tree_laws.specs.Forest.{party_of, KeepsParties};
ghost use Rattle.lock_tree_laws.specs.Wanted.{MayTakeWhole};

use crate::holding::granted_of;
use crate::notice::serve_notice;
use indexmap::IndexMap;
use lock_needs::{Need, Node, OpenWant, Party, mode_for};
use vms_locks::{Enq, Locks};
use vms_queues::{Mode, join};

// Whether the request was granted.
fn is_granted(answer: &Enq) -> bool
    ensures { result ≡ was_granted answer.now }
{
    match answer {
        Enq::Granted => true,
        Enq::Asleep | Enq::NotQueued(_) | Enq::Deadlock(_) => false,
    }
}

// Asks a mode at the node for an owner that has nothing queued.
pub(crate) fn ask(locks: &mut Locks, owner: u32, node: Node, mode: Mode, wait: bool) -> Enq
    requires owner { is_owner owner ≡ true }
    requires room { HasSpare 1 locks.old }
    requires quiet { IsQuiet locks.old owner }
    requires ascends { at_most (granted_at locks.old owner node) mode ≡ true }

    ensures answer { AnswersAt locks.old locks.new owner node mode wait result }
    ensures exact { Answers locks.old locks.new owner node wait (request_at locks.old owner node mode) result }
    ensures live { IsLive (queues_at locks.new) }
    ensures spare { UsesSpare 1 locks.old locks.new }
{
    match locks.mode_of(owner, node) {
        Some(_) => locks.convert(owner, node, mode, wait),
        None => locks.enq(owner, node, mode, wait),
    }
}

// Asks the want's mode at its node, joined to the lock that its owner has there.
pub(crate) fn ask_here(
    locks: &mut Locks,
    owner: u32,
    needs: &[Need],
    want: OpenWant,
    wait: bool,
) -> Enq
    requires owner { is_owner owner ≡ true }
    requires room { HasSpare 1 locks.old }
    requires intents { HasIntents locks.old }
    requires kept { IsKept locks.old owner (wanting needs.now (unasked want)) }
    requires least { at_most (granted_at locks.old owner want.here) (kept_at (granted_at locks.old owner) (wanting needs.now (unasked want)) want.here) ≡ true }

    ensures answer { TakesAnswer locks.new owner needs.now want wait result }
    ensures exact { Answers locks.old locks.new owner want.here wait (request_at locks.old owner want.here (asked_mode locks.old owner want)) result }
    ensures live { IsLive (queues_at locks.new) }
    ensures intents { HasIntents locks.new }
    ensures others { KeepsOthers owner locks.old locks.new }
    ensures left { AnswersAt locks.old locks.new owner want.here (asked_mode locks.old owner want) wait result }
    ensures spare { UsesSpare 1 locks.old locks.new }
{
    let held = granted_of(locks, owner, want.here);
    ask(
        locks,
        owner,
        want.here,
        join(held, mode_for(want.need, want.here)),
        wait,
    )
}

// Brings the owner's lock at the node of its want, which no lock above covers, down to what must be kept there.
pub(crate) fn make_least(locks: &mut Locks, owner: u32, party: &Party, want: OpenWant)
    requires room { HasSpare (length party.now.needs) locks.old }
    requires intents { HasIntents locks.old }
    requires kept { IsKept locks.old owner party.now }
    requires opened { party.now.opened ≡ Some (unasked want) }
    requires uncovered { covered_above (granted_at locks.old owner) want.need ≡ false }

    ensures least { at_most (granted_at locks.new owner want.here) (kept_at (granted_at locks.new owner) party.now want.here) ≡ true }
    ensures served { IsServedAt owner party.now want.here locks.old locks.new }
    ensures down { ComesDown owner party.now locks.old locks.new }
    ensures spare { UsesSpare (length party.now.needs) locks.old locks.new }
{
    let _served = serve_notice(locks, owner, party, want.here);
}

// Asks the whole need of an owner's open want at the node that this has come to. It doesn't wait there: where the need isn't
// granted at once, nothing changes.
pub(crate) fn ask_whole(locks: &mut Locks, owner: u32, want: OpenWant) -> bool
    requires owner { is_owner owner ≡ true }
    requires room { HasSpare 1 locks.old }
    requires intents { HasIntents locks.old }
    requires kept { (ws : List Need) × IsKept locks.old owner (wanting ws (unasked want)) }
    requires plain { is_plain want.need ≡ true }

    ensures got { result ≡ true → TakesWhole owner want locks.old locks.new }
    ensures taken { result ≡ true → HasTakenWhole owner want locks.old locks.new }
    ensures strong { MayTakeWhole locks.old owner want → result ≡ true }
    ensures left { result ≡ false → locks.new ≡ locks.old }
    ensures intents { HasIntents locks.new }
    ensures others { KeepsOthers owner locks.old locks.new }
    ensures spare { UsesSpare 1 locks.old locks.new }
{
    let held = granted_of(locks, owner, want.here);
    let mode = join(held, want.need.mode);
    let answer = ask(locks, owner, want.here, mode, false);
    is_granted(&answer)
}

// Asks the whole need of the party's open want, as `ask_whole` does. Where it is granted, the party has got it.
fn take_for(locks: &mut Locks, owner: u32, party: &mut Party, want: OpenWant) -> bool
    requires owner { is_owner owner ≡ true }
    requires room { HasSpare 1 locks.old }
    requires intents { HasIntents locks.old }
    requires kept { IsKept locks.old owner party.old }
    requires opened { party.old.opened ≡ Some (unasked want) }
    requires plain { is_plain want.need ≡ true }

    ensures got { result ≡ true → party.new ≡ resting (party.old.needs ++ want.need ∷ []) }
    ensures taken { result ≡ true → HasTakenWhole owner want locks.old locks.new }
    ensures strong { MayTakeWhole locks.old owner want → result ≡ true }
    ensures left { result ≡ false → (party.new ≡ party.old) × (locks.new ≡ locks.old) }
    ensures intents { HasIntents locks.new }
    ensures kept { IsKept locks.new owner party.new }
    ensures others { KeepsOthers owner locks.old locks.new }
    ensures spare { UsesSpare 1 locks.old locks.new }
{
    let granted = ask_whole(locks, owner, want);
    if granted {
        party.get();
    }
    granted
}

// Asks the whole need of the owner's open want at the node that this has come to, as `ask_whole` does. Where it is granted, the
// owner has got it.
pub(crate) fn take_whole(
    locks: &mut Locks,
    parties: &mut IndexMap<u32, Party>,
    owner: u32,
    want: OpenWant,
) -> bool
    requires owner { is_owner owner ≡ true }
    requires room { HasSpare 1 locks.old }
    requires intents { HasIntents locks.old }
    requires kept { IsKept locks.old owner (party_of parties.old.entries owner) }
    requires opened { (party_of parties.old.entries owner).opened ≡ Some (unasked want) }
    requires plain { is_plain want.need ≡ true }

    ensures got { result ≡ true → party_of parties.new.entries owner ≡ resting ((party_of parties.old.entries owner).needs ++ want.need ∷ []) }
    ensures taken { result ≡ true → HasTakenWhole owner want locks.old locks.new }
    ensures strong { MayTakeWhole locks.old owner want → result ≡ true }
    ensures left { result ≡ false → (party_of parties.new.entries owner ≡ party_of parties.old.entries owner) × (locks.new ≡ locks.old) }
    ensures intents { HasIntents locks.new }
    ensures kept { IsKept locks.new owner (party_of parties.new.entries owner) }
    ensures others { KeepsOthers owner locks.old locks.new }
    ensures parties { KeepsParties owner parties.old.entries parties.new.entries }
    ensures spare { UsesSpare 1 locks.old locks.new }
{
    match parties.get_mut(&owner) {
        Some(party) => take_for(locks, owner, party, want),
        None => false,
    }
}
