// Waits at the journal.
ghost use Rattle.std.specs.Prelude.{◌≡◌, ◌++◌, ℕ, Bool, false, List, [], None};
ghost use Rattle.rdb_types.specs.declared.node.Level.TheVariants.{Journal};
ghost use Rattle.rdb_types.specs.declared.node.Node.{Node};
ghost use Rattle.vms_queues.specs.declared.lock_mode.Mode.{Mode};
ghost use Rattle.vms_queues.specs.declared.lock_mode.Mode.TheVariants.{EX};
ghost use Rattle.lock_needs.specs.declared.need.Need.{Need};
ghost use Rattle.lock_needs.specs.Waits.{converts_at};
ghost use Rattle.lock_tree_laws.specs.Forest.{State, IsWhole, KeepsParties, opened_of};
ghost use Rattle.lock_tree_laws.specs.Rule.{Finishes, GoesDown, entered};
ghost use Rattle.lock_tree_laws.specs.Wanted.{Answered, asks_for, needs_of, trail_of_want};
ghost use Rattle.lock_tree_laws.specs.declared.answer.Want.TheVariants.{Asleep, Deadlock, Got, NoticeTo};
ghost use Rattle.journal_waits.specs.Holders.{HoldersRest, OthersKeepTo};

/// An owner that hasn't got the journal and wants it is answered no deadlock, where whoever else has got it has no want open. For nothing is
/// above the journal or below it; so all on a cycle through its want would wait there, each for one that was asked for there before.
pub fn no_cycle_goes_through_the_journal()
    ensures { (s : ℕ) (n : Need) (old new : State) (wait : Bool) (cycle : List ℕ) → n.node.level ≡ Journal → converts_at (needs_of old s) n.node ≡ false → HoldersRest old s n.node → KeepsParties s old.parties new.parties → Answered (needs_of old s) new s n wait (Deadlock cycle) → ⊥ }
{}

/// Nor is it answered that a notice is due, where all others have and want the journal for EX alone: a lock that stands there is one that its
/// owner has to keep.
pub fn no_notice_is_due_at_the_journal()
    ensures { (s : ℕ) (n : Need) (new : State) (wait : Bool) (t : ℕ) (m : Node) (mode : Mode) (ws : List Need) → n.node.level ≡ Journal → IsWhole new → OthersKeepTo new s n.node → Answered ws new s n wait (NoticeTo t m mode) → ⊥ }
{}

/// A want for EX that opens there, of an owner that hasn't got the journal, and that is got or sleeps, was asked at some node: no lock of
/// the owner covers it before.
pub fn wants_of_the_journal_are_asked()
    ensures got { (s : ℕ) (n : Need) (old new : State) (wait : Bool) (nodes : List Node) → n.node.level ≡ Journal → n.mode ≡ EX → IsWhole old → opened_of old s ≡ None → converts_at (needs_of old s) n.node ≡ false → GoesDown s n wait (Finishes s Got) (entered old s) new → Answered (needs_of old s) new s n wait Got → new.trail ≡ trail_of_want old s ++ asks_for s nodes → nodes ≡ [] → ⊥ }
    ensures asleep { (s : ℕ) (n : Need) (old new : State) (wait : Bool) (t : ℕ) (nodes : List Node) → IsWhole new → opened_of old s ≡ None → Answered (needs_of old s) new s n wait (Asleep t) → new.trail ≡ trail_of_want old s ++ asks_for s nodes → nodes ≡ [] → ⊥ }
{}
