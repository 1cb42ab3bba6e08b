ghost use Rattle.std.specs.Prelude.{◌≡◌, ℕ, Bool, List, [], None, true};
ghost use Rattle.rdb_types.specs.declared.node.Node.{Node};
ghost use Rattle.vms_queues.specs.Queues.{IsSound};
ghost use Rattle.vms_queues.specs.Modes.{least_above};
ghost use Rattle.vms_locks.specs.Table.{Table, queues_at, IsLive, WaitsIn};
ghost use Rattle.vms_locks.specs.Answers.{Answers};
ghost use Rattle.vms_locks.specs.declared.answer.Enq.{Enq};
ghost use Rattle.lock_needs.specs.declared.need.Need.{Need};
ghost use Rattle.lock_needs.specs.declared.party.OpenWant.{OpenWant};
ghost use Rattle.lock_needs.specs.Wants.{mode_for};
ghost use Rattle.lock_needs.specs.declared.party.Asked.{Asked};
ghost use Rattle.lock_needs.specs.Party.{Party};
ghost use Rattle.lock_tree_laws.specs.LockTable.{granted_at, HasIntents};
ghost use Rattle.lock_tree_laws.specs.Parties.{wanting, asked_at};
ghost use Rattle.lock_tree_laws.specs.Order.{AreKept, IsInOrder, KeepsParty, MakesWay, StandsByNeeds, MayAsk, AnswersByNeeds, asked_last, without_asks, requesting, waits_by_needs};

/// Who waits for another owner at a node, by the modes that are held and asked there, waits for it by needs.
pub fn waits_are_by_needs()
    ensures { (t : Table) (party : ℕ → Party) (asks : List Asked) → ((n : Node) → IsSound (queues_at t n)) → HasIntents t → AreKept t party → IsInOrder t party asks → (a b : ℕ) → WaitsIn (queues_at t) a b → waits_by_needs party asks a b ≡ true }
{}

/// What an open want is answered at its node keeps the order in which owners came there. Its owner waits by needs for each that
/// stands in its way there, and would wait so for whom a refusal names, as would each of those that a deadlock names for the next.
pub fn answers_are_by_needs()
    ensures { (old new : Table) (party next : ℕ → Party) (asks : List Asked) (owner : ℕ) (ws : List Need) (w : OpenWant) (wait : Bool) (answer : Enq) → MayAsk old party asks owner ws w → next owner ≡ wanting ws (asked_at w w.here) → KeepsParty owner party next → IsLive (queues_at new) → Answers old new owner w.here wait (requesting (queues_at old w.here) owner (least_above (granted_at old owner w.here) (mode_for w.need w.here))) answer → AnswersByNeeds new next (asked_last asks owner w.here) owner answer }
{}

/// The order stays where an owner makes way and stands in the way by its needs: while its needs and its open want stay, and where
/// its want has ended, got or not, and its entries go. Where nobody wants anything there is nothing to order.
pub fn making_way_keeps_the_order()
    ensures start { (t : Table) (party : ℕ → Party) → t.entries ≡ [] → ((u : ℕ) → (party u).opened ≡ None) → IsInOrder t party [] }
    ensures served { (old new : Table) (party : ℕ → Party) (asks : List Asked) (owner : ℕ) → MakesWay owner old new → IsLive (queues_at new) → AreKept old party → AreKept new party → StandsByNeeds new owner (party owner) → IsInOrder old party asks → IsInOrder new party asks }
    ensures ended { (old new : Table) (party next : ℕ → Party) (asks : List Asked) (owner : ℕ) → MakesWay owner old new → IsLive (queues_at new) → AreKept old party → AreKept new next → KeepsParty owner party next → StandsByNeeds new owner (next owner) → IsInOrder old party asks → (next owner).opened ≡ None → IsInOrder new next (without_asks owner asks) }
{}
