// What a call on the tree of locks answers, as an account has it.
ghost use Rattle.std.specs.Prelude.{◌≡◌, ◌==◌, ◌++◌, ◌∷◌, ℕ, Bool, true, false, List, [], Some, None};
ghost use Rattle.rdo_ast.specs.declared.reply.Reply.TheVariants.{LockConflict as Conflicting, Deadlock as Cyclic};
ghost use Rattle.lock_needs.specs.declared.need.Need.{Need};
ghost use Rattle.lock_tree_laws.specs.declared.answer.Want.TheVariants.{Got as GotIt, NoticeTo, Asleep, Conflict, Deadlock};
ghost use Rattle.lock_tree_laws.specs.Forest.{State, NeedsAreApart, KeepsParties, party_of};
ghost use Rattle.lock_tree_laws.specs.Wanted.{Answered, needs_of};
ghost use Rattle.rdb_account.specs.Events.{Event, Got};
ghost use Rattle.rdb_account.specs.Places.{Opening, Place, Transaction, after, place, place_from, asks_of_others};
ghost use Rattle.rdb_account.specs.Lawful.{waits, has_cause, is_nowait};
ghost use Rattle.rdb_account.specs.AskedFor.{IsApart};
ghost use Rattle.rdb_account.specs.Legal.{IsLegal, is_one_want};
ghost use Rattle.lock_ties.specs.Ties.{IsTiedTo, IsCall, MayWant, needs_at, wanted_at};

/// Where the account tells the same as the tree, and a want of a session with an open transaction is answered, then behind the
/// events of its askings a sleeper waits for whom the tree names, and a refusal for a lock has its cause.
pub fn causes_are_in_the_account()
    ensures asleep { (o : Opening) (p : Place) (s : ℕ) (n : Need) (x : Transaction) → p.transaction s ≡ Some x → (old new : State) (wait : Bool) (t : ℕ) → IsTiedTo p old → (c : IsCall s n old new) → Answered (needs_of old s) new s n wait (Asleep t) → waits (place_from o p (wanted_at s n c.asks.nodes)) s t ≡ true }
    ensures conflict { (o : Opening) (p : Place) (s : ℕ) (n : Need) (x : Transaction) → p.transaction s ≡ Some x → (old new : State) (wait : Bool) (t : ℕ) → IsTiedTo p old → (c : IsCall s n old new) → Answered (needs_of old s) new s n wait (Conflict t) → is_nowait (p.transaction s) ≡ true → has_cause o (place_from o p (wanted_at s n c.asks.nodes)) s (Conflicting t) ≡ true }
    ensures deadlock { (o : Opening) (p : Place) (s : ℕ) (n : Need) (x : Transaction) → p.transaction s ≡ Some x → (old new : State) (wait : Bool) (cycle : List ℕ) → IsTiedTo p old → (c : IsCall s n old new) → Answered (needs_of old s) new s n wait (Deadlock cycle) → has_cause o (place_from o p (wanted_at s n c.asks.nodes)) s (Cyclic cycle) ≡ true }
{}

/// The account goes on telling the same as the tree: while a want is open, where it is got, and where it has ended, all its askings
/// forgotten and the needs as the tree has them. What is got is apart from what others have got.
pub fn the_tree_and_the_account_agree()
    ensures notice { (o : Opening) (p : Place) (s : ℕ) (n : Need) (x : Transaction) → p.transaction s ≡ Some x → (old new : State) (wait : Bool) (t : ℕ) (node : _) (mode : _) → IsTiedTo p old → (c : IsCall s n old new) → Answered (needs_of old s) new s n wait (NoticeTo t node mode) → IsTiedTo (place_from o p (wanted_at s n c.asks.nodes)) new }
    ensures asleep { (o : Opening) (p : Place) (s : ℕ) (n : Need) (x : Transaction) → p.transaction s ≡ Some x → (old new : State) (wait : Bool) (t : ℕ) → IsTiedTo p old → (c : IsCall s n old new) → Answered (needs_of old s) new s n wait (Asleep t) → IsTiedTo (place_from o p (wanted_at s n c.asks.nodes)) new }
    ensures got { (o : Opening) (p : Place) (s : ℕ) (n : Need) (x : Transaction) → p.transaction s ≡ Some x → (old new : State) (wait : Bool) → IsTiedTo p old → (c : IsCall s n old new) → Answered (needs_of old s) new s n wait GotIt → IsTiedTo (after o (place_from o p (wanted_at s n c.asks.nodes)) (Got s n)) new }
    ensures apart { (o : Opening) (p : Place) (s : ℕ) (n : Need) (x : Transaction) → p.transaction s ≡ Some x → (old new : State) (wait : Bool) → IsTiedTo p old → (c : IsCall s n old new) → NeedsAreApart new → Answered (needs_of old s) new s n wait GotIt → IsApart (place_from o p (wanted_at s n c.asks.nodes)) s n }
    ensures refused { (o : Opening) (p q : Place) (s : ℕ) (n : Need) (x : Transaction) → p.transaction s ≡ Some x → (old new : State) → IsTiedTo p old → (c : IsCall s n old new) → (party_of new.parties s).opened ≡ None → q.asks ≡ asks_of_others s (place_from o p (wanted_at s n c.asks.nodes)).asks → ((t : ℕ) → needs_at q t ≡ needs_of new t) → IsTiedTo q new }
    ensures ended { (p q : Place) (s : ℕ) (old new : State) → IsTiedTo p old → KeepsParties s old.parties new.parties → (party_of new.parties s).opened ≡ None → new.trail ≡ old.trail → q.asks ≡ asks_of_others s p.asks → ((t : ℕ) → needs_at q t ≡ needs_of new t) → IsTiedTo q new }
{}

/// At each place of a legal account all that a session has asked for its open want is of one need. So it may want that need again,
/// and any need where it wants nothing.
pub fn asks_are_for_one_need()
    ensures { (o : Opening) (events : List Event) (s : ℕ) (n : Need) → IsLegal o events → MayWant (place o events) s n → is_one_want s n (place o events).asks ≡ true }
{}
