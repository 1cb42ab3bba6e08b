// A store is within the account's counts, and stays so.
ghost use Rattle.std.specs.Prelude.{◌≡◌, ◌<◌, ◌+◌, ℕ, true, List, [], Option, Some, None, is_some, length};
ghost use Rattle.rdb_types.specs.declared.keys.Dbkey.{Dbkey};
ghost use Rattle.rdo_ast.specs.declared.reply.Standing.{Standing};
ghost use Rattle.lock_needs.specs.declared.need.Need.{Need};
ghost use Rattle.rdb_account.specs.Events.{Event, Began, Got};
ghost use Rattle.rdb_account.specs.Places.{Opening, Place, Transaction, after, at, place_from, start};
ghost use Rattle.line_view.specs.declared.writes.Write.{Write};
ghost use Rattle.line_store.specs.Calls.{Changes, Commits, KeepsOthers, KeepsSpace};
ghost use Rattle.line_store.specs.Rooms.{Takes};
ghost use Rattle.line_store.specs.Seats.{IsMember, Seat, set_aside, writes_of};
ghost use Rattle.line_store.specs.Shelves.{Shelf, Space};
ghost use Rattle.store_counts.specs.Counts.{AreClaimed, IsCounted, IsCountedFrom, TakesAt, has_wanted, is_claimed, is_on_line};
ghost use Rattle.store_counts.specs.Events.{CountNothing};

/// A store that has taken nothing but what the opening image has is within the counts of the account that opens. It stays so as it does
/// something that takes no room, sets slots aside for a commit whose transaction has wanted the journal, lays a statement's writes, commits, or takes the
/// page of a room on whose line EX was got.
pub fn stores_are_counted()
    ensures opened { (o : Opening) (h : Shelf) → IsCountedFrom o h → IsCounted o (start o) h }
    ensures moves { (o : Opening) (p : Place) (s : ℕ) (h k : Shelf) → IsCounted o p h → KeepsOthers s h k → k.now ≡ h.now → KeepsSpace h.space k.space → (is_some (p.transaction s) ≡ true → writes_of (k.seat s) ≡ writes_of (h.seat s)) → (0 < set_aside (k.seat s) → has_wanted (p.transaction s) ≡ true) → IsCounted o p k }
    ensures changes { (o : Opening) (p : Place) (s : ℕ) (x : Transaction) (more : List Write) (h k : Shelf) → p.transaction s ≡ Some x → IsMember s → AreClaimed p s more → Changes s more h k → IsCounted o p h → IsCounted o p k }
    ensures commits { (o : Opening) (p q : Place) (s : ℕ) (x : Transaction) (ws : List Write) (seat : Seat) (moment : ℕ) (h k : Shelf) → p.transaction s ≡ Some x → ws ≡ writes_of (h.seat s) → Commits s ws seat moment h k → set_aside seat ≡ 0 → ((t : ℕ) → q.transaction t ≡ at s None p.transaction t) → q.touched ≡ p.touched → q.pairs ≡ p.pairs → q.slots ≡ p.slots + (1 + length x.written) → IsCounted o p h → IsCounted o q k }
    ensures takes { (o : Opening) (p : Place) (s : ℕ) (key : Dbkey) (h k : Shelf) → is_on_line p.touched key ≡ true → IsCounted o p h → KeepsOthers s h k → k.now ≡ h.now → k.seat s ≡ h.seat s → TakesAt key h.space k.space → IsCounted o p k }
{}

/// The account's counts go on with its events: those that count nothing and end no transaction for which slots are set aside, the beginning of a transaction whose store has no writes, and
/// a need that is got.
pub fn counts_go_on()
    ensures events { (o : Opening) (p : Place) (es : List Event) (h : Shelf) → CountNothing h es → IsCounted o p h → IsCounted o (place_from o p es) h }
    ensures begins { (o : Opening) (p : Place) (s : ℕ) (kind : Standing) (h : Shelf) → p.transaction s ≡ None → writes_of (h.seat s) ≡ [] → IsCounted o p h → IsCounted o (after o p (Began s kind)) h }
    ensures gets { (o : Opening) (p : Place) (s : ℕ) (x : Transaction) (n : Need) (h : Shelf) → p.transaction s ≡ Some x → IsCounted o p h → IsCounted o (after o p (Got s n)) h }
{}

/// What a store takes for a room: its page, or nothing.
pub fn rooms_take_pages()
    ensures taken { (key : Dbkey) (h k : Shelf) → Takes key h k → TakesAt key h.space k.space }
    ensures nothing { (key : Dbkey) (a b : Space) → KeepsSpace a b → TakesAt key a b }
    ensures in_turn { (key : Dbkey) (a b c : Space) → TakesAt key a b → TakesAt key b c → TakesAt key a c }
{}
