// A step of one session leaves all of them where they stand.
ghost use Rattle.std.specs.Prelude.{◌≡◌, ◌==◌, ◌++◌, ℕ, suc, true, false, List, [], Some, None, slice_get, slice_set};
ghost use Rattle.rdb_account.specs.Events.{Event};
ghost use Rattle.rdb_account.specs.Places.{Opening};
ghost use Rattle.rdb_account.specs.Backups.{backups};
ghost use Rattle.rdb_account.specs.Legal.{IsLegal};
ghost use Rattle.kept_apart.specs.Guards.{may_write};
ghost use Rattle.lock_tree_laws.specs.Forest.{State, KeepsParties, NeedsAreApart};
ghost use Rattle.lock_tree_laws.specs.Wanted.{needs_of};
ghost use Rattle.session_states.specs.line_steps.Images.{journal_node};
ghost use Rattle.journal_waits.specs.Holders.{OthersKeepTo};
ghost use Rattle.line_store.specs.Seats.{Seat, begun, outside};
ghost use Rattle.line_store.specs.Sights.{Does, StandsAlone, bare};
ghost use Rattle.session_states.specs.declared.stage.Life.TheVariants.{Alive};
ghost use Rattle.session_states.specs.declared.stage.Phase.TheVariants.{Outside};
ghost use Rattle.session_states.specs.declared.stage.Member.{Member};
ghost use Rattle.session_states.specs.Steps.{Fall, Step};
ghost use Rattle.session_stands.specs.Seated.{LivesAt};
ghost use Rattle.session_stands.specs.Sessions.{AreSeated, FlyWithJournal, IsTold, KeepsBackups, dead_in, sharing};

use line_store::LineStore;
use session_jobs::Statements;

/// Where one session comes to stand otherwise, and what the store and the tree know of others stays, each stands as its phase has it. All have
/// and want the journal for themselves; who has got it is alone in a commit.
pub fn sessions_stay_seated<L: LineStore>()
    ensures began { (stand : ℕ → Seat) (locks : State) (members : List Member) → locks.parties ≡ [] → ((t : ℕ) → bare (stand t) ≡ outside) → ((i : ℕ) (m : Member) → slice_get members i ≡ Some m → (m.phase ≡ Outside) × (m.life ≡ Alive)) → AreSeated stand locks members }
    ensures seated { (stand there : ℕ → Seat) (locks behind : State) (members : List Member) (i : ℕ) (m n : Member) → AreSeated stand locks members → slice_get members i ≡ Some m → ((t : ℕ) → (t == suc i) ≡ false → bare (there t) ≡ bare (stand t)) → KeepsParties (suc i) locks.parties behind.parties → LivesAt there behind (suc i) n.phase n.life → AreSeated there behind (slice_set members i n) }
    ensures keep_to { (stand : ℕ → Seat) (locks : State) (members : List Member) (s : ℕ) → AreSeated stand locks members → OthersKeepTo locks s journal_node }
    ensures flies { (stand : ℕ → Seat) (locks : State) (members : List Member) → AreSeated stand locks members → FlyWithJournal stand locks }
    ensures alone { (store : L) (locks : State) (s : ℕ) → FlyWithJournal (L.sight store).stand locks → NeedsAreApart locks → may_write (needs_of locks s) journal_node ≡ true → StandsAlone s (L.sight store) }
{}

/// Where a shelf is shown with which all is kept, and each session is seated, one is shown behind a step, a death or a recovery of one session. So what a crash might
/// have left since a commit goes on standing for that or more. A backup that is whole stays so until one of its number begins; who steps says
/// how its step goes for backups, and a death or a recovery changes nothing of them.
pub fn what_is_shown_is_kept<S: Statements, L: LineStore>()
    ensures steps { (o : Opening) (word then : List ℕ) (old new : L) (locks behind : State) (members : List Member) (events es : List Event) (i : ℕ) (m n : Member) (there : Seat) → AreSeated (L.sight old).stand locks members → AreSeated (L.sight new).stand behind (slice_set members i n) → dead_in members ≡ 0 → slice_get members i ≡ Some m → m.life ≡ Alive → n.life ≡ Alive → Does (suc i) there (λ h g. (dead : ℕ) → Step S.stands (suc i) (sharing word h locks dead) m (sharing then g behind dead) n es) (L.sight old) (L.sight new) → KeepsBackups S.stands o word then (L.sight old) (L.sight new) locks behind members events es i m n (begun ((L.sight old).stand (suc i)) there) → IsTold S.stands o word (L.sight old) locks members events → IsTold S.stands o then (L.sight new) behind (slice_set members i n) (events ++ es) }
    ensures falls { (o : Opening) (word then : List ℕ) (old new : L) (locks behind : State) (members : List Member) (events es : List Event) (i : ℕ) (m n : Member) (there : Seat) → AreSeated (L.sight old).stand locks members → AreSeated (L.sight new).stand behind (slice_set members i n) → slice_get members i ≡ Some m → Does (suc i) there (λ h g. Fall S.stands o (suc i) (sharing word h locks (dead_in members)) m (sharing then g behind (dead_in (slice_set members i n))) n es) (L.sight old) (L.sight new) → begun ((L.sight old).stand (suc i)) there ≡ None → backups o (events ++ es) ≡ backups o events → IsTold S.stands o word (L.sight old) locks members events → IsTold S.stands o then (L.sight new) behind (slice_set members i n) (events ++ es) }
    ensures legal { (o : Opening) (word : List ℕ) (store : L) (locks : State) (members : List Member) (events : List Event) → IsTold S.stands o word (L.sight store) locks members events → IsLegal o events }
{}
