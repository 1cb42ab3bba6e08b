// The measure of all sessions.
ghost use Rattle.std.specs.Prelude.{◌≡◌, ◌++◌, ℕ, List, length, true};
ghost use Rattle.lock_tree_laws.specs.Forest.{opened_of};
ghost use Rattle.lock_tree_laws.specs.Progress.{measure, is_among, Falls as LocksFall};
ghost use Rattle.rdb_drive.specs.Boards.{Less};
ghost use Rattle.session_states.specs.declared.stage.Member.{Member};
ghost use Rattle.session_measure.specs.Weights.{Beside, weight, sum_of};
ghost use Rattle.session_measure.specs.Nearer.{Nears, Keeps};

/// Where one session's measure falls, the sum with that of the others, which stay, falls too.
pub fn all_fall_with_one()
    ensures { (new old rest : List ℕ) → length rest ≡ length new → Less new old → Less (sum_of new rest) (sum_of old rest) }
{}

/// Where one session comes nearer, the sum with that of the others, with the measure of the tree of locks behind it, falls; and so it does
/// where one comes no farther away and the notice that it found due is served. Who isn't concerned keeps what its numbers look at.
pub fn all_come_nearer()
    ensures nearer { (k l s : ℕ) (c d : Beside) (m n : Member) (rest us : List ℕ) → length rest ≡ 8 → is_among s us ≡ true → Nears k l c d s m n → Less (sum_of (weight l d s n) rest ++ measure us d.locks) (sum_of (weight k c s m) rest ++ measure us c.locks) }
    ensures served { (k l s t : ℕ) (c d e : Beside) (m n : Member) (rest us : List ℕ) → length rest ≡ 8 → is_among s us ≡ true → is_among t us ≡ true → Keeps k l c d s m n → weight l e s n ≡ weight l d s n → LocksFall t d.locks e.locks → Less (sum_of (weight l e s n) rest ++ measure us e.locks) (sum_of (weight k c s m) rest ++ measure us c.locks) }
    ensures others { (k t : ℕ) (c d : Beside) (m : Member) → opened_of d.locks t ≡ opened_of c.locks t → d.steps t ≡ c.steps t → weight k d t m ≡ weight k c t m }
{}
