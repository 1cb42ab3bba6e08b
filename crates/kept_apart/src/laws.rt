// The law of isolation.
ghost use Rattle.std.specs.Prelude.{◌≡◌, true, List};
ghost use Rattle.lock_needs.specs.declared.need.Need.{Need};
ghost use Rattle.line_view.specs.declared.writes.Write.{Write};
ghost use Rattle.line_view.specs.Knowledge.{Knowledge, Lines, IsInOrder, Agrees};
ghost use Rattle.line_view.specs.Writes.{laid_all};
ghost use Rattle.lock_tree_laws.specs.Forest.{no_conflict};
ghost use Rattle.kept_apart.specs.Guards.{AreOwn};
ghost use Rattle.kept_apart.specs.Alike.{AreAlike, IsGuarded};

/// Where no needs of two owners conflict, the one's view goes on agreeing with the committed lines under its own writes, whatever
/// the other writes and commits.
pub fn commits_stand_beside()
    ensures alike { (mine theirs : List Need) (writes : List Write) (all : Lines) → no_conflict mine theirs ≡ true → AreOwn theirs writes
        → AreAlike mine all (laid_all writes all) }
    ensures view { (mine theirs : List Need) (known : Knowledge) (own writes : List Write) (all : Lines) → IsInOrder all
        → no_conflict mine theirs ≡ true → AreOwn theirs writes → IsGuarded mine known
        → Agrees known (laid_all own all) → Agrees known (laid_all own (laid_all writes all)) }
{}
