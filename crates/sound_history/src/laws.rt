// What transactions over lines said, where lines are sound.
ghost use Rattle.std.specs.Prelude.{◌≡◌, ◌++◌, ◌∷◌, ℕ, true, List, [], Some};
ghost use Rattle.rdo_ast.specs.declared.reply.Standing.{Standing};
ghost use Rattle.rdo_ast.specs.Tree.{Uttered};
ghost use Rattle.rdb_meaning.specs.declared.tables.Tables.{Tables};
ghost use Rattle.lock_needs.specs.declared.need.Need.{Need};
ghost use Rattle.lock_tree_laws.specs.Forest.{no_conflict};
ghost use Rattle.line_view.specs.declared.writes.Write.{Write};
ghost use Rattle.line_view.specs.Knowledge.{Knowledge, Lines, IsInOrder, Agrees};
ghost use Rattle.line_view.specs.Writes.{laid_all};
ghost use Rattle.rdb_account.specs.Places.{Opening, Place, Transaction, Line, IsTold, next_item, retold};
ghost use Rattle.rdb_account.specs.AskedFor.{IsAskedFor};
ghost use Rattle.kept_apart.specs.Guards.{AreOwn};
ghost use Rattle.kept_apart.specs.Alike.{GuardsMore, IsGuarded};
ghost use Rattle.session_jobs.specs.Records.{Worked, IsRight};
ghost use Rattle.line_history.specs.Transactions.{line_of, Holds, IsWriting, IsAskedOver};
ghost use Rattle.sound_maps.specs.Maps.{IsSoundWith};

/// What is true of an open read-write transaction stays true as it says more and as others commit. So at each of its events its items
/// have their replies over the tables of the commits so far, and at its commit the sound lines under its writes are sound, and their
/// tables are those that its items lead to. It may want what its statement asks for over each sound map that agrees with what it knows.
pub fn transactions_hold_over_sound_lines()
    ensures said_more { (word : List ℕ) (got more : List Need) (now : Lines) (lines : List Line) (writes : List Write) (standing : Standing) (known : Knowledge) (r : Worked) → IsInOrder now → Holds IsSoundWith word got now lines writes standing → GuardsMore got more → IsRight IsSoundWith word standing known r → IsGuarded more known → Agrees known (laid_all writes now) → Holds IsSoundWith word more now (lines ++ line_of r ∷ []) (writes ++ r.writes) r.behind }
    ensures beside { (word : List ℕ) (got theirs : List Need) (now : Lines) (lines : List Line) (writes others : List Write) (standing : Standing) (known : Knowledge) → IsInOrder now → no_conflict got theirs ≡ true → AreOwn theirs others → IsWriting IsSoundWith word got now lines writes standing known → IsWriting IsSoundWith word got (laid_all others now) lines writes standing known }
    ensures told { (word : List ℕ) (got : List Need) (now : Lines) (lines : List Line) (writes : List Write) (standing : Standing) (t : Tables) → IsSoundWith now t → Holds IsSoundWith word got now lines writes standing → IsTold word t lines }
    ensures asked { (word : List ℕ) (o : Opening) (p : Place) (s : ℕ) (x : Transaction) (now : Lines) (writes : List Write) (standing : Standing) (known : Knowledge) (item : Uttered) (n : Need) → IsSoundWith now p.tables → o.word ≡ word → p.transaction s ≡ Some x → next_item o p s ≡ Some item → Holds IsSoundWith word x.got now x.lines writes standing → Agrees known (laid_all writes now) → IsAskedOver IsSoundWith standing (Some item) known n → IsAskedFor o p s n }
    ensures commits { (word : List ℕ) (got : List Need) (now : Lines) (lines : List Line) (writes : List Write) (standing : Standing) (t : Tables) → IsSoundWith now t → Holds IsSoundWith word got now lines writes standing → IsSoundWith (laid_all writes now) (retold word t lines).tables }
{}
