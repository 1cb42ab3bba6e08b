// Laws of open transactions over lines.
ghost use Rattle.std.specs.Prelude.{◌≡◌, ◌++◌, ◌∷◌, ◌&&◌, ℕ, Bool, true, false, List, [], Some, None};
ghost use Rattle.rdb_types.specs.declared.keys.Dbkey.{Dbkey};
ghost use Rattle.rdo_ast.specs.declared.reply.Reply.{Reply};
ghost use Rattle.rdo_ast.specs.declared.reply.Standing.{Standing};
ghost use Rattle.rdo_ast.specs.declared.reply.Standing.TheVariants.{Closed, ReadWrite};
ghost use Rattle.rdo_ast.specs.declared.syntax.Reservation.{Reservation};
ghost use Rattle.rdo_ast.specs.Tree.{Command, Uttered, said, commit, start_read_write};
ghost use Rattle.rdb_meaning.specs.declared.tables.Tables.{Tables};
ghost use Rattle.rdb_meaning.specs.Meaning.{meaning, means};
ghost use Rattle.rdb_meaning.specs.Usual.{is_refusal_of_means};
ghost use Rattle.vms_queues.specs.declared.lock_mode.Mode.TheVariants.{EX};
ghost use Rattle.lock_needs.specs.declared.need.Need.{Need};
ghost use Rattle.lock_tree_laws.specs.Forest.{no_conflict};
ghost use Rattle.line_view.specs.declared.writes.Write.{Write};
ghost use Rattle.line_view.specs.Knowledge.{Knowledge, Lines, IsInOrder, Agrees};
ghost use Rattle.line_view.specs.Writes.{laid_all};
ghost use Rattle.rdb_account.specs.Places.{Opening, Place, Transaction, Line, IsTold, begins, is_done, is_writer, next_item, retold};
ghost use Rattle.rdb_account.specs.Lawful.{IsExcused, first_refusal, has_cause};
ghost use Rattle.rdb_account.specs.AskedFor.{IsAskedFor, command_asks, reservations_ask, is_on_journal};
ghost use Rattle.rdb_account.specs.Legal.{IsReply, ends_by, ends_its_own};
ghost use Rattle.kept_apart.specs.Guards.{AreOwn};
ghost use Rattle.kept_apart.specs.Alike.{GuardsMore, IsGuarded};
ghost use Rattle.session_jobs.specs.Records.{Worked, IsRight};
ghost use Rattle.session_jobs.specs.Asked.{AsksFor, locks};
ghost use Rattle.session_jobs.specs.Jobs.{WhereItAgrees};
ghost use Rattle.line_history.specs.Transactions.{line_of, Holds, IsWriting, IsAskedOver};

use session_jobs::Statements;

/// What is true of an open read-write transaction stays true as it says more and as others commit. So its items have their replies
/// over the tables of the commits so far, its next one may be answered as it was worked, or be refused for a lock, a limit or memory
/// that has its cause, and at its commit the lines under its writes stand for the tables of its items.
pub fn transactions_hold<S: Statements>()
    ensures fresh { (word : List ℕ) (got : List Need) (now : Lines) → Holds S.stands word got now [] [] Closed }
    ensures said_more { (word : List ℕ) (got more : List Need) (now : Lines) (lines : List Line) (writes : List Write) (standing : Standing) (known : Knowledge) (r : Worked) → IsInOrder now → Holds S.stands word got now lines writes standing → GuardsMore got more → IsRight S.stands word standing known r → IsGuarded more known → Agrees known (laid_all writes now) → Holds S.stands word more now (lines ++ line_of r ∷ []) (writes ++ r.writes) r.behind }
    ensures refused { (word : List ℕ) (got more : List Need) (now : Lines) (lines : List Line) (writes : List Write) (standing : Standing) (l : Line) → Holds S.stands word got now lines writes standing → GuardsMore got more → is_refusal_of_means l.reply ≡ true → Holds S.stands word more now (lines ++ l ∷ []) writes standing }
    ensures relaid { (word : List ℕ) (got : List Need) (now : Lines) (lines : List Line) (writes others : List Write) (standing : Standing) → ((all : Lines) → IsInOrder all → laid_all others all ≡ laid_all writes all) → Holds S.stands word got now lines writes standing → Holds S.stands word got now lines others standing }
    ensures beside { (word : List ℕ) (got theirs : List Need) (now : Lines) (lines : List Line) (writes others : List Write) (standing : Standing) (known : Knowledge) → IsInOrder now → no_conflict got theirs ≡ true → AreOwn theirs others → IsWriting S.stands word got now lines writes standing known → IsWriting S.stands word got (laid_all others now) lines writes standing known }
    ensures told { (word : List ℕ) (got : List Need) (now : Lines) (lines : List Line) (writes : List Write) (standing : Standing) (t : Tables) → S.stands now t → Holds S.stands word got now lines writes standing → IsTold word t lines }
    ensures answered { (word : List ℕ) (o : Opening) (p : Place) (s : ℕ) (got : List Need) (now : Lines) (lines : List Line) (writes : List Write) (standing : Standing) (known : Knowledge) (r : Worked) → S.stands now p.tables → o.word ≡ word → Holds S.stands word got now lines writes standing → IsRight S.stands word standing known r → Agrees known (laid_all writes now) → IsReply o p s (retold o.word p.tables lines).standing (retold o.word p.tables lines).tables (line_of r) }
    ensures excused { (word : List ℕ) (o : Opening) (p : Place) (s : ℕ) (got : List Need) (now : Lines) (lines : List Line) (writes : List Write) (standing : Standing) (l : Line) → S.stands now p.tables → o.word ≡ word → Holds S.stands word got now lines writes standing → is_refusal_of_means l.reply ≡ true → ((t : Tables) → S.stands (laid_all writes now) t → IsExcused l.reply word standing t l.item) → has_cause o p s l.reply ≡ true → IsReply o p s (retold o.word p.tables lines).standing (retold o.word p.tables lines).tables l }
    ensures commits { (word : List ℕ) (got : List Need) (now : Lines) (lines : List Line) (writes : List Write) (standing : Standing) (t : Tables) → S.stands now t → Holds S.stands word got now lines writes standing → S.stands (laid_all writes now) (retold word t lines).tables }
{}

/// The account may have a session want and get what its statement asks for over all that agrees with what the session knows. A
/// command asks for its needs where its standing doesn't refuse it: START_TRANSACTION for what it reserves, COMMIT for the journal,
/// and a statement for what was found lacking and for the lines that it writes.
pub fn needs_are_asked_for<S: Statements>()
    ensures asked { (word : List ℕ) (o : Opening) (p : Place) (s : ℕ) (x : Transaction) (now : Lines) (writes : List Write) (standing : Standing) (known : Knowledge) (item : Uttered) (n : Need) → S.stands now p.tables → o.word ≡ word → p.transaction s ≡ Some x → next_item o p s ≡ Some item → Holds S.stands word x.got now x.lines writes standing → Agrees known (laid_all writes now) → IsAskedOver S.stands standing (Some item) known n → IsAskedFor o p s n }
    ensures command { (standing : Standing) (known : Knowledge) (c : Command) (n : Need) → first_refusal standing (said c) ≡ None → WhereItAgrees S.stands known (λ t. command_asks t n c ≡ true) → IsAskedOver S.stands standing (Some (said c)) known n }
    ensures reserved { (wait : Bool) (rs : List Reservation) (known : Knowledge) (n : Need) → WhereItAgrees S.stands known (λ t. reservations_ask t n rs ≡ true) → IsAskedOver S.stands Closed (Some (said (start_read_write wait rs))) known n }
    ensures journal { (wait : Bool) (rs : List Reservation) (known : Knowledge) (n : Need) → is_on_journal EX n ≡ true → IsAskedOver S.stands (ReadWrite wait rs) (Some (said commit)) known n }
    ensures found { (standing : Standing) (known : Knowledge) (item : Uttered) (these : Need → Bool) (n : Need) → locks standing item ≡ true → these n ≡ true → WhereItAgrees S.stands known (λ t. AsksFor standing item t these) → IsAskedOver S.stands standing (Some item) known n }
{}

/// A statement leaves a read-write transaction open as one unless it is the COMMIT or ROLLBACK that is done, and so does the
/// START_TRANSACTION that is done and begins it. Such a statement takes locks. An online backup neither is done there nor begins one.
pub fn standings_stay_read_write()
    ensures stays { (word : List ℕ) (standing behind : Standing) (item : Uttered) (ks : List Dbkey) (t left : Tables) (reply : Reply) → is_writer standing ≡ true → meaning word standing item ks t ≡ means reply left behind [] → (ends_by item && is_done reply) ≡ false → is_writer behind ≡ true }
    ensures starts { (word : List ℕ) (kind behind : Standing) (item : Uttered) (ks : List Dbkey) (t left : Tables) (reply : Reply) → begins item ≡ Some kind → is_writer kind ≡ true → meaning word Closed item ks t ≡ means reply left behind [] → is_done reply ≡ true → is_writer behind ≡ true }
    ensures alone { (word : List ℕ) (standing behind : Standing) (item : Uttered) (ks : List Dbkey) (t left : Tables) (reply : Reply) → is_writer standing ≡ true → meaning word standing item ks t ≡ means reply left behind [] → (ends_by item && is_done reply) ≡ false → (ends_its_own item && is_done reply) ≡ false }
    ensures start_alone { (item : Uttered) (kind : Standing) → begins item ≡ Some kind → is_writer kind ≡ true → ends_its_own item ≡ false }
    ensures locks { (standing : Standing) (item : Uttered) → is_writer standing ≡ true → locks standing item ≡ true }
    ensures start_locks { (item : Uttered) (kind : Standing) → begins item ≡ Some kind → is_writer kind ≡ true → locks Closed item ≡ true }
{}
