// The steps of a session in a read-write transaction, from its beginning to its end.
ghost use Rattle.std.specs.Prelude.{◌≡◌, ◌≤◌, ◌==◌, ◌&&◌, ◌++◌, ◌∷◌, ℕ, true, false, List, [], Option, Some, None};
ghost use Rattle.std.specs.List.{AllByRecursion};
ghost use Rattle.line_history.specs.kept_apart.Alike.{IsGuarded};
ghost use Rattle.line_history.specs.kept_apart.Guards.{AreOwn};
ghost use Rattle.line_history.specs.Transactions.{IsAskedOver};
ghost use Rattle.line_steps.specs.Members.{Member, ended, left_of, member, outside, writing};
ghost use Rattle.line_steps.specs.Right.{Desk, Ground, Stands, Writes, at_end, with_desk};
ghost use Rattle.line_steps.specs.Steps.{Here, Steps};
ghost use Rattle.line_view.specs.Knowledge.{Agrees, IsInOrder, Knowledge, Lines};
ghost use Rattle.line_view.specs.Writes.{laid_all};
ghost use Rattle.line_view.specs.declared.writes.Write.{Write};
ghost use Rattle.lock_needs.specs.Nodes.{is_on};
ghost use Rattle.lock_needs.specs.declared.need.Need.{Need};
ghost use Rattle.lock_ties.specs.Ties.{Apart, MayWant, needs_at, wanted_at};
ghost use Rattle.rdb_account.specs.Events.{Began, Committed, Demoted, Got, RolledBack, Said};
ghost use Rattle.rdb_account.specs.Lawful.{IsExcused, has_cause};
ghost use Rattle.rdb_account.specs.Legal.{ends_by, has_none};
ghost use Rattle.rdb_account.specs.Places.{Line, Opening, Place, begins, is_done, is_first_refused, is_writer, living, start};
ghost use Rattle.rdb_meaning.specs.Usual.{is_refusal_of_means};
ghost use Rattle.rdb_meaning.specs.declared.tables.Tables.{Tables};
ghost use Rattle.rdb_types.specs.declared.node.Node.{Node};
ghost use Rattle.rdo_ast.specs.Tree.{Uttered, commit, rollback, said};
ghost use Rattle.rdo_ast.specs.declared.reply.Reply.TheVariants.{Done};
ghost use Rattle.rdo_ast.specs.declared.reply.Standing.{Standing};
ghost use Rattle.rdo_ast.specs.declared.reply.Standing.TheVariants.{Closed};
ghost use Rattle.line_history.specs.session_jobs.Asked.{locks};
ghost use Rattle.line_history.specs.session_jobs.Records.{IsRight, Worked};
ghost use Rattle.vms_queues.specs.declared.lock_mode.Mode.{Mode};

use line_history::Statements;

/// A read-write transaction begins, takes up its next statement, and learns what agrees with the committed lines under its writes where
/// its needs guard. A notice brings down a lock of a read-write transaction and changes nothing that an account keeps.
pub fn writers_begin_and_learn<S: Statements>()
    ensures begins { (o : Opening) (p : Place) (g : Ground) (s : ℕ) (item : Uttered) (left : List Uttered) (total : ℕ) (kind : Standing) (known : Knowledge) → Here S.stands o p g s (member (item ∷ left) outside total) → begins item ≡ Some kind → is_writer kind ≡ true → IsGuarded [] known → Agrees known g.now → Steps S.stands o p g s (member left (writing Closed (Some item)) total) (with_desk s (record { known = known; writes = []; start = g.now }) g) (Began s kind ∷ []) }
    ensures takes_up { (o : Opening) (p : Place) (g : Ground) (s : ℕ) (item : Uttered) (left : List Uttered) (total : ℕ) (standing : Standing) → Here S.stands o p g s (member (item ∷ left) (writing standing None) total) → Steps S.stands o p g s (member left (writing standing (Some item)) total) g [] }
    ensures learns { (o : Opening) (p : Place) (g : Ground) (s : ℕ) (left : List Uttered) (total : ℕ) (standing : Standing) (under : Option Uttered) (new : Knowledge) → Here S.stands o p g s (member left (writing standing under) total) → IsGuarded (needs_at p s) new → Agrees new (laid_all (g.desk s).writes g.now) → Steps S.stands o p g s (member left (writing standing under) total) (with_desk s (record { known = new; writes = (g.desk s).writes; start = (g.desk s).start }) g) [] }
    ensures notice { (o : Opening) (p : Place) (g : Ground) (s : ℕ) (m : Member) (u : ℕ) (n : Node) (from to : Mode) (left : List Uttered) (total : ℕ) (standing : Standing) (under : Option Uttered) → Here S.stands o p g s m → Stands S.stands o p g u (member left (writing standing under) total) → Steps S.stands o p g s m g (Demoted u n from to ∷ []) }
{}

/// A session wants what its statement under way asks for over all that agrees with what it knows, at nodes on the way to the need's, and
/// nothing else while that want is open. It gets it where its needs then conflict with those of nobody else. A statement under way in a
/// read-write transaction takes locks.
pub fn writers_get_what_they_ask_for<S: Statements>()
    ensures locks { (o : Opening) (p : Place) (g : Ground) (s : ℕ) (standing : Standing) (item : Uttered) → S.stands g.now p.tables → Writes S.stands o p g s standing (Some item) → locks standing item ≡ true }
    ensures asked { (o : Opening) (p : Place) (g : Ground) (s : ℕ) (left : List Uttered) (total : ℕ) (standing : Standing) (item : Uttered) (n : Need) (nodes : List Node) → g.dead ≡ 0 → Here S.stands o p g s (member left (writing standing (Some item)) total) → AllByRecursion (λ asked. is_on asked n.node ≡ true) nodes → MayWant p s n → IsAskedOver S.stands standing (Some item) (g.desk s).known n → Steps S.stands o p g s (member left (writing standing (Some item)) total) g (wanted_at s n nodes) }
    ensures got { (o : Opening) (p : Place) (g : Ground) (s : ℕ) (left : List Uttered) (total : ℕ) (standing : Standing) (item : Uttered) (n : Need) (nodes : List Node) → g.dead ≡ 0 → (h : Here S.stands o p g s (member left (writing standing (Some item)) total)) → AllByRecursion (λ asked. is_on asked n.node ≡ true) nodes → MayWant p s n → IsAskedOver S.stands standing (Some item) (g.desk s).known n → ((t : ℕ) → (t == s) ≡ false → Apart (needs_at p s ++ n ∷ []) (needs_at p t)) → Steps S.stands o p g s (member left (writing standing (Some item)) total) g (wanted_at s n nodes ++ Got s n ∷ []) }
{}

/// A statement is answered as it was worked over what the session knew, once all that it writes is the session's own, as the store keeps
/// it; or it is refused for a lock, a limit or memory that has its cause, and writes nothing. A refused START_TRANSACTION leaves no transaction.
pub fn writers_are_answered<S: Statements>()
    ensures answered { (o : Opening) (p : Place) (g : Ground) (s : ℕ) (left : List Uttered) (total : ℕ) (standing : Standing) (r : Worked) (behind : List Write) (new : Knowledge) (time : ℕ) → (h : Here S.stands o p g s (member left (writing standing (Some r.item)) total)) → IsRight S.stands o.word standing (g.desk s).known r → AreOwn (needs_at p s) behind → ((all : Lines) → IsInOrder all → laid_all behind all ≡ laid_all r.writes (laid_all (g.desk s).writes all)) → is_first_refused (p.transaction s) r.item r.reply ≡ false → (ends_by r.item && is_done r.reply) ≡ false → g.time ≤ time → IsGuarded (needs_at p s) new → Agrees new (laid_all behind g.now) → Steps S.stands o p g s (member left (writing r.behind None) total) (record (with_desk s (record { known = new; writes = behind; start = (g.desk s).start }) g) { time = time }) (Said s r.item r.choices r.reply ∷ []) }
    ensures refused { (o : Opening) (p : Place) (g : Ground) (s : ℕ) (left : List Uttered) (total : ℕ) (standing : Standing) (l : Line) → (h : Here S.stands o p g s (member left (writing standing (Some l.item)) total)) → is_refusal_of_means l.reply ≡ true → ((t : Tables) → S.stands (laid_all (g.desk s).writes g.now) t → IsExcused l.reply o.word standing t l.item) → has_cause o p s l.reply ≡ true → is_first_refused (p.transaction s) l.item l.reply ≡ false → (ends_by l.item && is_done l.reply) ≡ false → Steps S.stands o p g s (member left (writing standing None) total) g (Said s l.item l.choices l.reply ∷ []) }
    ensures start_answered { (o : Opening) (p : Place) (g : Ground) (s : ℕ) (left : List Uttered) (total : ℕ) (standing : Standing) (r : Worked) (d : Desk) (time : ℕ) → g.time ≤ time → (h : Here S.stands o p g s (member left (writing standing (Some r.item)) total)) → IsRight S.stands o.word standing (g.desk s).known r → is_first_refused (p.transaction s) r.item r.reply ≡ true → (ends_by r.item && is_done r.reply) ≡ false → Steps S.stands o p g s (member left outside total) (record (with_desk s d g) { time = time }) (Said s r.item r.choices r.reply ∷ RolledBack s ∷ []) }
    ensures start_refused { (o : Opening) (p : Place) (g : Ground) (s : ℕ) (left : List Uttered) (total : ℕ) (standing : Standing) (l : Line) (d : Desk) (time : ℕ) → g.time ≤ time → (h : Here S.stands o p g s (member left (writing standing (Some l.item)) total)) → is_refusal_of_means l.reply ≡ true → ((t : Tables) → S.stands (laid_all (g.desk s).writes g.now) t → IsExcused l.reply o.word standing t l.item) → has_cause o p s l.reply ≡ true → is_first_refused (p.transaction s) l.item l.reply ≡ true → (ends_by l.item && is_done l.reply) ≡ false → Steps S.stands o p g s (member left outside total) (record (with_desk s d g) { time = time }) (Said s l.item l.choices l.reply ∷ RolledBack s ∷ []) }
{}

/// At COMMIT the writes become part of the committed lines, and all others find those alike. ROLLBACK and the end of a script leave
/// the committed lines as they are.
pub fn transactions_end<S: Statements>()
    ensures commits { (o : Opening) (p : Place) (g : Ground) (s : ℕ) (left : List Uttered) (total : ℕ) (standing : Standing) (d : Desk) (moment time : ℕ) → (h : Here S.stands o p g s (member left (writing standing (Some (said commit))) total)) → p.moment ≤ moment → moment ≤ time → Steps S.stands o p g s (member left outside total) (at_end s (laid_all (g.desk s).writes g.now) d time g) (Committed s moment ∷ Said s (said commit) [] (Done []) ∷ []) }
    ensures rolls_back { (o : Opening) (p : Place) (g : Ground) (s : ℕ) (m : Member) (left : List Uttered) (d : Desk) (time : ℕ) → (h : Here S.stands o p g s m) → left_of m ≡ said rollback ∷ left → p.life s ≡ living → has_none (p.transaction s) ≡ false → g.time ≤ time → Steps S.stands o p g s (member left outside m.total) (at_end s g.now d time g) (RolledBack s ∷ Said s (said rollback) [] (Done []) ∷ []) }
    ensures script_ends { (o : Opening) (p : Place) (g : Ground) (s : ℕ) (m : Member) (d : Desk) (time : ℕ) → (h : Here S.stands o p g s m) → left_of m ≡ [] → p.life s ≡ living → has_none (p.transaction s) ≡ false → g.time ≤ time → Steps S.stands o p g s (member [] ended m.total) (at_end s g.now d time g) (RolledBack s ∷ []) }
{}
