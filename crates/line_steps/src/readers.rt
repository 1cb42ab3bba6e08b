// The steps of a session in a read-only transaction, and outside transactions.
ghost use Rattle.std.specs.Prelude.{◌≡◌, ◌≤◌, ◌&&◌, ◌∷◌, ℕ, true, false, List, [], Option, Some, None};
ghost use Rattle.line_steps.specs.Members.{member, outside, reading};
ghost use Rattle.line_steps.specs.Right.{Desk, Ground, with_desk};
ghost use Rattle.line_steps.specs.Steps.{Here, Steps};
ghost use Rattle.line_view.specs.Knowledge.{Agrees, Knowledge};
ghost use Rattle.rdb_account.specs.Events.{Began, Committed, Said};
ghost use Rattle.rdb_account.specs.Lawful.{IsExcused, has_cause};
ghost use Rattle.rdb_account.specs.Legal.{IsReply, ends_by, ends_its_own, may_be_outside};
ghost use Rattle.rdb_account.specs.Places.{Line, Opening, Place, begins, is_done, is_first_refused, start};
ghost use Rattle.rdb_meaning.specs.Usual.{is_refusal_of_means};
ghost use Rattle.rdb_meaning.specs.declared.tables.Tables.{Tables};
ghost use Rattle.rdo_ast.specs.Tree.{Uttered, back_up, commit, said};
ghost use Rattle.rdo_ast.specs.declared.reply.Reply.TheVariants.{Done};
ghost use Rattle.rdo_ast.specs.declared.reply.Standing.{Standing};
ghost use Rattle.rdo_ast.specs.declared.reply.Standing.TheVariants.{Closed, ReadOnly};
ghost use Rattle.line_history.specs.session_jobs.Records.{IsRight, Worked};

use line_history::Statements;

/// A reader has the committed lines at its start, and takes and wants no lock. Its statements are answered over what agrees with these
/// lines, or refused by a limit or for want of memory. An online backup is never done so: it ends the reader that it began.
pub fn readers_step<S: Statements>()
    ensures begins { (o : Opening) (p : Place) (g : Ground) (s : ℕ) (item : Uttered) (left : List Uttered) (total : ℕ) (known : Knowledge) → Here S.stands o p g s (member (item ∷ left) outside total) → begins item ≡ Some ReadOnly → Agrees known g.now → Steps S.stands o p g s (member left (reading Closed (Some item)) total) (with_desk s (record { known = known; writes = []; start = g.now }) g) (Began s ReadOnly ∷ []) }
    ensures takes_up { (o : Opening) (p : Place) (g : Ground) (s : ℕ) (item : Uttered) (left : List Uttered) (total : ℕ) (standing : Standing) → Here S.stands o p g s (member (item ∷ left) (reading standing None) total) → Steps S.stands o p g s (member left (reading standing (Some item)) total) g [] }
    ensures learns { (o : Opening) (p : Place) (g : Ground) (s : ℕ) (left : List Uttered) (total : ℕ) (standing : Standing) (under : Option Uttered) (new : Knowledge) → Here S.stands o p g s (member left (reading standing under) total) → Agrees new (g.desk s).start → Steps S.stands o p g s (member left (reading standing under) total) (with_desk s (record { known = new; writes = (g.desk s).writes; start = (g.desk s).start }) g) [] }
    ensures answered { (o : Opening) (p : Place) (g : Ground) (s : ℕ) (left : List Uttered) (total : ℕ) (standing : Standing) (r : Worked) → (h : Here S.stands o p g s (member left (reading standing (Some r.item)) total)) → IsRight S.stands o.word standing (g.desk s).known r → is_first_refused (p.transaction s) r.item r.reply ≡ false → (ends_its_own r.item && is_done r.reply) ≡ false → Steps S.stands o p g s (member left (reading ReadOnly None) total) g (Said s r.item r.choices r.reply ∷ []) }
    ensures refused { (o : Opening) (p : Place) (g : Ground) (s : ℕ) (left : List Uttered) (total : ℕ) (standing : Standing) (l : Line) → (h : Here S.stands o p g s (member left (reading standing (Some l.item)) total)) → is_refusal_of_means l.reply ≡ true → ((t : Tables) → S.stands (g.desk s).start t → IsExcused l.reply o.word standing t l.item) → has_cause o p s l.reply ≡ true → is_first_refused (p.transaction s) l.item l.reply ≡ false → (ends_by l.item && is_done l.reply) ≡ false → Steps S.stands o p g s (member left (reading ReadOnly None) total) g (Said s l.item l.choices l.reply ∷ []) }
    ensures commits { (o : Opening) (p : Place) (g : Ground) (s : ℕ) (left : List Uttered) (total : ℕ) (standing : Standing) (d : Desk) (moment : ℕ) → (h : Here S.stands o p g s (member left (reading standing (Some (said commit))) total)) → p.moment ≤ moment → moment ≤ g.time → Steps S.stands o p g s (member left outside total) (with_desk s d g) (Committed s moment ∷ Said s (said commit) [] (Done []) ∷ []) }
    ensures copies { (o : Opening) (p : Place) (g : Ground) (s : ℕ) (left : List Uttered) (total : ℕ) (n : ℕ) (d : Desk) (moment : ℕ) → (h : Here S.stands o p g s (member left (reading Closed (Some (said (back_up n)))) total)) → p.moment ≤ moment → moment ≤ g.time → Steps S.stands o p g s (member left outside total) (with_desk s d g) (Committed s moment ∷ Said s (said (back_up n)) [] (Done []) ∷ []) }
{}

/// What begins no transaction is answered outside of one.
pub fn statements_stand_outside<S: Statements>()
    ensures { (o : Opening) (p : Place) (g : Ground) (s : ℕ) (left : List Uttered) (total : ℕ) (l : Line) → (h : Here S.stands o p g s (member (l.item ∷ left) outside total)) → IsReply o p s Closed p.tables l → may_be_outside (begins l.item) l.reply ≡ true → (ends_by l.item && is_done l.reply) ≡ false → Steps S.stands o p g s (member left outside total) g (Said s l.item l.choices l.reply ∷ []) }
{}
