// From areas to locks.
ghost use Rattle.std.specs.Prelude.{◌≡◌, ℕ, true, false, ◌||◌, List, [], ◌∷◌, None};
ghost use Rattle.std.specs.List.{AllByRecursion};
ghost use Rattle.rdo_ast.specs.declared.reply.Standing.{Standing};
ghost use Rattle.rdo_ast.specs.declared.syntax.IndexDefinition.{IndexDefinition};
ghost use Rattle.rdo_ast.specs.Tree.{Act, Command, Uttered, said, perform, define_index};
ghost use Rattle.rdb_meaning.specs.declared.tables.Tables.{Tables as Kept};
ghost use Rattle.rdb_meaning.specs.Contents.{new_index_area};
ghost use Rattle.rdb_meaning.specs.Checks.{Use, use_of, act_uses};
ghost use Rattle.vms_queues.specs.declared.lock_mode.Mode.TheVariants.{EX};
ghost use Rattle.lock_needs.specs.declared.need.Need.{Need as LockNeed};
ghost use Rattle.rdb_account.specs.Lawful.{first_refusal};
ghost use Rattle.rdb_account.specs.AskedFor.{is_on_line_of, uses_ask, definition_asks, command_asks};
ghost use Rattle.session_jobs.specs.Asked.{is_definition, is_lock_for, AsksFor};
ghost use Rattle.session_jobs.specs.Jobs.{AreAsked};
ghost use Rattle.line_view.specs.declared.need.Need.{Need as Needed};
ghost use Rattle.line_view.specs.declared.writes.Write.{Write as LineWrite};
ghost use Rattle.statement_view.specs.Areas.{is_among, IsNeedOf};
ghost use Rattle.used_areas.specs.Areas.{areas_read, areas_changed};

/// Where a need is of the catalog or of the relations that are used, each lock that it wants is asked for, and so is EX on each line of the relations that are changed: by actions, by definitions and deletions, and by the definition of an index in a new area.
pub fn areas_are_asked_for()
    ensures action { (item : Uttered) (t : Kept) (u : Use) (us : List Use) (need : Needed) (lock : LockNeed) → is_definition item ≡ false
        → IsNeedOf (1 ∷ areas_read t (u ∷ us)) (areas_changed t (u ∷ us)) need → is_lock_for item need lock ≡ true → uses_ask t lock (u ∷ us) ≡ true }
    ensures action_writes { (t : Kept) (us : List Use) (area : ℕ) (lock : LockNeed) → is_among (areas_changed t us) area ≡ true
        → is_on_line_of area EX lock ≡ true → uses_ask t lock us ≡ true }
    ensures definition { (item : Uttered) (t : Kept) (us : List Use) (need : Needed) (lock : LockNeed) → is_definition item ≡ true
        → IsNeedOf (1 ∷ areas_read t us) (1 ∷ areas_changed t us) need → is_lock_for item need lock ≡ true → definition_asks t lock us ≡ true }
    ensures definition_writes { (t : Kept) (us : List Use) (area : ℕ) (lock : LockNeed) → is_among (1 ∷ areas_changed t us) area ≡ true
        → is_on_line_of area EX lock ≡ true → definition_asks t lock us ≡ true }
    ensures index { (item : Uttered) (t : Kept) (us : List Use) (made : ℕ) (need : Needed) (lock : LockNeed) → is_definition item ≡ true
        → IsNeedOf (1 ∷ areas_read t us) (made ∷ 1 ∷ []) need → is_lock_for item need lock ≡ true → (is_on_line_of made EX lock || definition_asks t lock us) ≡ true }
    ensures index_writes { (t : Kept) (us : List Use) (made area : ℕ) (lock : LockNeed) → is_among (made ∷ 1 ∷ []) area ≡ true
        → is_on_line_of area EX lock ≡ true → (is_on_line_of made EX lock || definition_asks t lock us) ≡ true }
{}

/// What a job names as lacking, and what it writes, is asked for in the words of jobs, where its item isn't refused by the standing.
pub fn jobs_ask_for_their_areas()
    ensures action { (standing : Standing) (a : Act) (t : Kept) (u : Use) (us : List Use) (need : Needed) → first_refusal standing (said (perform a)) ≡ None → act_uses a [] ≡ u ∷ us
        → IsNeedOf (1 ∷ areas_read t (act_uses a [])) (areas_changed t (act_uses a [])) need → AsksFor standing (said (perform a)) t (is_lock_for (said (perform a)) need) }
    ensures action_writes { (standing : Standing) (a : Act) (t : Kept) (writes : List LineWrite) → first_refusal standing (said (perform a)) ≡ None
        → AllByRecursion (λ w. is_among (areas_changed t (act_uses a [])) (w.key).area ≡ true) writes → AreAsked standing (said (perform a)) writes t }
    ensures definition { (standing : Standing) (c : Command) (t : Kept) (us : List Use) (need : Needed) → first_refusal standing (said c) ≡ None → is_definition (said c) ≡ true
        → ((lock : LockNeed) → command_asks t lock c ≡ definition_asks t lock us)
        → IsNeedOf (1 ∷ areas_read t us) (1 ∷ areas_changed t us) need → AsksFor standing (said c) t (is_lock_for (said c) need) }
    ensures definition_writes { (standing : Standing) (c : Command) (t : Kept) (us : List Use) (writes : List LineWrite) → first_refusal standing (said c) ≡ None
        → ((lock : LockNeed) → command_asks t lock c ≡ definition_asks t lock us)
        → AllByRecursion (λ w. is_among (1 ∷ areas_changed t us) (w.key).area ≡ true) writes → AreAsked standing (said c) writes t }
    ensures index { (standing : Standing) (d : IndexDefinition) (t : Kept) (need : Needed) → first_refusal standing (said (define_index d)) ≡ None
        → IsNeedOf (1 ∷ areas_read t (use_of false d.relation ∷ [])) (new_index_area t ∷ 1 ∷ []) need → AsksFor standing (said (define_index d)) t (is_lock_for (said (define_index d)) need) }
    ensures index_writes { (standing : Standing) (d : IndexDefinition) (t : Kept) (writes : List LineWrite) → first_refusal standing (said (define_index d)) ≡ None
        → AllByRecursion (λ w. is_among (new_index_area t ∷ 1 ∷ []) (w.key).area ≡ true) writes → AreAsked standing (said (define_index d)) writes t }
{}
