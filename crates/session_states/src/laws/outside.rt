// What begins no transaction is answered outside of one.
ghost use Rattle.std.specs.Prelude.{◌≡◌, ◌∷◌, ℕ, List, [], None};
ghost use Rattle.rdo_ast.specs.declared.reply.Reply.TheVariants.{NoMemory};
ghost use Rattle.rdo_ast.specs.declared.reply.Standing.TheVariants.{Closed};
ghost use Rattle.rdo_ast.specs.declared.syntax.Item.{Item};
ghost use Rattle.rdo_ast.specs.Views.{uttered_of};
ghost use Rattle.rdb_account.specs.Events.{Said};
ghost use Rattle.rdb_account.specs.Places.{begins};
ghost use Rattle.line_view.specs.Held.{knows, nothing};
ghost use Rattle.line_steps.specs.session_jobs.Jobs.{IsFound};
ghost use Rattle.line_steps.specs.session_jobs.declared.jobs.Found.TheVariants.{Done};
ghost use Rattle.line_steps.specs.session_jobs.declared.jobs.TxRecord.{TxRecord};
ghost use Rattle.session_states.specs.declared.stage.Phase.TheVariants.{Outside};
ghost use Rattle.session_states.specs.States.{session};
ghost use Rattle.session_states.specs.Shared.{Shared};
ghost use Rattle.session_states.specs.Steps.{Step};

use line_steps::Statements;

/// Outside a transaction an item that begins none is worked over nothing that is known, and said. Where no memory is found each item may be
/// refused there, also one that would begin a transaction.
pub fn statements_stand_outside<S: Statements>()
    ensures answered { (s : ℕ) (c : Shared) (item : Item) (left : List Item) (total : ℕ) (r : TxRecord) → begins (uttered_of item) ≡ None → IsFound S.stands c.word Closed (uttered_of item) (knows nothing) (Done r) → Step S.stands s c (session (item ∷ left) total Outside) c (session left total Outside) (Said s (uttered_of item) r.choices r.reply ∷ []) }
    ensures forgone { (s : ℕ) (c : Shared) (item : Item) (left : List Item) (total : ℕ) → Step S.stands s c (session (item ∷ left) total Outside) c (session left total Outside) (Said s (uttered_of item) [] NoMemory ∷ []) }
{}
