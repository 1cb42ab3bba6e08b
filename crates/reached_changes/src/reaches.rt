use line_view::Known;
use rdb_types::NoMemory;
use rdo_ast::reply::Standing;
use rdo_ast::syntax::Item;
use session_jobs::Statements;
use std::alloc::Global;

/// Who works statements, and tells whether the work of a change is reached.
pub trait Reaches: Statements {
    ghost use Rattle.std.specs.Prelude.{◌≡◌, ℕ, true, List, Ok};
    ghost use Rattle.rdo_ast.specs.declared.reply.Reply.TheVariants.{AreaFull};
    ghost use Rattle.rdo_ast.specs.Views.{uttered_of};
    ghost use Rattle.rdb_account.specs.Lawful.{Replaces};
    ghost use Rattle.line_view.specs.Held.{knows};
    ghost use Rattle.session_jobs.specs.Jobs.{WhereItAgrees};

    /// Whether an item is a change that no standing, name, reservation or type refuses, over all that agrees with what is known: a full
    /// area may then stand in place of its reply. It is asked where a room was lacked and none is left.
    fn is_reached(
        alloc: Global,
        known: &Known,
        standing: &Standing,
        item: &Item,
    ) -> Result<bool, NoMemory>
        ensures { result ≡ Ok true → (word : List ℕ) (limit : ℕ) → WhereItAgrees Self.stands (knows known.now) (λ t. Replaces word standing.now t (uttered_of item.now) (AreaFull limit)) };
}
