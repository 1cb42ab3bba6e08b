use crate::{Answer, Job};

/// Who works statements.
pub trait Statements {
    ghost use Rattle.std.specs.Prelude.{◌≡◌, ℕ, List, []};
    ghost use Rattle.rdo_ast.specs.declared.reply.Standing.{Standing};
    ghost use Rattle.rdo_ast.specs.Tree.{Uttered};
    ghost use Rattle.line_view.specs.Knowledge.{Knowledge, Lines, IsInOrder};
    ghost use Rattle.line_view.specs.Held.{knows};
    ghost use Rattle.rdb_account.specs.rdb_meaning.declared.tables.Tables.{Tables};
    ghost use Rattle.rdb_account.specs.rdb_meaning.Contents.{no_tables};
    ghost use Rattle.session_jobs.specs.Jobs.{IsFoundFor, HasCause, NamesOnce, IsOutside, NamesNoNeed};
    ghost use Rattle.session_jobs.specs.Kept.{HasCatalogOf};

    /// What is kept from job to job, so that nothing is worked out twice.
    type Kept: Drop;

    /// Which maps of lines are sound and stand for which tables.
    ghost stands: { Lines → Tables → Type 0 };

    /// What is kept is true of what is known.
    ghost fits: { Self.Kept → Knowledge → Type 0 };

    /// Why an item, said in a database of this word and in this standing over what is known, may be left unworked.
    ghost leaves: { List ℕ → Standing → Uttered → Knowledge → Type 0 };

    /// What is kept before the first job.
    fn nothing() -> Self::Kept
        ensures { (known : Knowledge) → fits result known };

    /// What the job comes to. It reads nothing but the job and what is kept, and gives both back.
    fn work(job: Job, kept: Self::Kept) -> Answer<Self::Kept>
        requires { fits kept (knows job.known) }
        ensures job { result.job ≡ job }
        ensures kept { fits result.kept (knows job.known) }
        ensures right { IsFoundFor stands job result.found }
        ensures cause { HasCause leaves job result.found }
        ensures once { NamesOnce result.found }

        // What begins no transaction and is said outside one reads no lines.
        ensures outside { IsOutside job → NamesNoNeed result.found };

    /// Such maps are in order.
    ghost orderly: { (all : Lines) (t : Tables) → stands all t → IsInOrder all };

    /// The empty map stands for no tables.
    ghost empty: { stands [] no_tables };

    /// What is kept goes on being true where no line of the catalog is other than it was.
    ghost lasts: { (kept : Self.Kept) (old new : Knowledge) → fits kept old → HasCatalogOf new old → fits kept new };
}
