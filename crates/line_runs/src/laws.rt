// What a run needs of the store that it begins with.
ghost use Rattle.std.specs.Prelude.{◌≡◌, ◌≤◌, ◌++◌, ℕ, List, IsTrue};
ghost use Rattle.rdb_outside.specs.Disk.{Image, LeftNow};
ghost use Rattle.line_view.specs.Knowledge.{Lines};
ghost use Rattle.stable_lines.specs.Journal.{Journal};
ghost use Rattle.rdb_account.specs.Events.{Event};
ghost use Rattle.rdb_account.specs.Places.{Opening, place};
ghost use Rattle.line_steps.specs.Images.{StandsAt};
ghost use Rattle.opened_store.specs.disk_store.Shown.{sight_of};
ghost use Rattle.line_drive.specs.line_cluster.Sound.{IsOpenedBy};
ghost use Rattle.opened_store.specs.Opened.{BeginsFrom};
ghost use Rattle.line_runs.specs.Openings.{IsOpeningOf, OpensWith};
ghost use Rattle.line_runs.specs.Prefix.{HoldsPrefix};

use opened_store::Held;
use rdb_outside::Disk;
use session_jobs::Statements;

/// Behind the opening of a database a shelf is shown as an account opens, for tables for which the lines of the image stand, and an account that has the limits, the taken pages and the groups of the image.
pub fn a_run_opens<D: Disk, S: Statements>(disk: &D, held: &Held)
    ensures { (image : Image) (lines : Lines) (journal : Journal) (word : List ℕ) (o : Opening) (faults : ℕ)
        → BeginsFrom image lines journal (D.view disk.now) held.now
        → IsOpeningOf image journal (D.view disk.now).moment o
        → o.word ≡ word
        → S.stands lines o.tables
        → faults ≤ (D.view disk.now).faults
        → IsOpenedBy S.stands o faults word (sight_of (D.view disk.now) held.now) }
{}

/// Whatever a crash leaves behind a run, whole or stopped, the next run opens: there is an account with which it does, and its tables are those of all commits, or of those with the one in flight. So it is with what a crash might have left since the sessions began, with the tables of a place of the account.
pub fn a_run_leaves_what_opens<D: Disk, S: Statements>(before: &D, after: &D)
    requires tells { IsTrue (D.view after.now).tells }
    ensures now { (o : Opening) (events : List Event) → HoldsPrefix S.stands o (D.view before.now) events
        → LeftNow (D.view before.now) (D.view after.now).content
        → (next : Opening) × OpensWith S.stands (D.view after.now) next × StandsAt o (place o events) next.tables }
    ensures since { (o : Opening) (events : List Event) (holds : HoldsPrefix S.stands o (D.view before.now) events)
        → (D.view before.now).left_since holds.began (D.view after.now).content
        → (next : Opening) × OpensWith S.stands (D.view after.now) next
        × (past : List Event) × (rest : List Event) × (events ≡ past ++ rest) × StandsAt o (place o past) next.tables }
{}
