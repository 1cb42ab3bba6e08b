// What the account says of the locks of reservations.
ghost use Rattle.std.specs.Prelude.{◌≡◌, true, List};
ghost use Rattle.std.specs.List.{AllByRecursion};
ghost use Rattle.rdo_ast.specs.declared.syntax.Reservation.{Reservation};
ghost use Rattle.lock_needs.specs.declared.need.Need.{Need};
ghost use Rattle.rdb_account.specs.AskedFor.{reservations_ask};
ghost use Rattle.line_view.specs.Knowledge.{Knowledge};
ghost use Rattle.session_jobs.specs.Jobs.{WhereItAgrees};
ghost use Rattle.reserved_locks.specs.Reserved.{AreLocksOf};

use session_jobs::Statements;

/// Each lock of reservations is one for which they ask, over all that agrees with what is known.
pub fn reserved_locks_are_asked_for<S: Statements>()
    ensures { (known : Knowledge) (rs : List Reservation) (locks : List Need) → WhereItAgrees S.stands known (λ t. AreLocksOf rs t locks) → AllByRecursion (λ n. WhereItAgrees S.stands known (λ t. reservations_ask t n rs ≡ true)) locks }
{}
