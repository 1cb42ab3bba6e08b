use crate::Unnamed;
use line_view::Known;
use lock_needs::Need;
use rdb_types::Items;
use rdo_ast::syntax::Reservation;
use session_jobs::Statements;
use std::alloc::Global;

/// Needs of the tree of locks.
pub type LockNeeds = Items<Need>;

/// Who works statements, and names the locks of what a START_TRANSACTION reserves.
pub trait Reserves: Statements {
    ghost use Rattle.std.specs.Prelude.{◌≢◌, [], IfOk, IfErr};
    ghost use Rattle.line_view.specs.Held.{knows};
    ghost use Rattle.session_jobs.specs.Jobs.{WhereItAgrees};
    ghost use Rattle.reserved_locks.specs.Reserved.{AreLocksOf, AreOnAreas, IsUnnamed};

    /// The lock of each reservation, over all that agrees with what is known. It is asked once the record of the START_TRANSACTION is
    /// known to be done, so that each relation is there.
    fn reserved_locks(
        alloc: Global,
        known: &Known,
        reserved: &[Reservation],
    ) -> Result<LockNeeds, Unnamed>
        requires { reserved.now ≢ [] }
        ensures locks { IfOk result (λ locks. WhereItAgrees Self.stands (knows known.now) (λ t. AreLocksOf reserved.now t locks)) }
        ensures areas { IfOk result AreOnAreas }
        ensures cause { IfErr result (IsUnnamed Self.stands (knows known.now) reserved.now) };
}
