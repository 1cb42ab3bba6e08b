//! A notice that a session's lock is stronger than it has to be.
ghost use Rattle.std.specs.Prelude.{◌≡◌, [], true, false, IfOk, OnOk, OnErr};
ghost use Rattle.session_limits.specs.session_states.declared.stage.Writer.{Writer};
ghost use Rattle.session_limits.specs.session_states.declared.stage.Phase.TheVariants.{Writing};
ghost use Rattle.session_limits.specs.session_states.Shared.{Shared, with_locks};
ghost use Rattle.lock_tree_laws.specs.Forest.{party_of};
ghost use Rattle.lock_tree_laws.specs.LockTable.{granted_at};
ghost use Rattle.lock_tree_laws.specs.Progress.{is_spare, Falls as LocksFall};
ghost use Rattle.stage_steps.specs.Notices.{demoted_by};
ghost use Rattle.stage_steps.specs.Turns.{Comes};

use lock_tree::{Demotion, Tree};
use rdb_types::{NoMemory, Node, Session};
use session_jobs::Statements;
use vms_queues::Mode;

/// Serves a notice to a session with a read-write transaction: its lock at the node comes down to what it must keep. That is a step of
/// that session, in which its stage stands, and so do its needs and its want. Where there is something to come down the measure of the tree
/// falls, else nothing changes. Where no memory is found nothing changes, and the notice is due still.
pub fn serve<S: Statements>(
    tree: &mut Tree,
    to: Session,
    node: Node,
    mode: Mode,
) -> Result<Option<Demotion>, NoMemory>
    ensures parties { tree.new.parties ≡ tree.old.parties }
    ensures served { IfOk result (λ demotion. (c : Shared) (w : Writer) → Comes S.stands to.number (with_locks tree.old c) (Writing w) (with_locks tree.new c) (Writing w) (demoted_by to.number node demotion)) }
    ensures falls { OnOk result (is_spare (granted_at tree.old.table to.number) (party_of tree.old.parties to.number) node ≡ true → LocksFall to.number tree.old tree.new) }
    ensures unchanged { OnOk result (is_spare (granted_at tree.old.table to.number) (party_of tree.old.parties to.number) node ≡ false → tree.new ≡ tree.old) }
    ensures err { OnErr result ((c : Shared) (w : Writer) → Comes S.stands to.number (with_locks tree.old c) (Writing w) (with_locks tree.new c) (Writing w) []) }
{
    match tree.deliver_notice(to.number, node, mode) {
        Ok(Some(demotion)) => Ok(Some(demotion)),
        Ok(None) => Ok(None),
        Err(no_memory) => Err(no_memory),
    }
}
