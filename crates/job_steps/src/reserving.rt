//! What a START_TRANSACTION reserves is locked, one lock after another, before it is said.
ghost use Rattle.std.specs.Prelude.{◌≡◌, true, false, Err, slice_get, IfOk, MatchOption};
ghost use Rattle.rdb_account.specs.Legal.{ends_by};
ghost use Rattle.rdo_ast.specs.Views.{uttered_of};
ghost use Rattle.line_store.specs.Seats.{IsMember, IsWriting};
ghost use Rattle.line_view.specs.Held.{knows};
ghost use Rattle.lock_tree_laws.specs.Forest.{opened_of};
ghost use Rattle.line_view.specs.declared.need.Need.{Need as LineNeed};
ghost use Rattle.session_jobs.specs.Jobs.{IsFound, IsLacking, WhereItAgrees};
ghost use Rattle.reserved_locks.specs.Reserved.{AreOnAreas};
ghost use Rattle.gathering_steps.specs.session_states.Fits.{WantsAtMost};
ghost use Rattle.gathering_steps.specs.stage_steps.Leaving.{OnUnworked};
ghost use Rattle.gathering_steps.specs.stage_steps.Scenes.{ComesIn, scene};
ghost use Rattle.gathering_steps.specs.stage_steps.Turns.{at_stage};
ghost use Rattle.job_steps.specs.Reserved.{IsReserved, reserves_at};

use gathering_steps::{Common, Laying, Stage, Terms, Turned, Work, forgo, gather, quiet, want};
use line_store::LineStore;
use lock_needs::Need;
use rdb_types::Session;
use rdo_ast::reply::{Reply, Standing};
use rdo_ast::syntax::{Item, Statement};
use reserved_locks::{LockNeeds, Reserves, Unnamed};
use session_jobs::{Found, Needs, Statements, TxRecord};
use std::alloc::Global;

/// A START_TRANSACTION that was worked, with the locks that its reservations ask for, of which those before the place are got.
#[derive(Drop)]
pub struct Reserving {
    pub item: Item,
    pub worked: TxRecord,
    pub locks: LockNeeds,
    pub place: usize,
}

impl Reserving {
    /// The stage at which the lock at the place is wanted.
    pub fn stage(self) -> Stage
        ensures { result ≡ Stage.Reserving self.item self.worked self.locks self.place }
    {
        Stage::Reserving(self.item, self.worked, self.locks, self.place)
    }

    /// The lock at the place.
    pub fn next(&self) -> Option<Need>
        ensures { result ≡ slice_get self.now.locks self.now.place }
    {
        self.locks.as_slice().get(self.place).copied()
    }
}

// Whether a record says that a START_TRANSACTION is done, if its item is one: no transaction of the session had begun.
fn is_begun(terms: &Terms, worked: &TxRecord) -> bool
    ensures { result ≡ true → (terms.now).standing ≡ Standing.Closed }
{
    matches!(terms.standing, Standing::Closed) && matches!(worked.reply, Reply::Done(_))
}

// The locks that an item reserves, where it begins a transaction and is done.
fn locks_of<S: Reserves>(
    alloc: Global,
    terms: &Terms,
    item: &Item,
    worked: &TxRecord,
) -> Result<Option<LockNeeds>, Unnamed>
    ensures reserved { IfOk result (λ found. MatchOption found (Unit {0}) (λ locks. IsReserved S.stands terms.now item.now locks)) }
    ensures lacking { (need : LineNeed) → result ≡ Err (Unnamed.Lacking need) → WhereItAgrees S.stands (knows (terms.now).known) (λ t. IsLacking (terms.now).standing (uttered_of item.now) (knows (terms.now).known) t need) }
{
    if !is_begun(terms, worked) {
        return Ok(None);
    }
    match item {
        Item::Statement(Statement::StartReadWrite { wait: _, reserved }) if !reserved.is_empty() =>
            {
                match S::reserved_locks(alloc, &terms.known, reserved.as_slice()) {
                    Ok(locks) => Ok(Some(locks)),
                    Err(why) => Err(why),
                }
            }
        _ => Ok(None),
    }
}

/// Keeps the record of a statement that was worked till it is said. One that reserves has its locks wanted before; what has to be known
/// to name them is read first, and the job is worked again. (Where no tables have each relation, there is no such record.)
pub(crate) fn keep<S: Reserves, L: LineStore>(
    common: &mut Common<L>,
    s: Session,
    terms: Terms,
    item: Item,
    worked: TxRecord,
) -> Turned
    requires member { IsMember s.number }
    requires seat { IsWriting ((L.sight common.old.store).stand s.number) }
    requires found { IsFound S.stands common.old.word terms.standing (uttered_of item) (knows terms.known) (Found.Done worked) }
    ensures comes { ComesIn S.stands s.number (scene common.old.word (L.sight common.old.store) common.old.tree) (at_stage terms (Stage.Working item Work.Out))
        (scene common.new.word (L.sight common.new.store) common.new.tree) result.phase result.happened }
    ensures worked { OnUnworked result.happened ⊥ }
{
    match locks_of::<S>(common.alloc, &terms, &item, &worked) {
        Ok(Some(locks)) => quiet(terms.at(Stage::Reserving(item, worked, locks, 0))),
        Ok(None) => quiet(terms.at(Stage::Saying(item, worked, Laying::Claiming(0)))),
        Err(Unnamed::Lacking(need)) => {
            let later = Needs::new(common.alloc);
            quiet(gather::<S>(terms, item, need, later))
        }
        Err(Unnamed::Unknown) => quiet(terms.at(Stage::Working(item, Work::Due))),
        Err(Unnamed::NoMemory) => forgo::<S, L>(common, s, terms, item),
    }
}

/// Asks for the next lock that a START_TRANSACTION reserves; once all are got it is said. Where one is refused its transaction doesn't
/// begin, and nothing stays.
pub fn want_reserved<S: Statements, L: LineStore>(
    common: &mut Common<L>,
    s: Session,
    terms: Terms,
    reserving: Reserving,
) -> Turned
    requires member { IsMember s.number }
    requires seat { IsWriting ((L.sight common.old.store).stand s.number) }
    requires statement { ends_by (uttered_of reserving.item) ≡ false }
    requires areas { AreOnAreas reserving.locks }
    requires wants { WantsAtMost (slice_get reserving.locks reserving.place) (opened_of common.old.tree s.number) }
    ensures { ComesIn S.stands s.number (scene common.old.word (L.sight common.old.store) common.old.tree) (reserves_at terms reserving)
        (scene common.new.word (L.sight common.new.store) common.new.tree) result.phase result.happened }
{
    let Some(need) = reserving.next() else {
        let Reserving { item, worked, .. } = reserving;
        return quiet(terms.at(Stage::Saying(item, worked, Laying::Claiming(0))));
    };
    want::<S, L>(common, s, terms, reserving.stage(), need)
}
