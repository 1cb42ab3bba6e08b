// An action of a statement, from what is known to what comes of it.
ghost use Rattle.std.specs.Prelude.{◌≡◌, ◌∷◌, [], false, IfOk};
ghost use Rattle.rdb_meaning.specs.declared.tables.Tables.{Tables as Kept};
ghost use Rattle.rdb_meaning.specs.Checks.{act_uses};
ghost use Rattle.rdb_meaning.specs.Execution.{done as doing};
ghost use Rattle.line_view.specs.Knowledge.{Lines};
ghost use Rattle.line_view.specs.Held.{knows};
ghost use Rattle.rdo_bind.specs.Acting.{act_of, written_act, IsBoundAct};
ghost use Rattle.rdo_acts.specs.Ends.{GoTogether, HoldsIn, Ends};
ghost use Rattle.rdo_acts.specs.Acted.{Comes, IsOrdered, NamesNeeds};
ghost use Rattle.rdo_acts.specs.Areas.{KeepsFor, StaysFor};
ghost use Rattle.rdo_acts.specs.Scopes.{may_write};
ghost use Rattle.rdo_acts.specs.Selections.{chosen_in_act, ReadsAmong, LacksAmong};
ghost use Rattle.rdo_acts.specs.Wanted.{ActWants, Then, Lacking, WantsSo};
ghost use Rattle.row_writes.specs.Rows.{IsSoundView};
ghost use Rattle.rdo_acts.specs.Ahead.{WantsBehind};
ghost use Rattle.rdo_acts.specs.Told.{Finishes, IsLacking, LacksStill, StopsAs};

use crate::behind::needs_behind;
use crate::looking::Sight;
use crate::running::run_action;
use crate::stop::{ActStop, Refusal};
use crate::work::{Given, Work};
use line_view::{Known, Need, Stop, View, Writes};
use rdb_types::{Dbkey, Items, Keys, NoMemory, PrintedRows};
use rdo_bind::BoundAction;
use statement_view::Changed;
use std::alloc::Global;

/// What an action that was done comes to.
#[derive(Drop)]
pub struct Acted {
    /// The lines that it printed.
    pub lines: PrintedRows,
    /// The Dbkeys that its stored rows got, in the order of the work.
    pub given: Keys,
    /// The lines that it wrote, each once.
    pub writes: Writes,
}

/// What comes of an action.
#[derive(Drop)]
pub enum Outcome<'a> {
    Done(Acted),
    /// It was refused, and nothing is written; the rows that it had stored before got these Dbkeys.
    Refused { refusal: Refusal<'a>, given: Keys },
    /// These needs are known none of. The first is what the work wants next; the others are ones that it will want if nothing refuses it: rows that an index found, rooms for the rows that are left to be stored.
    Missing(Items<Need>),
    /// No sound map of lines has this line with these bytes.
    Bad(Dbkey),
    NoMemory,
}

/// What was known, and what comes of the action.
#[derive(Drop)]
pub struct Ended<'a> {
    pub known: Known,
    pub outcome: Outcome<'a>,
}

// The action behind no variables.
fn begin<'a>(
    given: &Given<'a>,
    action: &BoundAction,
    work: &mut Work<'_>,
) -> Result<(), ActStop<'a>>
    requires together { GoTogether given.now }
    requires bound { IsBoundAct (act_of action.now) given.now.schema.now.tables [] }
    ensures runs { (all : Lines) (t : Kept) → HoldsIn given.now work.old all t t → Ends result given.now all t (doing (written_act action.now) t []) work.old work.new t }
    ensures known { work.new.view.base ≡ work.old.view.base }
    ensures areas { (all : Lines) (t : Kept) → HoldsIn given.now work.old all t t → KeepsFor t (act_uses (written_act action.now) []) work.old.view work.new.view result }
    ensures lacks { may_write (act_of action.now) ≡ false → (first : Lines) (t : Kept) → IsSoundView work.old.view given.now.schema.now t first → ReadsAmong t given.now.sources.now.entries (chosen_in_act (act_of action.now) []) result }
    ensures wants { (all : Lines) (t : Kept) → HoldsIn given.now work.old all t t → Lacking (λ need. Then given.now all t (λ u. ActWants u given.now.sources.now.entries (act_of action.now) [] need)) result }
{
    let values = Items::new(given.alloc);
    run_action(given, &[], &values, action, work)
}

fn lacking<'a>(alloc: Global, first: Need, behind: Items<Need>) -> Result<Outcome<'a>, NoMemory>
    ensures { IfOk result (λ outcome. outcome ≡ Outcome.Missing (first ∷ behind)) }
{
    let mut needs = Items::new(alloc);
    needs.push(first)?;
    needs.append(behind)?;
    Ok(Outcome::Missing(needs))
}

fn missing<'a>(
    given: &Given<'_>,
    known: &Known,
    action: &BoundAction,
    first: Need,
    stored: &[Dbkey],
) -> Result<Outcome<'a>, NoMemory>
    requires together { GoTogether given.now }
    requires bound { IsBoundAct (act_of action.now) given.now.schema.now.tables [] }
    ensures lacking { IfOk result (λ outcome. IsLacking outcome (knows known.now) first) }
    ensures behind { IfOk result (λ outcome. WantsBehind outcome (act_of action.now) (knows known.now) given.now) }
{
    let sight = Sight {
        alloc: given.alloc,
        known,
        sources: given.sources,
    };
    let behind = needs_behind(sight, action, first, stored)?;
    lacking(given.alloc, first, behind)
}

fn stopped<'a>(
    given: &Given<'a>,
    known: &Known,
    action: &BoundAction,
    stop: ActStop<'a>,
    stored: Keys,
) -> Outcome<'a>
    requires together { GoTogether given.now }
    requires bound { IsBoundAct (act_of action.now) given.now.schema.now.tables [] }
    ensures stops { StopsAs result stop.entry stored (knows known.now) }
    ensures behind { WantsBehind result (act_of action.now) (knows known.now) given.now }
{
    match stop {
        Stop::Missing(need) => match missing(given, known, action, need, stored.as_slice()) {
            Ok(outcome) => outcome,
            Err(_) => Outcome::NoMemory,
        },
        Stop::Bad(key) => Outcome::Bad(key),
        Stop::NoMemory => Outcome::NoMemory,
        Stop::Own(refusal) => Outcome::Refused {
            refusal,
            given: stored,
        },
    }
}

// Whether work that sees no area misses one whose lines are known.
fn misses_known_area(known: &Known, stop: &ActStop<'_>) -> bool
    ensures { result ≡ false → LacksStill (knows known.now) stop.now }
{
    match stop {
        Stop::Missing(Need::Area(area)) => known.area(*area).is_some(),
        _ => false,
    }
}

fn finished<'a>(alloc: Global, work: Work<'_>) -> Outcome<'a>
    ensures { Finishes result work.entry }
{
    let Work { view, lines, given } = work;
    match view.finish(alloc) {
        Ok(writes) => Outcome::Done(Acted {
            lines,
            given,
            writes,
        }),
        Err(_) => Outcome::NoMemory,
    }
}

fn abandoned<'a>(
    given: &Given<'a>,
    known: &Known,
    action: &BoundAction,
    work: Work<'_>,
    stop: ActStop<'a>,
) -> Outcome<'a>
    requires together { GoTogether given.now }
    requires bound { IsBoundAct (act_of action.now) given.now.schema.now.tables [] }
    ensures stops { StopsAs result stop.entry work.entry.given (knows known.now) }
    ensures behind { WantsBehind result (act_of action.now) (knows known.now) given.now }
{
    let Work { given: stored, .. } = work;
    stopped(given, known, action, stop, stored)
}

// Does an action that reads areas.
fn act_seeing<'a>(given: &Given<'a>, known: &Known, action: &BoundAction) -> Outcome<'a>
    requires together { GoTogether given.now }
    requires bound { IsBoundAct (act_of action.now) given.now.schema.now.tables [] }
    ensures comes { Comes result (written_act action.now) (knows known.now) given.now.schema.now }
    ensures ordered { IsOrdered result }
    ensures needs { NamesNeeds result (knows known.now) }
    ensures areas { StaysFor result (written_act action.now) (knows known.now) given.now.schema.now }
    ensures lacks { LacksAmong result (act_of action.now) (knows known.now) given.now }
    ensures wants { WantsSo result (act_of action.now) (knows known.now) given.now }
    ensures behind { WantsBehind result (act_of action.now) (knows known.now) given.now }
{
    let mut work = Work::new(given.alloc, Changed::new(given.alloc, known));
    match begin(given, action, &mut work) {
        Ok(()) => finished(given.alloc, work),
        Err(stop) => abandoned(given, known, action, work, stop),
    }
}

// Does an action, first as one that reads no area, so that no write copies which lines its area has.
fn act_over<'a>(given: &Given<'a>, known: &Known, action: &BoundAction) -> Outcome<'a>
    requires together { GoTogether given.now }
    requires bound { IsBoundAct (act_of action.now) given.now.schema.now.tables [] }
    ensures comes { Comes result (written_act action.now) (knows known.now) given.now.schema.now }
    ensures ordered { IsOrdered result }
    ensures needs { NamesNeeds result (knows known.now) }
    ensures areas { StaysFor result (written_act action.now) (knows known.now) given.now.schema.now }
    ensures lacks { LacksAmong result (act_of action.now) (knows known.now) given.now }
    ensures wants { WantsSo result (act_of action.now) (knows known.now) given.now }
    ensures behind { WantsBehind result (act_of action.now) (knows known.now) given.now }
{
    let mut work = Work::new(given.alloc, Changed::without_areas(given.alloc, known));
    match begin(given, action, &mut work) {
        Ok(()) => finished(given.alloc, work),
        Err(stop) => {
            if misses_known_area(known, &stop) {
                return act_seeing(given, known, action);
            }
            abandoned(given, known, action, work, stop)
        }
    }
}

/// Does an action over what is known, whose rooms were forgotten at the beginning of the statement. The action is bound to the catalog of the schema, and the sources are the schema's. What was known is given back.
pub fn act<'a>(given: &Given<'a>, known: Known, action: &BoundAction) -> Ended<'a>
    requires together { GoTogether given.now }
    requires bound { IsBoundAct (act_of action.now) given.now.schema.now.tables [] }
    ensures known { result.known ≡ known }
    ensures comes { Comes result.outcome (written_act action.now) (knows known) given.now.schema.now }
    ensures ordered { IsOrdered result.outcome }
    ensures needs { NamesNeeds result.outcome (knows known) }
    ensures areas { StaysFor result.outcome (written_act action.now) (knows known) given.now.schema.now }
    ensures lacks { LacksAmong result.outcome (act_of action.now) (knows known) given.now }
    ensures wants { WantsSo result.outcome (act_of action.now) (knows known) given.now }
    ensures behind { WantsBehind result.outcome (act_of action.now) (knows known) given.now }
{
    let outcome = act_over(given, &known, action);
    Ended { known, outcome }
}
