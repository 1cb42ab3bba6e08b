// Which lock a stage wants.
ghost use Rattle.std.specs.Prelude.{◌≡◌};
ghost use Rattle.rdo_ast.specs.Views.{uttered_of};
ghost use Rattle.rdb_account.specs.AskedFor.{area_node as node_of};
ghost use Rattle.stepped_jobs.specs.kept_apart.Guards.{line_node as node_at};
ghost use Rattle.line_steps.specs.session_jobs.Asked.{area_mode as mode_of, is_definition as defines};
ghost use Rattle.session_states.specs.Locks.{lock_for_area as lock_on_area, lock_for_line as lock_on_line, lock_for as lock_to_read, lock_of_work as lock_in_work, lock_of_gather as lock_in_gather, lock_of_write as lock_to_write, lock_of_laying as lock_in_laying, lock_of_end as lock_at_end, lock_of as lock_in};

use crate::stage::{End, Gather, Laying, Stage, Work};
use line_view::{Need, Writes};
use lock_needs::Need as LockNeed;
use rdb_types::{Dbkey, Level, Node};
use rdo_ast::syntax::{Item, Statement};
use vms_queues::Mode;

fn line_node(key: Dbkey) -> Node
    ensures { result ≡ node_at key }
{
    Node {
        level: Level::Line,
        area: key.area,
        at: key.page,
        line: key.line,
    }
}

fn area_node(area: u32) -> Node
    ensures { result ≡ node_of area }
{
    Node {
        level: Level::Area,
        area,
        at: 0,
        line: 0,
    }
}

// A definition or deletion has the catalog for itself.
fn is_definition(item: &Item) -> bool
    ensures { result ≡ defines (uttered_of item.now) }
{
    match item {
        Item::Statement(Statement::DefineField(..)) => true,
        Item::Statement(Statement::DefineRelation(..)) => true,
        Item::Statement(Statement::DefineIndex(..)) => true,
        Item::Statement(Statement::DeleteRelation(..)) => true,
        Item::Statement(Statement::DeleteIndex(..)) => true,
        _ => false,
    }
}

fn area_mode(item: &Item, area: u32) -> Mode
    ensures { result ≡ mode_of (uttered_of item.now) area }
{
    if area == 1 && is_definition(item) {
        Mode::EX
    } else {
        Mode::PR
    }
}

fn lock_for_area(item: &Item, area: u32) -> LockNeed
    ensures { result ≡ lock_on_area (uttered_of item.now) area }
{
    LockNeed {
        node: area_node(area),
        mode: area_mode(item, area),
    }
}

// Whoever reads a line of the catalog has the whole catalog.
fn lock_for_line(item: &Item, key: Dbkey) -> LockNeed
    ensures { result ≡ lock_on_line (uttered_of item.now) key }
{
    if key.area == 1 {
        return lock_for_area(item, 1);
    }
    LockNeed {
        node: line_node(key),
        mode: Mode::PR,
    }
}

fn lock_for(item: &Item, need: Need) -> Option<LockNeed>
    ensures { result ≡ lock_to_read (uttered_of item.now) need }
{
    match need {
        Need::Line(key) => Some(lock_for_line(item, key)),
        Need::Area(area) => Some(lock_for_area(item, area)),
        Need::Room(_) => None,
    }
}

fn lock_of_work(item: &Item, work: Work) -> Option<LockNeed>
    ensures { result ≡ lock_in_work (uttered_of item.now) work }
{
    match work {
        Work::Lacking(need) => lock_for(item, need),
        Work::Housing(_, key) => Some(LockNeed {
            node: line_node(key),
            mode: Mode::EX,
        }),
        _ => None,
    }
}

fn lock_of_gather(item: &Item, gather: Gather) -> Option<LockNeed>
    ensures { result ≡ lock_in_gather (uttered_of item.now) gather }
{
    match gather {
        Gather::Locking(need) => lock_for(item, need),
        Gather::Housing(_, key) => Some(LockNeed {
            node: line_node(key),
            mode: Mode::EX,
        }),
        Gather::Reading(_) | Gather::Lodging(..) => None,
    }
}

fn lock_of_laying(writes: &Writes, laying: Laying) -> Option<LockNeed>
    ensures { result ≡ lock_in_laying writes.now laying }
{
    match laying {
        Laying::Claiming(place) => match writes.as_slice().get(place) {
            Some(write) => Some(LockNeed {
                node: line_node(write.key),
                mode: Mode::EX,
            }),
            None => None,
        },
        Laying::Changing | Laying::Broken => None,
    }
}

fn lock_of_end(end: End) -> Option<LockNeed>
    ensures { result ≡ lock_at_end end }
{
    match end {
        End::Journal => Some(LockNeed {
            node: Node {
                level: Level::Journal,
                area: 0,
                at: 0,
                line: 0,
            },
            mode: Mode::EX,
        }),
        _ => None,
    }
}

/// The lock that a stage wants. It wants no other, and while it wants none no want is open.
pub fn lock_of(stage: &Stage) -> Option<LockNeed>
    ensures { result ≡ lock_in stage.now }
{
    match stage {
        Stage::Between => None,
        Stage::Working(item, work) => lock_of_work(item, *work),
        Stage::Gathering(item, gather, _, _) => lock_of_gather(item, *gather),
        Stage::Reserving(_, _, locks, place) => locks.as_slice().get(*place).copied(),
        Stage::Saying(_, worked, laying) => lock_of_laying(&worked.writes, *laying),
        Stage::Ending(end) => lock_of_end(*end),
    }
}
