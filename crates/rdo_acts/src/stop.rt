// Why an action ends before it is done.
ghost use Rattle.std.specs.Prelude.{◌≡◌, Some, slice_get};
ghost use Rattle.catalog_lines.specs.declared.line.IndexLine.{IndexLine as Index};
ghost use Rattle.rdo_ast.specs.declared.reply.Reply.TheVariants as replies;
ghost use Rattle.rdo_acts.specs.Ends.{reply_of};
ghost use Rattle.rdo_acts.specs.Stops.{stop_of_select, stop_of_misfit, IsRefusalOf, IsStopOfRow};

use catalog_lines::IndexLine;
use line_view::Stop;
use rdb_types::Chars;
use rdo_arithmetic::Misfit;
use rdo_select::SelectStop;
use row_writes::{PairRefusal, RowRefusal, RowStop};
use sqlite_items::at;
use stored_rows::Unstored;

/// Why an action is refused, or can't be done.
#[derive(Clone, Copy)]
pub enum Refusal<'a> {
    Overflow,
    TooLong,
    /// Another row has the key of this unique index.
    Duplicate(&'a Chars),
    /// The row can't be written: its values are none that a script gives, or there is no room left for it or for a node of an index.
    Unwritten(RowRefusal),
}

/// Why an action ends before it is done. Behind it the view of the statement is of no more use, but for what was known.
pub(crate) type ActStop<'a> = Stop<Refusal<'a>>;

pub(crate) fn of_select<'a>(stop: SelectStop) -> ActStop<'a>
    ensures { result ≡ stop_of_select stop }
{
    match stop {
        Stop::Missing(need) => Stop::Missing(need),
        Stop::Bad(key) => Stop::Bad(key),
        Stop::NoMemory => Stop::NoMemory,
        Stop::Own(_) => Stop::Own(Refusal::Overflow),
    }
}

pub(crate) fn of_misfit<'a>(misfit: Misfit) -> ActStop<'a>
    ensures { result ≡ stop_of_misfit misfit }
{
    match misfit {
        Misfit::Overflow => Stop::Own(Refusal::Overflow),
        Misfit::TooLong => Stop::Own(Refusal::TooLong),
        Misfit::Memory => Stop::NoMemory,
    }
}

// The key is taken in the index at this place.
fn taken<'a>(refusal: RowRefusal, indexes: &'a [IndexLine], place: usize) -> Refusal<'a>
    ensures { (x : Index) → slice_get indexes.now place ≡ Some x → reply_of result ≡ Some (replies.Duplicate x.name) }
{
    match at(indexes, place) {
        Some(index) => Refusal::Duplicate(&index.name),
        None => Refusal::Unwritten(refusal),
    }
}

fn refused<'a>(refusal: RowRefusal, indexes: &'a [IndexLine]) -> Refusal<'a>
    ensures { IsRefusalOf refusal indexes.now result }
{
    match refusal {
        RowRefusal::NoImage(reason) => match reason {
            Unstored::TooLong => Refusal::TooLong,
            Unstored::Misfit => Refusal::Unwritten(refusal),
        },
        RowRefusal::NoRoom => Refusal::Unwritten(refusal),
        RowRefusal::Pair { at, refusal: pair } => match pair {
            PairRefusal::Duplicate => taken(refusal, indexes, at),
            PairRefusal::LongKey => Refusal::Unwritten(refusal),
            PairRefusal::Full => Refusal::Unwritten(refusal),
        },
    }
}

/// Why a row isn't written, where these are the indexes of its relation.
pub(crate) fn of_row<'a>(stop: RowStop, indexes: &'a [IndexLine]) -> ActStop<'a>
    ensures { IsStopOfRow stop indexes.now result }
{
    match stop {
        Stop::Missing(need) => Stop::Missing(need),
        Stop::Bad(key) => Stop::Bad(key),
        Stop::NoMemory => Stop::NoMemory,
        Stop::Own(refusal) => Stop::Own(refused(refusal, indexes)),
    }
}
