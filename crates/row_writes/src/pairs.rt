// The pair of one row in one index.
ghost use Rattle.std.specs.Prelude.{◌≡◌, ◌≢◌, ℕ, true, [], ◌∷◌, Some, OnOk};
ghost use Rattle.std.specs.List.{AllByRecursion};
ghost use Rattle.line_view.specs.Knowledge.{Lines, laid};
ghost use Rattle.line_view.specs.Writes.{laid_all};
ghost use Rattle.line_view.specs.declared.stop.Stop.TheVariants.{Bad, Own};
ghost use Rattle.sorted_index_laws.specs.Tree.{pairs as pairs_in};
ghost use Rattle.sorted_index_laws.specs.Changes.{pair_of};
ghost use Rattle.sorted_index_laws.specs.Insertion.{IsNew};
ghost use Rattle.rdb_meaning.specs.Contents.{key_of as key_in};
ghost use Rattle.statement_view.specs.Over.{Stands, laid_over, knows_over};
ghost use Rattle.statement_view.specs.Areas.{WritesOf};
ghost use Rattle.row_writes.specs.declared.stop.PairRefusal.TheVariants as refusals;
ghost use Rattle.row_writes.specs.Pairs.{Tells, TakesPair, AddsPair};
ghost use Rattle.row_writes.specs.Areas.{KeepsToIndex, NodesOfIndex};

use crate::stop::{PairRefusal, PairStop};
use catalog_lines::IndexLine;
use line_view::{Need, Seen, Stop, View, Write};
use rdb_types::{Dbkey, Image, NoMemory, Value};
use sorted_index::{Duplicate, IndexStop, insert, remove};
use statement_view::Changed;
use std::alloc::Global;
use stored_rows::{is_key, key_of};

fn copied_image(image: &Option<Image>) -> Option<Image>
    ensures { result ≡ image.now }
{
    match image {
        Some(image) => Some(Image::from_bytes(image.bytes())),
        None => None,
    }
}

// Whether the view shows the line as it would be written.
fn is_shown(view: &Changed<'_>, write: &Write) -> bool
    ensures { result ≡ true → (knows_over view.now).line write.now.key ≡ Some write.now.image }
{
    match (view.line(write.key), &write.image) {
        (Seen::Present(bytes), Some(image)) => bytes == image.bytes(),
        _ => false,
    }
}

// A line that is as it would be written is left: most nodes on the way to a pair stay as they are.
fn put_changed(view: &mut Changed<'_>, write: &Write) -> Result<(), NoMemory>
    ensures stands { OnOk result ((first : Lines) → Stands view.old first → Stands view.new first) }
    ensures laid { OnOk result ((first : Lines) → Stands view.old first → laid_over view.new.lines first ≡ laid write.now.key write.now.image (laid_over view.old.lines first)) }
    ensures areas { OnOk result (WritesOf (write.now.key.area ∷ []) view.old view.new) }
    ensures known { view.new.base ≡ view.old.base }
{
    if is_shown(view, write) {
        return Ok(());
    }
    view.put(write.key, copied_image(&write.image))
}

fn put_all(view: &mut Changed<'_>, writes: &[Write]) -> Result<(), NoMemory>
    ensures stands { OnOk result ((first : Lines) → Stands view.old first → Stands view.new first) }
    ensures laid { OnOk result ((first : Lines) → Stands view.old first → laid_over view.new.lines first ≡ laid_all writes.now (laid_over view.old.lines first)) }
    ensures areas { OnOk result ((area : ℕ) → AllByRecursion (λ w. (w.key).area ≡ area) writes.now → WritesOf (area ∷ []) view.old view.new) }
    ensures known { view.new.base ≡ view.old.base }
{
    for write in writes {
        put_changed(view, write)?;
    }
    Ok(())
}

// Why the work on an index stops, by what is known: rooms have other numbers there than in the view.
fn known_stop(view: &Changed<'_>, stop: IndexStop) -> PairStop
    ensures { Tells view.now.base stop result }
{
    match stop {
        Stop::Missing(Need::Room(room)) => match view.lacks(room.area, room.class) {
            Some(lacked) => Stop::Missing(Need::Room(lacked)),
            None => Stop::Own(PairRefusal::Full),
        },
        Stop::Missing(Need::Line(key)) => Stop::Missing(Need::Line(key)),
        Stop::Missing(Need::Area(area)) => Stop::Missing(Need::Area(area)),
        Stop::Bad(key) => Stop::Bad(key),
        Stop::NoMemory => Stop::NoMemory,
        Stop::Own(Duplicate {}) => Stop::Own(PairRefusal::Duplicate),
    }
}

// A root that an insertion finds bad is in a sound map one that can have no node above it.
fn insertion_stop(view: &Changed<'_>, root: Dbkey, stop: IndexStop) -> PairStop
    ensures root { stop ≡ Bad root → result ≡ Own refusals.Full }
    ensures others { stop ≢ Bad root → Tells view.now.base stop result }
{
    if let Stop::Bad(key) = stop {
        if key == root {
            return Stop::Own(PairRefusal::Full);
        }
    }
    known_stop(view, stop)
}

/// Takes the pair of a row out of an index.
pub(crate) fn take_pair(
    alloc: Global,
    view: &mut Changed<'_>,
    index: &IndexLine,
    row: &[Value],
    at: Dbkey,
) -> Result<(), PairStop>
    ensures takes { TakesPair view.old view.new index.now row.now at result }
    ensures nodes { NodesOfIndex view.old view.new index.now.root (λ level tree. Unit {0}) result }
    ensures known { view.new.base ≡ view.old.base }
{
    let key = key_of(alloc, index.fields.as_slice(), row)?;
    let writes = match remove(alloc, view, index.root, key.as_slice(), at) {
        Ok(writes) => writes,
        Err(stop) => return Err(known_stop(view, stop)),
    };
    put_all(view, writes.as_slice())?;
    Ok(())
}

/// Puts the pair of a row, which isn't in it, into an index. Behind an error the view is of no more use, but for what was known.
pub fn add_pair(
    alloc: Global,
    view: &mut Changed<'_>,
    index: &IndexLine,
    row: &[Value],
    at: Dbkey,
) -> Result<(), PairStop>
    ensures adds { AddsPair view.old view.new index.now row.now at result }
    ensures areas { KeepsToIndex view.old view.new index.now.root (λ level tree. IsNew (pair_of (key_in index.now.fields row.now) at) (pairs_in level tree)) result }
    ensures nodes { NodesOfIndex view.old view.new index.now.root (λ level tree. IsNew (pair_of (key_in index.now.fields row.now) at) (pairs_in level tree)) result }
    ensures known { view.new.base ≡ view.old.base }
{
    let key = key_of(alloc, index.fields.as_slice(), row)?;
    if !is_key(key.as_slice()) {
        return Err(Stop::Own(PairRefusal::LongKey));
    }
    let writes = match insert(alloc, view, index.root, key.as_slice(), at, index.unique) {
        Ok(writes) => writes,
        Err(stop) => return Err(insertion_stop(view, index.root, stop)),
    };
    put_all(view, writes.as_slice())?;
    Ok(())
}
