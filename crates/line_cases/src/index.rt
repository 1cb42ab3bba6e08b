// Work on the index.
ghost use Rattle.std.specs.Prelude.{◌≡◌, true};
ghost use Rattle.sorted_index_laws.specs.Insertion.{IsKey};

use crate::world::World;
use case_words::row_of;
use line_view::Need;
use rdb_types::{Dbkey, Keys, Row, Value};
use record_format::{are_storable, values_size};
use sorted_index::{Bounds, IndexStop, find, insert, range, remove};
use std::alloc::Global;

const ROOT: Dbkey = Dbkey {
    area: 17,
    page: 2,
    line: 0,
};

/// A node of each level may be split, and the root twice.
const MAX_TRIES: u32 = 258;

fn row_at(page: u32) -> Dbkey {
    Dbkey {
        area: 16,
        page,
        line: 0,
    }
}

fn is_key(key: &[Value]) -> bool
    ensures { result ≡ true → IsKey key.now }
{
    are_storable(key) && values_size(key, 120).is_some()
}

fn insert_key(
    alloc: Global,
    world: &mut World,
    key: &[Value],
    page: u32,
    unique: bool,
) -> Result<(), IndexStop> {
    if !is_key(key) {
        return Err(IndexStop::Bad(row_at(page)));
    }
    world.rooms.clear();
    for _ in 0..MAX_TRIES {
        match insert(alloc, world, ROOT, key, row_at(page), unique) {
            Ok(writes) => {
                world.lay(alloc, &writes)?;
                return Ok(());
            }
            Err(IndexStop::Missing(Need::Room(room))) => world.add_room(room.area)?,
            Err(stop) => return Err(stop),
        }
    }
    Err(IndexStop::Bad(ROOT))
}

/// Puts the pair of a key and a row in.
pub fn put_in(
    alloc: Global,
    world: &mut World,
    words: &str,
    page: u32,
    unique: bool,
) -> Result<(), IndexStop> {
    let key = row_of(alloc, words)?;
    insert_key(alloc, world, key.as_slice(), page, unique)
}

/// Puts a number in under itself.
pub fn put_number(alloc: Global, world: &mut World, number: u32) -> Result<(), IndexStop> {
    let mut key = Row::new(alloc);
    key.push(Value::Number(i64::from(number)))?;
    insert_key(alloc, world, key.as_slice(), number, true)
}

/// Takes the pair of a key and a row out.
pub fn take_out(alloc: Global, world: &mut World, words: &str, page: u32) -> Result<(), IndexStop> {
    let key = row_of(alloc, words)?;
    let writes = remove(alloc, world, ROOT, key.as_slice(), row_at(page))?;
    world.lay(alloc, &writes)?;
    Ok(())
}

pub fn rows_of(alloc: Global, world: &World, words: &str) -> Result<Keys, IndexStop> {
    let key = row_of(alloc, words)?;
    find(alloc, world, ROOT, key.as_slice())
}

// Sets the bound that a word says, as `>=5` or `<5`.
fn set_bound(alloc: Global, bounds: &mut Bounds, word: &str) -> Result<(), IndexStop> {
    if let Some(low) = word.strip_prefix(">=") {
        bounds.low_in = true;
        bounds.low = Some(row_of(alloc, low)?);
    } else if let Some(low) = word.strip_prefix(">") {
        bounds.low = Some(row_of(alloc, low)?);
    } else if let Some(high) = word.strip_prefix("<=") {
        bounds.high_in = true;
        bounds.high = Some(row_of(alloc, high)?);
    } else if let Some(high) = word.strip_prefix("<") {
        bounds.high = Some(row_of(alloc, high)?);
    }
    Ok(())
}

/// The rows within the bounds that words say, or all.
pub fn rows_within(alloc: Global, world: &World, words: &str) -> Result<Keys, IndexStop> {
    let mut bounds = Bounds {
        low: None,
        low_in: false,
        high: None,
        high_in: false,
    };
    for word in words.split(' ') {
        set_bound(alloc, &mut bounds, word)?;
    }
    range(alloc, world, ROOT, &bounds)
}
