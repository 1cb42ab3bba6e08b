// Rows by the thousand.
use crate::index::{put_in, put_number, rows_within, take_out};
use crate::telling::{tell, tell_stop};
use crate::world::World;
use sorted_index::IndexStop;
use std::alloc::Global;

/// Puts the numbers below this one in, each under itself.
pub fn fill(alloc: Global, world: &mut World, order: &str, count: u32) -> Result<(), IndexStop> {
    for n in 0..count {
        let number = match order {
            "rising" => n,
            "falling" => count.wrapping_sub(n).wrapping_sub(1),
            _ => n.wrapping_mul(1_777) % count.max(1),
        };
        put_number(alloc, world, number)?;
    }
    Ok(())
}

/// Puts so many rows of one key in.
pub fn fill_one(alloc: Global, world: &mut World, count: u32, key: &str) -> Result<(), IndexStop> {
    for page in 0..count {
        put_in(alloc, world, key, page, false)?;
    }
    Ok(())
}

/// Takes them out.
pub fn drain_one(alloc: Global, world: &mut World, count: u32, key: &str) -> Result<(), IndexStop> {
    for page in 0..count {
        take_out(alloc, world, key, page)?;
    }
    Ok(())
}

// Whether all rows are the numbers below this one, in their order.
fn are_in_order(alloc: Global, world: &World, count: u32) -> Result<bool, IndexStop> {
    let found = rows_within(alloc, world, "")?;
    let pages = found.as_slice().iter().map(|key| key.page);
    Ok(pages.eq(0..count))
}

/// Tells whether they are.
pub fn tell_order(rt: &HostRuntime, world: &World, count: u32) {
    match are_in_order(rt.alloc(), world, count) {
        Ok(true) => tell(rt, "each in its place"),
        Ok(false) => tell(rt, "OUT OF ORDER"),
        Err(stop) => tell_stop(rt, stop),
    }
}

/// Tells how many rows there are.
pub fn tell_count(rt: &HostRuntime, world: &World) {
    match rows_within(rt.alloc(), world, "") {
        Ok(found) => {
            let count = found.len();
            let _ = println!(rt; "  {count} rows");
        }
        Err(stop) => tell_stop(rt, stop),
    }
}
