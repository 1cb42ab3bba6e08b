ghost use Rattle.std.specs.Prelude.{◌≡◌, ◌+◌, length, IfOk};
ghost use Rattle.rdb_checks.specs.rdb_meaning.Contents.{is_used, first_free, relation_named, new_relation_area, new_index_area};
ghost use Rattle.rdb_checks.specs.rdb_meaning.Execution.{area_of};

use rdb_checks::Tables;
use rdb_types::{Chars, NoMemory};
use std::alloc::Global;

fn is_used(area: u32, used: &[u32]) -> bool
    ensures { result ≡ is_used area used.now }
{
    used.iter().any(|other| area == *other)
}

// The area behind the next one. One that doesn't fit 32 bits is answered as want of memory, which as many areas would meet long before.
fn area_behind(area: u32) -> Result<u32, NoMemory>
    ensures { IfOk result (λ next. next ≡ area + 2) }
{
    area.checked_add(2).ok_or(NoMemory {})
}

// The first of every second area that isn't used.
#[tactic(auto, using(crate::proofs::FreeArea::first_free_more))]
fn first_free(first: u32, used: &[u32]) -> Result<u32, NoMemory>
    ensures { IfOk result (λ area. area ≡ first_free (length used.now) first used.now) }
{
    let mut area = first;
    for _other in used {
        if !is_used(area, used) {
            return Ok(area);
        }
        area = area_behind(area)?;
    }
    Ok(area)
}

/// The logical area that a new relation gets: the least even number from 16 that no relation has.
pub fn new_relation_area(alloc: Global, tables: &Tables) -> Result<u32, NoMemory>
    ensures { IfOk result (λ area. area ≡ new_relation_area tables.now) }
{
    let used: Vec<u32> = tables
        .relations
        .as_slice()
        .iter()
        .map(|entry| entry.1.area)
        .collect(alloc)?;
    first_free(16, &used)
}

/// The logical area that a new index gets: the least odd number from 17 that no index has.
pub fn new_index_area(alloc: Global, tables: &Tables) -> Result<u32, NoMemory>
    ensures { IfOk result (λ area. area ≡ new_index_area tables.now) }
{
    let used: Vec<u32> = tables
        .indexes
        .as_slice()
        .iter()
        .map(|entry| entry.1.area)
        .collect(alloc)?;
    first_free(17, &used)
}

/// The logical area of a relation, 0 where it isn't there.
pub fn area_of(tables: &Tables, relation: &Chars) -> u32
    ensures { result ≡ area_of (relation_named relation.now tables.now) }
{
    match tables.relation(relation) {
        Some(relation) => relation.area,
        None => 0,
    }
}
