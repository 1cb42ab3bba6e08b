// One logical area.
ghost use Rattle.std.specs.Prelude.{◌≡◌, ℕ, length, IfOk};
ghost use Rattle.rdb_page.specs.Page.{IsOwner};
ghost use Rattle.line_view.specs.Knowledge.{Agrees, lines_in};
ghost use Rattle.relation_rows.specs.Stored.{IsAreaKnown};
ghost use Rattle.lines_at_rest.specs.View.{knows};
ghost use Rattle.areas_at_rest.specs.Runs.{IsQuiet, AtRest};

use line_opening::OpeningFault;
use lines_at_rest::{AreaView, RestReading, read_area};
use rdb_outside::Disk;
use std::alloc::Global;

/// A view that knows all of one logical area, with the open transactions undone. The memory grows as the lines of the area.
pub fn view_of<D: Disk>(
    alloc: Global,
    disk: &mut D,
    held: &RestReading,
    area: u32,
) -> Result<AreaView, OpeningFault>
    ensures known { IfOk result (λ known. IsAreaKnown (knows known) area) }
    ensures agrees { IfOk result (λ known. (file : ℕ) → IsOwner file area
        → AtRest (D.view disk.old) held.now (λ all. Agrees (knows known) all)) }
    ensures quiet { IsQuiet held.now.faulty (D.view disk.old) (D.view disk.new) result }
{
    let lines = read_area(alloc, disk, held, area)?;
    match AreaView::of(alloc, area, lines) {
        Ok(known) => Ok(known),
        Err(_) => Err(OpeningFault::NoMemory),
    }
}

/// How many lines are present in a logical area, with the open transactions undone.
pub fn count_lines<D: Disk>(
    alloc: Global,
    disk: &mut D,
    held: &RestReading,
    area: u32,
) -> Result<u64, OpeningFault>
    ensures count { IfOk result (λ count. (file : ℕ) → IsOwner file area
        → AtRest (D.view disk.old) held.now (λ all. count ≡ length (lines_in area all))) }
    ensures quiet { IsQuiet held.now.faulty (D.view disk.old) (D.view disk.new) result }
{
    let found = read_area(alloc, disk, held, area)?;
    Ok(found.len() as u64)
}
