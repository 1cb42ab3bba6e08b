// How many lines relations and indexes have.
ghost use Rattle.std.specs.Prelude.{◌≡◌, ◌++◌, ◌∷◌, [], IfOk, OnOk};
ghost use Rattle.std.specs.List.{AllByRecursion};
ghost use Rattle.catalog_lines.specs.Lines.{IsRelationArea, IsIndexArea};
ghost use Rattle.areas_at_rest.specs.Runs.{IsQuiet, AtRest};
ghost use Rattle.database_dump.specs.Dumped.{relations_counted, indexes_counted};

use areas_at_rest::count_lines;
use line_opening::OpeningFault;
use lines_at_rest::RestReading;
use ordered_entries::Entries;
use rdb_meaning::{Index, Relation};
use rdb_outside::Disk;
use rdb_types::{Chars, Copied, Items, NoMemory};
use rmu_texts::Counted;
use std::alloc::Global;

fn add_counted(
    alloc: Global,
    name: &Chars,
    area: u32,
    lines: u64,
    counted: &mut Items<Counted>,
) -> Result<(), NoMemory>
    ensures { OnOk result (counted.new ≡ counted.old ++ record { name = name.now; area = area; lines = lines } ∷ []) }
{
    let name = name.copied(alloc)?;
    counted.push(Counted { name, area, lines })?;
    Ok(())
}

/// The relations with how many lines each has.
pub(crate) fn count_relations<D: Disk>(
    alloc: Global,
    disk: &mut D,
    held: &RestReading,
    relations: &Entries<Chars, Relation>,
) -> Result<Items<Counted>, OpeningFault>
    requires { AllByRecursion (λ e. IsRelationArea e.1.area) relations.now }
    ensures counted { IfOk result (λ counted. AtRest (D.view disk.old) held.now (λ all. counted ≡ relations_counted all relations.now)) }
    ensures quiet { IsQuiet held.now.faulty (D.view disk.old) (D.view disk.new) result }
{
    let mut counted = Items::new(alloc);
    for (name, relation) in relations.as_slice() {
        let lines = count_lines(alloc, disk, held, relation.area)?;
        let Ok(()) = add_counted(alloc, name, relation.area, lines, &mut counted) else {
            return Err(OpeningFault::NoMemory);
        };
    }
    Ok(counted)
}

/// The indexes with how many lines each has.
pub(crate) fn count_indexes<D: Disk>(
    alloc: Global,
    disk: &mut D,
    held: &RestReading,
    indexes: &Entries<Chars, Index>,
) -> Result<Items<Counted>, OpeningFault>
    requires { AllByRecursion (λ e. IsIndexArea e.1.area) indexes.now }
    ensures counted { IfOk result (λ counted. AtRest (D.view disk.old) held.now (λ all. counted ≡ indexes_counted all indexes.now)) }
    ensures quiet { IsQuiet held.now.faulty (D.view disk.old) (D.view disk.new) result }
{
    let mut counted = Items::new(alloc);
    for (name, index) in indexes.as_slice() {
        let lines = count_lines(alloc, disk, held, index.area)?;
        let Ok(()) = add_counted(alloc, name, index.area, lines, &mut counted) else {
            return Err(OpeningFault::NoMemory);
        };
    }
    Ok(counted)
}
