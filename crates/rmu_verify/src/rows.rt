// The rows of all relations.
ghost use Rattle.std.specs.Prelude.{◌≡◌, OnOk};
ghost use Rattle.catalog.specs.Reading.{IsWhole};
ghost use Rattle.catalog_lines.specs.Lines.{IsRelationArea};
ghost use Rattle.sound_lines.specs.Contents.{versions_in, stored};
ghost use Rattle.line_faults.specs.Rows.{AreRowFaults};
ghost use Rattle.verified_lines.specs.Relations.{FindsRows, strays_in};
ghost use Rattle.areas_at_rest.specs.Runs.{IsQuiet, AtRest};
ghost use Rattle.rmu_verify.specs.Added.{AddsSome};

use crate::relations::version_of;
use areas_at_rest::{RestReading, view_of};
use catalog::Catalog;
use line_faults::row_faults;
use line_opening::OpeningFault;
use rdb_meaning::Relation;
use rdb_outside::Disk;
use rdb_types::Keys;
use relation_rows::StoredRelation;
use std::alloc::Global;

fn verify_relation<D: Disk>(
    alloc: Global,
    disk: &mut D,
    held: &RestReading,
    version: u16,
    relation: &Relation,
    keys: &mut Keys,
) -> Result<(), OpeningFault>
    requires { IsRelationArea relation.now.area }
    ensures found { OnOk result (AtRest (D.view disk.old) held.now
        (λ all. AddsSome (AreRowFaults (stored version relation.now) all) keys.old keys.new)) }
    ensures quiet { IsQuiet held.now.faulty (D.view disk.old) (D.view disk.new) result }
{
    let known = view_of(alloc, disk, held, relation.area)?;
    let stored = StoredRelation {
        area: relation.area,
        version,
        fields: relation.fields.as_slice(),
    };
    match row_faults(alloc, &known, &stored, keys) {
        Ok(()) => Ok(()),
        Err(_) => Err(OpeningFault::NoMemory),
    }
}

/// Adds the lines of all relations that are no rows of theirs. One area is in memory at a time.
pub(crate) fn verify_rows<D: Disk>(
    alloc: Global,
    disk: &mut D,
    held: &RestReading,
    catalog: &Catalog,
    keys: &mut Keys,
) -> Result<(), OpeningFault>
    requires { IsWhole catalog.now }
    ensures found { OnOk result (AtRest (D.view disk.old) held.now
        (λ all. AddsSome (FindsRows all (versions_in catalog.now.lines) catalog.now.tables.relations) keys.old keys.new)) }
    ensures quiet { IsQuiet held.now.faulty (D.view disk.old) (D.view disk.new) result }
{
    for (name, relation) in catalog.tables.relations.as_slice() {
        let version = version_of(catalog.lines.as_slice(), name);
        verify_relation(alloc, disk, held, version, relation, keys)?;
    }
    Ok(())
}
