// The catalog of what is known.
ghost use Rattle.std.specs.Prelude.{IfOk, IfErr};
ghost use Rattle.line_view.specs.Held.{knows};
ghost use Rattle.catalog.specs.Reading.{IsWhole, StopsCatalog};
ghost use Rattle.rdo_exec.specs.Coming.{IsCatalogOfKnown};

use catalog::read_catalog;
use line_view::{Known, Never, Stop};
use std::alloc::Global;
use stored_schema::Schema;

/// The catalog that is known, with how its relations are stored.
pub(crate) fn schema_of(alloc: Global, known: &Known) -> Result<Schema, Stop<Never>>
    ensures catalog { IfOk result (IsCatalogOfKnown (knows known.now)) }
    ensures whole { IfOk result IsWhole }
    ensures stop { IfErr result (StopsCatalog (knows known.now)) }
{
    let catalog = read_catalog(alloc, known)?;
    Ok(Schema::new(alloc, catalog)?)
}
