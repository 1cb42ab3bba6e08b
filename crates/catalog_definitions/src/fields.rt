ghost use Rattle.std.specs.Prelude.{◌≡◌, ◌∷◌, [], None, IfOk, IfErr};
ghost use Rattle.rdb_meaning.specs.Defining.{field_names, with_field};
ghost use Rattle.catalog_lines.specs.Parts.{IsName, IsType};
ghost use Rattle.catalog.specs.Reading.{IsWhole};
ghost use Rattle.catalog_definitions.specs.Causes.{rooms_from, StopsDefining};
ghost use Rattle.catalog_definitions.specs.Written.{AreWritten, global_line};
ghost use Rattle.catalog_definitions.specs.Leaving.{Turns};

use crate::stop::from_check;
use crate::writing::write_lines;
use catalog::Catalog;
use catalog_lines::{CatalogLine, GlobalLine};
use line_view::{Stop, View, Writes};
use rdb_types::{Chars, Copied, FieldType};
use rdo_ast::reply::Reply;
use std::alloc::Global;

/// DEFINE FIELD in the catalog: the line of a global field of this type. It is refused where the name is that of a global field.
pub fn define_field<V: View>(
    alloc: Global,
    view: &V,
    catalog: &Catalog,
    name: &Chars,
    kind: &FieldType,
) -> Result<Writes, Stop<Reply>>
    requires catalog { IsWhole catalog.now }
    requires name { IsName name.now }
    requires kind { IsType kind.now }
    ensures stop { IfErr result (StopsDefining (V.knows view.now) (field_names name.now catalog.now.tables) (rooms_from 0 (global_line name.now kind.now ∷ []))) }
    ensures taken { IfOk result (λ _. field_names name.now catalog.now.tables ≡ None) }
    ensures lines { IfOk result (AreWritten (V.knows view.now) 0 (global_line name.now kind.now ∷ [])) }
    ensures tables { IfOk result (Turns (V.knows view.now) catalog.now (with_field name.now kind.now catalog.now.tables)) }
{
    let mut tables = catalog.tables.copied(alloc)?;
    match rdb_definitions::define_field(&mut tables, alloc, name, kind) {
        Ok(()) => {}
        Err(stop) => return Err(from_check(stop)),
    }
    let line = CatalogLine::Global(GlobalLine {
        kind: *kind,
        name: name.copied(alloc)?,
    });
    write_lines(alloc, view, &[line])
}
