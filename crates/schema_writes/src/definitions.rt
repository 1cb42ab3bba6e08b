// Definitions of global fields and of relations.
ghost use Rattle.std.specs.Prelude.{◌≡◌};
ghost use Rattle.rdb_meaning.specs.Defining.{field_names, with_field, relation_names, with_relation};
ghost use Rattle.catalog_lines.specs.Parts.{IsName, IsType};
ghost use Rattle.catalog.specs.Reading.{IsWhole};
ghost use Rattle.catalog_definitions.specs.Written.{IsRelationDefinition};
ghost use Rattle.schema_writes.specs.Definitions.{Defines};
ghost use Rattle.schema_writes.specs.Areas.{SchemaKeeps, NoOthers};

use crate::stop::{SchemaStop, known_stop};
use crate::writing::put_all;
use catalog::Catalog;
use rdb_types::{Chars, FieldType};
use rdo_ast::syntax::FieldDefinition;
use statement_view::Changed;
use std::alloc::Global;

/// DEFINE FIELD: a line of the catalog is written. Behind an error the view is of no more use, but for what was known.
pub fn define_field(
    alloc: Global,
    view: &mut Changed<'_>,
    catalog: &Catalog,
    name: &Chars,
    kind: &FieldType,
) -> Result<(), SchemaStop>
    requires catalog { IsWhole catalog.now }
    requires name { IsName name.now }
    requires kind { IsType kind.now }
    ensures defines { Defines view.old view.new catalog.now (field_names name.now) (with_field name.now kind.now) result }
    ensures areas { SchemaKeeps view.old view.new catalog.now NoOthers result }
    ensures known { view.new.base ≡ view.old.base }
{
    let writes = match catalog_definitions::define_field(alloc, view, catalog, name, kind) {
        Ok(writes) => writes,
        Err(stop) => return Err(known_stop(view, stop)),
    };
    put_all(view, writes.as_slice())?;
    Ok(())
}

/// DEFINE RELATION: the lines in the catalog of a relation and of its fields are written. Behind an error the view is of no more use, but for what was known.
pub fn define_relation(
    alloc: Global,
    view: &mut Changed<'_>,
    catalog: &Catalog,
    name: &Chars,
    fields: &[FieldDefinition],
) -> Result<(), SchemaStop>
    requires catalog { IsWhole catalog.now }
    requires definition { IsRelationDefinition name.now fields.now }
    ensures defines { Defines view.old view.new catalog.now (relation_names name.now fields.now) (with_relation name.now fields.now) result }
    ensures areas { SchemaKeeps view.old view.new catalog.now NoOthers result }
    ensures known { view.new.base ≡ view.old.base }
{
    let writes = match catalog_definitions::define_relation(alloc, view, catalog, name, fields) {
        Ok(writes) => writes,
        Err(stop) => return Err(known_stop(view, stop)),
    };
    put_all(view, writes.as_slice())?;
    Ok(())
}
