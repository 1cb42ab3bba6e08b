// What definitions may say.
ghost use Rattle.std.specs.Prelude.{◌≡◌, true, false};
ghost use Rattle.std.specs.List.{AllByRecursion};
ghost use Rattle.catalog_definitions.specs.Written.{IsFieldDefinition, IsIndexDefinition, IsRelationDefinition};

use catalog_lines::{is_name, is_type};
use rdb_types::Chars;
use rdo_ast::syntax::{DefinedType, FieldDefinition, IndexDefinition};

fn is_field_definition(field: &FieldDefinition) -> bool
    ensures yes { result ≡ true → IsFieldDefinition field.now }
    ensures no { result ≡ false → IsFieldDefinition field.now → ⊥ }
{
    let has_type = match &field.kind {
        DefinedType::Own(kind) => is_type(*kind),
        DefinedType::BasedOn(_) => true,
    };
    has_type && is_name(field.name.as_slice())
}

fn are_field_definitions(fields: &[FieldDefinition]) -> bool
    ensures yes { result ≡ true → AllByRecursion IsFieldDefinition fields.now }
    ensures no { result ≡ false → AllByRecursion IsFieldDefinition fields.now → ⊥ }
{
    for field in fields {
        if !is_field_definition(field) {
            return false;
        }
    }
    true
}

/// Whether DEFINE RELATION may say this: its names are names, its own types are within their bounds, and it has 1 to 50 fields.
pub fn is_relation_definition(name: &Chars, fields: &[FieldDefinition]) -> bool
    ensures yes { result ≡ true → IsRelationDefinition name.now fields.now }
    ensures no { result ≡ false → IsRelationDefinition name.now fields.now → ⊥ }
{
    let count = fields.len();
    1 <= count && count <= 50 && is_name(name.as_slice()) && are_field_definitions(fields)
}

/// Whether DEFINE INDEX may say this: its name is a name, and it has 1 to 8 fields.
pub fn is_index_definition(definition: &IndexDefinition) -> bool
    ensures yes { result ≡ true → IsIndexDefinition definition.now }
    ensures no { result ≡ false → IsIndexDefinition definition.now → ⊥ }
{
    let count = definition.fields.len();
    1 <= count && count <= 8 && is_name(definition.name.as_slice())
}
