// What lines may say.
ghost use Rattle.std.specs.Prelude.{◌≡◌, true, false};
ghost use Rattle.record_format.specs.Rows.{IsVersion};
ghost use Rattle.catalog_lines.specs.Lines.{IsAllowedLine, IsClass, IsRelationArea, IsIndexArea, IsRelationLine, IsGlobalLine, IsFieldLine, IsIndexLine};

use crate::line::{CatalogLine, FieldLine, GlobalLine, IndexLine, RelationLine};
use crate::parts::{is_name, is_type};

fn is_version(version: u16) -> bool
    ensures yes { result ≡ true → IsVersion version }
    ensures no { result ≡ false → IsVersion version → ⊥ }
{
    1 <= version && version <= 50
}

fn is_class(class: u16) -> bool
    ensures yes { result ≡ true → IsClass class }
    ensures no { result ≡ false → IsClass class → ⊥ }
{
    class == 208 || class == 440
}

fn is_relation_area(area: u32) -> bool
    ensures yes { result ≡ true → IsRelationArea area }
    ensures no { result ≡ false → IsRelationArea area → ⊥ }
{
    16 <= area && area % 2 == 0
}

fn is_index_area(area: u32) -> bool
    ensures yes { result ≡ true → IsIndexArea area }
    ensures no { result ≡ false → IsIndexArea area → ⊥ }
{
    17 <= area && area % 2 == 1
}

pub(crate) fn is_relation_line(line: &RelationLine) -> bool
    ensures yes { result ≡ true → IsRelationLine line.now }
    ensures no { result ≡ false → IsRelationLine line.now → ⊥ }
{
    is_relation_area(line.area)
        && is_class(line.class)
        && is_version(line.version)
        && is_name(line.name.as_slice())
}

pub(crate) fn is_global_line(line: &GlobalLine) -> bool
    ensures yes { result ≡ true → IsGlobalLine line.now }
    ensures no { result ≡ false → IsGlobalLine line.now → ⊥ }
{
    is_type(line.kind) && is_name(line.name.as_slice())
}

pub(crate) fn is_field_line(line: &FieldLine) -> bool
    ensures yes { result ≡ true → IsFieldLine line.now }
    ensures no { result ≡ false → IsFieldLine line.now → ⊥ }
{
    is_relation_area(line.relation)
        && is_version(line.field.version)
        && is_type(line.field.kind)
        && is_name(line.field.name.as_slice())
}

pub(crate) fn is_index_line(line: &IndexLine) -> bool
    ensures yes { result ≡ true → IsIndexLine line.now }
    ensures no { result ≡ false → IsIndexLine line.now → ⊥ }
{
    let count = line.fields.len();
    is_index_area(line.area)
        && is_relation_area(line.relation)
        && 1 <= count
        && count <= 8
        && is_name(line.name.as_slice())
}

/// Whether a line may be laid out: its name, its types, its version, its class, its logical areas and the count of its positions are within their bounds.
pub fn is_allowed_line(line: &CatalogLine) -> bool
    ensures yes { result ≡ true → IsAllowedLine line.now }
    ensures no { result ≡ false → IsAllowedLine line.now → ⊥ }
{
    match line {
        CatalogLine::Relation(line) => is_relation_line(line),
        CatalogLine::Global(line) => is_global_line(line),
        CatalogLine::Field(line) => is_field_line(line),
        CatalogLine::Index(line) => is_index_line(line),
    }
}
