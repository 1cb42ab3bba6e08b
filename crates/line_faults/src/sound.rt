// Lines of a catalog that aren't sound.
ghost use Rattle.std.specs.Prelude.{◌≡◌, ◌≤◌, ◌++◌, length, OnOk};
ghost use Rattle.std.specs.Option.{option_copied};
ghost use Rattle.catalog_lines.specs.Lines.{IsAllowedLine};
ghost use Rattle.rdb_meaning.specs.Contents.{fields_of};
ghost use Rattle.catalog.specs.Reading.{IsWhole};
ghost use Rattle.sound_lines.specs.Sound.{relation_in, versions_rise};
ghost use Rattle.line_faults.specs.Catalog.{is_sound_relation, is_sound_line, unsound};

use catalog::Catalog;
use catalog_lines::{CatalogLine, IndexLine, RelationLine};
use rdb_meaning::{Relation, Tables};
use rdb_types::{Field, Keys, NoMemory};
use row_sizes::class_of;
use sound_lines::longest_key;

// The relation of a logical area.
pub(crate) fn relation_in(tables: &Tables, area: u32) -> Option<&Relation>
    ensures { option_copied result ≡ relation_in area tables.now.relations }
{
    for (_, relation) in tables.relations.as_slice() {
        if relation.area == area {
            return Some(relation);
        }
    }
    None
}

fn fields_in(tables: &Tables, area: u32) -> &[Field]
    ensures { result.now ≡ fields_of (relation_in area tables.now.relations) }
{
    match relation_in(tables, area) {
        Some(relation) => relation.fields.as_slice(),
        None => &[],
    }
}

// Whether the versions of fields don't fall, from 1 to the relation's.
fn versions_rise(version: u16, fields: &[Field]) -> bool
    ensures { result ≡ versions_rise 1 version fields.now }
{
    let mut low = 1;
    for field in fields {
        if field.version < low {
            return false;
        }
        low = field.version;
    }
    low <= version
}

fn is_sound_relation(relation: &RelationLine, fields: &[Field]) -> bool
    ensures { result ≡ is_sound_relation relation.now fields.now }
{
    relation.class == class_of(fields)
        && versions_rise(relation.version, fields)
        && relation.version as usize <= fields.len()
}

fn is_sound_index(tables: &Tables, index: &IndexLine) -> bool
    requires few { length index.now.fields ≤ 8 }
    ensures { result ≡ is_sound_line tables.now (CatalogLine.Index index.now) }
{
    match relation_in(tables, index.relation) {
        Some(relation) => longest_key(index.fields.as_slice(), relation.fields.as_slice()) <= 120,
        None => false,
    }
}

fn is_sound_line(tables: &Tables, line: &CatalogLine) -> bool
    requires { IsAllowedLine line.now }
    ensures { result ≡ is_sound_line tables.now line.now }
{
    match line {
        CatalogLine::Relation(line) => is_sound_relation(line, fields_in(tables, line.area)),
        CatalogLine::Global(_) | CatalogLine::Field(_) => true,
        CatalogLine::Index(line) => is_sound_index(tables, line),
    }
}

/// Adds the Dbkeys of the lines that aren't sound.
pub(crate) fn add_unsound(catalog: &Catalog, keys: &mut Keys) -> Result<(), NoMemory>
    requires { IsWhole catalog.now }
    ensures { OnOk result (keys.new ≡ keys.old ++ unsound catalog.now) }
{
    for line in catalog.lines.as_slice() {
        if !is_sound_line(&catalog.tables, &line.line) {
            keys.push(line.key)?;
        }
    }
    Ok(())
}
