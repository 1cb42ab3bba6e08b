// Lines as bytes.
ghost use Rattle.std.specs.Prelude.{◌≡◌, ◌≤◌, ℕ, List, length};
ghost use Rattle.record_format.specs.Values.{AreBytes};
ghost use Rattle.catalog_lines.specs.declared.line.CatalogLine.TheVariants.{Relation, Global as GlobalOf, Field as FieldOf, Index};
ghost use Rattle.catalog_lines.specs.Lines.{IsAllowedLine, IsCatalogLine, IsRelationLine, IsGlobalLine, IsFieldLine, IsIndexLine};

use crate::line::{CatalogLine, FieldLine, GlobalLine, IndexLine, RelationLine};
use crate::parts::{flag_byte, put_name, put_positions, put_type};
use rdb_types::Image;
use record_format::put_dbkey;
use slot_fields::{put_u8, put_u16, put_u32};

fn put_relation(line: &RelationLine) -> Image
    requires { IsRelationLine line.now }
    ensures image { IsCatalogLine result (Relation line.now) }
    ensures fits { length result ≤ 208 }
{
    let mut slot = [0; 41];
    put_u8(&mut slot, 0, 1);
    put_u32(&mut slot, 1, line.area);
    put_u16(&mut slot, 5, line.class);
    put_u16(&mut slot, 7, line.version);
    let end = put_name(&mut slot, 9, line.name.as_slice());
    Image::from_bytes(&slot[..end])
}

fn put_global(line: &GlobalLine) -> Image
    requires { IsGlobalLine line.now }
    ensures image { IsCatalogLine result (GlobalOf line.now) }
    ensures fits { length result ≤ 208 }
{
    let mut slot = [0; 37];
    put_u8(&mut slot, 0, 2);
    put_type(&mut slot, 1, line.kind);
    let end = put_name(&mut slot, 5, line.name.as_slice());
    Image::from_bytes(&slot[..end])
}

fn put_field(line: &FieldLine) -> Image
    requires { IsFieldLine line.now }
    ensures image { IsCatalogLine result (FieldOf line.now) }
    ensures fits { length result ≤ 208 }
{
    let mut slot = [0; 45];
    put_u8(&mut slot, 0, 3);
    put_u32(&mut slot, 1, line.relation);
    put_u16(&mut slot, 5, line.position);
    put_u16(&mut slot, 7, line.field.version);
    put_type(&mut slot, 9, line.field.kind);
    let end = put_name(&mut slot, 13, line.field.name.as_slice());
    Image::from_bytes(&slot[..end])
}

fn put_index(line: &IndexLine) -> Image
    requires { IsIndexLine line.now }
    ensures image { IsCatalogLine result (Index line.now) }
    ensures fits { length result ≤ 208 }
{
    let positions = line.fields.as_slice();
    let mut slot = [0; 69];
    put_u8(&mut slot, 0, 4);
    put_u32(&mut slot, 1, line.area);
    put_u32(&mut slot, 5, line.relation);
    put_u8(&mut slot, 9, flag_byte(line.unique));
    put_dbkey(&mut slot, 10, line.root);
    put_u8(&mut slot, 20, positions.len() as u8);
    let name = put_positions(&mut slot, 21, positions);
    let end = put_name(&mut slot, name, line.name.as_slice());
    Image::from_bytes(&slot[..end])
}

/// The image of a line of the catalog, which fits the lesser class of lines.
pub fn put_catalog_line(line: &CatalogLine) -> Image
    requires { IsAllowedLine line.now }
    ensures image { IsCatalogLine result line.now }
    ensures fits { length result ≤ 208 }
{
    match line {
        CatalogLine::Relation(line) => put_relation(line),
        CatalogLine::Global(line) => put_global(line),
        CatalogLine::Field(line) => put_field(line),
        CatalogLine::Index(line) => put_index(line),
    }
}

/// A line has one image at most.
pub fn one_image()
    ensures { (a b : List ℕ) (line : _) → AreBytes a → AreBytes b → IsCatalogLine a line → IsCatalogLine b line → a ≡ b }
{}
