// Lines from bytes.
ghost use Rattle.std.specs.Prelude.{◌≡◌, ℕ, List, Some, length, IfSome, IfNone, IfOk};
ghost use Rattle.slot_fields.specs.Fields.{number_at};
ghost use Rattle.catalog_lines.specs.declared.line.CatalogLine.TheVariants.{Relation, Global as GlobalOf, Field as FieldOf, Index};
ghost use Rattle.catalog_lines.specs.Parts.{flag_byte};
ghost use Rattle.catalog_lines.specs.Lines.{IsCatalogLine};

use crate::allowed::{is_field_line, is_global_line, is_index_line, is_relation_line};
use crate::line::{CatalogLine, FieldLine, GlobalLine, IndexLine, RelationLine};
use crate::parts::{last_name, positions_at, type_at};
use rdb_types::{Field, NoMemory};
use record_format::dbkey_at;
use slot_fields::{u8_at, u16_at, u32_at};
use std::alloc::Global;

fn relation_line(alloc: Global, bytes: &[u8]) -> Result<Option<CatalogLine>, NoMemory>
    requires { number_at 1 0 bytes.now ≡ 1 }
    ensures found { IfOk result (λ read. IfSome read (IsCatalogLine bytes.now)) }
    ensures none { IfOk result (λ read. IfNone read ((line : _) → IsCatalogLine bytes.now (Relation line) → ⊥)) }
{
    if bytes.len() < 9 {
        return Ok(None);
    }
    let Some(name) = last_name(alloc, bytes, 9)? else {
        return Ok(None);
    };
    let line = RelationLine {
        area: u32_at(bytes, 1),
        class: u16_at(bytes, 5),
        version: u16_at(bytes, 7),
        name,
    };
    if !is_relation_line(&line) {
        return Ok(None);
    }
    Ok(Some(CatalogLine::Relation(line)))
}

fn global_line(alloc: Global, bytes: &[u8]) -> Result<Option<CatalogLine>, NoMemory>
    requires { number_at 1 0 bytes.now ≡ 2 }
    ensures found { IfOk result (λ read. IfSome read (IsCatalogLine bytes.now)) }
    ensures none { IfOk result (λ read. IfNone read ((line : _) → IsCatalogLine bytes.now (GlobalOf line) → ⊥)) }
{
    if bytes.len() < 5 {
        return Ok(None);
    }
    let Some(kind) = type_at(bytes, 1) else {
        return Ok(None);
    };
    let Some(name) = last_name(alloc, bytes, 5)? else {
        return Ok(None);
    };
    let line = GlobalLine { kind, name };
    if !is_global_line(&line) {
        return Ok(None);
    }
    Ok(Some(CatalogLine::Global(line)))
}

fn field_line(alloc: Global, bytes: &[u8]) -> Result<Option<CatalogLine>, NoMemory>
    requires { number_at 1 0 bytes.now ≡ 3 }
    ensures found { IfOk result (λ read. IfSome read (IsCatalogLine bytes.now)) }
    ensures none { IfOk result (λ read. IfNone read ((line : _) → IsCatalogLine bytes.now (FieldOf line) → ⊥)) }
{
    if bytes.len() < 13 {
        return Ok(None);
    }
    let Some(kind) = type_at(bytes, 9) else {
        return Ok(None);
    };
    let Some(name) = last_name(alloc, bytes, 13)? else {
        return Ok(None);
    };
    let line = FieldLine {
        relation: u32_at(bytes, 1),
        position: u16_at(bytes, 5),
        field: Field {
            name,
            kind,
            version: u16_at(bytes, 7),
        },
    };
    if !is_field_line(&line) {
        return Ok(None);
    }
    Ok(Some(CatalogLine::Field(line)))
}

fn flag_of(byte: u8) -> Option<bool>
    ensures some { IfSome result (λ flag. byte ≡ flag_byte flag) }
    ensures none { IfNone result ((flag : _) → byte ≡ flag_byte flag → ⊥) }
{
    match byte {
        0 => Some(false),
        1 => Some(true),
        _ => None,
    }
}

fn index_line(alloc: Global, bytes: &[u8]) -> Result<Option<CatalogLine>, NoMemory>
    requires { number_at 1 0 bytes.now ≡ 4 }
    ensures found { IfOk result (λ read. IfSome read (IsCatalogLine bytes.now)) }
    ensures none { IfOk result (λ read. IfNone read ((line : _) → IsCatalogLine bytes.now (Index line) → ⊥)) }
{
    if bytes.len() < 21 {
        return Ok(None);
    }
    let count = u8_at(bytes, 20) as usize;
    if bytes.len() - 21 < 2 * count {
        return Ok(None);
    }
    let Some(unique) = flag_of(u8_at(bytes, 9)) else {
        return Ok(None);
    };
    let Some(name) = last_name(alloc, bytes, 21 + 2 * count)? else {
        return Ok(None);
    };
    let line = IndexLine {
        area: u32_at(bytes, 1),
        relation: u32_at(bytes, 5),
        unique,
        root: dbkey_at(bytes, 10),
        fields: positions_at(alloc, bytes, 21, count)?,
        name,
    };
    if !is_index_line(&line) {
        return Ok(None);
    }
    Ok(Some(CatalogLine::Index(line)))
}

fn line_of(alloc: Global, bytes: &[u8]) -> Result<Option<CatalogLine>, NoMemory>
    ensures found { IfOk result (λ read. IfSome read (IsCatalogLine bytes.now)) }
    ensures none { IfOk result (λ read. IfNone read ((line : _) → IsCatalogLine bytes.now line → ⊥)) }
{
    if bytes.is_empty() {
        return Ok(None);
    }
    match u8_at(bytes, 0) {
        1 => relation_line(alloc, bytes),
        2 => global_line(alloc, bytes),
        3 => field_line(alloc, bytes),
        4 => index_line(alloc, bytes),
        _ => Ok(None),
    }
}

/// The line that bytes are the image of. None is answered only where they are none.
pub fn read_catalog_line(alloc: Global, bytes: &[u8]) -> Result<Option<CatalogLine>, NoMemory>
    ensures found { IfOk result (λ read. IfSome read (IsCatalogLine bytes.now)) }
    ensures none { IfOk result (λ read. IfNone read ((line : _) → IsCatalogLine bytes.now line → ⊥)) }

    // A line that was laid out is read again.
    ensures again { (line : _) → IsCatalogLine bytes.now line → IfOk result (λ read. read ≡ Some line) }
{
    match line_of(alloc, bytes)? {
        Some(line) => Ok(Some(line)),
        None => Ok(None),
    }
}

/// Bytes are the image of one line at most.
pub fn one_line()
    ensures { (bytes : List ℕ) (a b : _) → IsCatalogLine bytes a → IsCatalogLine bytes b → a ≡ b }
{}
