// Images of rows, nodes and lines of the catalog: what they are read as, and whether that is written as the same bytes.
use crate::read::{Counts, NONE, Read, compared};
use case_words::{put_key, put_text, put_values};
use catalog_lines::{CatalogLine, is_allowed_line, put_catalog_line, read_catalog_line};
use index_node::{IndexNode, is_allowed_node, put_node, read_node};
use rdb_types::{DataType, FieldType, Image, NoMemory};
use record_format::{VersionedRow, are_storable, put_row, read_row};
use std::alloc::Global;

/// The kinds of image.
#[derive(Clone, Copy, Debug, PartialEq, Eq)]
pub enum Kind {
    Row,
    Node,
    Catalog,
}

fn row_again(found: &VersionedRow, bytes: &[u8]) -> Read {
    let values = found.row.as_slice();
    if values.len() > 255 || !are_storable(values) || found.version < 1 || found.version > 50 {
        return Read::Other;
    }
    match put_row(found.version, values) {
        Ok(image) => compared(image.bytes() == bytes),
        Err(_) => Read::Other,
    }
}

fn node_again(found: &IndexNode, bytes: &[u8]) -> Read {
    if !is_allowed_node(found) {
        return Read::Other;
    }
    match put_node(found) {
        Ok(image) => compared(image.bytes() == bytes),
        Err(_) => Read::Other,
    }
}

fn line_again(found: &CatalogLine, bytes: &[u8]) -> Read {
    if !is_allowed_line(found) {
        return Read::Other;
    }
    compared(put_catalog_line(found).bytes() == bytes)
}

fn row_is_read(alloc: Global, bytes: &[u8]) -> Result<Read, NoMemory> {
    match read_row(alloc, bytes)? {
        Some(found) => Ok(row_again(&found, bytes)),
        None => Ok(Read::Refused),
    }
}

fn node_is_read(alloc: Global, bytes: &[u8]) -> Result<Read, NoMemory> {
    match read_node(alloc, bytes)? {
        Some(found) => Ok(node_again(&found, bytes)),
        None => Ok(Read::Refused),
    }
}

fn line_is_read(alloc: Global, bytes: &[u8]) -> Result<Read, NoMemory> {
    match read_catalog_line(alloc, bytes)? {
        Some(found) => Ok(line_again(&found, bytes)),
        None => Ok(Read::Refused),
    }
}

/// What the bytes are read as.
pub fn read_as(alloc: Global, kind: Kind, bytes: &[u8]) -> Result<Read, NoMemory> {
    match kind {
        Kind::Row => row_is_read(alloc, bytes),
        Kind::Node => node_is_read(alloc, bytes),
        Kind::Catalog => line_is_read(alloc, bytes),
    }
}

// The bytes of an image, one of them changed by a mask, and zeros.
fn changed(image: &Image, at: usize, mask: u8) -> [u8; 440] {
    let mut bytes = [0; 440];
    for (place, byte) in bytes.iter_mut().zip(image.bytes()) {
        *place = *byte;
    }
    if let Some(place) = bytes.get_mut(at) {
        *place ^= mask;
    }
    bytes
}

/// What they are read as where one byte is changed.
pub fn flipped(alloc: Global, kind: Kind, image: &Image) -> Result<Counts, NoMemory> {
    let mut counts = NONE;
    let size = image.bytes().len().min(440);
    for at in 0..size {
        for mask in [1, 128, 255] {
            let bytes = changed(image, at, mask);
            counts.add(read_as(alloc, kind, &bytes[..size])?);
        }
    }
    Ok(counts)
}

fn tell_row(rt: &HostRuntime, bytes: &[u8]) -> Result<(), NoMemory> {
    if let Some(found) = read_row(rt.alloc(), bytes)? {
        let version = found.version;
        let _ = print!(rt; "  version {version}:");
        put_values(rt, found.row.as_slice());
        let _ = println!(rt; "");
    }
    Ok(())
}

fn tell_node(rt: &HostRuntime, bytes: &[u8]) -> Result<(), NoMemory> {
    let Some(found) = read_node(rt.alloc(), bytes)? else {
        return Ok(());
    };
    let level = found.level;
    let _ = println!(rt; "  level {level}");
    for entry in found.entries.as_slice() {
        let _ = print!(rt; "  key");
        put_values(rt, entry.key.as_slice());
        let _ = print!(rt; ", row");
        put_key(rt, entry.row);
        if let Some(child) = entry.child {
            let _ = print!(rt; ", child");
            put_key(rt, child);
        }
        let _ = println!(rt; "");
    }
    Ok(())
}

fn put_type(rt: &HostRuntime, kind: FieldType) {
    let FieldType { scale, size, .. } = kind;
    let _ = match kind.kind {
        DataType::Word => print!(rt; " WORD SCALE -{scale}"),
        DataType::Longword => print!(rt; " LONGWORD SCALE -{scale}"),
        DataType::Quadword => print!(rt; " QUADWORD SCALE -{scale}"),
        DataType::Text => print!(rt; " TEXT SIZE {size}"),
    };
}

fn put_line(rt: &HostRuntime, line: &CatalogLine) {
    match line {
        CatalogLine::Relation(relation) => {
            put_text(rt, relation.name.as_slice());
            let (area, class, version) = (relation.area, relation.class, relation.version);
            let _ = print!(rt; " is the relation of area {area}, class {class}, version {version}");
        }
        CatalogLine::Global(global) => {
            put_text(rt, global.name.as_slice());
            let _ = print!(rt; " is a global field:");
            put_type(rt, global.kind);
        }
        CatalogLine::Field(line) => {
            put_text(rt, line.field.name.as_slice());
            let (area, position, version) = (line.relation, line.position, line.field.version);
            let _ = print!(rt; " is field {position} of area {area}, version {version}:");
            put_type(rt, line.field.kind);
        }
        CatalogLine::Index(index) => {
            put_text(rt, index.name.as_slice());
            let (area, relation) = (index.area, index.relation);
            let what = if index.unique { "unique" } else { "an" };
            let _ = print!(rt; " is {what} index of area {area} for area {relation}, root");
            put_key(rt, index.root);
            for position in index.fields.as_slice() {
                let _ = print!(rt; ", field {position}");
            }
        }
    }
}

fn tell_line(rt: &HostRuntime, bytes: &[u8]) -> Result<(), NoMemory> {
    if let Some(found) = read_catalog_line(rt.alloc(), bytes)? {
        let _ = print!(rt; " ");
        put_line(rt, &found);
        let _ = println!(rt; "");
    }
    Ok(())
}

/// Tells what bytes are.
pub fn tell_image(rt: &HostRuntime, kind: Kind, bytes: &[u8]) -> Result<(), NoMemory> {
    match kind {
        Kind::Row => tell_row(rt, bytes),
        Kind::Node => tell_node(rt, bytes),
        Kind::Catalog => tell_line(rt, bytes),
    }
}
