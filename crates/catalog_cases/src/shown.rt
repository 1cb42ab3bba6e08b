// What the lines stand for.
use crate::telling::{tell, tell_stop};
use crate::world::World;
use case_words::{number_of, put_key, put_text, put_values};
use line_view::View;
use rdb_meaning::Tables;
use rdb_types::{Chars, NoMemory, Positions};
use sound_lines::{longest_key, read_tables};
use std::alloc::Global;

/// Tells which lines of an area are present.
pub fn show_area(rt: &HostRuntime, world: &World, words: &str) -> Result<(), NoMemory> {
    match world.known.area(number_of(Some(words)).unwrap_or(0)) {
        Some(keys) => {
            let _ = print!(rt; "  lines");
            for key in keys {
                put_key(rt, *key);
            }
            let _ = println!(rt; "");
        }
        None => tell(rt, "unknown"),
    }
    Ok(())
}

fn tell_relations(rt: &HostRuntime, tables: &Tables) {
    for (name, relation) in tables.relations.as_slice() {
        let (area, fields) = (relation.area, relation.fields.len());
        let _ = print!(rt; "  relation");
        put_text(rt, name.as_slice());
        let _ = println!(rt; " of area {area}, {fields} fields");
        for (key, row) in relation.rows.as_slice() {
            let _ = print!(rt; "  row");
            put_key(rt, *key);
            let _ = print!(rt; ":");
            put_values(rt, row.as_slice());
            let _ = println!(rt; "");
        }
    }
}

fn tell_indexes(rt: &HostRuntime, tables: &Tables) {
    for (name, index) in tables.indexes.as_slice() {
        let (area, relation) = (index.area, index.relation);
        let what = if index.unique {
            "unique index"
        } else {
            "index"
        };
        let _ = print!(rt; "  {what}");
        put_text(rt, name.as_slice());
        let _ = print!(rt; " of area {area} for area {relation}, fields");
        for position in index.fields.as_slice() {
            let _ = print!(rt; " {position}");
        }
        let _ = println!(rt; "");
    }
}

fn tell_globals(rt: &HostRuntime, tables: &Tables) {
    for (name, _) in tables.globals.as_slice() {
        let _ = print!(rt; "  global field");
        put_text(rt, name.as_slice());
        let _ = println!(rt; "");
    }
}

/// Tells the tables that the lines stand for.
pub fn show_tables(rt: &HostRuntime, world: &World) -> Result<(), NoMemory> {
    match read_tables(rt.alloc(), world) {
        Ok(tables) => {
            tell_globals(rt, &tables);
            tell_relations(rt, &tables);
            tell_indexes(rt, &tables);
        }
        Err(stop) => tell_stop(rt, stop),
    }
    Ok(())
}

fn positions_of(alloc: Global, words: &str) -> Result<Positions, NoMemory> {
    let mut positions = Positions::new(alloc);
    for word in words.split(' ') {
        let position = number_of(Some(word)).unwrap_or(0);
        positions.push(u16::try_from(position).unwrap_or(0))?;
    }
    Ok(positions)
}

/// Tells how long a key of a relation's fields may be: the relation, and the fields' positions.
pub fn show_longest_key(rt: &HostRuntime, world: &World, words: &str) -> Result<(), NoMemory> {
    let (name, positions) = words.split_once(' ').unwrap_or((words, ""));
    let positions = positions_of(rt.alloc(), positions)?;
    let name = Chars::from_slice(rt.alloc(), name.as_bytes())?;
    let Ok(tables) = read_tables(rt.alloc(), world) else {
        tell(rt, "NO TABLES");
        return Ok(());
    };
    if let Some(relation) = tables.relation(&name) {
        if positions.len() <= 8 {
            let longest = longest_key(positions.as_slice(), relation.fields.as_slice());
            let _ = println!(rt; "  {longest} bytes");
        }
    }
    Ok(())
}
