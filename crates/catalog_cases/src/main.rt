//! Cases of the catalog and of whole tables in lines, as text. Each line of standard input is a definition or a deletion of RDO, done over a view of lines, or a line that begins with a word for a call; it is echoed on standard output, and below it stands which lines are written and which go. A line that begins with `-` begins with an empty catalog. The nth new line of the nth definition stands at page n, from 0, of the logical area of the catalog.
#![tactic(auto)]

mod defining;
mod shown;
mod telling;
mod world;

use defining::{say_statement, say_without_rooms};
use rdb_types::NoMemory;
use rdo_ast::syntax::Item;
use rdo_parser::Script;
use shown::{show_area, show_longest_key, show_tables};
use std::process::ExitCode;
use world::World;

/// The first item of a text.
struct First {
    item: Option<Item>,
}

// By hand, so that it is one call wherever it is let go.
impl Drop for First {
    fn drop(self) {
        let First { item: _item } = self;
    }
}

// A statement of RDO.
fn say_text(
    rt: &HostRuntime,
    world: &mut World,
    text: &str,
    has_rooms: bool,
) -> Result<(), NoMemory> {
    if text.len() > 65535 {
        return Err(NoMemory {});
    }
    let mut script = Script::new(text.as_bytes());
    let first = First {
        item: script.next_item(rt.alloc())?,
    };
    match &first.item {
        Some(Item::Statement(statement)) => if has_rooms {
            say_statement(rt, world, statement)
        } else {
            say_without_rooms(rt, world, statement)
        },
        _ => {
            let _ = println!(rt; "  NO STATEMENT");
            Ok(())
        }
    }
}

fn say(rt: &HostRuntime, world: &mut World, text: &str) -> Result<(), NoMemory> {
    if text.starts_with("-") {
        return world.begin(rt.alloc());
    }
    let (about, rest) = text.split_once(' ').unwrap_or((text, ""));
    match about {
        "" | "!" => Ok(()),
        "without-rooms" => say_text(rt, world, rest, false),
        "area" => world.learn_area(rt.alloc(), rest),
        "forget" => {
            world.forget(rt.alloc());
            Ok(())
        }
        "put" => world.put(rt.alloc(), rest),
        "lines" => show_area(rt, world, rest),
        "tables" => show_tables(rt, world),
        "longest-key" => show_longest_key(rt, world, rest),
        _ => say_text(rt, world, text, true),
    }
}

// Says each line, and gives the status.
fn say_lines(rt: &HostRuntime, world: &mut World) -> u8 {
    for line in rt.lines(rt.alloc()) {
        let Ok(line) = line else {
            return 3;
        };
        let text = line.as_str();
        let _ = println!(rt; "{text}");
        if say(rt, world, text).is_err() {
            return 5;
        }
    }
    0
}

fn main(rt: HostRuntime) -> ExitCode {
    match World::new(rt.alloc()) {
        Ok(mut world) => ExitCode::from(say_lines(&rt, &mut world)),
        Err(_) => ExitCode::from(5),
    }
}
