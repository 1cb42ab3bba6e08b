// A view over the lines of an area.
ghost use Rattle.std.specs.Prelude.{◌≡◌, IfOk};
ghost use Rattle.line_view.specs.Knowledge.{Lines, IsInOrder, Agrees, keys_of, lines_in};
ghost use Rattle.line_view.specs.Held.{ordered};
ghost use Rattle.lines_at_rest.specs.View.{knows};

use crate::lines::AreaLines;
use line_view::{Room, Seen, View};
use rdb_types::{Dbkey, NoMemory};
use std::alloc::Global;
use std::collections::BTreeSet;
use std::marker::Model;

fn key_set(alloc: Global, lines: &AreaLines) -> Result<BTreeSet<Dbkey>, NoMemory>
    ensures { IfOk result (λ keys. keys.keys ≡ ordered (keys_of lines.now)) }
{
    let mut keys = BTreeSet::new(alloc);
    for entry in lines.as_slice() {
        let _is_new = keys.insert(entry.0)?;
    }
    Ok(keys)
}

/// A view that knows the present lines of one logical area, and nothing else. It stands on the lines themselves, and on a set of their Dbkeys.
#[derive(Drop)]
pub struct AreaView {
    area: u32,
    lines: AreaLines,
    keys: BTreeSet<Dbkey>,
}

impl Model for AreaView {
    ghost use Rattle.std.specs.Prelude.{◌≡◌};
    ghost use Rattle.line_view.specs.Knowledge.{keys_of};
    ghost use Rattle.line_view.specs.Held.{ordered};
    ghost use Rattle.lines_at_rest.specs.View.{HeldArea};

    ghost Value = { HeldArea };

    ghost view = { λ v. record { area = v.area; lines = v.lines } };

    ghost invariant = { λ v. v.keys.keys ≡ ordered (keys_of v.lines) };
}

impl AreaView {
    /// A view of these lines of an area. It wants memory for the Dbkeys alone.
    pub fn of(alloc: Global, area: u32, lines: AreaLines) -> Result<AreaView, NoMemory>
        ensures held { IfOk result (λ view. view ≡ record { area = area; lines = lines }) }
        ensures agrees { IfOk result (λ view. (all : Lines) → IsInOrder all
            → lines ≡ lines_in area all → Agrees (knows view) all) }
    {
        let keys = key_set(alloc, &lines)?;
        Ok(AreaView { area, lines, keys })
    }
}

impl View for AreaView {
    ghost knows = { knows };

    fn line(&self, key: Dbkey) -> Seen<'_> {
        match self.lines.find(&key) {
            Some(image) => Seen::Present(image.bytes()),
            None => Seen::Unknown,
        }
    }

    fn area(&self, area: u32) -> Option<&BTreeSet<Dbkey>> {
        if area == self.area {
            Some(&self.keys)
        } else {
            None
        }
    }

    fn room(&self, _room: Room) -> Option<Dbkey> {
        None
    }
}
