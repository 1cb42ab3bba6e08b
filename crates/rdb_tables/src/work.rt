ghost use Rattle.std.specs.Prelude.{◌≡◌, []};

use crate::undo::Undo;
use rdb_types::{Dbkey, Items, Keys, PrintedRows};
use std::alloc::Global;

/// What a statement is given: memory, and the Dbkeys that its stored rows take.
#[derive(Clone, Copy)]
pub struct Given<'a> {
    pub alloc: Global,
    pub choices: &'a [Dbkey],
}

/// What a statement has done so far: the lines that it printed, the Dbkeys that it gave to rows, and what undoes its changes.
#[derive(Drop)]
pub struct Work {
    pub lines: PrintedRows,
    pub taken: Keys,
    pub undo: Undo,
}

impl Work {
    pub fn new(alloc: Global) -> Work
        ensures { result ≡ record { lines = []; taken = []; undo = record { changes = []; saved = [] } } }
    {
        Work {
            lines: Items::new(alloc),
            taken: Items::new(alloc),
            undo: Undo::new(alloc),
        }
    }
}
