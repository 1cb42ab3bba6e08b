// What the actions of a statement are given, and what they have done.
ghost use Rattle.std.specs.Prelude.{◌≡◌, []};

use rdb_types::{Items, Keys, PrintedRows};
use rdo_select::Sources;
use selection_areas::Schema;
use statement_view::Changed;
use std::alloc::Global;

/// What each action of a statement is given: memory, the catalog, and what selections read of its relations.
#[derive(Clone, Copy)]
pub struct Given<'a> {
    pub alloc: Global,
    pub schema: &'a Schema,
    pub sources: &'a Sources<'a>,
}

/// What a statement has done so far: its view, the lines that it printed, and the Dbkeys that its stored rows got.
#[derive(Drop)]
pub(crate) struct Work<'k> {
    pub view: Changed<'k>,
    pub lines: PrintedRows,
    pub given: Keys,
}

impl<'k> Work<'k> {
    /// Nothing is done.
    pub fn new(alloc: Global, view: Changed<'k>) -> Work<'k>
        ensures { result ≡ record { view = view.entry; lines = []; given = [] } }
    {
        Work {
            view,
            lines: Items::new(alloc),
            given: Items::new(alloc),
        }
    }
}
