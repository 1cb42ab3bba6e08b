// The rows of all relations of a catalog.
ghost use Rattle.std.specs.Prelude.{◌≡◌, IfOk, IfErr};
ghost use Rattle.line_view.specs.Knowledge.{Lines, IsInOrder, Agrees};
ghost use Rattle.sound_lines.specs.Contents.{HaveRows};
ghost use Rattle.sound_lines.specs.Reading.{StopsRelations};

use crate::rows::read_relation;
use crate::versions::version_of;
use line_view::{Never, Stop, View};
use ordered_entries::Entries;
use rdb_meaning::Relation;
use rdb_types::{Chars, Copied};
use std::alloc::Global;

pub(crate) fn read_relations<V: View>(
    alloc: Global,
    view: &V,
    versions: &Entries<Chars, u16>,
    relations: &Entries<Chars, Relation>,
) -> Result<Entries<Chars, Relation>, Stop<Never>>
    ensures rows { IfOk result (λ whole. (all : Lines) → IsInOrder all → Agrees (V.knows view.now) all
        → HaveRows all versions.now relations.now whole) }
    ensures stop { IfErr result (StopsRelations (V.knows view.now) versions.now relations.now) }
{
    let mut found = Entries::new(alloc);
    for (name, relation) in relations.as_slice() {
        let version = version_of(name, versions);
        let relation = read_relation(alloc, view, version, relation)?;
        found.put(name.copied(alloc)?, relation)?;
    }
    Ok(found)
}
