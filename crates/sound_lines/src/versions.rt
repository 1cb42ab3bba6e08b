// The versions of relations, by their names.
ghost use Rattle.std.specs.Prelude.{◌≡◌, OnOk, IfOk};
ghost use Rattle.sound_lines.specs.Contents.{with_version, versions_in, version_of as version_at};

use catalog::PlacedLine;
use catalog_lines::CatalogLine;
use ordered_entries::Entries;
use rdb_types::{Chars, Copied, NoMemory};
use std::alloc::Global;

fn add_version(
    alloc: Global,
    line: &CatalogLine,
    versions: &mut Entries<Chars, u16>,
) -> Result<(), NoMemory>
    ensures { OnOk result (versions.new ≡ with_version line.now versions.old) }
{
    match line {
        CatalogLine::Relation(line) => versions.put(line.name.copied(alloc)?, line.version),
        CatalogLine::Global(_) | CatalogLine::Field(_) | CatalogLine::Index(_) => Ok(()),
    }
}

/// The versions of the relations that lines of a catalog define, by their names.
pub fn versions_of(alloc: Global, lines: &[PlacedLine]) -> Result<Entries<Chars, u16>, NoMemory>
    ensures { IfOk result (λ versions. versions ≡ versions_in lines.now) }
{
    let mut versions = Entries::new(alloc);
    for line in lines {
        add_version(alloc, &line.line, &mut versions)?;
    }
    Ok(versions)
}

/// The version of a relation, 0 where it isn't there.
pub fn version_of(name: &Chars, versions: &Entries<Chars, u16>) -> u16
    ensures { result ≡ version_at name.now versions.now }
{
    match versions.find(name) {
        Some(version) => *version,
        None => 0,
    }
}
