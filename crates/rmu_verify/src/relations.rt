// The relations of a catalog.
ghost use Rattle.std.specs.Prelude.{◌≡◌, ℕ, List, IfSome, IfNone, None, Some};
ghost use Rattle.sound_lines.specs.Contents.{with_version, versions_in, version_of as version_at};
ghost use Rattle.rdo_ast.specs.Tree.{Name};
ghost use Rattle.verified_lines.specs.Relations.{entry_in as entry_at};

use catalog::PlacedLine;
use catalog_lines::CatalogLine;
use ordered_entries::Key;
use rdb_meaning::{Relation, Tables};
use rdb_types::Chars;

// The version of a relation behind one line more of the catalog.
fn noted(line: &CatalogLine, name: &Chars, version: u16) -> u16
    ensures { (versions : List (Name × ℕ)) → version ≡ version_at name.now versions
        → result ≡ version_at name.now (with_version line.now versions) }
{
    match line {
        CatalogLine::Relation(relation) => {
            if name.order(&relation.name).is_eq() {
                relation.version
            } else {
                version
            }
        }
        CatalogLine::Global(_) | CatalogLine::Field(_) | CatalogLine::Index(_) => version,
    }
}

/// The version of a relation in the lines of the catalog, 0 where it isn't there.
pub(crate) fn version_of(lines: &[PlacedLine], name: &Chars) -> u16
    ensures { result ≡ version_at name.now (versions_in lines.now) }
{
    let mut version = 0;
    for line in lines {
        version = noted(&line.line, name, version);
    }
    version
}

/// The relation of a logical area, with its name.
pub(crate) fn entry_in(tables: &Tables, area: u32) -> Option<&(Chars, Relation)>
    ensures some { IfSome result (λ entry. entry_at area tables.now.relations ≡ Some entry.now) }
    ensures none { IfNone result (entry_at area tables.now.relations ≡ None) }
{
    for entry in tables.relations.as_slice() {
        if entry.1.area == area {
            return Some(entry);
        }
    }
    None
}
