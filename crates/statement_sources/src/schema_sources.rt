// What selections may read.
ghost use Rattle.std.specs.Prelude.{◌≡◌, Some, IsSome, IfOk};
ghost use Rattle.rdo_ast.specs.Tree.{Name};
ghost use Rattle.rdb_meaning.specs.declared.tables.Tables.{Tables as Kept};
ghost use Rattle.rdb_meaning.specs.declared.tables.Relation.{Relation as Rows};
ghost use Rattle.rdb_meaning.specs.Contents.{relation_named};
ghost use Rattle.line_view.specs.Knowledge.{Lines};
ghost use Rattle.sound_changes.specs.Standing.{IsSoundAs};
ghost use Rattle.rdo_select.specs.Sources.{source_at, AreSourcesOf};
ghost use Rattle.statement_sources.specs.Sources.{AreOfTables, AreIndexed};

use rdb_types::NoMemory;
use rdo_select::{Source, Sources};
use std::alloc::Global;
use stored_schema::Schema;

/// What selections may read: each relation with its indexes, in the order of their definition.
pub fn sources<'a>(alloc: Global, schema: &'a Schema) -> Result<Sources<'a>, NoMemory>
    ensures present { IfOk result (λ sources. (name : Name) (rel : Rows) → relation_named name schema.now.tables ≡ Some rel → IsSome (source_at rel.area sources.entries)) }
    ensures tables { IfOk result (λ sources. (all : Lines) (t : Kept) → IsSoundAs all schema.now t → AreSourcesOf all t sources.entries) }
    ensures only { IfOk result (λ sources. (all : Lines) (t : Kept) → IsSoundAs all schema.now t → AreOfTables all t sources.entries) }
    ensures indexed { IfOk result (λ sources. AreIndexed schema.now sources.entries) }
{
    let mut sources = Sources::new(alloc);
    for (name, _) in schema.catalog().tables.relations.as_slice() {
        let Some(target) = schema.target(name) else {
            unreachable!();
        };
        let source = Source {
            relation: target.stored,
            indexes: schema.paths_on(target.stored.area),
        };
        let Ok(_) = sources.insert(target.stored.area, source) else {
            return Err(NoMemory {});
        };
    }
    Ok(sources)
}
