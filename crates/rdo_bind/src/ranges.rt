//! The ranges of a selection, whose variables are bound from the left to the right.
ghost use Rattle.std.specs.Prelude.{◌≡◌, map, None, IfOk};
ghost use Rattle.rdb_meaning.specs.Evaluation.{bind_source, bind_sources};
ghost use Rattle.rdb_meaning.specs.Checks.{sources_names};
ghost use Rattle.rdb_checks.specs.Answers.{Finds};
ghost use Rattle.rdo_values.specs.Places.{AreRanges};
ghost use Rattle.rdo_bind.specs.Answers.{written_range};

use crate::reference::{bind_range, copied_range};
use rdb_checks::Stop;
use rdb_meaning::{Binding, Scope, Tables};
use rdb_types::{Copied, Items, NoMemory};
use rdo_ast::syntax::Range;
use rdo_values::BoundRanges;
use std::alloc::Global;

/// Bound ranges, and the scope with their variables.
#[derive(Drop)]
pub(crate) struct Opened {
    pub scope: Scope,
    pub ranges: BoundRanges,
}

/// The binding of a range's variable to no row.
fn rowless(alloc: Global, range: &Range) -> Result<Binding, NoMemory>
    ensures { IfOk result (λ binding. binding ≡ bind_source range.now None) }
{
    let Range { variable, relation } = copied_range(alloc, range)?;
    Ok(Binding {
        variable,
        relation,
        key: None,
    })
}

/// Binds ranges. The first is refused whose variable is bound already, or whose relation isn't there.
pub(crate) fn open_ranges(
    alloc: Global,
    tables: &Tables,
    scope: &Scope,
    ranges: &[Range],
) -> Result<Opened, Stop>
    ensures names { Finds result (sources_names ranges.now tables.now scope.now) }
    ensures scope { IfOk result (λ opened. opened.scope ≡ bind_sources ranges.now scope.now) }
    ensures written { IfOk result (λ opened. map written_range opened.ranges ≡ ranges.now) }
    ensures relations { IfOk result (λ opened. AreRanges opened.ranges tables.now) }
{
    let mut bound = scope.copied(alloc)?;
    let mut opened = Items::new(alloc);
    for range in ranges {
        opened.push(bind_range(alloc, tables, bound.as_slice(), range)?)?;
        bound.push(rowless(alloc, range)?)?;
    }
    Ok(Opened {
        scope: bound,
        ranges: opened,
    })
}

/// The scope with the variables of ranges.
pub(crate) fn scope_behind(
    alloc: Global,
    scope: &Scope,
    ranges: &[Range],
) -> Result<Scope, NoMemory>
    ensures { IfOk result (λ bound. bound ≡ bind_sources ranges.now scope.now) }
{
    let mut bound = scope.copied(alloc)?;
    for range in ranges {
        bound.push(rowless(alloc, range)?)?;
    }
    Ok(bound)
}
