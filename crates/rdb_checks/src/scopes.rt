ghost use Rattle.std.specs.Prelude.{◌≡◌, IfOk};
ghost use Rattle.rdb_meaning.specs.Evaluation.{bind_sources};

use rdb_meaning::{Binding, Scope};
use rdb_types::{Copied, NoMemory};
use rdo_ast::syntax::Range;
use std::alloc::Global;

/// The scope with the variables of the ranges.
pub fn scope_with_ranges(alloc: Global, scope: &Scope, ranges: &[Range]) -> Result<Scope, NoMemory>
    ensures { IfOk result (λ bound. bound ≡ bind_sources ranges.now scope.now) }
{
    let mut bound = scope.copied(alloc)?;
    for range in ranges {
        bound.push(Binding::of(alloc, range, None)?)?;
    }
    Ok(bound)
}
