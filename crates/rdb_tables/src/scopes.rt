//! The scope of a FOR's body.
ghost use Rattle.std.specs.Prelude.{◌≡◌, IfOk};
ghost use Rattle.rdb_meaning.specs.Evaluation.{bind_source, bind_tuple};

use rdb_meaning::{Binding, Scope};
use rdb_types::{Copied, Dbkey, Items, NoMemory};
use rdo_ast::syntax::Range;
use std::alloc::Global;

fn binding_at(alloc: Global, range: &Range, key: Dbkey) -> Result<Binding, NoMemory>
    ensures { IfOk result (λ made. made ≡ bind_source range.now (Some key)) }
{
    let variable = range.variable.copied(alloc)?;
    let relation = range.relation.copied(alloc)?;
    Ok(Binding {
        variable,
        relation,
        key: Some(key),
    })
}

fn copied_scope(alloc: Global, scope: &[Binding]) -> Result<Scope, NoMemory>
    ensures { IfOk result (λ made. made ≡ scope.now) }
{
    let mut copy = Items::new(alloc);
    for binding in scope {
        copy.push(binding.copied(alloc)?)?;
    }
    Ok(copy)
}

/// The scope with the variables of the ranges bound to the rows of a tuple.
pub fn scope_with_tuple(
    alloc: Global,
    scope: &[Binding],
    ranges: &[Range],
    keys: &[Dbkey],
) -> Result<Scope, NoMemory>
    ensures { IfOk result (λ made. made ≡ bind_tuple ranges.now keys.now scope.now) }
{
    let mut bound = copied_scope(alloc, scope)?;
    for (at, range) in ranges.iter().enumerate() {
        let Some(key) = keys.get(at) else {
            return Ok(bound);
        };
        bound.push(binding_at(alloc, range, *key)?)?;
    }
    Ok(bound)
}
