//! Bound variables.
ghost use Rattle.std.specs.Prelude.{◌≡◌, [], ◌∷◌, ◌++◌, IfOk};
ghost use Rattle.std.specs.Option.{option_copied};
ghost use Rattle.rdb_meaning.specs.Evaluation.{bind_source, bound_as};

use crate::same_name;
use ordered_entries::{Chars, Copied, Dbkey, Items, NoMemory};
use rdo_ast::syntax::Range;
use std::alloc::Global;

/// A variable, its relation, and its row's Dbkey; a variable of STORE has no row yet.
#[derive(Drop)]
pub struct Binding {
    pub variable: Chars,
    pub relation: Chars,
    pub key: Option<Dbkey>,
}

impl Binding {
    /// The binding of a range's variable to the row of a Dbkey, or to none.
    pub fn of(alloc: Global, range: &Range, key: Option<Dbkey>) -> Result<Binding, NoMemory>
        ensures { IfOk result (λ made. made ≡ bind_source range.now key) }
    {
        let variable = range.variable.copied(alloc)?;
        let relation = range.relation.copied(alloc)?;
        Ok(Binding {
            variable,
            relation,
            key,
        })
    }
}

/// Bound variables, the outermost first.
pub type Scope = Items<Binding>;

impl Copied for Binding {
    fn copied(&self, alloc: Global) -> Result<Binding, NoMemory> {
        let variable = self.variable.copied(alloc)?;
        let relation = self.relation.copied(alloc)?;
        Ok(Binding {
            variable,
            relation,
            key: self.key,
        })
    }
}

/// The binding of a variable, if it is bound.
pub fn binding_of<'a>(scope: &'a [Binding], variable: &Chars) -> Option<&'a Binding>
    ensures { option_copied result ≡ bound_as variable.now scope.now }
{
    for binding in scope {
        if same_name(variable, &binding.variable) {
            return Some(binding);
        }
    }
    None
}

/// A copy of a scope.
pub fn copied_scope(alloc: Global, scope: &[Binding]) -> Result<Scope, NoMemory>
    ensures { IfOk result (λ made. made ≡ scope.now) }
{
    let mut copy = Items::new(alloc);
    for binding in scope {
        copy.push(binding.copied(alloc)?)?;
    }
    Ok(copy)
}

/// The scope with one more variable.
pub fn extended(
    alloc: Global,
    scope: &[Binding],
    range: &Range,
    key: Option<Dbkey>,
) -> Result<Scope, NoMemory>
    ensures { IfOk result (λ made. made ≡ scope.now ++ bind_source range.now key ∷ []) }
{
    let mut copy = copied_scope(alloc, scope)?;
    copy.push(Binding::of(alloc, range, key)?)?;
    Ok(copy)
}
