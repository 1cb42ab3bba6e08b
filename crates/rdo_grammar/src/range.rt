//! Ranges and references.

ghost use Rattle.std.specs.Prelude.{◌≡◌, [], ◌∷◌, IfOk};
ghost use Rattle.rdo_tokens.specs.Input.{Reads};
ghost use Rattle.rdo_grammar.specs.Grammar as spec;

use rdb_types::{Chars, Items};
use rdo_ast::syntax::{Range, Ranges, Reference};
use rdo_tokens::token::Kind;
use rdo_tokens::tokens::{Stop, Tokens};
use std::alloc::{AllocError, Global};

const MAX_NUMBER: u64 = 9223372036854775807;

/// The field behind the point of a reference.
#[tactic(auto, unfolding(crate::specs::Grammar::ref_from))]
pub fn ref_from(alloc: Global, tokens: &mut Tokens<'_>, variable: Chars) -> Result<Reference, Stop>
    ensures { Reads (spec.ref_from variable tokens.old) result tokens.new }
{
    Ok(Reference {
        variable,
        field: tokens.name(alloc)?,
    })
}

/// `ref := name "." name`
#[tactic(auto, unfolding(crate::specs::Grammar::reference))]
pub fn reference(alloc: Global, tokens: &mut Tokens<'_>) -> Result<Reference, Stop>
    ensures { Reads (spec.reference tokens.old) result tokens.new }
{
    let variable = tokens.name(alloc)?;
    tokens.expect(Kind::Dot)?;
    ref_from(alloc, tokens, variable)
}

/// `name IN name`
#[tactic(auto, unfolding(crate::specs::Grammar::range))]
pub fn range(alloc: Global, tokens: &mut Tokens<'_>) -> Result<Range, Stop>
    ensures { Reads (spec.range tokens.old) result tokens.new }
{
    let variable = tokens.name(alloc)?;
    tokens.expect(Kind::In)?;
    Ok(Range {
        variable,
        relation: tokens.name(alloc)?,
    })
}

/// A list of one item.
pub fn only<T: Drop>(alloc: Global, item: T) -> Result<Items<T>, AllocError>
    ensures { IfOk result (λ all. all ≡ item ∷ []) }
{
    let mut all = Items::new(alloc);
    all.push(item)?;
    Ok(all)
}

/// `range { CROSS range }`
#[tactic(auto, unfolding(crate::specs::Grammar::crossed, rdo_tokens::specs::Input::separated))]
pub fn crossed(alloc: Global, tokens: &mut Tokens<'_>) -> Result<Ranges, Stop>
    ensures { Reads (spec.crossed tokens.old) result tokens.new }
{
    let mut found = only(alloc, range(alloc, tokens)?)?;
    for _turn in 0..tokens.left() {
        if !tokens.eat(Kind::Cross) {
            return Ok(found);
        }
        found.push(range(alloc, tokens)?)?;
    }
    Ok(found)
}

/// `range { CROSS range }`, or one range alone.
#[tactic(auto, unfolding(crate::specs::Grammar::ranges))]
pub fn ranges(alloc: Global, tokens: &mut Tokens<'_>, is_single: bool) -> Result<Ranges, Stop>
    ensures { Reads (spec.ranges is_single tokens.old) result tokens.new }
{
    if is_single {
        Ok(only(alloc, range(alloc, tokens)?)?)
    } else {
        crossed(alloc, tokens)
    }
}

/// `[ FIRST number ]`
#[tactic(auto, unfolding(crate::specs::Grammar::first))]
pub fn first(tokens: &mut Tokens<'_>) -> Result<Option<u64>, Stop>
    ensures { Reads (spec.first tokens.old) result tokens.new }
{
    if tokens.eat(Kind::First) {
        Ok(Some(tokens.whole_number(0, MAX_NUMBER)?))
    } else {
        Ok(None)
    }
}
