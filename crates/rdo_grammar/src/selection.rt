//! Selections.

ghost use Rattle.std.specs.Prelude.{◌≡◌, ◌∷◌, IfOk, true, false};
ghost use Rattle.rdo_tokens.specs.Input.{Reads};
ghost use Rattle.rdo_grammar.specs.Grammar as spec;

use crate::nested::with;
use crate::range::{crossed, first, only, reference};
use rdb_types::Items;
use rdo_ast::syntax::{Clause, Inner, Reference, Selection, SortKey};
use rdo_tokens::token::Kind;
use rdo_tokens::tokens::{Stop, Tokens};
use std::alloc::{AllocError, Global};

/// `[ ASCENDING | DESCENDING ]`: whether it is descending.
#[tactic(auto, unfolding(crate::specs::Grammar::order))]
fn order(tokens: &mut Tokens<'_>) -> Result<bool, Stop>
    ensures { Reads (spec.order tokens.old) result tokens.new }
{
    match tokens.peek() {
        Kind::Ascending => {
            tokens.take();
            Ok(false)
        }
        Kind::Descending => {
            tokens.take();
            Ok(true)
        }
        _ => Ok(false),
    }
}

/// `key := [ ASCENDING | DESCENDING ] ref`
#[tactic(auto, unfolding(crate::specs::Grammar::key))]
fn key(alloc: Global, tokens: &mut Tokens<'_>) -> Result<SortKey, Stop>
    ensures { Reads (spec.key tokens.old) result tokens.new }
{
    let descending = order(tokens)?;
    Ok(SortKey {
        descending,
        reference: reference(alloc, tokens)?,
    })
}

/// `key { "," key }`
#[tactic(auto, unfolding(crate::specs::Grammar::keys, rdo_tokens::specs::Input::separated))]
fn keys(alloc: Global, tokens: &mut Tokens<'_>) -> Result<Items<SortKey>, Stop>
    ensures { Reads (spec.keys tokens.old) result tokens.new }
{
    let mut found = only(alloc, key(alloc, tokens)?)?;
    for _turn in 0..tokens.left() {
        if !tokens.eat(Kind::Comma) {
            return Ok(found);
        }
        found.push(key(alloc, tokens)?)?;
    }
    Ok(found)
}

/// `ref { "," ref }`
#[tactic(auto, unfolding(crate::specs::Grammar::references, rdo_tokens::specs::Input::separated))]
fn references(alloc: Global, tokens: &mut Tokens<'_>) -> Result<Items<Reference>, Stop>
    ensures { Reads (spec.references tokens.old) result tokens.new }
{
    let mut found = only(alloc, reference(alloc, tokens)?)?;
    for _turn in 0..tokens.left() {
        if !tokens.eat(Kind::Comma) {
            return Ok(found);
        }
        found.push(reference(alloc, tokens)?)?;
    }
    Ok(found)
}

/// `SORTED BY key { "," key }`, after SORTED.
#[tactic(auto, unfolding(crate::specs::Grammar::sorted))]
fn sorted(alloc: Global, tokens: &mut Tokens<'_>) -> Result<Items<SortKey>, Stop>
    ensures { Reads (spec.sorted tokens.old) result tokens.new }
{
    tokens.expect(Kind::By)?;
    keys(alloc, tokens)
}

/// `REDUCED TO ref { "," ref }`, after REDUCED.
#[tactic(auto, unfolding(crate::specs::Grammar::reduced))]
fn reduced(alloc: Global, tokens: &mut Tokens<'_>) -> Result<Items<Reference>, Stop>
    ensures { Reads (spec.reduced tokens.old) result tokens.new }
{
    tokens.expect(Kind::To)?;
    references(alloc, tokens)
}

/// `[ sorted ]`
#[tactic(auto, unfolding(crate::specs::Grammar::sorted_only))]
fn sorted_only(alloc: Global, tokens: &mut Tokens<'_>) -> Result<Items<Clause>, Stop>
    ensures { Reads (spec.sorted_only tokens.old) result tokens.new }
{
    if tokens.eat(Kind::Sorted) {
        Ok(only(alloc, Clause::Sorted(sorted(alloc, tokens)?))?)
    } else {
        Ok(Items::new(alloc))
    }
}

/// `[ reduced ]`
#[tactic(auto, unfolding(crate::specs::Grammar::reduced_only))]
fn reduced_only(alloc: Global, tokens: &mut Tokens<'_>) -> Result<Items<Clause>, Stop>
    ensures { Reads (spec.reduced_only tokens.old) result tokens.new }
{
    if tokens.eat(Kind::Reduced) {
        Ok(only(alloc, Clause::Reduced(reduced(alloc, tokens)?))?)
    } else {
        Ok(Items::new(alloc))
    }
}

/// A clause, and those behind it.
fn clauses(alloc: Global, first: Clause, more: Items<Clause>) -> Result<Items<Clause>, AllocError>
    ensures { IfOk result (λ all. all ≡ first ∷ more) }
{
    let mut all = only(alloc, first)?;
    all.append(more)?;
    Ok(all)
}

/// `{ sorted | reduced }`, each at most once.
#[tactic(auto, unfolding(crate::specs::Grammar::shape))]
fn shape(alloc: Global, tokens: &mut Tokens<'_>) -> Result<Items<Clause>, Stop>
    ensures { Reads (spec.shape tokens.old) result tokens.new }
{
    match tokens.peek() {
        Kind::Sorted => {
            tokens.take();
            let keys = sorted(alloc, tokens)?;
            let more = reduced_only(alloc, tokens)?;
            Ok(clauses(alloc, Clause::Sorted(keys), more)?)
        }
        Kind::Reduced => {
            tokens.take();
            let references = reduced(alloc, tokens)?;
            let more = sorted_only(alloc, tokens)?;
            Ok(clauses(alloc, Clause::Reduced(references), more)?)
        }
        _ => Ok(Items::new(alloc)),
    }
}

/// `[ FIRST number ] range { CROSS range } [ WITH cond ] { sorted | reduced }`
#[tactic(auto, unfolding(crate::specs::Grammar::selection))]
pub fn selection(alloc: Global, tokens: &mut Tokens<'_>, depth: usize) -> Result<Selection, Stop>
    ensures { Reads (spec.selection depth tokens.old) result tokens.new }
{
    let first = first(tokens)?;
    let ranges = crossed(alloc, tokens)?;
    let condition = with(alloc, tokens, depth)?;
    let clauses = shape(alloc, tokens)?;
    Ok(Selection {
        inner: Inner {
            first,
            ranges,
            condition,
        },
        clauses,
    })
}
