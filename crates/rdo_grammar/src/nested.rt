//! Conditions, tests and expressions, with a bound on the levels that may be opened.

ghost use Rattle.std.specs.Prelude.{false};
ghost use Rattle.rdo_tokens.specs.Input.{Reads};
ghost use Rattle.rdo_grammar.specs.Grammar as spec;

use crate::expr::Grammar;
use rdb_types::Boxed;
use rdo_ast::syntax::{Condition, Expression, Test};
use rdo_tokens::tokens::{Stop, Tokens};
use std::alloc::Global;

/// A condition. The depth is one more than the levels that may still be opened.
#[cycle(nested)]
pub fn cond(alloc: Global, tokens: &mut Tokens<'_>, depth: usize) -> Result<Condition, Stop>
    ensures { Reads (spec.cond_at depth tokens.old) result tokens.new }
{
    if depth == 0 {
        return Err(Stop::Offending);
    }
    Grammar {
        alloc,
        depth: depth - 1,
        cond,
        test,
        expr,
    }
    .cond(tokens)
}

/// A test alone.
#[cycle(nested)]
pub fn test(alloc: Global, tokens: &mut Tokens<'_>, depth: usize) -> Result<Test, Stop>
    ensures { Reads (spec.test_at depth tokens.old) result tokens.new }
{
    if depth == 0 {
        return Err(Stop::Offending);
    }
    Grammar {
        alloc,
        depth: depth - 1,
        cond,
        test,
        expr,
    }
    .test(tokens)
}

/// An expression, or a prim alone. Where it is plain no statistic may stand in it.
#[cycle(nested)]
pub fn expr(
    alloc: Global,
    tokens: &mut Tokens<'_>,
    depth: usize,
    alone: bool,
    plain: bool,
) -> Result<Expression, Stop>
    ensures { Reads (spec.expr_at depth alone plain tokens.old) result tokens.new }
{
    if depth == 0 {
        return Err(Stop::Offending);
    }
    let grammar = Grammar {
        alloc,
        depth: depth - 1,
        cond,
        test,
        expr,
    };
    if alone {
        grammar.prim(tokens, plain)
    } else {
        grammar.expr(tokens, plain)
    }
}

/// An expression in which a statistic may stand. The depth counts the levels that may still be opened.
pub fn whole_expr(alloc: Global, tokens: &mut Tokens<'_>, depth: usize) -> Result<Expression, Stop>
    ensures { Reads (spec.expr (spec.level_at depth) false tokens.old) result tokens.new }
{
    Grammar {
        alloc,
        depth,
        cond,
        test,
        expr,
    }
    .expr(tokens, false)
}

/// An expression in which a statistic may stand, and which begins with this operand.
#[tactic(auto, unfolding(crate::specs::Grammar::expr_with))]
pub fn expr_with(
    alloc: Global,
    tokens: &mut Tokens<'_>,
    depth: usize,
    first: Expression,
) -> Result<Expression, Stop>
    ensures { Reads (spec.expr_with (spec.level_at depth) first tokens.old) result tokens.new }
{
    let grammar = Grammar {
        alloc,
        depth,
        cond,
        test,
        expr,
    };
    let term = grammar.term_after(tokens, false, first)?;
    grammar.expr_after(tokens, false, term)
}

/// `[ WITH cond ]`
pub fn with(
    alloc: Global,
    tokens: &mut Tokens<'_>,
    depth: usize,
) -> Result<Option<Boxed<Condition>>, Stop>
    ensures { Reads (spec.with (spec.level_at depth) tokens.old) result tokens.new }
{
    Grammar {
        alloc,
        depth,
        cond,
        test,
        expr,
    }
    .with(tokens)
}

/// Takes a token that opens a level.
pub fn open_level(alloc: Global, tokens: &mut Tokens<'_>, depth: usize) -> Result<(), Stop>
    ensures { Reads (spec.open_level (spec.level_at depth) tokens.old) result tokens.new }
{
    Grammar {
        alloc,
        depth,
        cond,
        test,
        expr,
    }
    .open_level(tokens)
}
