//! The next statement of a script.

ghost use Rattle.std.specs.Prelude.{◌≡◌, ◌<◌, ◌≤◌, ◌^◌, length};
ghost use Rattle.rdo_tokens.specs.Lex.{tokens};
ghost use Rattle.rdo_parser.specs.Script as spec;

use crate::place::{Place, line_len};
use crate::statement::pointed;
use rdb_types::OrMemory;
use rdo_ast::syntax::Statement;
use rdo_tokens::token::Kind;
use rdo_tokens::tokens::{Stop, Tokens};
use std::alloc::Global;

/// What a script goes on with.
#[derive(Drop)]
pub enum Parsed {
    /// A statement, and how many bytes of the script are behind it.
    Statement(Statement, usize),
    End,
    /// `$ STOP`, behind which nothing is read.
    Stop,
}

/// The place of a token with which no statement goes on.
#[derive(Clone, Copy, Debug, PartialEq, Eq)]
pub struct SyntaxAt {
    pub line: u32,
    pub column: u32,
    /// Where reading goes on: how many bytes of the script are up to the line after the token's.
    pub resume: usize,
}

/// Whether `$ STOP` comes next.
#[tactic(auto, unfolding(crate::specs::Script::begins_stop))]
pub fn begins_stop(text: &[u8]) -> bool
    ensures { result ≡ spec.begins_stop (tokens text.now) }
{
    let mut tokens = Tokens::new(text);
    if !tokens.sees(Kind::Dollar) {
        return false;
    }
    tokens.take();
    tokens.sees(Kind::Stop)
}

/// What a script goes on with behind its first `at` bytes, or how many bytes there are up to the offending token.
#[tactic(auto, unfolding(crate::specs::Script::parsed_at))]
pub fn parsed_at(alloc: Global, text: &[u8], at: usize) -> Result<Parsed, OrMemory<usize>>
    requires { at ≤ length text.now }
    ensures { spec.Gives (spec.parsed_at text.now at) result }
{
    let mut tokens = Tokens::new(&text[at..]);
    if tokens.is_empty() {
        return Ok(Parsed::End);
    }
    match pointed(alloc, &mut tokens) {
        Ok(statement) => Ok(Parsed::Statement(statement, text.len().saturating_sub(tokens.left()))),
        Err(Stop::Memory) => Err(OrMemory::Memory),
        Err(Stop::Offending) => if begins_stop(&text[at..]) {
            Ok(Parsed::Stop)
        } else {
            Err(OrMemory::Other(text.len().saturating_sub(tokens.left())))
        },
    }
}

/// The fault of the token behind the first `at` bytes.
#[tactic(auto, unfolding(crate::specs::Script::syntax_at))]
fn syntax_at(text: &[u8], at: usize) -> SyntaxAt
    requires long { length text.now < 2 ^ 31 }
    requires within { at ≤ length text.now }
    ensures { result ≡ spec.syntax_at text.now at }
{
    let place = Place::START.behind(&text[..at]);
    SyntaxAt {
        line: place.line,
        column: place.column,
        resume: at + line_len(&text[at..]),
    }
}

/// The next statement behind the first `at` bytes of a script, or the place of the token with which no statement goes on.
#[tactic(auto, unfolding(crate::specs::Script::next_statement))]
pub fn next_statement(alloc: Global, text: &[u8], at: usize) -> Result<Parsed, OrMemory<SyntaxAt>>
    requires long { length text.now < 2 ^ 31 }
    requires within { at ≤ length text.now }
    ensures { spec.Gives (spec.next_statement text.now at) result }
{
    match parsed_at(alloc, text, at) {
        Ok(parsed) => Ok(parsed),
        Err(OrMemory::Memory) => Err(OrMemory::Memory),
        Err(OrMemory::Other(offending)) => Err(OrMemory::Other(syntax_at(text, offending))),
    }
}
