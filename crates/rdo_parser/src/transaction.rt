//! What follows START_TRANSACTION.

ghost use Rattle.std.specs.Prelude.{true, false};
ghost use Rattle.rdo_tokens.specs.Input.{Reads};
ghost use Rattle.rdo_parser.specs.Statements as spec;

use rdo_ast::syntax::{Reservation, Reservations, Share, Statement};
use rdo_grammar::range::only;
use rdo_tokens::token::Kind;
use rdo_tokens::tokens::{Stop, Tokens};
use std::alloc::Global;

/// `SHARED | PROTECTED | EXCLUSIVE`
#[tactic(auto, unfolding(crate::specs::Statements::share_mode))]
fn share_mode(tokens: &mut Tokens<'_>) -> Result<Share, Stop>
    ensures { Reads (spec.share_mode tokens.old) result tokens.new }
{
    match tokens.peek() {
        Kind::Shared => {
            tokens.take();
            Ok(Share::Shared)
        }
        Kind::Protected => {
            tokens.take();
            Ok(Share::Protected)
        }
        Kind::Exclusive => {
            tokens.take();
            Ok(Share::Exclusive)
        }
        _ => Err(Stop::Offending),
    }
}

/// `READ | WRITE`: whether it writes.
#[tactic(auto, unfolding(crate::specs::Statements::writes))]
fn writes(tokens: &mut Tokens<'_>) -> Result<bool, Stop>
    ensures { Reads (spec.writes tokens.old) result tokens.new }
{
    match tokens.peek() {
        Kind::Read => {
            tokens.take();
            Ok(false)
        }
        Kind::Write => {
            tokens.take();
            Ok(true)
        }
        _ => Err(Stop::Offending),
    }
}

/// `name FOR ( SHARED | PROTECTED | EXCLUSIVE ) ( READ | WRITE )`
#[tactic(auto, unfolding(crate::specs::Statements::reservation))]
fn reservation(alloc: Global, tokens: &mut Tokens<'_>) -> Result<Reservation, Stop>
    ensures { Reads (spec.reservation tokens.old) result tokens.new }
{
    let relation = tokens.name(alloc)?;
    tokens.expect(Kind::For)?;
    let share = share_mode(tokens)?;
    Ok(Reservation {
        relation,
        share,
        writes: writes(tokens)?,
    })
}

/// `reservation { "," reservation }`
#[tactic(auto, unfolding(crate::specs::Statements::reservations, rdo_tokens::specs::Input::separated))]
fn reservations(alloc: Global, tokens: &mut Tokens<'_>) -> Result<Reservations, Stop>
    ensures { Reads (spec.reservations tokens.old) result tokens.new }
{
    let mut found = only(alloc, reservation(alloc, tokens)?)?;
    for _turn in 0..tokens.left() {
        if !tokens.eat(Kind::Comma) {
            return Ok(found);
        }
        found.push(reservation(alloc, tokens)?)?;
    }
    Ok(found)
}

/// `[ WAIT | NOWAIT ]`: whether it waits.
#[tactic(auto, unfolding(crate::specs::Statements::wait))]
fn wait(tokens: &mut Tokens<'_>) -> Result<bool, Stop>
    ensures { Reads (spec.wait tokens.old) result tokens.new }
{
    match tokens.peek() {
        Kind::Wait => {
            tokens.take();
            Ok(true)
        }
        Kind::Nowait => {
            tokens.take();
            Ok(false)
        }
        _ => Ok(true),
    }
}

/// `[ RESERVING reservation { "," reservation } ]`
#[tactic(auto, unfolding(crate::specs::Statements::reserving))]
fn reserving(alloc: Global, tokens: &mut Tokens<'_>) -> Result<Reservations, Stop>
    ensures { Reads (spec.reserving tokens.old) result tokens.new }
{
    if tokens.eat(Kind::Reserving) {
        reservations(alloc, tokens)
    } else {
        Ok(Reservations::new(alloc))
    }
}

/// What follows READ_WRITE.
#[tactic(auto, unfolding(crate::specs::Statements::read_write))]
fn read_write(alloc: Global, tokens: &mut Tokens<'_>) -> Result<Statement, Stop>
    ensures { Reads (spec.read_write tokens.old) result tokens.new }
{
    let wait = wait(tokens)?;
    let reserved = reserving(alloc, tokens)?;
    Ok(Statement::StartReadWrite { wait, reserved })
}

/// What follows START_TRANSACTION.
#[tactic(auto, unfolding(crate::specs::Statements::start_transaction))]
pub fn start_transaction(alloc: Global, tokens: &mut Tokens<'_>) -> Result<Statement, Stop>
    ensures { Reads (spec.start_transaction tokens.old) result tokens.new }
{
    match tokens.peek() {
        Kind::ReadOnly => {
            tokens.take();
            Ok(Statement::StartReadOnly)
        }
        Kind::ReadWrite => {
            tokens.take();
            read_write(alloc, tokens)
        }
        _ => Ok(Statement::StartReadOnly),
    }
}
