//! The death that `--DIE` names.
ghost use Rattle.std.specs.Prelude.{◌≡◌, ◌<◌, length, IfSome};
ghost use Rattle.std.specs.Option.{option_copied};
ghost use Rattle.command_words.specs.Options.{number_in as number_of_range};
ghost use Rattle.command_words.specs.Deaths.{point_of as point_for, behind_colon as behind_colon_of, death_in as death_said};

use crate::bytes::{are_digits, is_named, number_of};
use crate::options::number_in;

/// Where a session is to die.
#[derive(Clone, Copy, Debug, PartialEq, Eq)]
pub enum DeathPoint {
    /// Before its step of this number, counted from 1.
    Step(u64),
    /// Before the barrier behind its first commit record.
    Barrier,
}

/// The session that is to die, and where.
#[derive(Clone, Copy, Debug, PartialEq, Eq)]
pub struct Death {
    pub session: u32,
    pub at: DeathPoint,
}

// The number of a step.
fn step_in(digits: &[u8]) -> Option<u64>
    ensures { result ≡ number_of_range 1 9999999999 digits.now }
{
    let are_digits = are_digits(digits);
    let is_some = 1 <= digits.len();
    let is_short = digits.len() <= 10;
    if !(is_some && is_short && are_digits) {
        return None;
    }
    let number = number_of(digits)?;
    if 1 <= number && number <= 9999999999 {
        Some(number as u64)
    } else {
        None
    }
}

// A step, or the barrier behind a commit record.
fn point_of(text: &[u8]) -> Option<DeathPoint>
    ensures { result ≡ point_for text.now }
{
    if is_named(b"BARRIER", text) {
        return Some(DeathPoint::Barrier);
    }
    match step_in(text) {
        Some(step) => Some(DeathPoint::Step(step)),
        None => None,
    }
}

// What stands behind the first colon.
fn behind_colon<'a>(text: &'a [u8]) -> Option<&'a [u8]>
    ensures value { option_copied result ≡ behind_colon_of text.now }
    ensures shorter { IfSome result (λ rest. length rest.now < length text.now) }
{
    let mut rest = text;
    while let [b, more @ ..] = rest {
        if *b == b':' {
            return Some(more);
        }
        rest = more;
    }
    None
}

/// One of so many sessions, a colon and where it dies.
pub fn death_in(sessions: u32, text: &[u8]) -> Option<Death>
    ensures { result ≡ death_said sessions text.now }
{
    let at = behind_colon(text)?;
    let session = &text[..text.len() - at.len() - 1];
    match (number_in(1, sessions, session), point_of(at)) {
        (Some(session), Some(at)) => Some(Death { session, at }),
        _ => None,
    }
}
