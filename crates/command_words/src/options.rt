//! The options of NEW.
ghost use Rattle.std.specs.Prelude.{◌≡◌, IfSome, codes};
ghost use Rattle.command_words.specs.Options.{number_in as number_of_range, taken_by, ask as ask_of, limits_of as limits_for, nothing_asked, InRange, GivenInRange, IsAsked};
ghost use Rattle.root_file.specs.Root.{AreLimits};

use crate::bytes::{are_digits, behind, number_of};
use rdb_types::Limits;

/// What a word says for an option.
#[derive(Clone, Copy, Debug, PartialEq, Eq)]
pub enum Taken {
    Other,
    Bad,
    Given(u32),
}

/// The limits that the words behind NEW name.
#[derive(Clone, Copy, Debug, PartialEq, Eq)]
pub struct Asked {
    pub pages: Option<u32>,
    pub snaps: Option<u32>,
    pub entries: Option<u32>,
    pub slots: Option<u32>,
}

/// A number from low to high.
pub fn number_in(low: u32, high: u32, digits: &[u8]) -> Option<u32>
    ensures value { result ≡ number_of_range low high digits.now }
    ensures range { InRange low high result }
{
    let are_digits = are_digits(digits);
    let is_some = 1 <= digits.len();
    let is_short = digits.len() <= 10;
    if !(is_some && is_short && are_digits) {
        return None;
    }
    let number = number_of(digits)?;
    if i64::from(low) <= number && number <= i64::from(high) {
        Some(number as u32)
    } else {
        None
    }
}

/// What a word says for an option of this name, of which this was said before.
fn read_option(name: &[u8], low: u32, high: u32, held: Option<u32>, word: &[u8]) -> Taken
    ensures value { result ≡ taken_by name.now low high held word.now }
    ensures range { GivenInRange low high result }
{
    match behind(name, word) {
        None => Taken::Other,
        Some(digits) => match (held, number_in(low, high, digits)) {
            (None, Some(n)) => Taken::Given(n),
            _ => Taken::Bad,
        },
    }
}

/// One option more.
pub fn ask(asked: Asked, word: &[u8]) -> Option<Asked>
    requires { IsAsked asked }
    ensures value { result ≡ ask_of asked word.now }
    ensures range { IfSome result (λ next. IsAsked next) }
{
    match read_option(b"--PAGES=", 2, 65536, asked.pages, word) {
        Taken::Given(n) => return Some(Asked {
            pages: Some(n),
            ..asked
        }),
        Taken::Bad => return None,
        Taken::Other => {}
    }
    match read_option(b"--SNAP=", 1, 65536, asked.snaps, word) {
        Taken::Given(n) => return Some(Asked {
            snaps: Some(n),
            ..asked
        }),
        Taken::Bad => return None,
        Taken::Other => {}
    }
    match read_option(b"--RUJ=", 1, 65535, asked.entries, word) {
        Taken::Given(n) => return Some(Asked {
            entries: Some(n),
            ..asked
        }),
        Taken::Bad => return None,
        Taken::Other => {}
    }
    match read_option(b"--AIJ=", 2, 262144, asked.slots, word) {
        Taken::Given(n) => Some(Asked {
            slots: Some(n),
            ..asked
        }),
        Taken::Bad => None,
        Taken::Other => None,
    }
}

pub fn limits_of(asked: Asked) -> Limits
    requires { IsAsked asked }
    ensures value { result ≡ limits_for asked }
    ensures allowed { AreLimits result }
{
    Limits {
        pages: asked.pages.unwrap_or(65536),
        snaps: asked.snaps.unwrap_or(65536),
        entries: asked.entries.unwrap_or(65535),
        slots: asked.slots.unwrap_or(262144),
    }
}

/// The limits of a database for which nothing is asked.
pub fn usual_limits() -> Limits
    ensures value { result ≡ limits_for nothing_asked }
    ensures allowed { AreLimits result }
{
    limits_of(Asked {
        pages: None,
        snaps: None,
        entries: None,
        slots: None,
    })
}
