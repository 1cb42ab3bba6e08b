//! The tests on texts. CONTAINING disregards the case of letters, STARTING WITH does not.
ghost use Rattle.std.specs.Prelude.{◌≡◌, nat_eq};
ghost use Rattle.std.specs.List.{starts_with};
ghost use Rattle.std.specs.Str.{str_to_ascii_uppercase};
ghost use Rattle.rdb_meaning.specs.Numbers.{is};
ghost use Rattle.rdb_meaning.specs.Comparison.{begins_with as begins_with_of, contains_any_case as contains_of, on_texts};
ghost use Rattle.rdo_arithmetic.specs.Answers.{truth_of};

use crate::truth::{Truth, truth_from};
use rdb_types::{Scaled, Value};

/// Whether a text begins with a pattern, by its bytes.
fn begins_with(text: &[u8], pattern: &[u8]) -> bool
    ensures { result ≡ begins_with_of text.now pattern.now }
{
    text.starts_with(pattern)
}

/// Whether a text begins with a pattern, whatever the case of their letters.
fn begins_in_any_case(text: &[u8], pattern: &[u8]) -> bool
    ensures { result ≡ starts_with nat_eq (str_to_ascii_uppercase text.now) (str_to_ascii_uppercase pattern.now) }
{
    if text.len() < pattern.len() {
        return false;
    }
    for (at, wanted) in pattern.iter().enumerate() {
        if text[at].to_ascii_uppercase() != wanted.to_ascii_uppercase() {
            return false;
        }
    }
    true
}

/// Whether a pattern stands somewhere in a text, whatever the case of their letters.
fn contains_in_any_case(text: &[u8], pattern: &[u8]) -> bool
    ensures { result ≡ contains_of text.now pattern.now }
{
    for start in 0..text.len() {
        if begins_in_any_case(&text[start..], pattern) {
            return true;
        }
    }
    pattern.is_empty()
}

/// STARTING WITH.
pub fn starting_with(text: &Scaled, pattern: &Scaled) -> Truth
    ensures { truth_of result ≡ on_texts begins_with_of (is text.now) (is pattern.now) }
{
    match (&text.value, &pattern.value) {
        (Value::Text(text), Value::Text(pattern)) => {
            truth_from(begins_with(text.as_slice(), pattern.as_slice()))
        }
        _ => Truth::Missing,
    }
}

/// CONTAINING.
pub fn containing(text: &Scaled, pattern: &Scaled) -> Truth
    ensures { truth_of result ≡ on_texts contains_of (is text.now) (is pattern.now) }
{
    match (&text.value, &pattern.value) {
        (Value::Text(text), Value::Text(pattern)) => {
            truth_from(contains_in_any_case(text.as_slice(), pattern.as_slice()))
        }
        _ => Truth::Missing,
    }
}
