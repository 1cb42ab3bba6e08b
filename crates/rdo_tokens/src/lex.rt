//! Cuts the token at the front of a text.

ghost use Rattle.std.specs.Prelude.{◌≡◌, ◌≢◌, ◌<◌, ◌≤◌, ◌+◌, ◌-◌, ◌^◌, [], length, map, slice_index, IfSome, IfOk, true, false};
ghost use Rattle.std.specs.Str.{str_eq_ignore_ascii_case};
ghost use Rattle.rdo_tokens.specs.Lex as spec;
ghost use Rattle.rdo_tokens.specs.Input as input;

use crate::token::{Kind, RESERVED};
use rdb_types::Chars;
use std::alloc::{AllocError, Global};

/// Bytes that may follow each other in a number, in a word, or in a comment.
#[derive(Clone, Copy, Debug)]
enum Class {
    Digit,
    Word,
    Comment,
}

/// The value of the digits without the point, and how many of them stand after it.
#[derive(Clone, Copy, Debug, PartialEq, Eq)]
pub struct Numeral {
    pub digits: u64,
    pub scale: u8,
}

/// The kind of a token, and how many bytes it has.
#[derive(Clone, Copy, Debug, PartialEq, Eq)]
pub struct Cut {
    pub kind: Kind,
    pub len: usize,
}

const MAX_NAME: usize = 31;

const MAX_NUMBER: u64 = 9223372036854775807;

const MAX_SCALE: usize = 9;

fn is_blank(b: u8) -> bool
    ensures { result ≡ spec.is_blank b }
{
    b == b'\t' || b == b'\n' || b == b'\r' || b == b' '
}

fn is_printable(b: u8) -> bool
    ensures { result ≡ spec.is_printable b }
{
    32 <= b && b <= 126
}

fn is_in(class: Class, b: u8) -> bool
    ensures { result ≡ spec.is_in class b }
{
    match class {
        Class::Digit => b.is_ascii_digit(),
        Class::Word => b.is_ascii_alphanumeric() || b == b'_' || b == b'$',
        Class::Comment => is_printable(b) || b == b'\t' || b == b'\r',
    }
}

/// The byte at a place, or 0 past the end.
fn byte(text: &[u8], at: usize) -> u8
    ensures value { result ≡ slice_index text.now at }
    ensures within { result ≢ 0 → at < length text.now }
{
    if at < text.len() { text[at] } else { 0 }
}

/// The first place from `at` on whose byte is not of the class.
fn past(class: Class, text: &[u8], at: usize) -> usize
    requires { at ≤ length text.now }
    ensures value { result ≡ spec.past class text.now at }
    ensures within { (at ≤ result) × (result ≤ length text.now) }
    ensures moves { at < length text.now → spec.is_in class (slice_index text.now at) ≡ true → at < result }
{
    let mut end = at;
    while end < text.len() && is_in(class, text[end]) {
        end += 1;
    }
    end
}

/// Whether two words are alike but for capitals.
pub fn same_word(a: &[u8], b: &[u8]) -> bool
    ensures { result ≡ str_eq_ignore_ascii_case a.now b.now }
{
    a.eq_ignore_ascii_case(b)
}

fn lookup(mut table: &[(&[u8], Kind)], word: &[u8]) -> Kind
    ensures { result ≡ spec.lookup (map (λ w. (w.0.now, w.1)) table.entry.now) word.now }
{
    while let [entry, rest @ ..] = table {
        if same_word(entry.0, word) {
            return entry.1;
        }
        table = rest;
    }
    Kind::Name
}

/// A reserved word has a kind of its own, and any other word is a name.
#[tactic(auto, unfolding(crate::specs::Lex::word_kind))]
fn word_kind(word: &[u8]) -> Kind
    ensures { result ≡ spec.word_kind word.now }
{
    lookup(&RESERVED, word)
}

fn word(text: &[u8]) -> Cut
    requires { spec.is_in Class.Word (slice_index text.now 0) ≡ true }
    ensures value { result ≡ spec.word text.now }
    ensures within { (1 ≤ result.len) × (result.len ≤ length text.now) }
{
    let len = past(Class::Word, text, 0);
    let kind = if len <= MAX_NAME {
        word_kind(&text[..len])
    } else {
        Kind::Bad
    };
    Cut { kind, len }
}

fn past_fraction(text: &[u8], at: usize) -> usize
    requires { at ≤ length text.now }
    ensures value { result ≡ spec.past_fraction text.now at }
    ensures within { (at ≤ result) × (result ≤ length text.now) }
{
    if byte(text, at) == b'.' && byte(text, at + 1).is_ascii_digit() {
        past(Class::Digit, text, at + 1)
    } else {
        at
    }
}

/// The value of the digits, or one more than the greatest number where it is greater.
fn digits_value(text: &[u8]) -> u64
    ensures fits { spec.digits_value text.now ≤ spec.max_number → result ≡ spec.digits_value text.now }
    ensures above { spec.max_number < spec.digits_value text.now → result ≡ spec.max_number + 1 }
{
    let mut n: u64 = 0;
    for b in text {
        if *b != b'.' {
            n = (10 * u128::from(n) + u128::from(b.saturating_sub(b'0'))).min(
                u128::from(MAX_NUMBER) + 1,
            ) as u64;
        }
    }
    n
}

fn digits_scale(text: &[u8]) -> usize
    ensures { result ≡ spec.digits_scale text.now }
{
    text.len().saturating_sub(past(Class::Digit, text, 0) + 1)
}

/// The number that is spelled so, where it is in range.
#[tactic(auto, unfolding(crate::specs::Input::number_value))]
pub fn number_value(text: &[u8]) -> Option<Numeral>
    ensures value { result ≡ input.number_value text.now }
    ensures within { IfSome result (λ n. n.digits ≤ spec.max_number) }
{
    let digits = digits_value(text);
    let scale = digits_scale(text);
    if digits <= MAX_NUMBER && scale <= MAX_SCALE {
        Some(Numeral {
            digits,
            scale: scale as u8,
        })
    } else {
        None
    }
}

fn number(text: &[u8]) -> Cut
    requires { spec.is_in Class.Digit (slice_index text.now 0) ≡ true }
    ensures value { result ≡ spec.number text.now }
    ensures within { (1 ≤ result.len) × (result.len ≤ length text.now) }
{
    Cut {
        kind: Kind::Number,
        len: past_fraction(text, past(Class::Digit, text, 0)),
    }
}

/// The place after the closing quote, for a text whose bytes after the opening one are these. None where it isn't closed.
fn closing(quote: u8, mut text: &[u8]) -> Option<usize>
    requires { length text.now < 2 ^ 63 }
    ensures value { result ≡ spec.closing quote false 1 text.entry.now }
    ensures within { IfSome result (λ end. (1 ≤ end) × (end ≤ length text.entry.now + 1)) }
{
    let mut is_second = false;
    let mut at = 1;
    while let [b, rest @ ..] = text {
        if !is_second && !is_printable(*b) {
            return None;
        }
        if !is_second && *b == quote && byte(rest, 0) != quote {
            return Some(at + 1);
        }
        is_second = !is_second && *b == quote;
        at += 1;
        text = rest;
    }
    None
}

fn quoted(text: &[u8]) -> Cut
    requires { 0 < length text.now }
    ensures value { result ≡ spec.quoted text.now }
    ensures within { (1 ≤ result.len) × (result.len ≤ length text.now) }
{
    match closing(text[0], &text[1..]) {
        None => Cut {
            kind: Kind::Bad,
            len: 1,
        },
        Some(len) => Cut {
            kind: Kind::Quoted,
            len,
        },
    }
}

fn single(b: u8) -> Kind
    ensures { result ≡ spec.single b }
{
    match b {
        b'.' => Kind::Dot,
        b',' => Kind::Comma,
        b';' => Kind::Semicolon,
        b'=' => Kind::Equal,
        b'+' => Kind::Plus,
        b'-' => Kind::Minus,
        b'*' => Kind::Star,
        b'(' => Kind::Open,
        b')' => Kind::Close,
        b'$' => Kind::Dollar,
        b'/' => Kind::Slash,
        _ => Kind::Bad,
    }
}

#[tactic(auto, unfolding(crate::specs::Lex::symbol))]
fn symbol(b: u8, next: u8) -> Cut
    ensures value { result ≡ spec.symbol b next }
    ensures short { (1 ≤ result.len) × (result.len ≤ 2) × (next ≡ 0 → result.len ≡ 1) }
{
    let (kind, len) = match (b, next) {
        (b'<', b'>') => (Kind::Unequal, 2),
        (b'<', b'=') => (Kind::LessEqual, 2),
        (b'<', _) => (Kind::Less, 1),
        (b'>', b'=') => (Kind::GreaterEqual, 2),
        (b'>', _) => (Kind::Greater, 1),
        _ => (single(b), 1),
    };
    Cut { kind, len }
}

/// The token at the front of a text that begins with no blank and no comment.
#[tactic(auto, unfolding(crate::specs::Lex::token))]
pub fn token(text: &[u8]) -> Cut
    ensures value { result ≡ spec.token text.now }
    ensures within { result.len ≤ length text.now }
    ensures moves { text.now ≢ [] → 1 ≤ result.len }
{
    let Some(first) = text.first() else {
        return Cut {
            kind: Kind::Finished,
            len: 0,
        };
    };
    let b = *first;
    if b.is_ascii_alphabetic() {
        word(text)
    } else if b.is_ascii_digit() {
        number(text)
    } else if b == b'\'' || b == b'"' {
        quoted(text)
    } else {
        symbol(b, byte(text, 1))
    }
}

pub fn same_kind(a: Kind, b: Kind) -> bool
    ensures value { result ≡ spec.same_kind a b }
    ensures same { result ≡ true → a ≡ b }
    ensures other { result ≡ false → a ≢ b }
{
    a == b
}

/// The text after a comment whose mark is behind.
fn after_comment(text: &[u8]) -> &[u8]
    ensures rest { result.now ≡ spec.after_comment text.now }
    ensures within { length result.now ≤ length text.now }
{
    &text[past(Class::Comment, text, 0)..]
}

/// The text from its first byte on that belongs to no blank and no comment.
#[tactic(auto, unfolding(crate::specs::Lex::skip))]
pub fn skip(mut text: &[u8]) -> &[u8]
    ensures rest { result.now ≡ spec.skip text.entry.now }
    ensures within { length result.now ≤ length text.entry.now }
    ensures starts { spec.starts result.now ≡ true }
{
    while let [b, rest @ ..] = text {
        if is_blank(*b) {
            text = rest;
        } else if *b == b'!' {
            text = after_comment(rest);
        } else {
            return text;
        }
    }
    text
}

/// One quote for each two.
fn undouble(alloc: Global, quote: u8, mut text: &[u8]) -> Result<Chars, AllocError>
    ensures { IfOk result (λ plain. plain ≡ spec.undouble quote false text.entry.now) }
{
    let mut plain = Chars::new(alloc);
    let mut is_second = false;
    while let [b, rest @ ..] = text {
        if is_second {
            is_second = false;
        } else {
            plain.push(*b)?;
            is_second = *b == quote;
        }
        text = rest;
    }
    Ok(plain)
}

fn ends_blank(text: &[u8]) -> bool
    ensures { result ≡ spec.ends_blank text.now }
{
    byte(text, text.len().saturating_sub(1)) == b' '
}

/// Without the blanks at its end.
fn trim(plain: &mut Chars)
    ensures { plain.new ≡ spec.trimmed plain.old }
{
    'blanks: while ends_blank(plain.as_slice()) {
        plain.pop();
    }
}

/// What stands between the quotes.
fn inside(text: &[u8]) -> &[u8]
    ensures { result.now ≡ spec.inside text.now }
{
    match text {
        [_, rest @ ..] => &rest[..text.len().saturating_sub(2)],
        [] => &[],
    }
}

/// The text that is spelled so.
#[tactic(auto, unfolding(crate::specs::Lex::text_value))]
pub fn text_value(alloc: Global, text: &[u8]) -> Result<Chars, AllocError>
    ensures { IfOk result (λ plain. plain ≡ spec.text_value text.now) }
{
    let mut plain = undouble(alloc, byte(text, 0), inside(text))?;
    trim(&mut plain);
    Ok(plain)
}

/// The name that is spelled so, in capitals.
#[tactic(auto, unfolding(crate::specs::Input::upper))]
pub fn upper(alloc: Global, text: &[u8]) -> Result<Chars, AllocError>
    ensures { IfOk result (λ name. name ≡ input.upper text.now) }
{
    Ok(Chars::from_vec(text.to_ascii_uppercase(alloc)?))
}
