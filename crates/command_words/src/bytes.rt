//! Capitals, digits and numbers in a word.
ghost use Rattle.std.specs.Prelude.{◌≡◌, ◌≤◌, ◌<◌, ◌^◌, ℤ, pos, IfNone, IfSome};
ghost use Rattle.std.specs.Option.{option_copied};
ghost use Rattle.std.specs.Char.{is_ascii_digit};
ghost use Rattle.std.specs.List.{list_all};
ghost use Rattle.command_words.specs.Bytes.{upper_of, digits_from, is_command, behind as behind_of};

pub fn to_upper(b: u8) -> u8
    ensures { result ≡ upper_of b }
{
    if 97 <= b && b <= 122 { b - 32 } else { b }
}

pub fn are_digits(bytes: &[u8]) -> bool
    ensures { result ≡ list_all is_ascii_digit bytes.now }
{
    bytes.iter().all(|b| b.is_ascii_digit())
}

/// The number that digits stand for, where it is below 2 ^ 63.
pub fn number_of(digits: &[u8]) -> Option<i64>
    ensures none { IfNone result (2 ^ 63 ≤ digits_from 0 digits.now) }
    ensures some { IfSome result (λ n. (digits_from 0 digits.now < 2 ^ 63) × (n ≡ pos (digits_from 0 digits.now))) }
{
    let mut value: u64 = 0;
    for d in digits {
        let next = 10 * u128::from(value) + u128::from(d.saturating_sub(48));
        if next >= 9223372036854775808 {
            return None;
        }
        value = next as u64;
    }
    Some(value as i64)
}

/// The bytes behind a name in capitals, case disregarded.
pub fn behind<'a>(name: &[u8], word: &'a [u8]) -> Option<&'a [u8]>
    ensures { option_copied result ≡ behind_of name.now word.now }
{
    let mut name = name;
    let mut rest = word;
    while let [c, names @ ..] = name {
        match rest {
            [b, more @ ..] if to_upper(*b) == *c => {
                name = names;
                rest = more;
            }
            _ => return None,
        }
    }
    Some(rest)
}

/// Whether a word is one that is named in capitals, case disregarded.
pub fn is_named(name: &[u8], word: &[u8]) -> bool
    ensures { result ≡ is_command name.now word.now }
{
    match behind(name, word) {
        Some([]) => true,
        Some([_, ..]) => false,
        None => false,
    }
}
