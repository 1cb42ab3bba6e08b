//! The copies of the journal that RMU/RECOVER names.
ghost use Rattle.std.specs.Prelude.{◌≡◌, All, IfOk, IfSome};
ghost use Rattle.std.specs.List.{list_all};
ghost use Rattle.command_words.specs.Copies.{is_copy as copy, numbers_in, copies_in};
ghost use Rattle.command_words.specs.Options.{number_in as number_in_range};
ghost use Rattle.command_words.specs.Words.{IsCopyNumber};

use crate::options::number_in;
use rdb_types::{Items, NoMemory, Word};
use std::alloc::Global;

/// The most copies that a command names.
pub const MOST_COPIES: usize = 9;

// The number of a copy.
fn copy_in(word: &Word) -> Option<u32>
    ensures value { result ≡ number_in_range 1 9 word.now }
    ensures range { IfSome result (λ number. IsCopyNumber number) }
{
    number_in(1, 9, word.as_slice())
}

/// Whether each of the words is the number of a copy.
pub fn are_copies(words: &[Word]) -> bool
    ensures { result ≡ list_all copy words.now }
{
    words.iter().all(|word| copy_in(word).is_some())
}

// The numbers of copies among the words.
fn numbers_of(alloc: Global, words: &[Word]) -> Result<Items<u32>, NoMemory>
    ensures value { IfOk result (λ numbers. numbers ≡ numbers_in words.now) }
    ensures range { IfOk result (λ numbers. All IsCopyNumber numbers) }
{
    let numbers = words
        .iter()
        .filter_map(|word| copy_in(word))
        .collect(alloc)?;
    Ok(Items::from_vec(numbers))
}

/// The numbers of the copies that stand behind a command word and a database, in order. Err where memory is wanted.
pub fn copies_of(alloc: Global, words: &[Word]) -> Result<Items<u32>, NoMemory>
    ensures value { IfOk result (λ copies. copies ≡ copies_in words.now) }
    ensures range { IfOk result (λ copies. All IsCopyNumber copies) }
{
    match words {
        [_, _, numbers @ ..] => numbers_of(alloc, numbers),
        _ => Ok(Items::new(alloc)),
    }
}
