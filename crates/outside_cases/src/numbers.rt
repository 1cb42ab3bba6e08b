// Numbers in a line.
use case_words::number_of;
use rdb_types::NoMemory;
use std::alloc::Global;

/// The number at this place, from 0; 0 where there is none.
pub fn nth(words: &str, nth: usize) -> u32 {
    number_of(words.split(' ').nth(nth)).unwrap_or(0)
}

/// The numbers behind a word, and those behind another.
pub fn numbers_behind(alloc: Global, words: &str, word: &str) -> Result<Vec<u32>, NoMemory> {
    let mut numbers = Vec::new(alloc);
    let mut is_behind = false;
    for text in words.split(' ') {
        match number_of(Some(text)) {
            Some(number) => if is_behind {
                numbers.push(number)?;
            },
            None => is_behind = text == word,
        }
    }
    Ok(numbers)
}
