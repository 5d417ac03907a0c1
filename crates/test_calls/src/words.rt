// The words of headings and calls.
use frac_core::OutOfMemory;
use std::alloc::Global;

/// The number that a word says, and 0 where it says none.
pub fn number_of(word: &str) -> usize {
    word.parse::<usize>().unwrap_or(0)
}

/// The list of the call that fails, if the word is a number.
pub fn fails_of(alloc: Global, word: &str) -> Result<Vec<u64>, OutOfMemory> {
    let mut fails = Vec::new(alloc);
    if let Ok(call) = word.parse::<u64>() {
        fails.push(call)?;
    }
    Ok(fails)
}
