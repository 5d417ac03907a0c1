// The words and the source of a run, by its options.
use crate::lines::text_of;
use crate::options::number_after;
use edge_io::MemorySource;
use frac_core::OutOfMemory;
use std::alloc::Global;

/// The words of a command line.
pub fn words_of(alloc: Global, words: &str) -> Result<Vec<String>, OutOfMemory> {
    let mut list = Vec::new(alloc);
    for word in words.split_whitespace() {
        list.push(String::from_str(alloc, word)?)?;
    }
    Ok(list)
}

// The greatest size of each pull, where the options say one.
fn sizes_of(alloc: Global, options: &str, len: usize) -> Result<Vec<usize>, OutOfMemory> {
    match number_after(options, "pulls") {
        Some(size) => Ok(vec![in alloc; size; len.saturating_add(1)]?),
        None => Ok(Vec::new(alloc)),
    }
}

/// The list of one call, or of none.
pub fn calls(alloc: Global, call: Option<usize>) -> Result<Vec<u64>, OutOfMemory> {
    let mut list = Vec::new(alloc);
    if let Some(call) = call {
        list.push(call as u64)?;
    }
    Ok(list)
}

fn push_repeated(whole: &mut Vec<u8>, part: &[u8], times: usize) -> Result<(), OutOfMemory> {
    for _ in 0..times {
        whole.extend_from_slice(part)?;
    }
    Ok(())
}

// Appends the text, with what stands between two bytes `~` so many times in place of once.
fn push_inner(whole: &mut Vec<u8>, text: &str, times: usize) -> Result<(), OutOfMemory> {
    let mut is_inner = false;
    for part in text.split("~") {
        push_repeated(whole, part.as_bytes(), if is_inner { times } else { 1 })?;
        is_inner = !is_inner;
    }
    Ok(())
}

// Appends the input of a run, by what the options say of the text.
fn push_input(whole: &mut Vec<u8>, options: &str, text: &[u8]) -> Result<(), OutOfMemory> {
    match number_after(options, "inner") {
        Some(times) => push_inner(whole, text_of(text), times),
        None => push_repeated(whole, text, number_after(options, "times").unwrap_or(1)),
    }
}

fn input_of(alloc: Global, options: &str, text: &[u8]) -> Result<Vec<u8>, OutOfMemory> {
    let mut whole = Vec::new(alloc);
    push_input(&mut whole, options, text)?;
    Ok(whole)
}

// The source of this input.
fn source_over(alloc: Global, options: &str, whole: Vec<u8>) -> Result<MemorySource, OutOfMemory> {
    let sizes = sizes_of(alloc, options, whole.len())?;
    let fails = calls(alloc, number_after(options, "fails"))?;
    Ok(MemorySource::new(whole, sizes, fails))
}

/// The source of a run in memory, by the options.
pub fn source_of(alloc: Global, options: &str, text: &[u8]) -> Result<MemorySource, OutOfMemory> {
    source_over(alloc, options, input_of(alloc, options, text)?)
}
