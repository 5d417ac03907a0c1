// Lines that are drawn from a seed.
use frac_core::OutOfMemory;

// A number below the limit, made from the seed, which moves on.
fn draw(seed: &mut u64, limit: u64) -> u64 {
    *seed = seed
        .wrapping_mul(6_364_136_223_846_793_005)
        .wrapping_add(1_442_695_040_888_963_407);
    (*seed >> 33).checked_rem(limit).unwrap_or(0)
}

// One of the words, by the seed, which moves on.
fn drawn(seed: &mut u64, words: &[&'static str]) -> &'static str {
    let place = draw(seed, words.len() as u64) as usize;
    match words.get(place) {
        Some(word) => word,
        None => "",
    }
}

// A number from 1 to 9.
fn digit(seed: &mut u64) -> u64 {
    draw(seed, 9).saturating_add(1)
}

// Appends an attribute of one of three views.
fn push_attr(line: &mut String, seed: &mut u64) -> Result<(), OutOfMemory> {
    let view = drawn(seed, &["a", "b", "c"]);
    let word = drawn(seed, &["left", "width", "right", "centerX"]);
    Ok(write!(line, "{view}.{word}")?)
}

// Appends the first term, with a factor.
fn push_first(line: &mut String, seed: &mut u64) -> Result<(), OutOfMemory> {
    let factor = digit(seed);
    write!(line, "constrain g {factor}*")?;
    push_attr(line, seed)
}

// Appends the second term, with a factor and a part below it.
fn push_second(line: &mut String, seed: &mut u64) -> Result<(), OutOfMemory> {
    let (factor, part) = (digit(seed), digit(seed));
    write!(line, " + {factor}/{part}*")?;
    push_attr(line, seed)
}

// Appends a sign and a constant.
fn push_rest(line: &mut String, seed: &mut u64) -> Result<(), OutOfMemory> {
    let sign = drawn(seed, &["==", "<=", ">="]);
    let constant = draw(seed, 100);
    Ok(write!(line, " {sign} {constant}")?)
}

/// Appends a required line over two of three views.
pub fn push_line(line: &mut String, seed: &mut u64) -> Result<(), OutOfMemory> {
    push_first(line, seed)?;
    push_second(line, seed)?;
    push_rest(line, seed)
}
