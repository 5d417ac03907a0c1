// Lines of problems and replies, as text.
use frac_core::OutOfMemory;

/// The bytes as a text, which is empty where they are none.
pub fn text_of(bytes: &[u8]) -> &str {
    std::str::from_utf8(bytes).unwrap_or("")
}

/// The two parts of a line behind this word, cut at the first blank, if it begins so and has both.
pub fn parts<'a>(line: &'a str, word: &str) -> Option<(&'a str, &'a str)> {
    line.strip_prefix(word)?.split_once(" ")
}

/// The number of the row of a line, if it is a row's.
pub fn row_number(line: &str) -> Option<&str> {
    match parts(line, "row ") {
        Some((number, _)) => Some(number),
        None => None,
    }
}

/// The line of the row of this number, if there is one.
pub fn row_of<'a>(problem: &'a str, number: &str) -> Option<&'a str> {
    for line in problem.lines() {
        if row_number(line) == Some(number) {
            return Some(line);
        }
    }
    None
}

/// Whether a line of these is the word with the number of a row behind it.
pub fn is_named(lines: &str, word: &str, number: &str) -> bool {
    for line in lines.lines() {
        if line.strip_prefix(word) == Some(number) {
            return true;
        }
    }
    false
}

/// Appends a line.
pub fn push_whole(text: &mut String, line: &str) -> Result<(), OutOfMemory> {
    Ok(writeln!(text, "{line}")?)
}

/// Which lines are taken.
pub trait Taken {
    fn has(&self, line: &str) -> bool;
}

/// Appends those of the lines that are taken.
pub fn push_taken<T: Taken>(text: &mut String, lines: &str, taken: &T) -> Result<(), OutOfMemory> {
    for line in lines.lines() {
        if taken.has(line) {
            push_whole(text, line)?;
        }
    }
    Ok(())
}

/// The lines with this front.
#[derive(Clone, Copy)]
pub struct Fronted<'a>(pub &'a str);

impl Taken for Fronted<'_> {
    fn has(&self, line: &str) -> bool {
        line.starts_with(self.0)
    }
}

/// The rows that lines name by this word, but for one.
#[derive(Clone, Copy)]
pub struct Named<'a> {
    pub lines: &'a str,
    pub word: &'a str,
    pub but: &'a str,
}

impl Taken for Named<'_> {
    fn has(&self, line: &str) -> bool {
        match row_number(line) {
            Some(number) => number != self.but && is_named(self.lines, self.word, number),
            None => false,
        }
    }
}

fn push_stay(text: &mut String, attr: &str, value: &str) -> Result<(), OutOfMemory> {
    Ok(writeln!(text, "stay {attr} {value}")?)
}

/// Appends a stay for the attribute of each line with this word, at this value, or at that of the line.
pub fn push_stays(
    text: &mut String,
    lines: &str,
    word: &str,
    at: Option<&str>,
) -> Result<(), OutOfMemory> {
    for line in lines.lines() {
        if let Some((attr, value)) = parts(line, word) {
            push_stay(text, attr, at.unwrap_or(value))?;
        }
    }
    Ok(())
}

/// How many rows the text of a problem has.
pub fn row_count(problem: &str) -> usize {
    let mut count: usize = 0;
    for line in problem.lines() {
        if row_number(line).is_some() {
            count = count.saturating_add(1);
        }
    }
    count
}
