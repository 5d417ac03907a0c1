// Mends a line that leaves the grammar. A line that is suggested has been read by the grammar's reader.
use crate::asking::expected;
use crate::bytes::{before_sign, cut, ends_in_digit, ends_in_word, number_len, parted, word_start};
use crate::cures::{ADVICE, CURES, Cure, FIRST_CURES};
use crate::near::likest;
use crate::reader::Reader;
use crate::words::{Word, word_of};
use script_text::is_version_line;
use span_text::pieces::{begins_with_word, word_len};
use span_text::{first_word, lines};

// The most mistakes of a line that are mended.
const ROUNDS: usize = 6;

const LIKE: &[u8] = b"a word is written otherwise; capital letters count";

// A text, and its parts to the left and to the right of a mistake.
#[derive(Clone, Copy)]
struct Sick<'a> {
    text: &'a [u8],
    front: &'a [u8],
    rest: &'a [u8],
}

// The first byte; 0 if the text is empty.
fn first_byte(text: &[u8]) -> u8 {
    match text {
        [b, ..] => *b,
        [] => 0,
    }
}

// The text before the word at its end.
fn before_word(text: &[u8]) -> &[u8] {
    cut(text, word_start(text)).0
}

// Whether a condition holds that wants a number to the left. `front` ends with a digit.
fn holds_after_number(condition: &[u8], front: &[u8], rest: &[u8]) -> bool {
    match condition {
        b"behind" => true,
        b"digits" => first_byte(rest).is_ascii_digit(),
        b"exponent" => first_byte(rest).is_ascii_alphabetic(),
        b"number" => !rest.starts_with(b"."),
        b"numbers" => number_len(rest) > 0,
        b"fraction" => before_word(front).ends_with(b"/"),
        _ => false,
    }
}

// Whether a condition holds that wants a kind of text to the right.
fn holds_before(condition: &[u8], rest: &[u8]) -> bool {
    match condition {
        b"letter" => first_byte(rest).is_ascii_alphabetic(),
        b"foreign" => !first_byte(rest).is_ascii(),
        b"share" => cut(rest, number_len(rest)).1.starts_with(b"%"),
        _ => false,
    }
}

// Whether the condition of an edit holds.
fn holds(condition: &[u8], sick: Sick<'_>) -> bool {
    let Sick { text, front, rest } = sick;
    match condition {
        b"" => true,
        b"name" => ends_in_word(front) && begins_with_word(rest),
        b"format" => begins_with_word(rest) && matches!(word_of(text).0, Word::Vfl),
        b"other" => !matches!(word_of(text).0, Word::Constrain),
        _ if holds_before(condition, rest) => true,
        _ => ends_in_digit(front) && holds_after_number(condition, front, rest),
    }
}

// Puts a line together. Always true, so that an edit may end with it.
fn made(reader: &mut Reader, out: &mut Vec<u8>, texts: &[&[u8]]) -> bool {
    out.clear();
    reader.put_all(out, texts);
    true
}

// Removes the unit right after a number. Points are the unit of all numbers.
fn put_plain(reader: &mut Reader, out: &mut Vec<u8>, sick: Sick<'_>) -> bool {
    let (unit, after) = cut(sick.rest, word_len(sick.rest));
    let is_point = matches!(unit, b"px" | b"pt" | b"dp" | b"pts" | b"points");
    is_point && ends_in_digit(sick.front) && made(reader, out, &[sick.front, after])
}

// Puts the size up to the next sign of a format in parentheses, without a blank before it.
fn put_wrapped(reader: &mut Reader, out: &mut Vec<u8>, sick: Sick<'_>) -> bool {
    let (size, after) = cut(sick.rest, before_sign(sick.rest, b"[]-|)"));
    let front = sick.front.trim_ascii_end();
    !size.is_empty() && made(reader, out, &[front, b"(", size, b")", after])
}

// Puts a group's name after the line's first word.
fn put_group(reader: &mut Reader, out: &mut Vec<u8>, text: &[u8]) -> bool {
    let (word, after) = first_word(text).unwrap_or((b"", b""));
    !after.is_empty() && made(reader, out, &[word, b" g", after])
}

// Puts the line with `_` for `-` in its group's name.
fn put_hyphens(reader: &mut Reader, out: &mut Vec<u8>, text: &[u8]) -> bool {
    let (word, rest) = first_word(text).unwrap_or((b"", b""));
    let (group, after) = first_word(rest).unwrap_or((b"", b""));
    if !group.contains(&b'-') {
        return false;
    }
    made(reader, out, &[word, b" "]);
    for b in group {
        reader.put(out, &[if *b == b'-' { b'_' } else { *b }]);
    }
    reader.put(out, after);
    true
}

// Where the attribute or the metric at the end of the text begins.
fn operand_start(text: &[u8]) -> usize {
    let name = word_start(text);
    match before_word(text).strip_suffix(b".") {
        Some(view) => word_start(view),
        None => name,
    }
}

// Moves the number after a sign in front of the attribute before the sign, after this text.
fn put_times(reader: &mut Reader, out: &mut Vec<u8>, sick: Sick<'_>, lead: &[u8]) -> bool {
    let (front, rest) = (sick.front.trim_ascii_end(), sick.rest.trim_ascii_start());
    let (before, operand) = cut(front, operand_start(front));
    let (number, after) = cut(rest, number_len(rest));
    let is_product = !operand.is_empty() && !number.is_empty();
    is_product && made(reader, out, &[before, lead, number, b"*", operand, after])
}

// Puts a command and a group's name in front of a relation.
fn put_relation(reader: &mut Reader, out: &mut Vec<u8>, text: &[u8]) -> bool {
    let has_relation = before_sign(text, b"<=>") < text.len();
    has_relation && made(reader, out, &[b"constrain g ", text])
}

// Puts the line after an edit that is a word. Says whether there is such a line.
fn put_worded(reader: &mut Reader, out: &mut Vec<u8>, edit: &[u8], sick: Sick<'_>) -> bool {
    match edit {
        b"rest" => made(reader, out, &[sick.front.trim_ascii_end()]),
        b"unit" => put_plain(reader, out, sick),
        b"wrap" => put_wrapped(reader, out, sick),
        b"group" => put_group(reader, out, sick.text),
        b"hyphens" => put_hyphens(reader, out, sick.text),
        b"relation" => put_relation(reader, out, sick.text),
        _ => put_times(
            reader,
            out,
            sick,
            edit.strip_prefix(b"times").unwrap_or(edit),
        ),
    }
}

// Puts the line after an edit. Says whether there is such a line.
fn put_edited(reader: &mut Reader, out: &mut Vec<u8>, edit: &[u8], sick: Sick<'_>) -> bool {
    if !edit.contains(&b'=') {
        return put_worded(reader, out, edit, sick);
    }
    let (condition, by) = parted(edit, b'=');
    holds(condition, sick) && made(reader, out, &[sick.front, by, sick.rest])
}

// The parts of the text beside the mistake, if it is this cure's.
fn sick_of<'a>(cure: Cure, text: &'a [u8], at: usize) -> Option<Sick<'a>> {
    let (front, rest) = cut(text, at);
    let front = front.strip_suffix(cure.before)?;
    let rest = rest.strip_prefix(cure.there)?;
    Some(Sick { text, front, rest })
}

// The latest trial, and the best one so far: its text, how much of it is wrong, and the words of its cure.
#[derive(Drop)]
struct Search {
    trial: Vec<u8>,
    best: Vec<u8>,
    lack: usize,
    words: &'static [u8],
}

// Keeps the trial if less of it is wrong.
fn keep(reader: &mut Reader, search: &mut Search, words: &'static [u8]) {
    let lack = reader.lack(&search.trial);
    if lack < search.lack {
        search.lack = lack;
        search.words = words;
        search.best.clear();
        reader.put(&mut search.best, &search.trial);
    }
}

// Tries the cures in these rows.
fn try_rows(reader: &mut Reader, search: &mut Search, rows: &'static str, text: &[u8], at: usize) {
    let mut words: &[u8] = b"";
    for row in lines(rows.as_bytes()) {
        let cure = Cure::of(row.bytes, words);
        words = cure.words;
        match sick_of(cure, text, at) {
            Some(sick) if put_edited(reader, &mut search.trial, cure.edit, sick) => {
                keep(reader, search, words)
            }
            _ => (),
        }
    }
}

// The word of the line at this place.
fn word_at(line: &[u8], at: usize) -> &str {
    let (front, rest) = cut(line, at);
    let start = word_start(front);
    let end = at.saturating_add(word_len(rest));
    let word = line.get(start..end).unwrap_or(b"");
    std::str::from_utf8(word).unwrap_or("")
}

// Tries the expected word most similar to the one there.
fn try_likest(reader: &mut Reader, search: &mut Search, text: &[u8], at: usize) {
    let words = expected(reader, text, at);
    let word = likest(reader, word_at(text, at), &words);
    if !word.is_empty() {
        let (front, rest) = cut(text, at);
        let before = before_word(front);
        let after = cut(rest, word_len(rest)).1;
        made(reader, &mut search.trial, &[before, word.as_bytes(), after]);
        keep(reader, search, LIKE);
    }
    drop(words);
}

// Tries all cures.
fn try_all(reader: &mut Reader, search: &mut Search, text: &[u8], at: usize) {
    try_rows(reader, search, FIRST_CURES, text, at);
    try_likest(reader, search, text, at);
    try_rows(reader, search, CURES, text, at);
}

// Mends one mistake of the text, at the place where it leaves the grammar. Returns the words of the cure;
// empty if no cure makes less of the text wrong.
fn mend_once(reader: &mut Reader, text: &mut Vec<u8>, at: usize) -> &'static [u8] {
    let mut search = Search {
        trial: Vec::new(reader.alloc()),
        best: Vec::new(reader.alloc()),
        lack: text.len().saturating_sub(at).saturating_add(1),
        words: b"",
    };
    try_all(reader, &mut search, text, at);
    if !search.words.is_empty() {
        text.clear();
        reader.put(text, &search.best);
    }
    let words = search.words;
    drop(search);
    words
}

/// Mends the text mistake by mistake, and appends the words of each cure as a line. Says whether the text is
/// a line now.
pub fn mend(reader: &mut Reader, text: &mut Vec<u8>, what: &mut Vec<u8>) -> bool {
    let mut last: &[u8] = b"";
    for _ in 0..ROUNDS {
        let Some(at) = reader.leaves(text) else {
            return true;
        };
        let did = mend_once(reader, text, at);
        if did.is_empty() {
            return false;
        }
        if did != last {
            reader.put_all(what, &[did, b"\n"]);
        }
        last = did;
    }
    reader.leaves(text).is_none()
}

/// The advice on a known mistake that only the line's author can mend; empty if there is none.
pub fn advice(text: &[u8], at: usize) -> &'static [u8] {
    let mut words: &[u8] = b"";
    for row in lines(ADVICE.as_bytes()) {
        let cure = Cure::of(row.bytes, words);
        words = cure.words;
        match sick_of(cure, text, at) {
            Some(sick) if holds(cure.edit, sick) => return words,
            _ => (),
        }
    }
    b""
}

/// The text to the left of the place, if it is a line and a blank follows it; else an empty text.
pub fn whole_front<'a>(reader: &mut Reader, text: &'a [u8], at: usize) -> &'a [u8] {
    let (front, rest) = cut(text, at);
    let is_apart = front.ends_with(b" ") || rest.starts_with(b" ");
    let front = front.trim_ascii_end();
    if is_apart && reader.leaves(front).is_none() {
        front
    } else {
        b""
    }
}

const OTHER_VERSION: &[u8] = b"this is a line of version 2: let the script begin with `layout 2`";

const FIRST_LINE: &[u8] =
    b"`layout 2` stands only as a script's first line that isn't blank or a comment";

/// The advice on a line that another version takes, or that belongs at another place; else an empty text.
pub fn elsewhere(reader: &mut Reader, line: &[u8]) -> &'static [u8] {
    if is_version_line(line) {
        FIRST_LINE
    } else if reader.is_new(line) {
        OTHER_VERSION
    } else {
        b""
    }
}
