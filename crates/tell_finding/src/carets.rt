// A line with a caret below it.
use crate::chars::char_place;
use tell_mend::{Reader, cut};

// How many characters of a line are shown.
const SHOWN: usize = 120;

/// Appends the characters after the first `hidden`, at most `SHOWN`, with `..` for those left out.
pub fn put_shown(reader: &mut Reader, out: &mut Vec<u8>, text: &[u8], hidden: usize) {
    let (_, rest) = cut(text, char_place(text, hidden));
    let (shown, more) = cut(rest, char_place(rest, SHOWN));
    if hidden > 0 {
        reader.put(out, b"..");
    }
    reader.put(out, shown);
    if !more.is_empty() {
        reader.put(out, b"..");
    }
}

// Appends a blank for each shown character before the place `end`, and a tab for each tab.
fn put_below(reader: &mut Reader, out: &mut Vec<u8>, text: &str, hidden: usize, end: usize) {
    let mut place: usize = 0;
    if hidden > 0 {
        reader.put(out, b"  ");
    }
    for c in text.chars() {
        if place >= hidden && place < end {
            reader.put(out, if c == '\t' { b"\t" } else { b" " });
        }
        place = place.saturating_add(1);
    }
}

/// Appends the line, and below it a caret in this column, followed by `~` up to this width. Of a line with
/// more than 120 characters only a part is shown.
pub fn put_caret(reader: &mut Reader, out: &mut Vec<u8>, text: &str, column: usize, width: usize) {
    let hidden = if column < SHOWN {
        0
    } else {
        column.saturating_sub(60)
    };
    reader.put(out, b"    ");
    put_shown(reader, out, text.as_bytes(), hidden);
    reader.put(out, b"\n    ");
    put_below(reader, out, text, hidden, column.saturating_sub(1));
    reader.put(out, b"^");
    for _ in 1..width.min(SHOWN) {
        reader.put(out, b"~");
    }
    reader.put(out, b"\n");
}
