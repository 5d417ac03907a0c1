// A finding as text for people.
use crate::carets::{put_caret, put_shown};
use crate::finding::{items_of, number_of, text_of};
use serde_json::Value;
use tell_mend::{Reader, cut};

// LABEL~MEMBER~SEPARATOR: the members that are a text or a list of texts. Cures contain commas, so they are
// separated by `;`.
const LABELS: &str = "\
expected~expected~,
form~form~;
why~why~;
cure~cure~;
so~mended~;
then~then~;
probe~probe~;";

// Appends a text, or the texts of a list with a separator between them. Only one of them isn't empty.
fn put_texts(reader: &mut Reader, out: &mut Vec<u8>, items: &[Value], between: &str) {
    for (place, item) in items.iter().enumerate() {
        if place > 0 {
            reader.put_all(out, &[between.as_bytes(), b" "]);
        }
        reader.put(out, item.as_str().unwrap_or("").as_bytes());
    }
}

// Appends the member that a row of the labels names, if there is one.
fn put_member(reader: &mut Reader, out: &mut Vec<u8>, finding: &Value, row: &str) {
    let (label, rest) = row.split_once('~').unwrap_or((row, ""));
    let (key, between) = rest.split_once('~').unwrap_or((rest, ""));
    let (text, items) = (text_of(finding, key), items_of(finding, key));
    if text.is_empty() && items.is_empty() {
        return;
    }
    reader.put_all(out, &[b"    ", label.as_bytes(), b": ", text.as_bytes()]);
    put_texts(reader, out, items, between);
    reader.put(out, b"\n");
}

// Appends the line that a row comes from.
fn put_source(reader: &mut Reader, out: &mut Vec<u8>, item: &Value) {
    let text = text_of(item, "text");
    if text.is_empty() {
        return reader.put(out, b"the window itself");
    }
    reader.put(out, b"line ");
    reader.put_number(out, number_of(item, "line"));
    reader.put(out, b": ");
    put_shown(reader, out, text.as_bytes(), 0);
}

// Appends a row's multiplier, right-aligned.
fn put_times(reader: &mut Reader, out: &mut Vec<u8>, item: &Value) {
    let mut times = Vec::new(reader.alloc());
    reader.put_number(&mut times, number_of(item, "times"));
    let blanks = cut(b"    ", times.len()).1;
    reader.put_all(out, &[b"    ", blanks, &times, b" times "]);
    drop(times);
}

// Appends a row of a conflict.
fn put_row(reader: &mut Reader, out: &mut Vec<u8>, item: &Value) {
    put_times(reader, out, item);
    put_source(reader, out, item);
    let (row, note) = (text_of(item, "row"), text_of(item, "note"));
    reader.put_all(out, &[b" [", row.as_bytes(), b"]", note.as_bytes(), b"\n"]);
}

// Appends an ambiguous attribute.
fn put_open(reader: &mut Reader, out: &mut Vec<u8>, item: &Value) {
    let (attr, value) = (text_of(item, "attribute"), text_of(item, "value"));
    let (reach, pin) = (text_of(item, "reach"), text_of(item, "pin"));
    reader.put_all(out, &[b"    ", attr.as_bytes(), b" is ", value.as_bytes()]);
    reader.put_all(out, &[b", and could be ", reach.as_bytes()]);
    reader.put_all(out, &[b"; to pin it: ", pin.as_bytes(), b"\n"]);
}

// Appends the line with a caret.
fn put_marked(reader: &mut Reader, out: &mut Vec<u8>, finding: &Value) {
    let column = usize::try_from(number_of(finding, "column")).unwrap_or(0);
    let width = usize::try_from(number_of(finding, "width")).unwrap_or(0);
    put_caret(reader, out, text_of(finding, "text"), column, width);
}

// Appends the line's number, where its cause shows, and its reply.
fn put_head(reader: &mut Reader, out: &mut Vec<u8>, finding: &Value) {
    reader.put(out, b"line ");
    reader.put_number(out, number_of(finding, "line"));
    reader.put(out, b", column ");
    reader.put_number(out, number_of(finding, "column"));
    reader.put_all(out, &[b": ", text_of(finding, "reply").as_bytes(), b"\n"]);
}

/// Appends the finding as text.
pub fn put_people(reader: &mut Reader, out: &mut Vec<u8>, finding: &Value) {
    put_head(reader, out, finding);
    put_marked(reader, out, finding);
    for row in LABELS.lines() {
        put_member(reader, out, finding, row);
    }
    for item in items_of(finding, "rows") {
        put_row(reader, out, item);
    }
    for item in items_of(finding, "open") {
        put_open(reader, out, item);
    }
}
