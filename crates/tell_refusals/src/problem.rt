// The problem of a line that is refused because a number is too large or the budget is used up, with its
// path.
use claim_writing::{problem_text, rows_text};
use frac_core::Frac;
use problem_core::{Problem, Row, Stay, row_of};
use span_text::lines;
use std::slice;
use tell_mend::{Reader, parted};

// The lines of a reply after the first.
fn after_head(reply: &[u8]) -> &[u8] {
    parted(reply, b'\n').1
}

/// Whether the problem of the stopped run with this reply has only rows of the line's own problem: none of a
/// probe, of a sweep, or of rows that were leaving.
pub(crate) fn is_own(reply: &[u8]) -> bool {
    let place = after_head(reply);
    !place.starts_with(b"still ") && !place.starts_with(b"probe ") && !place.starts_with(b"sweep ")
}

// The row's number in this text; the greatest number, which no row has, if it is none.
fn id_of(text: &[u8]) -> u32 {
    let text = std::str::from_utf8(text).unwrap_or("");
    text.parse::<u32>().unwrap_or(u32::MAX)
}

/// The row of this number.
pub(crate) fn row_at(problem: &Problem, id: u32) -> Option<&Row> {
    problem.show_whole(); // for the proof: its rows have rising numbers
    row_of(problem.rows(), id)
}

// The row in a reply's line `held NUMBER`: one of the rows that were tried alone.
fn tried<'p>(problem: &'p Problem, line: &[u8]) -> Option<&'p Row> {
    row_at(problem, id_of(line.strip_prefix(b"held ")?))
}

// Appends the rows that were tried alone.
fn put_tried(reader: &mut Reader, out: &mut Vec<u8>, problem: &Problem, reply: &[u8]) {
    for line in lines(reply) {
        if let Some(row) = tried(problem, line.bytes) {
            reader.fail_if(rows_text(slice::from_ref(row), &[], out).is_err());
        }
    }
}

// Appends each attribute's stay at 0.
fn put_drawn(reader: &mut Reader, out: &mut Vec<u8>, problem: &Problem) {
    for stay in problem.stays() {
        let drawn = Stay {
            attr: stay.attr,
            target: Frac::zero(),
        };
        reader.fail_if(rows_text(&[], &[drawn], out).is_err());
    }
}

// Appends the path of the reply.
fn put_path(reader: &mut Reader, out: &mut Vec<u8>, reply: &[u8]) {
    for line in lines(after_head(reply)) {
        if !line.bytes.starts_with(b"held ") {
            reader.put_all(out, &[line.bytes, b"\n"]);
        }
    }
}

// Why a line with this reply has no problem; empty if it has one.
fn reason(reply: &[u8]) -> &'static [u8] {
    if !reply.starts_with(b"refused 7 ") && !reply.starts_with(b"refused 8 ") {
        b"no problem: the line isn't refused by 7 or 8\n"
    } else if is_own(reply) {
        b""
    } else {
        b"no problem: the path is not one of the line's own rows alone\n"
    }
}

/// Appends why a line with this reply has no problem to print. Says whether it has one.
pub fn has_problem(reader: &mut Reader, out: &mut Vec<u8>, reply: &[u8]) -> bool {
    let reason = reason(reply);
    reader.put(out, reason);
    reason.is_empty()
}

/// Appends the problem of the stopped run with this reply and its path, in the form that `layout check` reads.
/// The problem is the one that the refused line would solve.
pub fn put_problem(reader: &mut Reader, out: &mut Vec<u8>, problem: &Problem, reply: &[u8]) {
    if after_head(reply).starts_with(b"held ") {
        put_tried(reader, out, problem, reply);
        put_drawn(reader, out, problem);
    } else {
        reader.fail_if(problem_text(problem, out).is_err());
    }
    put_path(reader, out, reply);
}
