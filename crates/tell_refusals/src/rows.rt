// Rows as relations, and the lines that they are from.
use crate::attributes::put_attr;
use crate::problem::row_at;
use crate::shares::{Share, put_share};
use crate::telling::Telling;
use frac_core::{Frac, Wide};
use problem_core::{Problem, REQUIRED, Row, Term};
use tell_finding::Finding;
use tell_mend::{Reader, Word, line_at, word_of};
use view_tree::Tree;

// The sign before a term.
fn sign_of(term: &Term, is_first: bool) -> &'static [u8] {
    match (is_first, term.by < 0) {
        (true, false) => b"",
        (true, true) => b"-",
        (false, false) => b" + ",
        (false, true) => b" - ",
    }
}

// Appends a term.
fn put_term(reader: &mut Reader, out: &mut Vec<u8>, tree: &Tree, term: &Term) {
    let by = term.by.saturating_abs();
    if by != 1 {
        reader.put_number(out, by);
        reader.put(out, b"*");
    }
    put_attr(reader, out, tree, term.attr);
}

// Appends the sum of terms.
fn put_terms(reader: &mut Reader, out: &mut Vec<u8>, tree: &Tree, terms: &[Term]) {
    for (place, term) in terms.iter().enumerate() {
        reader.put(out, sign_of(term, place == 0));
        put_term(reader, out, tree, term);
    }
    if terms.is_empty() {
        reader.put(out, b"0");
    }
}

// Appends the scale and the priority of a row, unless they are the usual ones.
fn put_weight(reader: &mut Reader, out: &mut Vec<u8>, row: &Row) {
    if row.scale() != 1 {
        reader.put(out, b", both sides times ");
        reader.put_number(out, row.scale());
    }
    if row.rank() != REQUIRED {
        reader.put(out, b" @");
        reader.put_number(out, row.rank() as i64);
    }
}

// Appends a row as a relation.
fn put_row(reader: &mut Reader, out: &mut Vec<u8>, tree: &Tree, row: &Row) {
    put_terms(reader, out, tree, row.terms());
    reader.put_all(out, &[b" ", row.rel().word().as_bytes(), b" "]);
    reader.put_frac(out, Wide::from(row.constant()));
    put_weight(reader, out, row);
}

// Whether one of the held rows is the row with another constant.
fn is_moved(held: &[Row], row: &Row) -> bool {
    for other in held {
        if other.id() == row.id() {
            return other.constant() != row.constant();
        }
    }
    false
}

/// The line that a row is from.
#[derive(Clone, Copy)]
pub(crate) struct Source {
    /// The line's number; 0 for the window itself.
    pub number: usize,
    /// Whether it is the refused line.
    pub is_own: bool,
    /// Whether it makes views, or is the window. Then no line has to say the row.
    pub is_bound: bool,
}

impl Telling<'_> {
    /// The line that the row of this number is from.
    pub(crate) fn source_of(&self, id: u32) -> Source {
        let owner = self.owners.of(id);
        let number = owner.unwrap_or(self.number);
        let is_own = owner.is_none();
        let makes = matches!(
            word_of(line_at(self.script, number)).0,
            Word::View | Word::Tree
        );
        Source {
            number,
            is_own,
            is_bound: !is_own && (number == 0 || makes),
        }
    }

    // Sets the line that rows are from.
    fn set_source(&self, item: &mut Finding, source: Source) {
        if source.number > 0 {
            item.set_count("line", source.number);
            item.set_text("text", line_at(self.script, source.number));
        }
    }

    // Sets the first row of a share as a relation, or how many rows it has, and what it adds.
    fn set_row(&mut self, item: &mut Finding, row: &Row, share: &Share, gap: Frac) {
        let mut words = Vec::new(self.alloc());
        if share.count == 1 {
            put_row(&mut self.reader, &mut words, self.parts.tree, row);
        } else {
            self.reader.put_count(&mut words, share.count);
            self.reader.put(&mut words, b" rows");
        }
        item.set_text("row", &words);
        drop(words);
        self.set_note(item, row, share, gap);
    }

    // Sets what a share adds, and what is peculiar to its rows.
    fn set_note(&mut self, item: &mut Finding, row: &Row, share: &Share, gap: Frac) {
        let mut note = Vec::new(self.alloc());
        if share.source.is_bound {
            self.reader
                .put(&mut note, b", which holds without being said");
        } else if is_moved(self.parts.rows, row) {
            self.reader
                .put(&mut note, b", as the refused line would have it");
        }
        put_share(&mut self.reader, &mut note, share, gap);
        item.set_text("note", &note);
        drop(note);
    }

    /// An object of a share: its multiplier, its line, its row or rows, and what they add.
    pub(crate) fn item_of(&mut self, problem: &Problem, share: &Share, gap: Frac) -> Finding {
        let mut item = Finding::new(self.alloc());
        item.set_number("times", share.times);
        self.set_source(&mut item, share.source);
        if let Some(row) = row_at(problem, share.id) {
            self.set_row(&mut item, row, share, gap);
        }
        item
    }
}
