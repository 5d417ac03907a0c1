// The explanation of a line that leaves the grammar.
use crate::telling::Telling;
use tell_finding::json_fault;
use tell_mend::{advice, elsewhere, expected, mend, whole_front};

const MORE: &[u8] =
    b"the line is whole in front of it: leave the rest out, or give it a line of its own";

const NO_JSON: &[u8] = b"the text behind `tree` is no JSON from there on";

impl Telling<'_> {
    // Sets the advice on a mistake that only the author can mend, or suggests the line to the left of the
    // place.
    fn set_advice(&mut self, at: usize) {
        let words = advice(self.line, at);
        if !words.is_empty() {
            return self.finding.set_cure(words);
        }
        let front = whole_front(&mut self.reader, self.line, at);
        if !front.is_empty() {
            self.finding.set_cure(MORE);
            self.set_so(front);
        }
    }

    // Suggests a mended line, or sets the advice.
    fn set_mended(&mut self, at: usize) {
        let mut what = Vec::new(self.alloc());
        let mut text = Vec::new(self.alloc());
        self.reader.put(&mut text, self.line);
        if mend(&mut self.reader, &mut text, &mut what) {
            self.finding.set_cure(&what);
            self.set_so(&text);
        } else {
            self.set_advice(at);
        }
        drop(text);
        drop(what);
    }

    // Sets what may come at the place, and how the line can be mended.
    fn set_grammar(&mut self, at: usize) {
        self.finding.set_place(self.line, at);
        let other = elsewhere(&mut self.reader, self.line);
        if !other.is_empty() {
            return self.finding.set_cure(other);
        }
        let words = expected(&mut self.reader, self.line, at);
        self.finding.set_lines("expected", &words);
        drop(words);
        self.set_mended(at);
    }

    // Sets where the text of a tree, which begins at `start`, is no JSON. The grammar takes any text there.
    fn set_json(&mut self, start: usize) {
        match json_fault(&mut self.reader, self.line, start) {
            Some(found) => {
                self.finding.set_text("why", NO_JSON);
                self.finding.set_cure(found.cure.as_bytes());
                self.finding.set_place(self.line, found.at);
            }
            None => self.finding.set_place(self.line, start),
        }
    }

    /// Explains a line that leaves the grammar at this place.
    pub(crate) fn set_syntax(&mut self, at: usize) {
        if self.reader.leaves(self.line).is_some() {
            self.set_grammar(at);
        } else {
            self.set_json(at);
        }
    }
}
