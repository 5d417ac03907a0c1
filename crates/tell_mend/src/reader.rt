// Asks the grammar's own reader about a text. This file has no grammar of its own.
use crate::bytes::cut;
use frac_core::{FRACTION_ROOM, OutOfMemory, Stop, Wide, write_frac};
use script_text::{Version, read_line_in};
use span_text::SyntaxAt;
use std::alloc::Global;

/// The reader of a version's lines, which also appends texts. If memory runs out, it remembers that, and its
/// answers and texts must not be used from then on. So its user asks [`done`](Reader::done) once, at the end.
#[derive(Clone, Copy)]
pub struct Reader {
    alloc: Global,
    version: Version,
    is_short: bool,
}

impl Reader {
    /// The reader of a version's lines.
    pub fn new(alloc: Global, version: Version) -> Reader {
        Reader {
            alloc,
            version,
            is_short: false,
        }
    }

    /// The allocator of texts.
    pub fn alloc(&self) -> Global {
        self.alloc
    }

    /// Fails if memory ran out.
    pub fn done(&self) -> Result<(), OutOfMemory> {
        if self.is_short {
            Err(OutOfMemory)
        } else {
            Ok(())
        }
    }

    /// Remembers that memory ran out, if it did.
    pub fn fail_if(&mut self, is_short: bool) {
        self.is_short |= is_short;
    }

    /// Appends a text.
    pub fn put(&mut self, out: &mut Vec<u8>, text: &[u8]) {
        self.is_short |= out.extend_from_slice(text).is_err();
    }

    /// Appends texts.
    pub fn put_all(&mut self, out: &mut Vec<u8>, texts: &[&[u8]]) {
        for text in texts {
            self.put(out, *text);
        }
    }

    /// Appends a fraction.
    pub fn put_frac(&mut self, out: &mut Vec<u8>, value: Wide) {
        let mut text = [0; FRACTION_ROOM];
        let end = write_frac(value, &mut text);
        self.put(out, cut(&text, end).0);
    }

    /// Appends a number.
    pub fn put_number(&mut self, out: &mut Vec<u8>, number: i64) {
        self.put_frac(out, Wide::of(number as i128, 1));
    }

    /// Appends a count.
    pub fn put_count(&mut self, out: &mut Vec<u8>, count: usize) {
        self.put_frac(out, Wide::of(count as i128, 1));
    }

    /// Where the text leaves the grammar; none if it is a line.
    pub fn leaves(&mut self, text: &[u8]) -> Option<usize> {
        match read_line_in(self.alloc, text, self.version) {
            Ok(reading) => {
                drop(reading);
                None
            }
            Err(Stop::Refused(SyntaxAt(at))) => Some(at),
            Err(Stop::OutOfMemory) => {
                self.is_short = true;
                None
            }
        }
    }

    /// Whether the text is a line of version 2.
    pub fn is_new(&mut self, text: &[u8]) -> bool {
        let mut new = Reader::new(self.alloc, Version::Two);
        let leaves = new.leaves(text);
        self.is_short |= new.is_short;
        leaves.is_none()
    }

    /// Whether a line begins with the front and then `more`. The front is unchanged afterwards.
    pub fn takes(&mut self, front: &mut Vec<u8>, more: &[u8]) -> bool {
        let len = front.len();
        self.put(front, more);
        let begins = match self.leaves(front) {
            Some(at) => at >= front.len(),
            None => true,
        };
        front.truncate(len);
        begins
    }

    /// How much of the text is wrong: 0 if it is a line, or else one more than the bytes from the place where
    /// it leaves the grammar.
    pub fn lack(&mut self, text: &[u8]) -> usize {
        match self.leaves(text) {
            Some(at) => text.len().saturating_sub(at).saturating_add(1),
            None => 0,
        }
    }
}
