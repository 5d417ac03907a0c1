// The lines of a script, and which line each row is from.
use frac_core::OutOfMemory;
use span_text::lines;
use std::alloc::Global;
use tell_mend::{Wanted, Word, makes_view, word_of};

// A line's number, and the numbers of its rows: from `from` up to `to`, exclusive.
#[derive(Clone, Copy)]
struct Owner {
    line: usize,
    from: u32,
    to: u32,
}

// A line that makes views or a metric if it is accepted, and its number.
#[derive(Clone, Copy)]
struct Maker<'s> {
    number: usize,
    line: &'s [u8],
}

/// The lines of a script that make views and metrics, and the accepted lines that have rows, in order.
#[derive(Drop)]
pub struct Owners<'s> {
    makers: Vec<Maker<'s>>,
    owners: Vec<Owner>,
    // The number of the next new row.
    next: u32,
}

// The lines of a script that make views and metrics. They are found once: no refused line walks the script.
fn makers_of(alloc: Global, script: &[u8]) -> Result<Vec<Maker<'_>>, OutOfMemory> {
    let mut makers = Vec::new(alloc);
    let mut number: usize = 0;
    for line in lines(script) {
        number = number.saturating_add(1);
        if matches!(
            word_of(line.bytes).0,
            Word::View | Word::Tree | Word::Metric
        ) {
            makers.push(Maker {
                number,
                line: line.bytes,
            })?;
        }
    }
    Ok(makers)
}

impl<'s> Owners<'s> {
    /// No accepted lines of this script.
    pub fn new(alloc: Global, script: &'s [u8]) -> Result<Owners<'s>, OutOfMemory> {
        Ok(Owners {
            makers: makers_of(alloc, script)?,
            owners: Vec::new(alloc),
            next: 0,
        })
    }

    /// Before the first line the next new row gets this number.
    pub fn start(&mut self, next: u32) {
        self.next = next;
    }

    /// The number of the first line that would make such a thing of this name; 0 if there is none.
    pub(crate) fn maker(&self, wanted: Wanted, name: &[u8]) -> usize {
        for maker in &self.makers {
            if wanted.maker(maker.line, name) > 0 {
                return maker.number;
            }
        }
        0
    }

    /// The number of the last line with rows that makes a view of this name; 0 if there is none.
    pub(crate) fn view_line(&self, name: &[u8]) -> usize {
        let mut found: usize = 0;
        for maker in &self.makers {
            if makes_view(maker.line, name) && self.has(maker.number) {
                found = maker.number;
            }
        }
        found
    }

    /// The number of the line that the row of this number is from: 0 for the window's own rows, and none for
    /// a row that doesn't exist yet.
    pub(crate) fn of(&self, id: u32) -> Option<usize> {
        for owner in &self.owners {
            if owner.from <= id && id < owner.to {
                return Some(owner.line);
            }
        }
        if id < self.next { Some(0) } else { None }
    }

    // Whether the line of this number has rows.
    fn has(&self, line: usize) -> bool {
        for owner in &self.owners {
            if owner.line == line {
                return true;
            }
        }
        false
    }

    // Removes the lines whose rows are gone.
    fn take_back(&mut self, next: u32) {
        let mut len: usize = 0;
        for owner in &self.owners {
            if owner.from < next {
                len = len.saturating_add(1);
            }
        }
        self.owners.truncate(len);
    }

    /// Takes an accepted line, after which the next new row gets this number. The number falls if the line
    /// undoes others.
    pub fn take(&mut self, line: usize, next: u32) -> Result<(), OutOfMemory> {
        let from = self.next;
        self.next = next;
        if next < from {
            self.take_back(next);
        } else if from < next {
            self.owners.push(Owner {
                line,
                from,
                to: next,
            })?;
        }
        Ok(())
    }
}
