// The explanation of a conflict.
use crate::problem::row_at;
use crate::shares::{Share, gap_of, put_share, take_row};
use crate::telling::Telling;
use frac_core::{Frac, Wide};
use problem_core::Problem;
use span_text::lines;
use tell_mend::{Word, find_word, word_of};

const WISH: &[u8] = b"with a priority this line is a wish, and gives way";

const WAY_OUT: &[u8] = b"give one of these lines a priority, as @750, or take it out";

const FORMAT: &[u8] =
    b"make one of these numbers a wish, as [a(100@750)] in a format, or take a line out";

const ALONE: &[u8] = b"no layout satisfies this line, whatever else there is: mend it";

const BOUND: &[u8] =
    b"no width and no height is below 0, and the window begins at 0, 0: mend this line";

const NUMBER: &[u8] = b"take another number, or give one of the other lines a priority, as @750";

const DRAG: &[u8] = b"a suggestion of 1000 is required: take a smaller priority, or none for 750";

const ALIGNED: &[u8] =
    b"views with nothing between them touch: to align them alone, `constrain` one with the other";

// The multiplier and the row number in a reply's line `by TIMES row NUMBER`.
fn by_of(line: &[u8]) -> Option<(i64, u32)> {
    let line = std::str::from_utf8(line).unwrap_or("");
    let (times, id) = line.strip_prefix("by ")?.split_once(" row ")?;
    Some((times.parse::<i64>().ok()?, id.parse::<u32>().ok()?))
}

// Whether the format is aligned, and has views with nothing between them.
fn is_touching(line: &[u8]) -> bool {
    find_word(line, 0, b"", b"align").is_some() && find_word(line, 0, b"", b"][").is_some()
}

// The way out if other lines contradict this one.
fn way_by_line(line: &[u8]) -> &'static [u8] {
    match word_of(line).0 {
        Word::Vfl if is_touching(line) => ALIGNED,
        Word::Vfl => FORMAT,
        Word::Constrain => WAY_OUT,
        Word::Suggest => DRAG,
        _ => NUMBER,
    }
}

impl Telling<'_> {
    // The way out of the conflict, by the lines that its rows are from.
    fn way_out(&self) -> &'static [u8] {
        let mut way = ALONE;
        for line in lines(self.reply) {
            if let Some((_, id)) = by_of(line.bytes) {
                let source = self.source_of(id);
                if source.is_bound {
                    way = BOUND;
                } else if !source.is_own {
                    return way_by_line(self.line);
                }
            }
        }
        way
    }

    // Suggests the line as a wish, if it may have a priority.
    fn set_wish(&mut self, cure: &mut Vec<u8>) {
        let mut wish = Vec::new(self.alloc());
        self.reader.put_all(&mut wish, &[self.line, b" @750"]);
        if self.reader.leaves(&wish).is_none() {
            self.reader.put_all(cure, &[b"\n", WISH]);
            self.finding.set_text("mended", &wish);
        }
        drop(wish);
    }

    // Sets the way out of the conflict.
    fn set_way_out(&mut self) {
        let way = self.way_out();
        let mut cure = Vec::new(self.alloc());
        self.reader.put(&mut cure, way);
        if way == WAY_OUT && matches!(word_of(self.line).0, Word::Constrain) {
            self.set_wish(&mut cure);
        }
        self.finding.set_cure(&cure);
        drop(cure);
    }

    // The shares of the lines. The problem is the one that the line would solve.
    fn take_shares(&mut self, shares: &mut Vec<Share>, problem: &Problem) {
        for line in lines(self.reply) {
            let (times, id) = by_of(line.bytes).unwrap_or((0, u32::MAX));
            if let Some(row) = row_at(problem, id) {
                let taken = take_row(shares, self.source_of(id), times, row);
                self.reader.fail_if(taken.is_err());
            }
        }
    }

    // Sets the shares of all lines but the refused one, which is shown above.
    fn set_shares(&mut self, problem: &Problem, shares: &[Share], gap: Frac) {
        let mut items = Vec::new(self.alloc());
        for share in shares {
            if !share.source.is_own {
                let item = self.item_of(problem, share, gap);
                self.finding.push_item(&mut items, item);
            }
        }
        self.finding.set_items("rows", items);
    }

    // Says what the refused line adds, if it adds something, or else how much is lacking.
    fn set_lack(&mut self, shares: &[Share], gap: Frac) {
        let mut why = Vec::new(self.alloc());
        for share in shares {
            if share.source.is_own {
                put_share(&mut self.reader, &mut why, share, gap);
            }
        }
        if why.is_empty() {
            self.reader
                .put(&mut why, b"the lines below need more than they give, by ");
            self.reader.put_frac(&mut why, Wide::from(gap));
        } else {
            self.reader.put(&mut why, b" beside the lines below");
        }
        self.finding.set_text("why", &why);
        drop(why);
    }

    // Sets the lines of the conflict.
    fn set_rows(&mut self, problem: &Problem) {
        let mut shares = Vec::new(self.alloc());
        self.take_shares(&mut shares, problem);
        let gap = gap_of(&shares);
        self.set_shares(problem, &shares, gap);
        if gap.num() != 0 {
            self.set_lack(&shares, gap);
        }
        drop(shares);
    }

    /// Explains a conflict.
    pub(crate) fn set_conflict(&mut self) {
        self.set_way_out();
        if let Some(problem) = self.parts.problem {
            self.set_rows(problem);
        }
    }
}
