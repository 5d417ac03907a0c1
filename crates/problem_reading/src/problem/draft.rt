// A problem while it is read.
ghost use Rattle.std.specs.Prelude.{◌≡◌, ◌≢◌, ◌<◌, [], All, IfOk, IsTrue, ◌↔◌, Contains, true};
ghost use Rattle.std.specs.Prelude.{false, length};
ghost use Rattle.problem_core.specs.Layout as layout;
ghost use Rattle.problem_core.specs.Kept.{IsWhole};
ghost use Rattle.problem_reading.specs.declared.problem.items.Item as item;
ghost use Rattle.problem_reading.specs.declared.limits.TheConstants.{TEXT_ROW_LIMIT};

use crate::limits::{TEXT_ROW_LIMIT, TEXT_STAY_LIMIT};
use crate::problem::attributes::Attributes;
use crate::problem::items::{Item, read_item};
use frac_core::OutOfMemory;
use problem_core::{Problem, Row, Stay, Term};
use std::alloc::Global;
use std::marker::Model;

/// The rows and the stays of the lines so far.
#[derive(Drop)]
pub(crate) struct Draft {
    rows: Vec<Row>,
    stays: Vec<Stay>,
}

impl Model for Draft {
    ghost use Rattle.problem_core.specs.Layout as layout;

    ghost Value = { layout.Problem };

    ghost view = { λ d. record { rows = d.rows.items; stays = d.stays.items } };
}

// Whether the row's number is above those of all these rows.
fn is_above(rows: &[Row], id: u32) -> bool
    ensures { IsTrue result ↔ All (λ r. r.id < id) rows.now }
{
    rows.iter().all(|r| r.id() < id)
}

// Whether no stay is the attribute's.
fn is_fresh(stays: &[Stay], attr: u32) -> bool
    ensures { IsTrue result ↔ All (λ s. s.attr ≢ attr) stays.now }
{
    stays.iter().all(|s| s.attr != attr)
}

// Whether each attribute has a stay.
fn are_covered(covered: &Attributes, terms: &[Term]) -> bool
    ensures { IsTrue result ↔ All (λ t. Contains covered.now t.attr) terms.now }
{
    for term in terms {
        if !covered.contains(term.attr) {
            return false;
        }
    }
    true
}

impl Draft {
    ghost use Rattle.problem_reading.specs.Problems.{nothing_read, Step, MayFollow, RowMayFollow};
    ghost use Rattle.problem_reading.specs.Problems.{StayMayFollow};
    ghost use Rattle.problem_reading.specs.Problems.{with_item};

    /// What was read before the first line: no row, and no stay.
    pub(crate) fn new(alloc: Global) -> Draft
        ensures { result ≡ nothing_read }
    {
        Draft {
            rows: Vec::new(alloc),
            stays: Vec::new(alloc),
        }
    }

    // Whether a row may still come.
    fn takes_rows(&self) -> bool
        ensures { IsTrue result ↔ ((self.now.stays ≡ []) × (length self.now.rows < TEXT_ROW_LIMIT)) }
    {
        self.stays.is_empty() && self.rows.len() < TEXT_ROW_LIMIT
    }

    // Whether the number is above those of all rows.
    fn rises_to(&self, id: u32) -> bool
        ensures { IsTrue result ↔ All (λ r. r.id < id) self.now.rows }
    {
        is_above(&self.rows, id)
    }

    fn row_may_follow(&self, covered: &Attributes, row: &Row) -> bool
        ensures { IsTrue result ↔ RowMayFollow (λ a. Contains covered.now a) self.now row.now }
    {
        if !self.takes_rows() {
            return false;
        }
        if !self.rises_to(row.id()) {
            return false;
        }
        are_covered(covered, row.terms())
    }

    fn stay_may_follow(&self, stay: &Stay) -> bool
        ensures { IsTrue result ↔ StayMayFollow self.now stay.now }
    {
        self.stays.len() < TEXT_STAY_LIMIT && is_fresh(&self.stays, stay.attr)
    }

    fn may_follow(&self, covered: &Attributes, item: &Item) -> bool
        ensures { IsTrue result ↔ MayFollow (λ a. Contains covered.now a) self.now item.now }
    {
        match item {
            Item::Nothing => true,
            Item::OfRow(row) => self.row_may_follow(covered, row),
            Item::OfStay(stay) => self.stay_may_follow(stay),
        }
    }

    // Adds what a line says; whether it may follow isn't asked here.
    fn put(&mut self, item: Item) -> Result<(), OutOfMemory>
        ensures { IfOk result (λ _. self.new ≡ with_item self.old item) }
    {
        match item {
            Item::Nothing => {}
            Item::OfRow(row) => self.rows.push(row)?,
            Item::OfStay(stay) => self.stays.push(stay)?,
        }
        Ok(())
    }

    /// Adds what the line says. The answer is false where the line may not follow those before it.
    pub(crate) fn take_line(
        &mut self,
        alloc: Global,
        covered: &Attributes,
        line: &[u8],
    ) -> Result<bool, OutOfMemory>
        ensures taken { IfOk result (λ good. good ≡ true
            → Step (λ a. Contains covered.now a) self.old line.now self.new) }
        ensures refused { IfOk result (λ good. good ≡ false → (new : layout.Problem)
            → Step (λ a. Contains covered.now a) self.old line.now new → ⊥) }
    {
        let Some(item) = read_item(alloc, line)? else {
            return Ok(false);
        };
        if !self.may_follow(covered, &item) {
            return Ok(false);
        }
        self.put(item)?;
        Ok(true)
    }

    /// The problem that was read.
    pub(crate) fn finish(self) -> Problem
        requires { IsWhole self }
        ensures { result ≡ self }
    {
        Problem::of(self.rows, self.stays)
    }
}
