// A path while it is read.
ghost use Rattle.std.specs.Prelude.{◌≡◌, [], None, All, IfOk, IsTrue, ◌↔◌, map};
ghost use Rattle.claim_writing.specs.Names.{IsRowBefore};
ghost use Rattle.claim_text.specs.Claims.Seen.{AreRowKeys};
ghost use Rattle.claim_writing.specs.declared.claim.Claim.TheVariants.{IsPath};

use crate::claim::order::are_marks_before;
use crate::claim::path_lines::PathLine;
use cert_core::{Path, Swap};
use claim_writing::Claim;
use frac_core::OutOfMemory;
use problem_core::{Mark, Quantity, RowName};
use std::alloc::Global;
use std::collections::BTreeMap;
use std::marker::Model;

/// The parts of a path in the lines read so far.
#[derive(Drop)]
pub(crate) struct PathDraft {
    dual: bool,
    corner: Vec<Mark>,
    swaps: Vec<Swap>,
    unfit: Option<Quantity>,
}

impl Model for PathDraft {
    ghost use Rattle.claim_text.specs.Paths.PathForms as forms;

    ghost Value = { forms.PathDraft };

    ghost view = { λ d.
        record { dual = d.dual; corner = d.corner.items; swaps = d.swaps.items; unfit = d.unfit } };
}

impl PathDraft {
    ghost use Rattle.claim_text.specs.Paths.PathForms.{path_begun, path_of, with_part};
    ghost use Rattle.claim_text.specs.Paths.PathForms.{PartMayFollow, IsPathWritten};

    /// A path of which only the kind has been read.
    pub(crate) fn new(alloc: Global, dual: bool) -> PathDraft
        ensures { result ≡ path_begun dual }
    {
        PathDraft {
            dual,
            corner: Vec::new(alloc),
            swaps: Vec::new(alloc),
            unfit: None,
        }
    }

    // Whether no quantity has been read. A quantity is the last line.
    fn is_open(&self) -> bool
        ensures { IsTrue result ↔ (self.now.unfit ≡ None) }
    {
        self.unfit.is_none()
    }

    fn mark_may_follow(&self, keys: &BTreeMap<u32, u32>, row: RowName) -> bool
        requires draft { IsPathWritten (path_of self.now) self.now.unfit }
        requires keys { AreRowKeys (map (λ m. m.row) self.now.corner) keys.now }
        ensures { IsTrue result ↔ ((self.now.swaps ≡ []) × (self.now.unfit ≡ None)
            × All (λ m. IsRowBefore m.row row) self.now.corner) }
    {
        self.swaps.is_empty() && self.is_open() && are_marks_before(keys, &self.corner, row)
    }

    /// Whether the line may follow. The keys are the stays of the marks read so far.
    pub(crate) fn may_follow(&self, keys: &BTreeMap<u32, u32>, line: &PathLine) -> bool
        requires draft { IsPathWritten (path_of self.now) self.now.unfit }
        requires keys { AreRowKeys (map (λ m. m.row) self.now.corner) keys.now }
        ensures { IsTrue result ↔ PartMayFollow self.now line.now }
    {
        match line {
            PathLine::OfIn(mark) => self.mark_may_follow(keys, mark.row),
            PathLine::OfSwap(_) | PathLine::OfUnfit(_) => self.is_open(),
        }
    }

    /// Adds a line. The caller owes that it may follow.
    pub(crate) fn put(&mut self, line: PathLine) -> Result<(), OutOfMemory>
        ensures { IfOk result (λ _. self.new ≡ with_part self.old line) }
    {
        match line {
            PathLine::OfIn(mark) => self.corner.push(mark)?,
            PathLine::OfSwap(swap) => self.swaps.push(swap)?,
            PathLine::OfUnfit(quantity) => self.unfit = Some(quantity),
        }
        Ok(())
    }

    /// The claim of the path read so far.
    pub(crate) fn claim(&self, alloc: Global) -> Result<Claim, OutOfMemory>
        ensures { IfOk result (λ c. c ≡ IsPath (path_of self.now) self.now.unfit) }
    {
        Ok(Claim::IsPath {
            path: Path::of(alloc, self.dual, &self.corner, &self.swaps)?,
            unfit: self.unfit,
        })
    }
}
