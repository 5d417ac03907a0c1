// The stays that a claim has named so far.
ghost use Rattle.std.specs.Prelude.{◌∷◌, [], ◌++◌, IfOk, List};

use crate::claim::lines::ClaimLine;
use crate::claim::path_lines::PathLine;
use frac_core::OutOfMemory;
use problem_core::{Level, RowName};
use std::alloc::Global;
use std::collections::BTreeMap;

/// The attributes of the stays named so far: by the multipliers of the open list, by levels, and by the marks
/// of a path's first corner.
#[derive(Drop)]
pub(crate) struct Seen {
    pub(crate) rows: BTreeMap<u32, u32>,
    pub(crate) levels: BTreeMap<u32, u32>,
    pub(crate) marks: BTreeMap<u32, u32>,
}

ghost use Rattle.problem_core.specs.declared.parts.RowName.{RowName};
ghost use Rattle.problem_core.specs.declared.parts.Level.{Level};
ghost use Rattle.claim_text.specs.Claims.Seen.{AreRowKeys, AreLevelKeys};

// No attribute.
fn no_keys(alloc: Global) -> BTreeMap<u32, u32>
    ensures { AreRowKeys [] result }
{
    BTreeMap::new(alloc)
}

fn note_row(keys: &mut BTreeMap<u32, u32>, row: RowName) -> Result<(), OutOfMemory>
    ensures { IfOk result (λ _. (rows : List RowName) → AreRowKeys rows keys.old
        → AreRowKeys (rows ++ row ∷ []) keys.new) }
{
    match row {
        RowName::Held(_) => Ok(()),
        RowName::Stay(attr) => {
            keys.insert(attr, 0)?;
            Ok(())
        }
    }
}

fn note_level(keys: &mut BTreeMap<u32, u32>, level: Level) -> Result<(), OutOfMemory>
    ensures { IfOk result (λ _. (levels : List Level) → AreLevelKeys levels keys.old
        → AreLevelKeys (levels ++ level ∷ []) keys.new) }
{
    match level {
        Level::Priority(_) => Ok(()),
        Level::Stay(attr) => {
            keys.insert(attr, 0)?;
            Ok(())
        }
    }
}

impl Seen {
    ghost use Rattle.claim_text.specs.Claims.Seen.{AreSeen};
    ghost use Rattle.claim_text.specs.Claims.ClaimTexts.{Draft, MayFollow, nothing_read, with_line};

    /// No stay, before the first line.
    pub(crate) fn new(alloc: Global) -> Seen
        ensures { AreSeen nothing_read result }
    {
        Seen {
            rows: BTreeMap::new(alloc),
            levels: BTreeMap::new(alloc),
            marks: BTreeMap::new(alloc),
        }
    }

    fn note_part(&mut self, part: &PathLine) -> Result<(), OutOfMemory>
        ensures { IfOk result (λ _. (d : Draft) → MayFollow d (ClaimLine.OfPart part.now) → AreSeen d self.old
            → AreSeen (with_line d (ClaimLine.OfPart part.now)) self.new) }
    {
        match part {
            PathLine::OfIn(mark) => note_row(&mut self.marks, mark.row),
            PathLine::OfSwap(_) | PathLine::OfUnfit(_) => Ok(()),
        }
    }

    /// Adds the stay that a line names.
    pub(crate) fn note(&mut self, alloc: Global, line: &ClaimLine) -> Result<(), OutOfMemory>
        ensures { IfOk result (λ _. (d : Draft) → MayFollow d line.now → AreSeen d self.old
            → AreSeen (with_line d line.now) self.new) }
    {
        match line {
            ClaimLine::OfLevel(line) => {
                self.rows = no_keys(alloc);
                note_level(&mut self.levels, line.level)
            }
            ClaimLine::OfBy(by) => note_row(&mut self.rows, by.row),
            ClaimLine::OfPart(part) => self.note_part(part),
            _ => Ok(()),
        }
    }
}
