// A claim while it is read.
ghost use Rattle.std.specs.Prelude.{◌≡◌, ◌<◌, ◌++◌, ◌∷◌, [], All, AllPairs, IfOk, IfSome, IfNone, IsTrue};
ghost use Rattle.std.specs.Prelude.{◌↔◌, true, false, List, map};
ghost use Rattle.problem_core.specs.Kept.{AreRising};
ghost use Rattle.cert_core.specs.Claims.{AreBys, AreLevels};
ghost use Rattle.problem_core.specs.declared.parts.RowName.{RowName};
ghost use Rattle.problem_core.specs.declared.parts.Level.{Level};

use crate::claim::lines::{ClaimLine, read_claim_line};
use crate::claim::order::{are_rows_before, is_level_before};
use crate::claim::path_draft::PathDraft;
use crate::claim::path_lines::PathLine;
use crate::claim::seen::Seen;
use cert_core::{Best, By, Conflict};
use claim_writing::{Claim, LevelLine};
use frac_core::{Frac, OutOfMemory};
use problem_core::{Level, RowName, Values};
use std::alloc::Global;
use std::collections::BTreeMap;
use std::marker::Model;
use std::mem;

/// The stage of a claim: which lines may follow. Values, a first level, multipliers of a level or of a
/// conflict, or parts of a path.
#[derive(Drop)]
pub(crate) enum Stage {
    Values,
    Levels,
    Bys(LevelLine),
    Conflict,
    Path(PathDraft),
}

/// A level that has ended.
#[derive(Drop)]
pub(crate) struct EndedLevel {
    pub(crate) level: Level,
    pub(crate) scale: i64,
    pub(crate) by: Vec<By>,
}

impl Model for EndedLevel {
    ghost use Rattle.cert_core.specs.Claims.{BestLevel};

    ghost Value = { BestLevel };

    ghost view = { λ l. record { level = l.level; scale = l.scale; by = l.by.items } };
}

/// The parts of a claim in the lines read so far.
#[derive(Drop)]
pub(crate) struct ClaimDraft {
    pub(crate) stage: Stage,
    pub(crate) values: Vec<(u32, Frac)>,
    pub(crate) levels: Vec<EndedLevel>,
    pub(crate) bys: Vec<By>,
}

impl Model for ClaimDraft {
    ghost use Rattle.claim_text.specs.Claims.ClaimTexts as claims;

    ghost Value = { claims.Draft };

    ghost view = { λ d.
        record { stage = d.stage; values = d.values.items; levels = d.levels.items; bys = d.bys.items } };
}

// Whether the attribute is above the attributes of all these values.
fn is_above(values: &[(u32, Frac)], attr: u32) -> bool
    requires { AreRising values.now }
    ensures { IsTrue result ↔ All (λ v. v.0 < attr) values.now }
{
    if values.is_empty() {
        return true;
    }
    values[values.len() - 1].0 < attr
}

impl EndedLevel {
    fn scale(&self) -> i64
        ensures { result ≡ self.now.scale }
    {
        self.scale
    }

    fn by(&self) -> &[By]
        ensures { result.now ≡ self.now.by }
    {
        &self.by
    }

    fn level(&self) -> Level
        ensures { result ≡ self.now.level }
    {
        self.level
    }
}

fn level_of(line: &LevelLine) -> Level
    ensures { result ≡ line.now.level }
{
    line.level
}

fn last_of(levels: &[EndedLevel]) -> Option<Level>
    ensures none { IfNone result (levels.now ≡ []) }
    ensures some { IfSome result (λ last. (front : List Level)
        × (map (λ l. l.level) levels.now ≡ front ++ last ∷ [])) }
{
    if levels.is_empty() {
        return None;
    }
    Some(levels[levels.len() - 1].level())
}

// The certificate of these levels.
fn best_of(alloc: Global, levels: &[EndedLevel]) -> Result<Best, OutOfMemory>
    requires { AreLevels levels.now }
    ensures { IfOk result (λ b. b ≡ levels.now) }
{
    let mut best = Best::new(alloc);
    for ended in levels {
        best.push(ended.level(), ended.scale(), ended.by())?;
    }
    Ok(best)
}

impl ClaimDraft {
    ghost use Rattle.cert_core.specs.Claims.{BestLevel};
    ghost use Rattle.claim_text.specs.declared.claim.lines.ClaimLine as item;
    ghost use Rattle.claim_text.specs.Claims.ClaimTexts as claims;
    ghost use Rattle.problem_core.specs.declared.parts.Level as level;
    ghost use Rattle.claim_text.specs.Claims.Seen.{AreRowKeys, AreLevelKeys, AreSeen};
    ghost use Rattle.claim_text.specs.Claims.Seen.{levels_of, rows_of, marked_rows};
    ghost use Rattle.claim_text.specs.Claims.ClaimTexts.{nothing_read, closed, TakesLevels, TakesBys};
    ghost use Rattle.claim_text.specs.Claims.ClaimTexts.{stage_with, MayFollow, with_line, Step, Ends};
    ghost use Rattle.claim_text.specs.Claims.ClaimTexts.{IsDraft, IsStage};
    ghost use Rattle.claim_writing.specs.Names.{IsRowBefore, IsLevelBefore};
    ghost use Rattle.claim_text.specs.Paths.PathForms as forms;

    /// The draft before the first line.
    pub(crate) fn new(alloc: Global) -> ClaimDraft
        ensures { result ≡ nothing_read }
    {
        ClaimDraft {
            stage: Stage::Values,
            values: Vec::new(alloc),
            levels: Vec::new(alloc),
            bys: Vec::new(alloc),
        }
    }

    fn takes_values(&self) -> bool
        ensures { IsTrue result ↔ (self.now.stage ≡ Stage.Values) }
    {
        matches!(self.stage, Stage::Values)
    }

    fn takes_levels(&self) -> bool
        ensures { IsTrue result ↔ TakesLevels self.now.stage }
    {
        matches!(self.stage, Stage::Levels | Stage::Bys(_))
    }

    fn takes_bys(&self) -> bool
        ensures { IsTrue result ↔ TakesBys self.now.stage }
    {
        matches!(self.stage, Stage::Conflict | Stage::Bys(_))
    }

    // Whether no value was read.
    fn is_fresh(&self) -> bool
        ensures { IsTrue result ↔ ((self.now.stage ≡ Stage.Values) × (self.now.values ≡ [])) }
    {
        self.takes_values() && self.values.is_empty()
    }

    fn value_may_follow(&self, attr: u32) -> bool
        requires { AreRising self.now.values }
        ensures { IsTrue result ↔ ((self.now.stage ≡ Stage.Values) × All (λ v. v.0 < attr) self.now.values) }
    {
        self.takes_values() && is_above(&self.values, attr)
    }

    fn by_may_follow(&self, keys: &BTreeMap<u32, u32>, row: RowName) -> bool
        requires order { AllPairs (λ a b. IsRowBefore a.row b.row) self.now.bys }
        requires keys { AreRowKeys (rows_of self.now) keys.now }
        ensures { IsTrue result ↔ (TakesBys self.now.stage × All (λ b. IsRowBefore b.row row) self.now.bys) }
    {
        self.takes_bys() && are_rows_before(keys, &self.bys, row)
    }

    // The last level, which is the open one if a level is open.
    fn last_level(&self) -> Option<Level>
        ensures none { IfNone result (levels_of self.now ≡ []) }
        ensures some { IfSome result (λ last. (front : List level.Level)
            × (levels_of self.now ≡ front ++ last ∷ [])) }
    {
        match &self.stage {
            Stage::Bys(open) => Some(level_of(open)),
            _ => last_of(&self.levels),
        }
    }

    // Whether the level may follow all levels so far, whose stays are the keys.
    fn levels_are_before(&self, keys: &BTreeMap<u32, u32>, level: Level) -> bool
        requires order { AllPairs (λ k l. IsLevelBefore k.level l.level)
            (closed self.now.stage self.now.levels self.now.bys) }
        requires keys { AreLevelKeys (levels_of self.now) keys.now }
        ensures { IsTrue result ↔ All (λ l. IsLevelBefore l.level level)
            (closed self.now.stage self.now.levels self.now.bys) }
    {
        if let Level::Stay(attr) = level {
            return !keys.contains_key(&attr);
        }
        match self.last_level() {
            None => true,
            Some(last) => is_level_before(last, level),
        }
    }

    fn level_may_follow(&self, keys: &BTreeMap<u32, u32>, level: Level) -> bool
        requires order { AllPairs (λ k l. IsLevelBefore k.level l.level)
            (closed self.now.stage self.now.levels self.now.bys) }
        requires keys { AreLevelKeys (levels_of self.now) keys.now }
        ensures { IsTrue result ↔ (TakesLevels self.now.stage
            × All (λ l. IsLevelBefore l.level level) (closed self.now.stage self.now.levels self.now.bys)) }
    {
        self.takes_levels() && self.levels_are_before(keys, level)
    }

    fn part_may_follow(&self, keys: &BTreeMap<u32, u32>, part: &PathLine) -> bool
        requires stage { IsStage self.now.stage }
        requires keys { AreRowKeys (marked_rows self.now.stage) keys.now }
        ensures { IsTrue result ↔ ((d : forms.PathDraft) × (self.now.stage ≡ Stage.Path d)
            × forms.PartMayFollow d part.now) }
    {
        match &self.stage {
            Stage::Path(path) => path.may_follow(keys, part),
            _ => false,
        }
    }

    fn may_follow(&self, seen: &Seen, line: &ClaimLine) -> bool
        requires draft { IsDraft self.now }
        requires seen { AreSeen self.now seen.now }
        ensures { IsTrue result ↔ MayFollow self.now line.now }
    {
        match line {
            ClaimLine::OfValue((attr, _)) => self.value_may_follow(*attr),
            ClaimLine::OfBest => self.takes_values(),
            ClaimLine::OfConflict => self.is_fresh(),
            ClaimLine::OfLevel(line) => self.level_may_follow(&seen.levels, line.level),
            ClaimLine::OfBy(by) => self.by_may_follow(&seen.rows, by.row),
            ClaimLine::OfPath(_) => self.is_fresh(),
            ClaimLine::OfPart(part) => self.part_may_follow(&seen.marks, part),
        }
    }

    // Ends the level that is open.
    fn close(&mut self, alloc: Global) -> Result<(), OutOfMemory>
        ensures { IfOk result (λ _. self.new ≡ record {
          stage = self.old.stage;
          values = self.old.values;
          levels = closed self.old.stage self.old.levels self.old.bys;
          bys = [];
        }) }
    {
        let by = mem::replace(&mut self.bys, Vec::new(alloc));
        if let Stage::Bys(open) = &self.stage {
            self.levels.push(EndedLevel {
                level: open.level,
                scale: open.scale,
                by,
            })?;
        }
        Ok(())
    }

    // Adds a part to the path, if one is being read.
    fn put_part(&mut self, part: PathLine) -> Result<(), OutOfMemory>
        ensures { IfOk result (λ _. self.new ≡ record {
          stage = stage_with self.old.stage part;
          values = self.old.values;
          levels = self.old.levels;
          bys = self.old.bys;
        }) }
    {
        if let Stage::Path(path) = &mut self.stage {
            path.put(part)?;
        }
        Ok(())
    }

    // Adds a line. The caller owes that it may follow.
    fn put(&mut self, alloc: Global, line: ClaimLine) -> Result<(), OutOfMemory>
        ensures { IfOk result (λ _. self.new ≡ with_line self.old line) }
    {
        match line {
            ClaimLine::OfValue(value) => self.values.push(value)?,
            ClaimLine::OfBest => self.stage = Stage::Levels,
            ClaimLine::OfConflict => self.stage = Stage::Conflict,
            ClaimLine::OfLevel(line) => {
                self.close(alloc)?;
                self.stage = Stage::Bys(line);
            }
            ClaimLine::OfBy(by) => self.bys.push(by)?,
            ClaimLine::OfPath(dual) => self.stage = Stage::Path(PathDraft::new(alloc, dual)),
            ClaimLine::OfPart(part) => self.put_part(part)?,
        }
        Ok(())
    }

    /// Adds the line. The answer is false if the line may not follow those before it.
    pub(crate) fn take_line(
        &mut self,
        alloc: Global,
        seen: &mut Seen,
        line: &[u8],
    ) -> Result<bool, OutOfMemory>
        requires draft { IsDraft self.old }
        requires seen { AreSeen self.old seen.old }
        ensures seen { IfOk result (λ good. good ≡ true → AreSeen self.new seen.new) }
        ensures taken { IfOk result (λ good. good ≡ true → Step self.old line.now self.new) }
        ensures refused { IfOk result (λ good. good ≡ false → (new : claims.Draft)
            → Step self.old line.now new → ⊥) }
    {
        let Some(item) = read_claim_line(line) else {
            return Ok(false);
        };
        if !self.may_follow(seen, &item) {
            return Ok(false);
        }
        seen.note(alloc, &item)?;
        self.put(alloc, item)?;
        Ok(true)
    }

    fn conflict(&self, alloc: Global) -> Result<Conflict, OutOfMemory>
        requires { AreBys self.now.bys }
        ensures { IfOk result (λ c. c ≡ self.now.bys) }
    {
        Conflict::of(alloc, &self.bys)
    }

    fn values(&self, alloc: Global) -> Result<Values, OutOfMemory>
        requires { AreRising self.now.values }
        ensures { IfOk result (λ v. v ≡ self.now.values) }
    {
        Values::of(alloc, &self.values)
    }

    fn best(&self, alloc: Global) -> Result<Best, OutOfMemory>
        requires { AreLevels self.now.levels }
        ensures { IfOk result (λ b. b ≡ self.now.levels) }
    {
        best_of(alloc, &self.levels)
    }

    // The claim of values and levels, once the level that is open has ended.
    fn best_claim(&mut self, alloc: Global) -> Result<Claim, OutOfMemory>
        requires draft { IsDraft self.old }
        requires levels { TakesLevels self.old.stage }
        ensures { IfOk result (Ends self.old) }
    {
        self.close(alloc)?;
        let values = self.values(alloc)?;
        let best = self.best(alloc)?;
        Ok(Claim::IsBest { values, best })
    }

    // The claim, unless only values have been read.
    fn claim(&mut self, alloc: Global) -> Result<Claim, OutOfMemory>
        requires draft { IsDraft self.old }
        requires more { self.old.stage ≡ Stage.Values → ⊥ }
        ensures { IfOk result (Ends self.old) }
    {
        if let Stage::Path(path) = &self.stage {
            return path.claim(alloc);
        }
        if self.takes_levels() {
            return self.best_claim(alloc);
        }
        Ok(Claim::IsConflict(self.conflict(alloc)?))
    }

    /// The claim, if the lines say which claim it is.
    pub(crate) fn finish(&mut self, alloc: Global) -> Result<Option<Claim>, OutOfMemory>
        requires { IsDraft self.old }
        ensures some { IfOk result (λ found. IfSome found (Ends self.old)) }
        ensures none { IfOk result (λ found. IfNone found (self.old.stage ≡ Stage.Values)) }
    {
        if self.takes_values() {
            return Ok(None);
        }
        Ok(Some(self.claim(alloc)?))
    }
}
