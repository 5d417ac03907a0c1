// Certificates of what is best.
ghost use Rattle.std.specs.Prelude.{◌≡◌, ◌≢◌, ◌++◌, [], ◌∷◌, All, IfOk, OnErr};
ghost use Rattle.frac_core.specs.Fraction.{IsFitting};
ghost use Rattle.cert_core.specs.Claims.{AreBys, IsLevel, AreLevels};

use crate::by::By;
use frac_core::OutOfMemory;
use problem_core::Level;
use std::alloc::Global;
use std::marker::Model;

/// A level with its scale and the multipliers of rows and stays there.
#[derive(Clone, Debug, Drop)]
pub struct BestLevel {
    level: Level,
    scale: i64,
    by: Vec<By>,
}

impl Model for BestLevel {
    ghost use Rattle.cert_core.specs.Claims as claims;

    ghost Value = { claims.BestLevel };

    ghost use Rattle.cert_core.specs.Fields.{level_of};

    ghost view = { level_of };

    ghost invariant = { λ l. claims.IsLevel (level_of l) };
}

impl BestLevel {
    /// The level that the multipliers are for.
    pub fn level(&self) -> Level
        ensures { result ≡ self.now.level }
    {
        self.level
    }

    /// The scale, of which the checker asks that it is above 0.
    pub fn scale(&self) -> i64
        ensures value { result ≡ self.now.scale }
        ensures fits { IsFitting result }
    {
        self.scale
    }

    /// The rows and stays with their multipliers at this level.
    pub fn by(&self) -> &[By]
        ensures value { result.now ≡ self.now.by }
        ensures kept { AreBys self.now.by }
    {
        &self.by
    }
}

/// Multipliers, level by level, which claim that an assignment is best.
///
/// A level that is not there has the scale 1 and no multipliers.
#[derive(Clone, Debug, Drop)]
pub struct Best {
    levels: Vec<BestLevel>,
    alloc: Global,
}

impl Model for Best {
    ghost use Rattle.std.specs.Prelude.{List};
    ghost use Rattle.cert_core.specs.Claims as claims;

    ghost Value = { List claims.BestLevel };

    ghost view = { λ b. b.levels.items };

    ghost invariant = { λ b. claims.AreLevels b.levels.items };
}

impl Best {
    /// The certificate with no level.
    pub fn new(alloc: Global) -> Best
        ensures { result ≡ [] }
    {
        Best {
            levels: Vec::new(alloc),
            alloc,
        }
    }

    /// Puts a level at the end, one that is not there yet, whose scale and multipliers fit and whose
    /// multipliers are of different rows.
    pub fn push(&mut self, level: Level, scale: i64, by: &[By]) -> Result<(), OutOfMemory>
        requires level { IsLevel (record { level = level; scale = scale; by = by.now }) }
        requires fresh { All (λ l. l.level ≢ level) self.old }
        ensures done { IfOk result (λ _. self.new ≡ self.old
            ++ record { level = level; scale = scale; by = by.now } ∷ []) }
        ensures unchanged { OnErr result (self.new ≡ self.old) }
    {
        let next = BestLevel {
            level,
            scale,
            by: Vec::from_slice(self.alloc, by)?,
        };
        self.levels.push(next)?;
        Ok(())
    }

    /// The levels, in the order in which they were put.
    pub fn levels(&self) -> &[BestLevel]
        ensures value { result.now ≡ self.now }
        ensures kept { AreLevels self.now }
    {
        &self.levels
    }
}
