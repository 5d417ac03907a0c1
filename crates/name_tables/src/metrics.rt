// Numbers under names.
ghost use Rattle.std.specs.Prelude.{◌≡◌, ◌≤◌, ◌++◌, ◌∷◌, [], None, IfOk, IsSome, OnErr, OnOk, IfErr, length};
ghost use Rattle.std.specs.Prelude.{slice_get};
ghost use Rattle.std.specs.Option.{option_map};
ghost use Rattle.name_tables.specs.Names.{names_of, place_of, value_of, with_value, AreDistinct, IsNew};
ghost use Rattle.name_tables.specs.Names.{MayRefuse};

use crate::name_map::{NameMap, Named};
use crate::stops::NameStop;
use frac_core::{Frac, OutOfMemory};
use std::alloc::Global;
use std::marker::Model;

/// How many metrics there may be.
pub const METRIC_LIMIT: usize = 500;

/// The metrics in order of definition: distinct names, each with a number in points. There are at most
/// [`METRIC_LIMIT`].
#[derive(Drop)]
pub struct Metrics {
    table: NameMap<Frac>,
}

impl Model for Metrics {
    ghost use Rattle.std.specs.Prelude.{◌≤◌, ℕ, List, length};
    ghost use Rattle.frac_core.specs.Fraction.{Fraction};
    ghost use Rattle.name_tables.specs.declared.metrics.TheConstants.{METRIC_LIMIT};

    ghost Value = { List (List ℕ × Fraction) };

    ghost view = { λ m. m.table };

    ghost invariant = { λ m. length m.table ≤ METRIC_LIMIT };
}

impl Metrics {
    /// No metric. It takes no memory yet.
    pub fn new(alloc: Global) -> Result<Metrics, OutOfMemory>
        ensures { IfOk result (λ metrics. metrics ≡ []) }
    {
        Ok(Metrics {
            table: NameMap::new(alloc),
        })
    }

    /// How many metrics there are.
    pub fn len(&self) -> usize
        ensures len { result ≡ length self.now }
        ensures within { length self.now ≤ METRIC_LIMIT }
        ensures distinct { AreDistinct (names_of self.now) }
    {
        self.table.len()
    }

    /// The value of a metric.
    pub fn get(&self, name: &str) -> Option<Frac>
        ensures { result ≡ value_of self.now name.now }
    {
        self.table.get(name)
    }

    /// The metric at a place, counted from 0 in order of definition.
    pub fn at(&self, place: usize) -> Option<Named<'_, Frac>>
        ensures { option_map (λ metric. (metric.name.now, metric.value)) result ≡ slice_get self.now place }
    {
        self.table.at(place)
    }

    /// Defines a metric, which goes to the end.
    ///
    /// `Taken` where there is a metric of that name, otherwise `Full` where there are [`METRIC_LIMIT`]. After
    /// a refusal all is as before.
    pub fn define(&mut self, name: &str, value: Frac) -> Result<(), NameStop>
        ensures new { OnOk result (IsNew METRIC_LIMIT (names_of self.old) name.now) }
        ensures added { OnOk result (self.new ≡ self.old ++ (name.now, value) ∷ []) }
        ensures refused { IfErr result (MayRefuse METRIC_LIMIT (names_of self.old) name.now) }
        ensures unchanged { OnErr result (self.new ≡ self.old) }
    {
        if self.table.find(name).is_some() {
            return Err(NameStop::Taken);
        }
        if self.len() >= METRIC_LIMIT {
            return Err(NameStop::Full);
        }
        self.table.add(name, value)?;
        Ok(())
    }

    /// Gives a metric another value, and takes no memory.
    ///
    /// `Unknown` where there is no metric of that name. Then all is as before.
    pub fn change(&mut self, name: &str, value: Frac) -> Result<(), NameStop>
        ensures known { OnOk result (IsSome (place_of (names_of self.old) name.now)) }
        ensures changed { OnOk result (self.new ≡ with_value self.old name.now value) }
        ensures unknown { IfErr result (λ stop. (stop ≡ NameStop.Unknown)
            × (place_of (names_of self.old) name.now ≡ None)) }
        ensures unchanged { OnErr result (self.new ≡ self.old) }
    {
        if self.table.find(name).is_none() {
            return Err(NameStop::Unknown);
        }
        self.table.set(name, value);
        Ok(())
    }

    /// The same metrics.
    pub fn copy(&self) -> Result<Metrics, OutOfMemory>
        ensures { IfOk result (λ same. same ≡ self.now) }
    {
        Ok(Metrics {
            table: self.table.copy()?,
        })
    }
}
