// A list of distinct names.
ghost use Rattle.std.specs.Prelude.{◌≡◌, ◌≤◌, ◌++◌, ◌∷◌, [], None, IfOk, OnErr, OnOk, IfErr, length};
ghost use Rattle.std.specs.Prelude.{slice_get};
ghost use Rattle.std.specs.Option.{option_map};
ghost use Rattle.name_tables.specs.Names.{place_of, AreDistinct, IsNew, IsWithout, MayRefuse};

use crate::name_map::NameMap;
use crate::stops::NameStop;
use frac_core::OutOfMemory;
use std::alloc::Global;
use std::marker::Model;

/// Names in the order in which they were added, no two alike, and at most so many as a limit allows.
///
/// Places count from 0. A name is found by its hash.
#[derive(Drop)]
pub struct Names {
    table: NameMap<()>,
    limit: u32,
}

impl Model for Names {
    ghost use Rattle.std.specs.Prelude.{◌≤◌, ◌<◌, ◌^◌, length};
    ghost use Rattle.name_tables.specs.Names.{NameList, names_of};

    ghost Value = { NameList };

    ghost view = { λ n. record { names = names_of n.table; limit = n.limit } };

    ghost invariant = { λ n. (length n.table ≤ n.limit) × (n.limit < 2 ^ 32) };
}

impl Names {
    /// No name, with room for as many as `limit`. It takes no memory yet.
    pub fn new(alloc: Global, limit: u32) -> Result<Names, OutOfMemory>
        ensures { IfOk result (λ names. names ≡ record { names = []; limit = limit }) }
    {
        Ok(Names {
            table: NameMap::new(alloc),
            limit,
        })
    }

    /// How many names there are.
    pub fn len(&self) -> usize
        ensures len { result ≡ length self.now.names }
        ensures within { length self.now.names ≤ self.now.limit }
        ensures distinct { AreDistinct self.now.names }
    {
        self.table.len()
    }

    /// The place of a name.
    pub fn find(&self, name: &str) -> Option<u32>
        ensures { result ≡ place_of self.now.names name.now }
    {
        let place = self.table.find(name)?;
        Some(place as u32)
    }

    /// The name at a place.
    pub fn at(&self, place: u32) -> Option<&str>
        ensures { option_map (λ name. name.now) result ≡ slice_get self.now.names place }
    {
        let entry = self.table.at(place as usize)?;
        Some(entry.name)
    }

    /// Adds a name at the end, and answers its place.
    ///
    /// `Taken` where the name is there, otherwise `Full` where there are `limit` names. After a refusal all
    /// is as before.
    pub fn add(&mut self, name: &str) -> Result<u32, NameStop>
        ensures place { IfOk result (λ place. place ≡ length self.old.names) }
        ensures new { OnOk result (IsNew self.old.limit self.old.names name.now) }
        ensures added { OnOk result (self.new ≡ record self.old { names = self.old.names ++ name.now ∷ [] }) }
        ensures refused { IfErr result (MayRefuse self.old.limit self.old.names name.now) }
        ensures unchanged { OnErr result (self.new ≡ self.old) }
    {
        if self.find(name).is_some() {
            return Err(NameStop::Taken);
        }
        let place = self.len();
        if place >= self.limit as usize {
            return Err(NameStop::Full);
        }
        self.table.add(name, ())?;
        Ok(place as u32)
    }

    /// Takes a name out, and takes no memory. The names after it close up.
    ///
    /// `Unknown` where the name isn't there. Then all is as before.
    pub fn remove(&mut self, name: &str) -> Result<(), NameStop>
        ensures removed { OnOk result (IsWithout self.old name.now self.new) }
        ensures unknown { IfErr result
            (λ stop. (stop ≡ NameStop.Unknown) × (place_of self.old.names name.now ≡ None)) }
        ensures unchanged { OnErr result (self.new ≡ self.old) }
    {
        match self.table.find(name) {
            Some(place) => {
                self.table.remove(place);
                Ok(())
            }
            None => Err(NameStop::Unknown),
        }
    }

    /// A list of the same names under the same limit.
    pub fn copy(&self) -> Result<Names, OutOfMemory>
        ensures { IfOk result (λ same. same ≡ self.now) }
    {
        Ok(Names {
            table: self.table.copy()?,
            limit: self.limit,
        })
    }
}
