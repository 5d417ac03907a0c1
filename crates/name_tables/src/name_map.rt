// Values under distinct names.
ghost use Rattle.std.specs.Prelude.{◌≡◌, ◌<◌, ◌++◌, ◌∷◌, [], None, length, remove, slice_get, take};
ghost use Rattle.std.specs.Prelude.{IfOk, IfSome, OnErr, OnOk};
ghost use Rattle.std.specs.Option.{option_map};
ghost use Rattle.name_tables.specs.Names.{AreClones, AreDistinct, names_of, place_of, value_of, values_of};
ghost use Rattle.name_tables.specs.Names.{with_value};

use frac_core::OutOfMemory;
use indexmap::IndexMap;
use std::alloc::Global;
use std::marker::Model;

/// A name with what stands under it.
#[derive(Clone, Copy)]
pub struct Named<'a, V: Copy> {
    pub name: &'a str,
    pub value: V,
}

/// Values under distinct names, in the order in which they were added.
///
/// Places count from 0. A name is found by its hash.
#[derive(Drop)]
pub struct NameMap<V: Copy> {
    table: IndexMap<String, V>,
}

impl<V: Copy> Model for NameMap<V> {
    ghost use Rattle.std.specs.Prelude.{ℕ, List, map};
    ghost use Rattle.std.specs.String.{string_bytes};

    ghost Value = { List (List ℕ × V) };

    ghost view = { λ n. map (λ e. (string_bytes e.0, e.1)) n.table.entries };
}

impl<V: Copy> NameMap<V> {
    /// No name. It takes no memory yet.
    pub fn new(alloc: Global) -> NameMap<V>
        ensures { result ≡ [] }
    {
        NameMap {
            table: IndexMap::new(alloc),
        }
    }

    /// How many names there are.
    pub fn len(&self) -> usize
        ensures len { result ≡ length self.now }
        ensures distinct { AreDistinct (names_of self.now) }
    {
        self.table.len()
    }

    /// The place of a name.
    pub fn find(&self, name: &str) -> Option<usize>
        ensures place { result ≡ place_of (names_of self.now) name.now }
        ensures within { IfSome result (λ place. place < length self.now) }
    {
        self.table.get_index_of(name)
    }

    /// The value under a name.
    pub fn get(&self, name: &str) -> Option<V>
        ensures { result ≡ value_of self.now name.now }
    {
        self.table.get(name).copied()
    }

    /// The name and the value at a place.
    pub fn at(&self, place: usize) -> Option<Named<'_, V>>
        ensures { option_map (λ e. (e.name.now, e.value)) result ≡ slice_get self.now place }
    {
        let (name, value) = self.table.get_index(place)?;
        Some(Named {
            name: name.as_str(),
            value: *value,
        })
    }

    /// The values, in order.
    pub fn values(&self) -> &[V]
        ensures { result.now ≡ values_of self.now }
    {
        self.table.values().as_slice()
    }

    /// Puts another value under a name. Where the name isn't there, nothing changes.
    pub fn set(&mut self, name: &str, value: V)
        ensures { self.new ≡ with_value self.old name.now value }
    {
        if let Some(held) = self.table.get_mut(name) {
            *held = value;
        }
    }

    /// Adds a new name at the end.
    pub fn add(&mut self, name: &str, value: V) -> Result<(), OutOfMemory>
        requires { place_of (names_of self.old) name.now ≡ None }
        ensures added { OnOk result (self.new ≡ self.old ++ (name.now, value) ∷ []) }
        ensures unchanged { OnErr result (self.new ≡ self.old) }
    {
        let key = String::from_str(*self.table.allocator(), name)?;
        self.table.insert(key, value)?;
        Ok(())
    }

    /// Keeps the first names, so many as `len`, with what stands under them. It takes no memory.
    pub fn truncate(&mut self, len: usize)
        ensures { self.new ≡ take len self.old }
    {
        self.table.truncate(len);
    }

    /// Takes out the name at a place, with what stands under it. Those after it close up. Past the end
    /// nothing changes. It takes no memory.
    pub fn remove(&mut self, place: usize)
        ensures { self.new ≡ remove self.old place }
    {
        self.table.shift_remove_index(place);
    }

    /// The same names over clones of the values.
    pub fn copy(&self) -> Result<NameMap<V>, OutOfMemory>
        ensures { IfOk result (AreClones V.is_clone self.now) }
    {
        Ok(NameMap {
            table: self.table.clone()?,
        })
    }
}
