// Scenes under distinct names.
ghost use Rattle.std.specs.Prelude.{◌≡◌, ◌≤◌, ◌++◌, ◌∷◌, [], None, Some, not, length, IfOk, IfSome, IfNone};
ghost use Rattle.std.specs.Prelude.{OnErr, OnOk};
ghost use Rattle.edge_io.specs.declared.feed.TheConstants.{LINE_LIMIT};
ghost use Rattle.name_tables.specs.Names.{value_of, with_value};
ghost use Rattle.scene_host.specs.Hosts.{SaysBehind};

use crate::scene::Scene;
use frac_core::OutOfMemory;
use indexmap::IndexMap;
use std::alloc::Global;
use std::marker::Model;

/// Scenes under distinct names, in the order in which they were added. A name is found by its hash.
#[derive(Drop)]
pub struct Scenes<S: Drop> {
    table: IndexMap<String, S>,
}

impl<S: Drop> Model for Scenes<S> {
    ghost use Rattle.std.specs.Prelude.{ℕ, List, map};
    ghost use Rattle.std.specs.String.{string_bytes};

    ghost Value = { List (List ℕ × S) };

    ghost view = { λ n. map (λ e. (string_bytes e.0, e.1)) n.table.entries };
}

impl<S: Drop> Scenes<S> {
    /// No scene. It takes no memory yet.
    pub(crate) fn new(alloc: Global) -> Scenes<S>
        ensures { result ≡ [] }
    {
        Scenes {
            table: IndexMap::new(alloc),
        }
    }

    /// How many scenes there are.
    pub(crate) fn len(&self) -> usize
        ensures { result ≡ length self.now }
    {
        self.table.len()
    }

    /// Adds a scene under a new name.
    pub(crate) fn add(&mut self, name: &str, scene: S) -> Result<(), OutOfMemory>
        requires { value_of self.old name.now ≡ None }
        ensures added { OnOk result (self.new ≡ self.old ++ (name.now, scene) ∷ []) }
        ensures unchanged { OnErr result (self.new ≡ self.old) }
    {
        let key = String::from_str(*self.table.allocator(), name)?;
        self.table.insert(key, scene)?;
        Ok(())
    }
}

impl<S: Scene + Drop> Scenes<S> {
    /// Has the scene of a name answer a line, and says whether it refuses; there is no answer where no scene
    /// has the name. The others are as before.
    pub(crate) fn answer(
        &mut self,
        name: &str,
        line: &[u8],
        before: &[u8],
        out: &mut Vec<u8>,
    ) -> Result<Option<bool>, OutOfMemory>
        requires { length line.now ≤ LINE_LIMIT }
        ensures told { IfOk result (λ found. IfSome found (λ refused. (was : S) × (now : S)
            × (value_of self.old name.now ≡ Some was) × (self.new ≡ with_value self.old name.now now)
            × SaysBehind S.answers was line.now before.now out.old.items out.new.items (not refused) now)) }
        ensures none { IfOk result (λ found. IfNone found ((value_of self.old name.now ≡ None)
            × (self.new ≡ self.old) × (out.new.items ≡ out.old.items))) }
        ensures same { OnErr result (self.new ≡ self.old) }
        ensures unchanged { OnErr result (out.new.items ≡ out.old.items) }
    {
        match self.table.get_mut(name) {
            Some(scene) => Ok(Some(scene.answer_marked(line, before, out)?)),
            None => Ok(None),
        }
    }
}
