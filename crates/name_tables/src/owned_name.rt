// A name that outlives the text that it was read from.
ghost use Rattle.std.specs.Prelude.{◌≡◌, IfOk};

use frac_core::OutOfMemory;
use std::alloc::Global;
use std::marker::Model;

/// A name of its own: a list of bytes.
#[derive(Drop, Debug)]
pub struct OwnedName {
    bytes: Vec<u8>,
}

impl Model for OwnedName {
    ghost use Rattle.std.specs.Prelude.{ℕ, List};

    ghost Value = { List ℕ };

    ghost view = { λ n. n.bytes.items };
}

impl OwnedName {
    /// The name with just these bytes.
    pub fn of(alloc: Global, text: &[u8]) -> Result<OwnedName, OutOfMemory>
        ensures { IfOk result (λ name. name ≡ text.now) }
    {
        Ok(OwnedName {
            bytes: Vec::from_slice(alloc, text)?,
        })
    }

    /// The name's bytes.
    pub fn bytes(&self) -> &[u8]
        ensures { result.now ≡ self.now }
    {
        &self.bytes
    }
}
