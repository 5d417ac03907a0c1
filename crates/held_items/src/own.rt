// A large part on the heap, so that what holds it is cheap to move.
ghost use Rattle.std.specs.Prelude.{◌≡◌, IfOk};

use frac_core::OutOfMemory;
use std::alloc::Global;
use std::marker::Model;
use std::mem;

/// A value on the heap. Contracts see the value itself.
#[derive(Drop)]
pub struct Own<T> {
    part: Box<T>,
}

impl<T> Model for Own<T> {
    ghost Value = { T };

    ghost coded = { T.code };

    ghost view = { λ own. own.part.value };
}

impl<T: Drop> Own<T> {
    /// Moves the value to the heap.
    pub fn of(alloc: Global, value: T) -> Result<Own<T>, OutOfMemory>
        ensures { IfOk result (λ own. own ≡ value) }
    {
        Ok(Own {
            part: Box::new(alloc, value)?,
        })
    }

    /// The value.
    pub fn get(&self) -> &T
        ensures { result.now ≡ self.now }
    {
        &self.part
    }

    /// Moves the value back from the heap.
    pub fn into_inner(self) -> T
        ensures { result ≡ self }
    {
        let Own { part } = self;
        Box::into_inner(part)
    }

    /// Swaps the value with another one.
    pub fn swap(&mut self, other: &mut T)
        ensures own { self.new ≡ other.old }
        ensures other { other.new ≡ self.old }
    {
        mem::swap(&mut *self.part, other);
    }
}
