// The lines that may have a negative column.
ghost use Rattle.std.specs.Prelude.{◌≡◌, ◌<◌, ℕ, [], length, Contains, IfSome, IfNone, OnOk, slice_get};
ghost use Rattle.std.specs.Prelude.{slice_index_or, true, map, All};
ghost use Rattle.corner_table.specs.Reads.Listing.{HasLeft, IsListed, IsWithout};

use frac_core::OutOfMemory;
use std::alloc::Global;
use std::marker::Model;

/// The slots of the listed lines, and by slot whether it is listed.
#[derive(Drop)]
pub struct Listed {
    lines: Vec<u32>,
    flags: Vec<bool>,
}

impl Model for Listed {
    ghost use Rattle.std.specs.Prelude.{List, ℕ};
    ghost use Rattle.corner_table.specs.Reads.Listing.{AreFlagged};

    ghost Value = { List ℕ };

    ghost view = { λ l. l.lines.items };

    ghost invariant = { λ l. AreFlagged l.lines.items l.flags.items };
}

impl Listed {
    /// No line.
    pub fn new(alloc: Global) -> Listed
        ensures { result ≡ [] }
    {
        Listed {
            lines: Vec::new(alloc),
            flags: Vec::new(alloc),
        }
    }

    /// How many lines are listed.
    pub fn len(&self) -> usize
        ensures { result ≡ length self.now }
    {
        self.lines.len()
    }

    /// The slot of one of the listed lines.
    pub fn slot(&self, i: usize) -> u32
        requires { i < length self.now }
        ensures { slice_get self.now i ≡ Some result }
    {
        self.lines[i]
    }

    /// Whether a line is listed.
    pub fn has(&self, line: u32) -> bool
        ensures { result ≡ true → Contains self.now line }
    {
        (line as usize) < self.flags.len() && self.flags[line as usize]
    }

    /// Lists a line.
    pub fn push(&mut self, line: u32) -> Result<(), OutOfMemory>
        ensures { OnOk result (IsListed line self.old self.new) }
    {
        while self.flags.len() <= line as usize {
            self.flags.push(false)?;
        }
        if self.flags[line as usize] {
            return Ok(());
        }
        self.lines.push(line)?;
        self.flags[line as usize] = true;
        Ok(())
    }

    /// Takes one of the listed lines off.
    pub fn remove(&mut self, i: usize)
        requires { i < length self.old }
        ensures { IsWithout (slice_index_or self.old i 0) self.old self.new }
    {
        let line = self.lines.swap_remove(i);
        self.flags[line as usize] = false;
    }

    // Where the line is listed.
    fn place_of(&self, line: u32) -> Option<usize>
        ensures some { IfSome result (λ i. i < length self.now) }
        ensures is { IfSome result (λ i. slice_index_or self.now i 0 ≡ line) }
        ensures none { IfNone result (Contains self.now line → ⊥) }
    {
        for i in 0..self.lines.len() {
            if self.lines[i] == line {
                return Some(i);
            }
        }
        None
    }

    /// Takes a line off, if it is listed.
    pub fn leave(&mut self, line: u32)
        ensures { HasLeft line self.old self.new }
    {
        while let Some(i) = self.place_of(line) {
            self.remove(i);
        }
    }

    /// Gives each listed line another slot.
    pub fn rename(&mut self, places: &[u32], alloc: Global) -> Result<(), OutOfMemory>
        requires { All (λ w. w < length places.now) self.old }
        ensures { OnOk result (self.new ≡ map (λ w. slice_index_or places.now w 0) self.old) }
    {
        let mut lines = Vec::with_capacity(alloc, self.lines.len())?;
        let mut flags = Vec::new(alloc);
        for line in self.lines.as_slice() {
            let place = places[*line as usize];
            while flags.len() <= place as usize {
                flags.push(false)?;
            }
            flags[place as usize] = true;
            lines.push(place)?;
        }
        *self = Listed { lines, flags };
        Ok(())
    }

    /// Takes all lines off.
    pub fn clear(&mut self)
        ensures { self.new ≡ [] }
    {
        while let Some(line) = self.lines.pop() {
            self.flags[line as usize] = false;
        }
    }
}
