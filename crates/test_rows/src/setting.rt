// The views, the metrics and the direction of some lines.
use frac_core::{Frac, OutOfMemory};
use name_tables::{Metrics, NameStop};
use script_text::Direction;
use std::alloc::Global;
use view_tree::{Tree, ViewStop};

/// The views, the metrics, the direction, and how rows are numbered.
#[derive(Drop)]
pub struct Setting {
    pub tree: Tree,
    pub metrics: Metrics,
    /// The direction in which lines are meant.
    pub direction: Direction,
    /// The number of the next row.
    pub number: u32,
    /// Whether a line's rows are numbered after those of the line before.
    pub is_running_on: bool,
}

impl Setting {
    /// The window alone, from left to right.
    pub fn new(alloc: Global, number: u32, is_running_on: bool) -> Result<Setting, OutOfMemory> {
        Ok(Setting {
            tree: Tree::new(alloc)?,
            metrics: Metrics::new(alloc)?,
            direction: Direction::Ltr,
            number,
            is_running_on,
        })
    }

    /// Makes a view, and says whether it could be made.
    pub fn add_view(&mut self, name: &str, parent: Option<&str>) -> Result<bool, OutOfMemory> {
        let Some(above) = self.tree.find(parent.unwrap_or("window")) else {
            return Ok(false);
        };
        match self.tree.add(name, above) {
            Ok(_) => Ok(true),
            Err(ViewStop::OutOfMemory) => Err(OutOfMemory),
            Err(_) => Ok(false),
        }
    }

    /// Makes a metric, and says whether it could be made.
    pub fn define(&mut self, name: &str, value: Frac) -> Result<bool, OutOfMemory> {
        match self.metrics.define(name, value) {
            Ok(()) => Ok(true),
            Err(NameStop::OutOfMemory) => Err(OutOfMemory),
            Err(_) => Ok(false),
        }
    }

    /// The next line's first number, where so many rows were numbered.
    pub fn count_rows(&mut self, count: usize) {
        if self.is_running_on {
            self.number = self
                .number
                .saturating_add(u32::try_from(count).unwrap_or(u32::MAX));
        }
    }
}
