// What has a writing at a corner, and what stops a change of its tableau.
use crate::parts::{Level, Mark};
use frac_core::Stop;
use thiserror::Error;

/// What is written by the outside marks of a corner: an attribute, a mark, or the cost of a level.
#[derive(Clone, Copy, Debug, PartialEq, Eq)]
pub enum What {
    Attr(u32),
    Mark(Mark),
    Level(Level),
}

/// A quantity of a corner that may not fit: its coefficients, its denominator and the parts of its value.
///
/// `first` says how many terms, rows or changed constants are counted.
#[derive(Clone, Copy, Debug, PartialEq, Eq, Error)]
pub enum Quantity {
    /// A writing and its value.
    #[error("a writing of the corner or its value does not fit")]
    Plain(What),
    /// The sum of the first terms of a new row, and past their number that of all of them less its constant.
    #[error("the sum of the first {first} terms of a new row does not fit")]
    Terms { mark: Mark, first: u32 },
    /// The cost of the first rows of a level.
    #[error("the cost of the first {first} rows of a level does not fit")]
    Rows { level: Level, first: u32 },
    /// The value after the first changed constants.
    #[error("a value after the first {first} changed constants does not fit")]
    Shifts { what: What, first: u32 },
}

/// What stops a change of a corner's tableau: a quantity that does not fit, or want of memory.
pub type TableStop = Stop<Quantity>;
