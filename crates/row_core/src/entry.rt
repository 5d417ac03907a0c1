// The entries of rows, and what stops the making of a row.
use frac_core::{Stop, Unfit};
use std::marker::Model;

/// A column.
#[derive(Clone, Copy, Debug, PartialEq, Eq)]
pub struct Col(pub u64);

/// The number `by` at the column `col`.
#[derive(Clone, Copy, Debug, PartialEq, Eq)]
pub struct Entry {
    pub col: Col,
    pub by: i64,
}

impl Model for Entry {
    ghost use Rattle.row_core.specs.Rows.{Term};

    ghost Value = { Term };

    ghost view = { λ e. record { col = e.col.0; by = e.by } };

    ghost inverse = { λ t. record { col = record { 0 = t.col }; by = t.by } };
}

/// What two rows are multiplied by before they are added.
#[derive(Clone, Copy, Debug, PartialEq, Eq)]
pub struct Factors {
    pub k: i128,
    pub n: i128,
}

/// The column that a sum of rows leaves out, and the number that it adds at another one.
#[derive(Clone, Copy, Debug, PartialEq, Eq)]
pub struct Patch {
    pub without: Col,
    pub at: Col,
    pub extra: i128,
}

/// A part in lowest terms does not fit, or memory is wanting.
pub type RowStop = Stop<Unfit>;
