// The multiplier of a row.
use problem_core::RowName;

/// A row and its multiplier.
#[derive(Clone, Copy, Debug, PartialEq, Eq)]
pub struct By {
    pub row: RowName,
    pub times: i64,
}
