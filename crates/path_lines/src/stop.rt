// Why a sum isn't made.
use frac_core::{Stop, Unfit};

/// A part in lowest terms does not fit, or memory has run out.
pub type SumStop = Stop<Unfit>;
