//! Fitting at the two corners of a checked route at which not everything has to fit: the first, where the
//! route begins, and the corner after the last exchange. A path may end there to show which of its numbers
//! does not fit.
//!
//! At the first corner the rows' sums are made ([`row_lines`]), up to one that does not fit. At the last
//! corner only the quantity in question is computed, from the corner before it and the exchange (a [`Last`]):
//! [`fit_after`] says whether a quantity fits there, and [`is_sound_after`] whether the corner is sound.
//!
//! ```
//! let last = Last { tableau, step };                                      // the corner before, and how on
//! fit_after(alloc, &problem, last, Quantity::Plain(What::Attr(7)))?       // Fit::Unfit
//! ```
//!
//! Linear programming's words: a quantity is a basic variable's value, an entry of the tableau or a reduced
//! cost after the last pivot, or a partial sum of one.
//!
//! The answer `Unfit` means that all parts of the quantity fit, and the answer `NoRoom` that one of them does
//! not.
//!
//! In reading order: `firsts` (the sums of the first corner), `last` (a quantity after an exchange, by its
//! modules `fits`, `terms`, `rows_after`, `sums_after`, `line_sums`, `after`), `places` (of levels).
#![tactic(auto)]

mod firsts;
mod last;
mod places;

pub use firsts::row_lines;
pub use last::fits::attrs_fit;
pub use last::{Fit, Last, fit_after, has_no_negative_before_after, is_sound_after};
