//! Exact fractions in lowest terms, and the numbers from which they are made.
//!
//! A [`Frac`] is what a size, a constant or a value is in the crates above: a numerator and a denominator
//! without a common factor, each below 2^42 in size. A result that doesn't fit is `Unfit`, never rounded.
//!
//! ```
//! let third = Frac::of(2, 6)?;                  // 1/3
//! Frac::mul_add(third, 1, 2, third)?            // 1/3 + (1/2)*(1/3), which is 1/2
//! third.compare(&Frac::zero())                  // Ordering::Greater
//! Frac::of(1 << 42, 1)                          // Err(Unfit)
//! ```
//!
//! What the type keeps (`IsKept`): the denominator is above 0, there is no common factor but 1, and both
//! parts fit.
//!
//! To read: `divisor` (the greatest common divisor, exact quotients), `times` (products of two numbers), `frac`,
//! `order` (the order of quotients whose cross products may be too large for 128 bits), `wide` (fractions for
//! printing, which need not fit), `text` (fractions as text), `memory` (want of memory as an error of its own,
//! for all crates).
#![tactic(auto)]

mod divisor;
mod frac;
mod memory;
mod order;
mod text;
mod times;
mod wide;

pub use divisor::{common_divisor, gcd, quotient};
pub use frac::{Frac, PART_BOUND, Unfit};
pub use memory::{OutOfMemory, Stop};
pub use order::cmp_wide;
pub use text::{FRACTION_ROOM, write_frac};
pub use times::{opposite, product};
pub use wide::Wide;
