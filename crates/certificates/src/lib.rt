//! The certificate that a corner is: where its values are best, its own multipliers show it.
//!
//! [`certificate`] reads a corner's levels, strongest first. At each it takes the multipliers of the level's
//! cost and its scale, and divides them by the factor that they share; a level whose multipliers are all 0
//! is left out. All these numbers fit, since the corner's do, so nothing but memory can be wanting.
//!
//! ```
//! settle(alloc, &mut corner, budget)?;          // rows 7 and 8: attribute 7 is 100 @20, and 200 @30
//! let best = certificate(alloc, &corner)?;      // at level 20 the scale 1, row 7 times -1 and row 8 once
//! ```
//!
//! A corner's certificate is one in the sense of the checker ([`certified_is_accepted`]): it says yes, or
//! that it has no room for some row's values. [`error`] reads what a row lacks.
//!
//! Linear programming's words: a corner with the best values is an optimal basis, and the multipliers of a
//! level are its dual solution there; a certificate has one for each level at which one isn't 0.
//!
//! What a certificate keeps (`IsOwnBest` in `specs/OwnLevels.antt`): its levels stand strongest first, each
//! has a multiplier, and no factor is common to its scale and its multipliers.
//!
//! In reading order: `times` (what is written of a level), `shares` (the division by the common factor),
//! `levels` (they are put together), `errors` (what rows lack), `laws` (what the checker says of all this).
#![tactic(auto)]

mod errors;
mod laws;
mod levels;
mod shares;
mod times;

pub use errors::error;
pub use laws::certified_is_accepted;
pub use levels::certificate;
