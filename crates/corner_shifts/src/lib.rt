//! A corner with another constant of a row, or with other targets of its stays. The marks inside stay.
//!
//! [`shift_row`] gives a row another constant, and all values and costs what they have with it. Values may
//! turn negative, and stays move away from their targets. [`list_astray`] lists the stays that a shift of a
//! line may move ([`Astray`]), [`list_exchanged`] those that an exchange may move in which a line enters, and
//! [`stand_astray`] makes the attributes' values the targets of these stays.
//!
//! ```
//! let mut astray = none_astray(alloc);          // each stay is at its target
//! list_astray(&table, &mut astray, line);       // those whose rows contain the line of row 7
//! shift_row(&mut table, 7, to)?;                // row 7 has the constant `to`
//! stand_astray(&mut table, &astray)?;
//! all_stand(&mut astray);
//! ```
//!
//! If `shift_row` or `stand_astray` stops, the lists are left halfway, and the caller goes back to the newest
//! mark.
//!
//! To read: `shifting` moves a constant, `standing` moves targets, with `standing::listed` for the case that
//! the stays to move are known, and `astray` keeps which these are.
#![tactic(auto)]

mod astray;
mod shifting;
mod standing;

pub use astray::{Astray, all_stand, forget_astray, list_astray, list_exchanged, none_astray};
pub use shifting::shift_row;
pub use standing::stand_astray;
