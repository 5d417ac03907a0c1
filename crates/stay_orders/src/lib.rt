//! Orders of a problem's stays. Of two stays the one that comes first in the list is the stronger, and a view
//! that is kept has its stays put before all others.
//!
//! [`in_front`] puts the stays of some attributes first, and leaves the others in their order:
//!
//! ```
//! in_front(alloc, &stays, &[3])?;               // of the stays of 1, 2, 3 and 4: 3, 1, 2, 4
//! in_front(alloc, &stays, &[3, 4])?;            // 3, 4, 1, 2
//! ```
//!
//! The laws say what such an order leaves as it is, each the contract of a function that does nothing: what
//! stands at marks, a corner, and what a priority level costs do not see it, and where the stays stand at the
//! best values, these stay the best. What it changes is which of two attributes gives way once a row moves
//! one of them ([`keep_decides`]), and so which columns are negative: of those that cost nothing at a stay
//! that has come first, none turns ([`only_fronted_turn`]).
//!
//! The words are `with_front`, of a list of stays, and `fronted`, of a problem (`specs/Orders.antt`).
//!
//! In reading order: `order` puts stays first, `laws` says what that comes to.
#![tactic(auto)]

mod laws;
mod order;

pub use laws::{
    fronted_is_corner, fronted_is_whole, fronted_rays, fronted_stays_best, fronted_sums,
    keep_decides, levels_go_by_place, only_fronted_turn, order_is_unseen, priorities_are_unseen,
    priorities_cost_the_same, some_orders, some_turn,
};
pub use order::in_front;
