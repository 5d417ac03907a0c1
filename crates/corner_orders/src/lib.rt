//! A corner with its stays in another order.
//!
//! The stays of given attributes are put before all others, in the given order; the others keep theirs. So
//! the levels of all stays change, and columns may turn negative: the lines that may have such a column are
//! listed. The marks inside and all values stay.
//!
//! ```
//! put_front(&mut table, &mut listed, &[7, 3])?; // attribute 7's stay comes first, then attribute 3's
//! ```
//!
//! If memory runs out, the lists are left halfway, and the caller goes back to the newest mark.
//!
//! To read: `fronting` gives the slots their ranks and lists lines. `proofs/Orders.antt` has the laws of the
//! lists in another order.
#![tactic(auto)]

mod fronting;

pub use fronting::put_front;
