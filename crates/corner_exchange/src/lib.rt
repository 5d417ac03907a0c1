//! The exchange of an outside line for an inside one, and the turn of a line, in the lists of a corner.
//!
//! All is done on a `Table` of `corner_table`. An exchange is worked out first ([`exchange_of`]), with no
//! change of a list: what it makes of each row and value that has the entering line in it, or the stop that
//! names the first of these that doesn't fit. [`put_exchange`] puts it, and lists the lines that may have a
//! negative column now. A line whose inside mark stands at 0 may also give the place inside to its other mark
//! ([`turn_of`], [`put_turn`]). Where no column is negative afterwards, [`put_unlisted`] and
//! [`turn_unlisted`] do the same and list no line.
//!
//! ```
//! let made = exchange_of(&table, Pair { enter, leave, side })?;    // or a stop: no list has changed
//! put_exchange(&mut table, &mut listed, made)?;
//! ```
//!
//! What always holds: after a stop of [`exchange_of`] or [`turn_of`] the lists are as before; after
//! [`put_exchange`] and [`put_turn`] they keep `IsKept` at the marks after the exchange. The earlier versions
//! of the lists stay as they are.
//!
//! Linear programming's words: an exchange is a pivot; the entering line's number in the leaving one's row is
//! the pivot element. Each new row is a combination of two in whole numbers ([`named_row`]), each value one
//! of two fractions ([`named_sum`]).
//!
//! To read: `exchange` works out an exchange and puts it, `exchange::turning` a turn.
#![tactic(auto)]

mod exchange;

pub use exchange::turning::{negated, put_turn, turn_of, turn_unlisted};
pub use exchange::{
    Change, Exchange, exchange_of, named_row, named_sum, opposite, put_change, put_exchange,
    put_unlisted, put_value, with_signs,
};
