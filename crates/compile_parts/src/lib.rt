//! The parts of a line's rows: the meaning of its names, and the contribution of each of its terms.
//!
//! A name becomes a view or a metric. An attribute of a view becomes halves of the four kept attributes. A
//! constant is summed step by step, so that it follows the metrics. [`resolve`] looks up the names of some
//! terms in the order of the text, and [`resolve_rank`] the name of a priority.
//!
//! ```
//! // of the terms of `a.centerX - 2*gap`
//! let resolved = resolve(alloc, &tree, &metrics, &terms)?;
//! resolved.added    // half of 2*a.left + a.width: Addend::Attr; and -2 times gap: Addend::Multiple
//! ```
//!
//! An [`Addend`] is a term's contribution to a row. A [`Step`] has the row's scale after a term, and the
//! term's contribution to the constant. [`constant_after`] takes the steps at given metrics, unless a part of
//! the constant would pass [`CONSTANT_LIMIT`].
//!
//! Invariant (`IsKept`): an attribute in an addend is halves, at most two of an edge and two of a size.
//!
//! In reading order: `stops` (why there are no rows), `limits`. Sums: `wide`, `wide::ratios`, `steps` (a
//! constant, step by step). Names: `addends` (a term without names of views), `shares` (attributes of views,
//! by halves), `resolved` with `resolved::lookups` (the names of a line).
#![tactic(auto)]

mod addends;
mod limits;
mod resolved;
mod shares;
mod steps;
mod stops;
mod wide;

pub use addends::Addend;
pub use limits::{ADDEND_LIMIT, CONSTANT_LIMIT, constants_are_as_said};
pub use resolved::{Resolved, resolve, resolve_rank};
pub use shares::{
    AttrSum, EdgeAndSize, Share, attr_sum, attributes, edge_and_size, id_named, share_at,
};
pub use steps::{Part, Step, constant_after, name_at};
pub use stops::{CompileStop, KindWord, LargeConstant};
pub use wide::ratios::{Ratio, small_of};
pub use wide::{product, total};
