//! Tables of names in the order in which they came: plain names, names with values, and metrics.
//!
//! [`Metrics`] has the numbers that a script defines, [`Names`] names alone, and [`NameMap`] what stands
//! under names of any kind. A name is found by its hash.
//!
//! ```
//! let mut metrics = Metrics::new(alloc)?;
//! metrics.define("gap", Frac::of(8, 1)?)?;
//! metrics.get("gap");                           // Some(8)
//! metrics.define("gap", Frac::zero())           // Err(NameStop::Taken), and the metric is 8 as before
//! ```
//!
//! Invariant: no name stands twice, and there are at most so many as the limit says, [`METRIC_LIMIT`] of
//! metrics. After a refusal all is as before.
//!
//! In reading order: `stops` (why a call is refused, and the limits of a scene by name), `owned_name` (a
//! name that outlives its text), `name_map`, `names`, `metrics`.
#![tactic(auto)]

mod metrics;
mod name_map;
mod names;
mod owned_name;
mod stops;

pub use metrics::{METRIC_LIMIT, Metrics};
pub use name_map::{NameMap, Named};
pub use names::Names;
pub use owned_name::OwnedName;
pub use stops::{LimitWord, NAME_LIMIT, NameStop, constants_are_as_said};
