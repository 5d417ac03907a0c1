//! Lists with earlier versions: what was marked is kept, and comes back without a copy.
//!
//! [`VersionList`] is a list of anything, [`NumberSlots`] has the slots of numbers, and [`IndexedRows`] has rows
//! in lowest terms with an index of their columns. Each has up to [`VERSION_LIMIT`] earlier versions.
//!
//! `mark` keeps what is there now as the newest version, `rewind` takes back what was done since, `back`
//! returns to it for good, and `forget` drops the oldest. None of these four takes memory. A contract sees what
//! is there now and, the newest first, the versions `before`.
//!
//! ```
//! let mut names = VersionList::new(alloc)?;
//! names.push("a")?;
//! names.mark();
//! names.put(0, "b")?;   // now "b"
//! names.back();         // now "a"
//! ```
//!
//! To read: `versions` (the list), `slots` (by number, over one list), `rows` (over two).
#![tactic(auto)]

mod rows;
mod slots;
mod versions;

pub use rows::IndexedRows;
pub use slots::NumberSlots;
pub use versions::{VERSION_LIMIT, VersionList};
