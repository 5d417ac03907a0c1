//! The tree of views: live views in order of creation, each below its parent, under the window. This crate
//! alone gives a view its number.
//!
//! ```
//! let mut tree = Tree::new(alloc)?;             // the window, ViewId(0)
//! let card = tree.add("card", ViewId(0))?;      // ViewId(1)
//! tree.add("title", card)?;                     // ViewId(2)
//! let gone = tree.subtree(card)?;               // `card` and `title`
//! tree.drop_views(&gone);                       // their numbers aren't used again
//! // 2 views: `list`, ViewId(3), and in it `row`, ViewId(4)
//! tree.add_json(br#"{"name": "list", "children": [{"name": "row"}]}"#, &metrics)?;
//! ```
//!
//! What a [`Tree`] keeps (`AreKept`): the window comes first, names are distinct, numbers rise and are below
//! the next one, a parent's is below its child's, and the limits hold ([`VIEW_LIMIT`], [`DEPTH_LIMIT`],
//! [`ID_LIMIT`]). After a refusal all is as before.
//!
//! In reading order: `limits`, `view` (what a caller sees of one), `attributes` (the numbers of its four),
//! `stops` (why views aren't added), `tree`, `plan` (the views that a JSON value names), `json` (trees from
//! JSON) and `laws`.
#![tactic(auto)]

mod attributes;
mod json;
mod laws;
mod limits;
mod plan;
mod stops;
mod tree;
mod view;

pub use attributes::Attributes;
pub use laws::{depth_is_unique, numbers_rise};
pub use limits::{DEPTH_LIMIT, ID_LIMIT, VIEW_LIMIT, constants_are_as_said};
pub use stops::{TreeStop, ViewStop};
pub use tree::Tree;
pub use view::{View, ViewId};
