//! What a session holds, and its rows.
//!
//! An [`Item`] is the window, a view, the window's size, a line of a group, a suggestion, or the size that a
//! view would like. The items are in order of acceptance in a list with earlier versions
//! ([`VersionList`](version_lists::VersionList)). The numbers of their rows rise in that order.
//!
//! ```
//! push_views(&mut items, 5, 1, 1)?;             // the first view, ViewId(1), whose rows are 5 and 6
//! view_rows(alloc, 5, 1, 1)?;                   // width and height are at least 0
//! push_item(&mut items, Item::OfLine { group, line })?; // a line of the group `g`
//! let leaver = Leaver::Group(name);             // `name` is an `OwnedName` of the bytes `g`
//! leaving_numbers(alloc, items.as_slice(), &leaver)?; // the numbers of the rows of that group's lines
//! take_leaving_out(&mut items, &leaver)?;       // what was held before is the newest earlier version
//! ```
//!
//! A contract sees an item without its code (`item_of`): what it keeps (`IsItem`), its rows at given metrics
//! (`AreItemRows`, `AreRows`), and its numbers (`item_numbers`). No function here knows a scene, an engine or
//! a reply: whoever keeps a scene changes the items together with the engine's rows.
//!
//! What always holds: if memory runs out, the items don't change; after a change, the items before are the
//! newest earlier version; and a change of constants names each row whose constant changes.
//!
//! In reading order: `own` (a large part on the heap), `limits`, `row_numbers`, `changes` (how far a constant
//! moves); `item` is what is held, with `rows` (its rows), `suggesting` and `intrinsic` (suggestions, and
//! sizes of views), `new_item` (a new item with its rows), `finding` (items of which there is at most one),
//! and with what a change does to it: `placing` (adds, replaces or removes an item), `coming` (views),
//! `leaving`, `moving` (metrics) and `renewing` (other constants).
#![tactic(auto)]

mod changes;
mod item;
mod limits;
mod own;
mod row_numbers;

pub use changes::{fits_after, is_near_size};
pub use item::coming::{NewViews, attributes_from, push_views, view_attributes};
pub use item::finding::{has_size, intrinsic_of, size_of, suggestion_of};
pub use item::intrinsic::{IntrinsicSize, USUAL_HUG, USUAL_RESIST, intrinsic_name};
pub use item::leaving::{Leaver, has_group, leaving_attributes, leaving_numbers, take_leaving_out};
pub use item::moving::{constants_naming, moves};
pub use item::new_item::NewItem;
pub use item::placing::push_item;
pub use item::renewing::{Renewal, changes_of, renew};
pub use item::rows::{small_line_rows, structural_rows, view_rows};
pub use item::suggesting::suggestion_name;
pub use item::{HeldSize, Item, WindowSize, line_count};
pub use limits::{EARLIER, MOST_ROWS, constants_are_as_said};
pub use own::Own;
pub use row_numbers::{FIRST_FREE_ROW, INTRINSIC_ROWS, SIZE_ROWS, VIEW_ROWS};
