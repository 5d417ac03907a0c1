//! A scene, its steps, and the problems that they solve.
//!
//! A scene is what a script has said so far: the views, the metrics and the items that are held, and an
//! engine with the rows that these stand for and the values that are best for them. A step changes the items,
//! has the engine solve the rows of the changed ones with the stays at the values of before, and leaves the
//! scene before it among the earlier ones. After a stop all is as before.
//!
//! ```
//! let mut scene = Scene::new(alloc)?;
//! let size = WindowSize { width: Frac::of(100, 1)?, height: Frac::of(50, 1)? };
//! let first = NewItem::size(alloc, scene.next_row(), &size)?;
//! scene.take(Draft::More(first), 100_000)?;
//! scene.frame(ViewId(0));               // left 0, top 0, width 100, height 50
//! scene.moved()?;                       // Some([0])
//! scene.back();                         // the window without a size again
//! ```
//!
//! A [`Draft`] is one change of a scene. [`Scene::take`] makes it, [`Scene::pose`] returns the problem that
//! `take` would solve, and [`Scene::core`] says whether that problem's required rows clash. Each of the three
//! first works out the step to the draft, before anything changes: the request to the engine, what happens to
//! the items, and the views, metrics and setting of the next scene (`specs/Stepping.antt`).
//!
//! Contracts are stated over the draft's scene (`drafted`, in `specs/Drafts.antt`): only its rows, values and
//! corner are still the old ones. `take` replaces these by the rows of what is held then, and their best
//! values, along a path within the budget, or says why it can't (`specs/Steps.antt`). A sweep of the window's
//! width is stated over the scene as it is, with the stays at the present values (`specs/Sweeping.antt`).
//!
//! Invariant of a [`Scene`] (`IsKeptHistory`): the engine's problem is that of the rows of what is held, at
//! this scene and at each earlier one that is kept; and so its values are best (`layout_solver`).
//!
//! In reading order: `limits`; `scene` is what the held items (`held_items`) come to, with `past` (earlier
//! scenes), `frames`, `values`, `draft` (the changes), `step` (the steps that make them), `problems` (the
//! problem of the scene as it is) and `moved` (the views whose frames changed); `laws`.
#![tactic(auto)]

mod laws;
mod limits;
mod scene;

pub use laws::moved_is_not_stayed;
pub use limits::FIRST_BUDGET;
pub use scene::Scene;
pub use scene::draft::{Draft, NewMetrics};
