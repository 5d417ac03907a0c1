// The changes that a scene can make.
use held_items::{Leaver, NewItem, NewViews, Own, Renewal};
use layout_solver::Change;
use name_tables::Metrics;
use script_text::Direction;
use view_tree::ViewId;

/// Metrics with one new or changed value, and the changes to the constants that name it.
#[derive(Drop)]
pub struct NewMetrics {
    pub metrics: Own<Metrics>,
    pub to: Vec<Change>,
}

/// One change of a scene: of its views, of its metrics, or of what it holds.
#[derive(Drop)]
pub enum Draft {
    /// Adds views.
    Views(NewViews),
    /// Replaces the metrics.
    Metrics(NewMetrics),
    /// Adds an item: a line, the window's first size, or the first suggestion or size of a view.
    More(NewItem),
    /// Changes the constants of an item that is held.
    Renewed(Renewal),
    /// Removes items, or views with all that belongs to them.
    Out(Leaver),
    /// Sets the direction for later lines and suggestions. No row changes.
    Turn(Direction),
    /// Puts the stays of this view before all others, so that later changes move other views rather than
    /// this one. No row changes.
    Keep(ViewId),
}
