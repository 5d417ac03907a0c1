// Frames of views.
ghost use Rattle.std.specs.Prelude.{◌≡◌, ◌<◌, true, false, All, IfSome, IfNone, None, Some, slice_get};
ghost use Rattle.problem_core.specs.Gaps.{value_of};
ghost use Rattle.problem_core.specs.Layout.{HasStay};
ghost use Rattle.view_tree.specs.declared.limits.TheConstants.{ID_LIMIT};
ghost use Rattle.view_tree.specs.Views as views;
ghost use Rattle.view_tree.specs.Views.{view_of};
ghost use Rattle.held_items.specs.Attributes.{view_attributes};
ghost use Rattle.scenes.specs.Frames.{frame_of};

use corner_view::Tableau;
use frac_core::Frac;
use layout_solver::Engine;
use view_tree::{Tree, ViewId};

/// The place of a view, in order of creation.
pub fn place_of(tree: &Tree, view: ViewId) -> Option<usize>
    ensures some { IfSome result (λ place. (v : views.LiveView) × (slice_get tree.now.views place ≡ Some v)
        × (view_of tree.now.views view.0 ≡ Some v)) }
    ensures none { IfNone result (view_of tree.now.views view.0 ≡ None) }
{
    for place in 0..tree.len() {
        if is_at(tree, place, view) {
            return Some(place);
        }
    }
    None
}

// Whether the view is at this place.
fn is_at(tree: &Tree, place: usize, view: ViewId) -> bool
    ensures yes { result ≡ true → (v : views.LiveView) × (slice_get tree.now.views place ≡ Some v)
        × (v.id ≡ view.0) }
    ensures no { result ≡ false → (v : views.LiveView) → slice_get tree.now.views place ≡ Some v
        → v.id ≡ view.0 → ⊥ }
{
    match tree.at(place) {
        Some(at) => at.id.0 == view.0,
        None => false,
    }
}

/// The value of an attribute that has a stay.
pub fn value_of<T: Tableau>(engine: &Engine<T>, attr: u32) -> Frac
    requires { HasStay engine.now.problem.stays attr }
    ensures { result ≡ value_of engine.now.values attr }
{
    engine.show_layout(); // for the proof: what an engine keeps
    engine.value_at(attr)
}

/// Left, top, width and height of the view of this number.
pub fn frame_of<T: Tableau>(engine: &Engine<T>, id: u32) -> [Frac; 4]
    requires small { id < ID_LIMIT }
    requires stays { All (HasStay engine.now.problem.stays) (view_attributes id) }
    ensures { result ≡ frame_of engine.now.values id }
{
    let attrs = ViewId(id).attributes();
    [
        value_of(engine, attrs.left),
        value_of(engine, attrs.top),
        value_of(engine, attrs.width),
        value_of(engine, attrs.height),
    ]
}
