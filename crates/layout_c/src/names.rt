// The names that calls give: of a status, and of a view by its number.
ghost use Rattle.std.specs.Prelude.{◌≡◌, ◌≤◌, ◌<◌, Some, None, true, false};
ghost use Rattle.std.specs.Prelude.{length, take, slice_get, IfNone, IfSome};
ghost use Rattle.view_tree.specs.Views.{LiveView, view_of};
ghost use Rattle.layout_c.specs.Calls.{IsNamed, IsStatusNamed};

use crate::runs::put_front;
use crate::status::{DONE, NONE, WRITE_FAULT, name_of_status};
use layout_cli::Session;
use view_tree::Tree;

// Puts a text where there is room for it.
fn put(text: &[u8], room: &mut [u8], used: &mut usize) -> u8
    ensures used { used.new ≡ length text.now }
    ensures fits { length text.now ≤ length room.old
        → (take (length text.now) room.new ≡ text.now) × (result ≡ DONE) }
    ensures no_room { length room.old < length text.now → (room.new ≡ room.old) × (result ≡ WRITE_FAULT) }
{
    *used = text.len();
    if room.len() < text.len() {
        return WRITE_FAULT;
    }
    put_front(text, room);
    DONE
}

// Whether the view at this place has the number.
fn is_at(tree: &Tree, place: usize, id: u32) -> bool
    ensures yes { result ≡ true → (v : LiveView) × (slice_get tree.now.views place ≡ Some v) × (v.id ≡ id) }
    ensures no { result ≡ false → (v : LiveView) → slice_get tree.now.views place ≡ Some v → v.id ≡ id → ⊥ }
{
    match tree.at(place) {
        Some(at) => at.id.0 == id,
        None => false,
    }
}

// The place of the view of a number.
fn place_of(tree: &Tree, id: u32) -> Option<usize>
    ensures some { IfSome result (λ place. (v : LiveView) × (slice_get tree.now.views place ≡ Some v)
        × (view_of tree.now.views id ≡ Some v)) }
    ensures none { IfNone result (view_of tree.now.views id ≡ None) }
{
    for place in 0..tree.len() {
        if is_at(tree, place, id) {
            return Some(place);
        }
    }
    None
}

// The name of the view of a number.
fn name_of(tree: &Tree, id: u32) -> Option<&str>
    ensures some { IfSome result (λ name. (v : LiveView) × (view_of tree.now.views id ≡ Some v)
        × (name.now ≡ v.name)) }
    ensures none { IfNone result (view_of tree.now.views id ≡ None) }
{
    let place = place_of(tree, id)?;
    let view = tree.at(place)?;
    Some(view.name)
}

/// Puts what a status is called.
pub(crate) fn put_status_name(status: u8, room: &mut [u8], used: &mut usize) -> u8
    ensures { IsStatusNamed status room.old room.new used.old used.new result }
{
    match name_of_status(status) {
        Some(name) => put(name.as_bytes(), room, used),
        None => NONE,
    }
}

/// Puts the name of the view of a number.
pub(crate) fn put_name(session: &Session, id: u32, room: &mut [u8], used: &mut usize) -> u8
    ensures { IsNamed session.now.scene id room.old room.new used.old used.new result }
{
    match name_of(session.state().tree(), id) {
        Some(name) => put(name.as_bytes(), room, used),
        None => NONE,
    }
}
