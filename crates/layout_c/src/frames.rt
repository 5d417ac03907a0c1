// The frames of all views, in one call.
ghost use Rattle.std.specs.Prelude.{◌≡◌, ◌≤◌, Some, None, length, take, slice_get, IfNone, IfSome};
ghost use Rattle.view_tree.specs.Views.{LiveView};
ghost use Rattle.layout_c.specs.Calls.{AreFramed, AreFrames, IsPlaced};

use crate::calls::{Frame, framed};
use crate::status::{DONE, WRITE_FAULT};
use layout_cli::Session;

/// A view's number and its frame, as C has them.
#[repr(C)]
#[derive(Clone, Copy)]
pub struct Placed {
    pub view: u32,
    pub frame: Frame,
}

// The number and the frame of the view at a place.
fn placed_at(session: &Session, place: usize) -> Option<Placed>
    ensures some { IfSome result (λ p. (v : LiveView)
        × (slice_get session.now.scene.tree.views place ≡ Some v) × IsPlaced session.now.scene v p) }
    ensures none { IfNone result (slice_get session.now.scene.tree.views place ≡ None) }
{
    let scene = session.state();
    let view = scene.tree().at(place)?;
    let sides = scene.frame_at(place)?;
    Some(Placed {
        view: view.id.0,
        frame: framed(sides),
    })
}

// Writes the numbers and frames of all views.
fn fill(session: &Session, room: &mut [Placed])
    requires { length session.now.scene.tree.views ≤ length room.old }
    ensures { AreFrames session.now.scene session.now.scene.tree.views
        (take (length session.now.scene.tree.views) room.new) }
{
    for place in 0..session.state().tree().len() {
        if let Some(placed) = placed_at(session, place) {
            room[place] = placed;
        }
    }
}

/// Puts the numbers and frames of all views where there is room for them.
pub(crate) fn put_frames(session: &Session, room: &mut [Placed], count: &mut usize) -> u8
    ensures { AreFramed session.now.scene room.old room.new count.new result }
{
    let views = session.state().tree().len();
    *count = views;
    if room.len() < views {
        return WRITE_FAULT;
    }
    fill(session, room);
    DONE
}
