// The text of frames.
ghost use Rattle.std.specs.Prelude.{◌≡◌, ◌++◌, ◌∷◌, [], IfOk, Some, None, slice_get};
ghost use Rattle.std.specs.List.{flat_map};
ghost use Rattle.view_tree.specs.Views.{LiveView};
ghost use Rattle.reply_texts.specs.Frames.{value_text, placed_line, frame_text};

use crate::printing::append_frame;
use corner_view::Tableau;
use frac_core::{FRACTION_ROOM, Frac, OutOfMemory, Wide, write_frac};
use scenes::Scene;

/// Left, top, width and height of a view, in window coordinates.
#[derive(Clone, Copy)]
pub(crate) struct Frame {
    pub left: Frac,
    pub top: Frac,
    pub width: Frac,
    pub height: Frac,
}

/// Appends a space and a value.
#[tactic(auto, unfolding(crate::specs::Frames::value_text))]
pub(crate) fn push_value(out: &mut Vec<u8>, value: Wide) -> Result<(), OutOfMemory>
    ensures { IfOk result (λ _. out.new.items ≡ out.old.items ++ value_text value) }
{
    let mut text = [0; FRACTION_ROOM];
    let end = write_frac(value, &mut text);
    out.push(b' ')?;
    out.extend_from_slice(&text[..end])?;
    Ok(())
}

// Appends the four values of a frame.
fn push_values(out: &mut Vec<u8>, frame: &Frame) -> Result<(), OutOfMemory>
    ensures { IfOk result (λ _. out.new.items ≡ out.old.items ++ (value_text frame.now.left
        ++ (value_text frame.now.top ++ (value_text frame.now.width ++ value_text frame.now.height)))) }
{
    push_value(out, Wide::from(frame.left))?;
    push_value(out, Wide::from(frame.top))?;
    push_value(out, Wide::from(frame.width))?;
    push_value(out, Wide::from(frame.height))
}

/// Appends the line that shows a frame, after a word.
#[tactic(auto, unfolding(crate::specs::Frames::placed_line))]
pub(crate) fn push_frame(
    out: &mut Vec<u8>,
    word: &[u8],
    name: &str,
    frame: &Frame,
) -> Result<(), OutOfMemory>
    ensures { IfOk result (λ _. out.new.items ≡ out.old.items
        ++ placed_line word.now name.now frame.now.left frame.now.top frame.now.width frame.now.height) }
{
    out.extend_from_slice(word)?;
    out.extend_from_slice(name.as_bytes())?;
    push_values(out, frame)?;
    out.push(b'\n')?;
    Ok(())
}

/// A frame by the names of its parts: left, top, width and height.
pub(crate) fn named(frame: &[Frac; 4]) -> Frame
    ensures { frame.now ≡ result.left ∷ result.top ∷ result.width ∷ result.height ∷ [] }
{
    let [left, top, width, height] = *frame;
    Frame {
        left,
        top,
        width,
        height,
    }
}

/// Appends the line that shows the frame of the view at a place, if a view is there.
pub fn push_at<T: Tableau>(
    out: &mut Vec<u8>,
    scene: &Scene<T>,
    place: usize,
) -> Result<(), OutOfMemory>
    ensures line { IfOk result (λ _. (v : LiveView) → slice_get scene.now.scene.tree.views place ≡ Some v
        → out.new.items ≡ out.old.items ++ frame_text scene.now.scene.values v) }
    ensures none { IfOk result (λ _. slice_get scene.now.scene.tree.views place ≡ None
        → out.new.items ≡ out.old.items) }
{
    let _ = scene.tree().len(); // for the proof: no view's name is longer than the limit
    let Some(view) = scene.tree().at(place) else {
        return Ok(());
    };
    let Some(frame) = scene.frame_at(place) else {
        return Ok(());
    };
    append_frame(out, view.name.as_bytes(), &named(&frame))
}

/// Appends the frames of all views.
pub fn push_frames<T: Tableau>(out: &mut Vec<u8>, scene: &Scene<T>) -> Result<(), OutOfMemory>
    ensures { IfOk result (λ _. out.new.items
        ≡ out.old.items ++ flat_map (frame_text scene.now.scene.values) scene.now.scene.tree.views) }
{
    for place in 0..scene.tree().len() {
        push_at(out, scene, place)?;
    }
    Ok(())
}
