// The text of a sweep, and of its stops.
ghost use Rattle.std.specs.Prelude.{◌≡◌, ◌<◌, ◌++◌, ◌∷◌, [], codes, IfOk, Some, None, slice_get};
ghost use Rattle.std.specs.List.{flat_map};
ghost use Rattle.problem_core.specs.Gaps.{value_of};
ghost use Rattle.view_tree.specs.Attributes.{left_of, top_of, width_of, height_of};
ghost use Rattle.view_tree.specs.Views.{LiveView};
ghost use Rattle.view_tree.specs.declared.limits.TheConstants.{ID_LIMIT};
ghost use Rattle.sweep_run.specs.Told.{stretch_of, stretches_of};
ghost use Rattle.reply_texts.specs.Frames.{placed_text};
ghost use Rattle.reply_texts.specs.Swept.{ends_text, far_line, far_text, range_text};
ghost use Rattle.reply_texts.specs.Swept.{stretch_text, width_line};

use crate::frames::{Frame, push_frame, push_value};
use cert_core::Path;
use claim_writing::{breakpoint_text, bys_text, path_text, quantity_text};
use frac_core::{Frac, OutOfMemory, Wide};
use problem_core::Values;
use sweep_run::{Stretch, SweepQuantity};
use view_tree::{Tree, ViewId};

// Appends a word and the two constants of a stretch.
fn push_range(out: &mut Vec<u8>, word: &[u8], from: Frac, to: Frac) -> Result<(), OutOfMemory>
    ensures { IfOk result (λ _. out.new.items ≡ out.old.items ++ range_text word.now from to) }
{
    out.extend_from_slice(word)?;
    push_value(out, Wide::from(from))?;
    push_value(out, Wide::from(to))?;
    out.push(b'\n')?;
    Ok(())
}

// The frame of the view of this number at these values.
fn frame_at(view: ViewId, values: &Values) -> Frame
    requires { view.0 < ID_LIMIT }
    ensures left { result.left ≡ value_of values.now (left_of view.0) }
    ensures top { result.top ≡ value_of values.now (top_of view.0) }
    ensures width { result.width ≡ value_of values.now (width_of view.0) }
    ensures height { result.height ≡ value_of values.now (height_of view.0) }
{
    let of = view.attributes();
    Frame {
        left: values.value(of.left),
        top: values.value(of.top),
        width: values.value(of.width),
        height: values.value(of.height),
    }
}

// Appends the line of the view at a place, if one is there.
fn push_end_at(
    out: &mut Vec<u8>,
    tree: &Tree,
    place: usize,
    word: &[u8],
    values: &Values,
) -> Result<(), OutOfMemory>
    ensures line { IfOk result (λ _. (v : LiveView) → slice_get tree.now.views place ≡ Some v
        → out.new.items ≡ out.old.items ++ placed_text word.now values.now v) }
    ensures none { IfOk result (λ _. slice_get tree.now.views place ≡ None
        → out.new.items ≡ out.old.items) }
{
    // for the proof: each view's number is below the limit
    let _ = tree.len();
    let Some(view) = tree.at(place) else {
        return Ok(());
    };
    push_frame(out, word, view.name, &frame_at(view.id, values))
}

// Appends the frames of all views at an end of a piece.
fn push_ends(
    out: &mut Vec<u8>,
    tree: &Tree,
    word: &[u8],
    values: &Values,
) -> Result<(), OutOfMemory>
    ensures { IfOk result (λ _. out.new.items
        ≡ out.old.items ++ ends_text word.now values.now tree.now.views) }
{
    for place in 0..tree.len() {
        push_end_at(out, tree, place, word, values)?;
    }
    Ok(())
}

// Appends the lines of a stretch.
fn push_stretch(out: &mut Vec<u8>, tree: &Tree, stretch: &Stretch) -> Result<(), OutOfMemory>
    ensures { IfOk result (λ _. out.new.items
        ≡ out.old.items ++ stretch_text tree.now.views (stretch_of stretch.now)) }
{
    match stretch {
        Stretch::Piece {
            from,
            to,
            low,
            high,
        } => {
            push_range(out, b"piece", *from, *to)?;
            push_ends(out, tree, b"from ", low)?;
            push_ends(out, tree, b"to ", high)
        }
        Stretch::Conflict { from, to, by } => {
            push_range(out, b"conflict", *from, *to)?;
            bys_text(by.by(), out)
        }
    }
}

/// Appends the lines of the stretches.
pub(crate) fn push_stretches(
    out: &mut Vec<u8>,
    tree: &Tree,
    stretches: &[Stretch],
) -> Result<(), OutOfMemory>
    ensures { IfOk result (λ _. out.new.items
        ≡ out.old.items ++ flat_map (stretch_text tree.now.views) (stretches_of stretches.now)) }
{
    for stretch in stretches {
        push_stretch(out, tree, stretch)?;
    }
    Ok(())
}

/// Appends the line of the width at which a sweep stops.
pub(crate) fn push_width(out: &mut Vec<u8>, width: Frac) -> Result<(), OutOfMemory>
    ensures { IfOk result (λ _. out.new.items ≡ out.old.items ++ width_line width) }
{
    out.extend_from_slice(b"sweep")?;
    push_value(out, Wide::from(width))?;
    out.push(b'\n')?;
    Ok(())
}

// Appends the line of the quantity that doesn't fit in a sweep.
fn push_what(out: &mut Vec<u8>, what: &SweepQuantity) -> Result<(), OutOfMemory>
    ensures { IfOk result (λ _. out.new.items ≡ out.old.items ++ far_line what.now) }
{
    match what {
        SweepQuantity::At(quantity) => quantity_text(*quantity, out),
        SweepQuantity::Breakpoint(mark) => breakpoint_text(*mark, out),
    }
}

/// Appends the refusal of a sweep in which a quantity doesn't fit.
pub(crate) fn push_far(
    out: &mut Vec<u8>,
    width: Frac,
    path: &Path,
    what: &SweepQuantity,
) -> Result<(), OutOfMemory>
    ensures { IfOk result (λ _. out.new.items
        ≡ out.old.items ++ far_text width path.now what.now) }
{
    out.extend_from_slice(b"refused 7 overflow\n")?;
    push_width(out, width)?;
    path_text(path, out)?;
    push_what(out, what)
}
