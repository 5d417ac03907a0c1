// The stretches of both slides as those of one sweep.
ghost use Rattle.std.specs.Prelude.{◌≡◌, ◌&&◌, ◌++◌, true, false, Some, None, IfOk};
ghost use Rattle.problem_core.specs.Layout as layout;
ghost use Rattle.sweep_laws.specs.Stretches.{IsSweep, Piece, no_piece_first};
ghost use Rattle.sweep_param.specs.Joining.{AreSlides, IsRangeOf, alone, behind, lone_of};
ghost use Rattle.sweep_param.specs.Joining.{values_at};
ghost use Rattle.sweep_param.specs.declared.sweeps.Range as range_type;
ghost use Rattle.sweep_run.specs.Slides.{rising};
ghost use Rattle.sweep_run.specs.Told.{stretch_of, stretches_of};

use frac_core::{Frac, OutOfMemory};
use problem_core::Values;
use std::alloc::Global;
use sweep_run::{Slid, Stretch};

/// What both slides came to, where there was one.
#[derive(Drop)]
pub(crate) struct Slides {
    pub down: Option<Slid>,
    pub up: Option<Slid>,
}

// Whether a slide has no piece behind it. Its pieces come first.
fn lacks_piece(slid: &Option<Slid>) -> bool
    ensures { result ≡ no_piece_first (behind slid.now) }
{
    match slid {
        Some(slid) => !matches!(slid.stretches.first(), Some(Stretch::Piece { .. })),
        None => true,
    }
}

// Whether neither slide has a piece behind it.
fn lack_pieces(slides: &Slides) -> bool
    ensures { result ≡ (no_piece_first (behind slides.now.down) && no_piece_first (behind slides.now.up)) }
{
    lacks_piece(&slides.down) && lacks_piece(&slides.up)
}

// Appends the stretches of the slide down, from its end.
fn put_down(out: &mut Vec<Stretch>, slid: &mut Option<Slid>) -> Result<(), OutOfMemory>
    ensures stretches { IfOk result (λ _. stretches_of out.new.items
        ≡ stretches_of out.old.items ++ rising false (behind slid.old)) }
    ensures values { IfOk result (λ _. values_at slid.new ≡ values_at slid.old) }
{
    if let Some(slid) = slid {
        while let Some(stretch) = slid.stretches.pop() {
            out.push(stretch)?;
        }
    }
    Ok(())
}

// Appends the stretches of the slide up.
fn put_up(out: &mut Vec<Stretch>, slid: &mut Option<Slid>) -> Result<(), OutOfMemory>
    ensures { IfOk result (λ _. stretches_of out.new.items ≡ stretches_of out.old.items ++ behind slid.old) }
{
    if let Some(slid) = slid {
        out.append(&mut slid.stretches)?;
    }
    Ok(())
}

// Appends the piece of the one constant at which a slide that has none ended, and answers whether there are
// values there.
fn put_alone(out: &mut Vec<Stretch>, slid: &mut Option<Slid>) -> Result<bool, OutOfMemory>
    ensures put { IfOk result (λ _. stretches_of out.new.items
        ≡ stretches_of out.old.items ++ alone (values_at slid.old)) }
    ensures some { IfOk result (λ put. put ≡ true → values_at slid.old ≡ None → ⊥) }
    ensures none { IfOk result (λ put. put ≡ false → values_at slid.old ≡ None) }
    ensures behind { IfOk result (λ _. behind slid.new ≡ behind slid.old) }
{
    let Some(slid) = slid else {
        return Ok(false);
    };
    let Some(values) = slid.values.take() else {
        return Ok(false);
    };
    out.push(lone_piece(slid.at.width, values)?)?;
    Ok(true)
}

// Appends the piece of the one constant at which the slides ended, if there is none else.
fn put_lone(out: &mut Vec<Stretch>, slides: &mut Slides, is_needed: bool) -> Result<(), OutOfMemory>
    ensures put { IfOk result (λ _. stretches_of out.new.items ≡ stretches_of out.old.items
        ++ lone_of is_needed (values_at slides.old.down) (values_at slides.old.up)) }
    ensures behind { IfOk result (λ _. behind slides.new.up ≡ behind slides.old.up) }
{
    if is_needed && !put_alone(out, &mut slides.down)? {
        put_alone(out, &mut slides.up)?;
    }
    Ok(())
}

/// The piece of one constant.
pub(crate) fn lone_piece(width: Frac, values: Values) -> Result<Stretch, OutOfMemory>
    ensures { IfOk result (λ s. stretch_of s ≡ Piece width width values values) }
{
    let low = values.clone()?;
    Ok(Stretch::Piece {
        from: width,
        to: width,
        low,
        high: values,
    })
}

/// The stretches of both slides, by rising constant.
pub(crate) fn joined(alloc: Global, mut slides: Slides) -> Result<Vec<Stretch>, OutOfMemory>
    requires some { slides.up ≡ None → slides.down ≡ None → ⊥ }
    ensures { IfOk result (λ out. (p : layout.Problem) (r : range_type.Range) → IsRangeOf p r
        → AreSlides p r slides → IsSweep p r.row r.from r.to (stretches_of out.items)) }
{
    let mut out = Vec::new(alloc);
    let lacks_piece = lack_pieces(&slides);
    put_down(&mut out, &mut slides.down)?;
    put_lone(&mut out, &mut slides, lacks_piece)?;
    put_up(&mut out, &mut slides.up)?;
    Ok(out)
}
