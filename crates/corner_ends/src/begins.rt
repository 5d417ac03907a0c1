// The marks of a run's first corner, from those of now and the exchanges so far.
ghost use Rattle.std.specs.Prelude.{◌≡◌, ◌++◌, ◌∷◌, [], List, map, IfOk, OnOk};
ghost use Rattle.problem_core.specs.Corners as corners;
ghost use Rattle.problem_core.specs.declared.parts.Mark.{Mark as MarkOfLine};
ghost use Rattle.problem_core.specs.declared.parts.RowName.TheVariants.{Held, Stay as StayOf};
ghost use Rattle.corner_view.specs.Seen.{in_order, is_mark, IsMarkOf, IsNamed};
ghost use Rattle.corner_ends.specs.Among.{lines_among, marks_among};
ghost use Rattle.corner_ends.specs.Begins.{HasExchanged};

use cert_core::Swap;
use corner_view::{Corner, Tableau};
use frac_core::OutOfMemory;
use problem_core::{Mark, RowName, Side};
use std::alloc::Global;

// The mark of a line on a side.
fn mark_at(row: RowName, side: Side) -> Mark
    ensures { result ≡ record { row = row; side = side } }
{
    Mark { row, side }
}

/// Whether the mark was inside the first corner: the first exchange that names it tells.
pub(crate) fn was_inside<T: Tableau>(c: &Corner<T>, swaps: &[Swap], mark: Mark) -> bool
    requires { IsMarkOf c.now.problem mark }
    ensures { (first : List MarkOfLine) → HasExchanged first swaps.now c.now.marks
        → result ≡ is_mark first (corners.place mark) }
{
    for swap in swaps {
        if swap.enter == mark {
            return false;
        }
        if swap.leave == mark {
            return true;
        }
    }
    c.is_inside(mark)
}

// Puts the mark behind the others, if it was inside the first corner.
fn push_mark<T: Tableau>(
    c: &Corner<T>,
    swaps: &[Swap],
    mark: Mark,
    out: &mut Vec<Mark>,
) -> Result<(), OutOfMemory>
    requires { IsMarkOf c.now.problem mark }
    ensures { OnOk result ((first : List MarkOfLine) → HasExchanged first swaps.now c.now.marks
        → out.new.items ≡ out.old.items ++ marks_among first (mark ∷ [])) }
{
    if was_inside(c, swaps, mark) {
        out.push(mark)?;
    }
    Ok(())
}

// Puts the mark of a line behind the others that was inside the first corner, if one was.
fn push_line<T: Tableau>(
    c: &Corner<T>,
    swaps: &[Swap],
    row: RowName,
    out: &mut Vec<Mark>,
) -> Result<(), OutOfMemory>
    requires { IsNamed c.now.problem row }
    ensures { OnOk result ((first : List MarkOfLine) → HasExchanged first swaps.now c.now.marks
        → out.new.items ≡ out.old.items ++ lines_among first (row ∷ [])) }
{
    push_mark(c, swaps, mark_at(row, Side::Under), out)?;
    push_mark(c, swaps, mark_at(row, Side::Over), out)
}

// Puts the marks of the rows behind the others that were inside the first corner.
fn push_rows<T: Tableau>(
    c: &Corner<T>,
    swaps: &[Swap],
    out: &mut Vec<Mark>,
) -> Result<(), OutOfMemory>
    ensures { OnOk result ((first : List MarkOfLine) → HasExchanged first swaps.now c.now.marks
        → out.new.items ≡ out.old.items ++ lines_among first (map (λ r. Held r.id) c.now.problem.rows)) }
{
    for row in c.rows() {
        push_line(c, swaps, RowName::Held(row.id()), out)?;
    }
    Ok(())
}

// Puts the marks of the stays behind the others that were inside the first corner.
fn push_stays<T: Tableau>(
    c: &Corner<T>,
    swaps: &[Swap],
    out: &mut Vec<Mark>,
) -> Result<(), OutOfMemory>
    ensures { OnOk result ((first : List MarkOfLine) → HasExchanged first swaps.now c.now.marks
        → out.new.items ≡ out.old.items ++ lines_among first (map (λ s. StayOf s.attr) c.now.problem.stays)) }
{
    for stay in c.stays() {
        push_line(c, swaps, RowName::Stay(stay.attr), out)?;
    }
    Ok(())
}

/// The marks inside the first corner, by row number with the stays last.
pub fn first_marks<T: Tableau>(
    alloc: Global,
    c: &Corner<T>,
    swaps: &[Swap],
) -> Result<Vec<Mark>, OutOfMemory>
    ensures { IfOk result (λ marks. (first : List MarkOfLine)
        → HasExchanged first swaps.now c.now.marks → first ≡ in_order c.now.problem first
        → marks.items ≡ first) }
{
    let mut out = Vec::new(alloc);
    push_rows(c, swaps, &mut out)?;
    push_stays(c, swaps, &mut out)?;
    Ok(out)
}
