// The stay's mark that leaves.
ghost use Rattle.std.specs.Prelude.{◌≡◌, ℕ, IfSome, IfNone};
ghost use Rattle.problem_core.specs.declared.parts.Mark as mark_type;
ghost use Rattle.problem_core.specs.declared.parts.RowName.TheVariants.{Stay as StayOf};
ghost use Rattle.problem_core.specs.declared.stops.What.TheVariants.{Mark as MarkOf};
ghost use Rattle.corner_view.specs.Seen.{IsOutside};
ghost use Rattle.marker_remove.specs.Freed.{IsStayMover};

use corner_view::{Corner, Tableau};
use problem_core::{Mark, RowName, What};

// The mark of a stay.
fn stay_mark(what: What) -> Option<Mark>
    ensures some { IfSome result (λ m. (what ≡ MarkOf m) × ((attr : ℕ) × (m.row ≡ StayOf attr))) }
    ensures none { IfNone result ((m : mark_type.Mark) (attr : ℕ) → what ≡ MarkOf m → m.row ≡ StayOf attr
        → ⊥) }
{
    match what {
        What::Mark(mark) => match mark.row {
            RowName::Stay(_) => Some(mark),
            RowName::Held(_) => None,
        },
        _ => None,
    }
}

/// An inside mark of a stay that moves where the outside mark grows.
pub(crate) fn leaving<T: Tableau>(c: &Corner<T>, enter: Mark) -> Mark
    requires outside { IsOutside c.now.problem c.now.marks enter }
    requires some { (m : mark_type.Mark) × IsStayMover c.now.problem c.now.marks enter m }
    ensures { IsStayMover c.now.problem c.now.marks enter result }
{
    let count = c.movers(enter);
    for i in 0..count {
        if let Some(mark) = stay_mark(c.mover(enter, i)) {
            return mark;
        }
    }
    unreachable!()
}
