// The mark that enters where the required rows cost.
ghost use Rattle.std.specs.Prelude.{◌≡◌, ◌⊎◌, ◌<◌, ℤ, pos, ◌≤ℤ◌};
ghost use Rattle.std.specs.Prelude.{true, false, length, IfSome, IfNone};
ghost use Rattle.std.specs.Prelude.{slice_get, Some, None};
ghost use Rattle.problem_core.specs.declared.limits.TheConstants.{REQUIRED};
ghost use Rattle.problem_core.specs.declared.parts.Level.TheVariants.{Priority};
ghost use Rattle.problem_core.specs.declared.parts.RowName.{RowName as RowNameOf};
ghost use Rattle.problem_core.specs.Changes.Paths.{NoNegativeRequired};
ghost use Rattle.corner_view.specs.Seen.{IsMarkOf, IsNamed, IsReducedAt};
ghost use Rattle.primal_run.specs.Entering.{HasNoRequired, IsChoice, IsRequired};

use crate::entering::{Choice, is_weaker, mark_at};
use corner_ends::{is_below, required_level};
use corner_view::{Corner, Tableau};
use problem_core::{Level, Mark, REQUIRED, RowName, Side};

// Whether it is the level of the required rows.
fn is_required_level(level: Level) -> bool
    ensures { result ≡ true → level ≡ Priority REQUIRED }
{
    match level {
        Level::Priority(rank) => rank == REQUIRED,
        Level::Stay(_) => false,
    }
}

/// The mark of a choice, where its column is negative at the level of the required rows.
pub(crate) fn required_of<T: Tableau>(c: &Corner<T>, found: Option<Choice>) -> Option<Mark>
    requires { IfSome found (IsChoice c.now.problem c.now.marks) }
    ensures { IfSome result (IsRequired c.now.problem c.now.marks) }
{
    c.show_corner(); // for the proof: what a corner keeps
    let choice = found?;
    if is_required_level(choice.front.level) {
        Some(choice.mark)
    } else {
        None
    }
}

// A mark and its reduced cost at the level of the required rows.
#[derive(Clone, Copy, Debug)]
struct Lower {
    mark: Mark,
    reduced: i64,
}

// The mark's reduced cost at the level of the required rows.
fn reduced_of<T: Tableau>(c: &Corner<T>, mark: Mark) -> i64
    requires { IsMarkOf c.now.problem mark }
    ensures { IsReducedAt c.now.problem c.now.marks (Priority REQUIRED) mark result }
{
    c.reduced(required_level(), mark)
}

// The mark with its reduced cost, where this is below 0.
fn lower_at<T: Tableau>(c: &Corner<T>, mark: Mark) -> Option<Lower>
    requires { IsMarkOf c.now.problem mark }
    ensures some { IfSome result (λ f. IsRequired c.now.problem c.now.marks f.mark) }
    ensures none { IfNone result ((z : ℤ) × IsReducedAt c.now.problem c.now.marks (Priority REQUIRED) mark z
        × (pos 0 ≤ℤ z)) }
{
    c.show_corner(); // for the proof: what a corner keeps
    let reduced = reduced_of(c, mark);
    if is_below(reduced) {
        Some(Lower { mark, reduced })
    } else {
        None
    }
}

// The mark of the line whose reduced cost is below 0.
fn lower_of<T: Tableau>(c: &Corner<T>, row: RowName) -> Option<Lower>
    requires { IsNamed c.now.problem row }
    ensures some { IfSome result (λ f. IsRequired c.now.problem c.now.marks f.mark) }
    ensures none { IfNone result (HasNoRequired c.now.problem c.now.marks row) }
{
    match lower_at(c, mark_at(row, Side::Under)) {
        Some(lower) => Some(lower),
        None => lower_at(c, mark_at(row, Side::Over)),
    }
}

// The lower one, and of equal ones that of the weaker line.
fn lowest<T: Tableau>(c: &Corner<T>, lower: Lower, found: Option<Lower>) -> Lower
    requires lower { IsRequired c.now.problem c.now.marks lower.mark }
    requires found { IfSome found (λ f. IsRequired c.now.problem c.now.marks f.mark) }
    ensures { (result ≡ lower) ⊎ (found ≡ Some result) }
{
    match found {
        Some(other) => {
            if lower.reduced < other.reduced
                || lower.reduced == other.reduced && is_weaker(c, lower.mark.row, other.mark.row)
            {
                lower
            } else {
                other
            }
        }
        None => lower,
    }
}

// What is found where one more candidate is looked at.
fn next_lowest<T: Tableau>(c: &Corner<T>, found: Option<Lower>, i: usize) -> Option<Lower>
    requires within { i < length c.now.candidates }
    requires found { IfSome found (λ f. IsRequired c.now.problem c.now.marks f.mark) }
    ensures some { IfSome result (λ f. IsRequired c.now.problem c.now.marks f.mark) }
    ensures none { IfNone result ((found ≡ None)
        × ((name : RowNameOf) × (slice_get c.now.candidates i ≡ Some name)
        × HasNoRequired c.now.problem c.now.marks name)) }
{
    c.show_corner(); // for the proof: what a corner keeps
    match lower_of(c, c.candidate(i)) {
        Some(lower) => Some(lowest(c, lower, found)),
        None => found,
    }
}

/// A mark with a reduced cost below 0 at the level of the required rows, if there is one: that with the
/// lowest. No clause says which of several.
pub(crate) fn required_pick<T: Tableau>(c: &Corner<T>) -> Option<Mark>
    ensures some { IfSome result (IsRequired c.now.problem c.now.marks) }
    ensures none { IfNone result (NoNegativeRequired c.now.problem c.now.marks) }
{
    c.show_corner(); // for the proof: what a corner keeps
    let count = c.candidates();
    let mut found = None;
    for i in 0..count {
        found = next_lowest(c, found, i);
    }
    let lower = found?;
    Some(lower.mark)
}
