// Which of two inside marks comes to 0 first, and which mark of the run's first corner decides where they
// come to 0 together.
ghost use Rattle.std.specs.Prelude.{◌≡◌, ◌<◌, ◌≤◌, Some, IfSome, true, false};
ghost use Rattle.std.specs.declared.cmp.Ordering as order_type;
ghost use Rattle.std.specs.declared.cmp.Ordering.TheVariants.{Equal as AreEqual, Less as IsLess};
ghost use Rattle.problem_core.specs.Corners as corners;
ghost use Rattle.problem_core.specs.Corners.{IsIn};
ghost use Rattle.problem_core.specs.declared.parts.Mark as mark_type;
ghost use Rattle.problem_core.specs.declared.parts.Side as side_type;
ghost use Rattle.corner_view.specs.Seen.{IsMarkOf, IsNamed};
ghost use Rattle.primal_run.specs.Deciding.{FromTies, HasBegun, IsDecider, IsLate, IsNoLater, IsOfRow};
ghost use Rattle.primal_run.specs.Deciding.{IsSeen, IsTie, line_key, mark_key, tie_key};
ghost use Rattle.primal_run.specs.Leaving.{IsEarlier, IsRatioAt, WinsTie};

use crate::ties::{Ratio, count_order};
use corner_ends::Trail;
use corner_view::{Corner, Tableau};
use frac_core::cmp_wide;
use problem_core::{Level, Mark, RowName, Side};
use std::cmp::Ordering;

/// The ratios of two inside marks that come to 0 together.
#[derive(Clone, Copy, Debug)]
pub(crate) struct Tie {
    pub a: Ratio,
    pub b: Ratio,
}

/// A mark of the run's first corner at which two inside marks count differently, each over its coefficient,
/// and in what order.
#[derive(Clone, Copy, Debug)]
pub(crate) struct Decider {
    pub mark: Mark,
    pub order: Ordering,
}

// Whether the first line stands before the other one: by row number, with the stays last, strongest first.
fn is_line_before<T: Tableau>(c: &Corner<T>, f: RowName, g: RowName) -> bool
    requires f { IsNamed c.now.problem f }
    requires g { IsNamed c.now.problem g }
    ensures yes { result ≡ true → line_key c.now.problem.stays f < line_key c.now.problem.stays g }
    ensures no { result ≡ false → line_key c.now.problem.stays g ≤ line_key c.now.problem.stays f }
{
    c.show_corner(); // for the proof: what a corner keeps
    match (f, g) {
        (RowName::Held(i), RowName::Held(k)) => i < k,
        (RowName::Held(_), RowName::Stay(_)) => true,
        (RowName::Stay(_), RowName::Held(_)) => false,
        (RowName::Stay(a), RowName::Stay(b)) => c.is_stronger(Level::Stay(a), Level::Stay(b)),
    }
}

// Whether the first mark stands before the other one: by their lines, and of one line the under mark.
fn is_before<T: Tableau>(c: &Corner<T>, f: Mark, g: Mark) -> bool
    requires f { IsMarkOf c.now.problem f }
    requires g { IsMarkOf c.now.problem g }
    ensures yes { result ≡ true → mark_key c.now.problem.stays f < mark_key c.now.problem.stays g }
    ensures no { result ≡ false → mark_key c.now.problem.stays g ≤ mark_key c.now.problem.stays f }
{
    if is_line_before(c, f.row, g.row) {
        return true;
    }
    if is_line_before(c, g.row, f.row) {
        return false;
    }
    match (f.side, g.side) {
        (Side::Under, Side::Over) => true,
        _ => false,
    }
}

// Whether the first mark breaks ties before the other one: the marks of rows do as they stand, and behind
// them those of stays, last first.
fn decides_before<T: Tableau>(c: &Corner<T>, f: Mark, g: Mark) -> bool
    requires f { IsMarkOf c.now.problem f }
    requires g { IsMarkOf c.now.problem g }
    ensures yes { result ≡ true → tie_key c.now.problem.stays f < tie_key c.now.problem.stays g }
    ensures no { result ≡ false → tie_key c.now.problem.stays g ≤ tie_key c.now.problem.stays f }
{
    c.show_corner(); // for the proof: what a corner keeps
    match (f.row, g.row) {
        (RowName::Held(_), RowName::Held(_)) => is_before(c, f, g),
        (RowName::Held(_), RowName::Stay(_)) => true,
        (RowName::Stay(_), RowName::Held(_)) => false,
        (RowName::Stay(_), RowName::Stay(_)) => is_before(c, g, f),
    }
}

// Whether what is found decides no later than the mark, so that nothing is to be asked about it.
fn is_late<T: Tableau>(c: &Corner<T>, found: Option<Decider>, f: Mark) -> bool
    requires f { IsMarkOf c.now.problem f }
    requires found { IfSome found (λ d. IsMarkOf c.now.problem d.mark) }
    ensures yes { result ≡ true → IsLate c.now.problem found f }
    ensures no { result ≡ false → (order : order_type.Ordering)
        → IsNoLater c.now.problem found (Some (record { mark = f; order = order })) }
{
    match found {
        Some(d) => !decides_before(c, f, d.mark),
        None => false,
    }
}

// Whether it is no order.
fn is_equal(order: Ordering) -> bool
    ensures yes { result ≡ true → order ≡ AreEqual }
    ensures no { result ≡ false → order ≡ AreEqual → ⊥ }
{
    match order {
        Ordering::Equal => true,
        _ => false,
    }
}

// What decides, where one mark more is looked at.
fn see_mark<T: Tableau>(
    c: &Corner<T>,
    trail: &Trail,
    tie: Tie,
    f: Mark,
    found: Option<Decider>,
) -> Option<Decider>
    requires tie { IsTie c.now.marks tie }
    requires f { IsMarkOf c.now.problem f }
    requires found { IfSome found (IsDecider c.now.problem c.now.marks tie) }
    requires begun { HasBegun c.now trail.now found }
    ensures decider { IfSome result (IsDecider c.now.problem c.now.marks tie) }
    ensures begun { HasBegun c.now trail.now result }
    ensures later { IsNoLater c.now.problem found result }
    ensures seen { IsSeen c.now trail.now tie result f }
{
    if is_late(c, found, f) {
        return found;
    }
    if !trail.began_with(c, f) {
        return found;
    }
    let order = count_order(c, tie.a, tie.b, f);
    if is_equal(order) {
        return found;
    }
    Some(Decider { mark: f, order })
}

// What decides, where the marks of one line more are looked at.
fn see_line<T: Tableau>(
    c: &Corner<T>,
    trail: &Trail,
    tie: Tie,
    row: RowName,
    found: Option<Decider>,
) -> Option<Decider>
    requires tie { IsTie c.now.marks tie }
    requires row { IsNamed c.now.problem row }
    requires found { IfSome found (IsDecider c.now.problem c.now.marks tie) }
    requires begun { HasBegun c.now trail.now found }
    ensures decider { IfSome result (IsDecider c.now.problem c.now.marks tie) }
    ensures begun { HasBegun c.now trail.now result }
    ensures later { IsNoLater c.now.problem found result }
    ensures seen { (side : side_type.Side)
        → IsSeen c.now trail.now tie result (record { row = row; side = side }) }
{
    let under = Mark {
        row,
        side: Side::Under,
    };
    let over = Mark {
        row,
        side: Side::Over,
    };
    let found = see_mark(c, trail, tie, under, found);
    see_mark(c, trail, tie, over, found)
}

// What decides, where the marks of an inside mark's line and of the lines in its writing are looked at. Those
// lines have no mark inside now, and none in the first corner as long as nothing is exchanged.
fn see_row<T: Tableau>(
    c: &Corner<T>,
    trail: &Trail,
    tie: Tie,
    m: Mark,
    found: Option<Decider>,
) -> Option<Decider>
    requires tie { IsTie c.now.marks tie }
    requires inside { IsIn (corners.place m) c.now.marks }
    requires found { IfSome found (IsDecider c.now.problem c.now.marks tie) }
    requires begun { HasBegun c.now trail.now found }
    ensures decider { IfSome result (IsDecider c.now.problem c.now.marks tie) }
    ensures begun { HasBegun c.now trail.now result }
    ensures later { IsNoLater c.now.problem found result }
    ensures seen { (f : mark_type.Mark) → IsOfRow c.now.problem c.now.marks m f.row
        → IsSeen c.now trail.now tie result f }
{
    c.show_corner(); // for the proof: what a corner keeps
    let count = c.entries(m);
    let mut best = see_line(c, trail, tie, m.row, found);
    if !trail.is_spent(1) {
        return best;
    }
    for i in 0..count {
        best = see_line(c, trail, tie, c.entry(m, i), best);
    }
    best
}

// The mark of the run's first corner that decides: the first in the order of ties at which the two count
// differently. Where no number of a mark stands in either writing, both count 0.
fn deciding<T: Tableau>(c: &Corner<T>, trail: &Trail, tie: Tie) -> Option<Decider>
    requires tie { IsTie c.now.marks tie }
    ensures decider { IfSome result (IsDecider c.now.problem c.now.marks tie) }
    ensures begun { HasBegun c.now trail.now result }
    ensures seen { (f : mark_type.Mark) → IsSeen c.now trail.now tie result f }
{
    c.show_corner(); // for the proof: what a corner keeps
    let found = see_row(c, trail, tie, tie.a.mark, None);
    see_row(c, trail, tie, tie.b.mark, found)
}

// Whether the first is the lesser one.
fn is_less(order: Ordering) -> bool
    ensures yes { result ≡ true → order ≡ IsLess }
    ensures no { result ≡ false → order ≡ IsLess → ⊥ }
{
    match order {
        Ordering::Less => true,
        _ => false,
    }
}

// Whether the first of two marks that come to 0 together leaves, by what they count at the marks of the
// run's first corner.
fn breaks_tie<T: Tableau>(c: &Corner<T>, trail: &Trail, a: Ratio, b: Ratio, enter: Mark) -> bool
    requires a { IsRatioAt c.now.problem c.now.marks (corners.place enter) a }
    requires b { IsRatioAt c.now.problem c.now.marks (corners.place enter) b }
    ensures yes { result ≡ true → FromTies c.now trail.now (λ ties.
        WinsTie c.now.problem c.now.marks (corners.place enter) ties a.mark b.mark) }
    ensures no { result ≡ false → FromTies c.now trail.now (λ ties.
        WinsTie c.now.problem c.now.marks (corners.place enter) ties b.mark a.mark) }
{
    c.show_corner(); // for the proof: what a corner keeps
    let found = deciding(c, trail, Tie { a, b });
    match found {
        Some(decider) => is_less(decider.order),
        None => false,
    }
}

/// The ratio of the mark that leaves, of two: the smaller one, and of equal ones that which breaks the tie.
pub(crate) fn earlier<T: Tableau>(
    c: &Corner<T>,
    trail: &Trail,
    a: Ratio,
    b: Ratio,
    enter: Mark,
) -> Ratio
    requires a { IsRatioAt c.now.problem c.now.marks (corners.place enter) a }
    requires b { IsRatioAt c.now.problem c.now.marks (corners.place enter) b }
    ensures ratio { IsRatioAt c.now.problem c.now.marks (corners.place enter) result }
    ensures earlier { FromTies c.now trail.now (λ ties.
        IsEarlier c.now.problem c.now.marks (corners.place enter) ties a b result) }
{
    c.show_corner(); // for the proof: what a corner keeps
    match cmp_wide(a.above, a.below, b.above, b.below) {
        Ordering::Less => a,
        Ordering::Greater => b,
        Ordering::Equal => {
            if breaks_tie(c, trail, a, b, enter) {
                a
            } else {
                b
            }
        }
    }
}
