// The outside mark that enters: the ratio test of the dual simplex method.
ghost use Rattle.std.specs.Prelude.{◌≡◌, ◌≢◌, neg_ℤ, true, false, IfOk, IfSome, IfNone};
ghost use Rattle.frac_core.specs.Fraction.{IsFitting};
ghost use Rattle.problem_core.specs.Corners as corners;
ghost use Rattle.problem_core.specs.Corners.{IsIn, NoNegativeColumn};
ghost use Rattle.problem_core.specs.declared.parts.Side.TheVariants.{Under as UnderOf, Over as OverOf};
ghost use Rattle.problem_core.specs.declared.stops.What.TheVariants.{Mark as MarkOf};
ghost use Rattle.corner_laws.specs.Runs.{IsDualSwap, other_mark};
ghost use Rattle.corner_view.specs.Seen.{IsMarkOf, IsOutside, MovesWith};
ghost use Rattle.corner_view.specs.Entries.{AreBothOutside};
ghost use Rattle.dual_run.specs.Entering.{AreDear, HasNoGrower, IsBeforeEntries, IsBeforeLine, IsChoice};
ghost use Rattle.dual_run.specs.Entering.{IsDear, IsFound, IsFree, IsNoGreater, IsNumberOf, NeverGrows};
ghost use Rattle.dual_run.specs.Leaving.{MayLeave};

use crate::leaving::other;
use crate::ratios::{Choice, Found, is_before};
use corner_ends::{coefficient_of, is_above, required_level};
use corner_view::{Corner, Tableau};
use frac_core::{OutOfMemory, opposite};
use problem_core::{Mark, RowName, Side, What};

// The other mark of the leaving one's line, which grows as much.
fn own_choice<T: Tableau>(c: &Corner<T>, leave: Mark) -> Choice
    requires { IsIn (corners.place leave) c.now.marks }
    ensures mark { result.mark ≡ other_mark leave }
    ensures choice { IsChoice c.now.problem c.now.marks leave result }
    ensures line { IsBeforeLine c.now.problem c.now.marks leave result leave.row }
{
    c.show_corner(); // for the proof: what a corner keeps
    Choice {
        mark: other(leave),
        by: c.denominator(What::Mark(leave)),
    }
}

// The number of an outside line's under mark. Its over mark has the opposite one.
fn number_at<T: Tableau>(c: &Corner<T>, leave: Mark, row: RowName) -> i64
    requires leave { IsIn (corners.place leave) c.now.marks }
    requires row { AreBothOutside c.now.problem c.now.marks row }
    requires other { row ≢ leave.row }
    ensures under { IsNumberOf c.now.problem c.now.marks leave (record { row = row; side = UnderOf }) result }
    ensures over { IsNumberOf c.now.problem c.now.marks leave (record { row = row; side = OverOf })
        (neg_ℤ result) }
    ensures fits { IsFitting result }
{
    c.show_corner(); // for the proof: what a corner keeps
    let under = Mark {
        row,
        side: Side::Under,
    };
    coefficient_of(c, leave, under)
}

// The mark of an outside line with its number, where the leaving mark grows with it: with the other one it
// does not.
fn grower<T: Tableau>(c: &Corner<T>, leave: Mark, row: RowName) -> Option<Choice>
    requires leave { IsIn (corners.place leave) c.now.marks }
    requires row { AreBothOutside c.now.problem c.now.marks row }
    requires other { row ≢ leave.row }
    ensures some { IfSome result (IsChoice c.now.problem c.now.marks leave) }
    ensures row { IfSome result (λ f. f.mark.row ≡ row) }
    ensures other { IfSome result (λ f. NeverGrows c.now.problem c.now.marks leave (other_mark f.mark)) }
    ensures none { IfNone result (HasNoGrower c.now.problem c.now.marks leave row) }
{
    let under = number_at(c, leave, row);
    if is_above(under) {
        return Some(Choice {
            mark: Mark {
                row,
                side: Side::Under,
            },
            by: under,
        });
    }
    let over = opposite(under);
    if is_above(over) {
        return Some(Choice {
            mark: Mark {
                row,
                side: Side::Over,
            },
            by: over,
        });
    }
    None
}

// The choice with its mark's front.
fn found_at<T: Tableau>(c: &Corner<T>, leave: Mark, choice: Choice) -> Found
    requires { IsChoice c.now.problem c.now.marks leave choice }
    ensures found { IsFound c.now.problem c.now.marks leave result }
    ensures choice { result.choice ≡ choice }
{
    Found {
        choice,
        front: c.front(choice.mark),
    }
}

// The one of the two with the lesser column over its number.
fn lesser<T: Tableau>(c: &Corner<T>, leave: Mark, a: Found, b: Found) -> Result<Found, OutOfMemory>
    requires columns { NoNegativeColumn c.now.problem c.now.marks }
    requires a { IsFound c.now.problem c.now.marks leave a }
    requires b { IsFound c.now.problem c.now.marks leave b }
    ensures found { IfOk result (IsFound c.now.problem c.now.marks leave) }
    ensures a { IfOk result (λ best. IsNoGreater c.now.problem c.now.marks best.choice a.choice) }
    ensures b { IfOk result (λ best. IsNoGreater c.now.problem c.now.marks best.choice b.choice) }
{
    let before = is_before(c, a, b)?;
    Ok(if before { a } else { b })
}

// Whether a mark costs at the level of the required rows.
pub(crate) fn is_dear<T: Tableau>(c: &Corner<T>, mark: Mark) -> bool
    requires { IsMarkOf c.now.problem mark }
    ensures yes { result ≡ true → IsDear c.now.problem c.now.marks mark }
    ensures no { result ≡ false → IsFree c.now.problem c.now.marks mark }
{
    c.show_corner(); // for the proof: what a corner keeps
    is_above(c.reduced(required_level(), mark))
}

// The one with the lesser column over its number, of what is found and a choice. What costs at the level of
// the required rows is never lesser than what costs nothing there, so that its front needn't be read.
fn better<T: Tableau>(
    c: &Corner<T>,
    leave: Mark,
    found: Found,
    next: Choice,
    is_free: bool,
) -> Result<Found, OutOfMemory>
    requires columns { NoNegativeColumn c.now.problem c.now.marks }
    requires found { IsFound c.now.problem c.now.marks leave found }
    requires next { IsChoice c.now.problem c.now.marks leave next }
    requires free { is_free ≡ true → IsFree c.now.problem c.now.marks found.choice.mark }
    ensures found { IfOk result (IsFound c.now.problem c.now.marks leave) }
    ensures least { IfOk result
        (λ best. IsNoGreater c.now.problem c.now.marks best.choice found.choice) }
    ensures next { IfOk result (λ best. IsNoGreater c.now.problem c.now.marks best.choice next) }
{
    c.show_corner(); // for the proof: what a corner keeps
    if is_free && is_dear(c, next.mark) {
        return Ok(found);
    }
    let best = lesser(c, leave, found, found_at(c, leave, next))?;
    Ok(best)
}

// The one with the least column over its number, of what is found and the marks of an outside line.
fn better_of<T: Tableau>(
    c: &Corner<T>,
    leave: Mark,
    found: Found,
    row: RowName,
    is_free: bool,
) -> Result<Found, OutOfMemory>
    requires columns { NoNegativeColumn c.now.problem c.now.marks }
    requires leave { IsIn (corners.place leave) c.now.marks }
    requires found { IsFound c.now.problem c.now.marks leave found }
    requires row { AreBothOutside c.now.problem c.now.marks row }
    requires other { row ≢ leave.row }
    requires free { is_free ≡ true → IsFree c.now.problem c.now.marks found.choice.mark }
    ensures found { IfOk result (IsFound c.now.problem c.now.marks leave) }
    ensures least { IfOk result
        (λ best. IsNoGreater c.now.problem c.now.marks best.choice found.choice) }
    ensures line { IfOk result (λ best. IsBeforeLine c.now.problem c.now.marks leave best.choice row) }
{
    match grower(c, leave, row) {
        Some(next) => {
            let best = better(c, leave, found, next, is_free)?;
            Ok(best)
        }
        None => Ok(found),
    }
}

// The mark with the least column over its number, of all outside marks with which the leaving one grows.
// `is_free` says that the one of its own line costs nothing at the level of the required rows.
fn least<T: Tableau>(c: &Corner<T>, leave: Mark, is_free: bool) -> Result<Choice, OutOfMemory>
    requires columns { NoNegativeColumn c.now.problem c.now.marks }
    requires leave { IsIn (corners.place leave) c.now.marks }
    requires free { is_free ≡ true → IsFree c.now.problem c.now.marks (other_mark leave) }
    ensures choice { IfOk result (IsChoice c.now.problem c.now.marks leave) }
    ensures own { IfOk result
        (λ best. IsBeforeLine c.now.problem c.now.marks leave best leave.row) }
    ensures least { IfOk result (IsBeforeEntries c.now.problem c.now.marks leave) }
{
    c.show_corner(); // for the proof: what a corner keeps
    let count = c.entries(leave);
    let mut found = found_at(c, leave, own_choice(c, leave));
    for i in 0..count {
        let best = better_of(c, leave, found, c.entry(leave, i), is_free)?;
        found = best;
    }
    Ok(found.choice)
}

// Whether all outside marks of other lines with which the leaving one grows cost at the level of the
// required rows.
fn are_dear<T: Tableau>(c: &Corner<T>, leave: Mark) -> bool
    requires { IsIn (corners.place leave) c.now.marks }
    ensures { result ≡ true → AreDear c.now.problem c.now.marks leave }
{
    c.show_corner(); // for the proof: what a corner keeps
    c.are_growers_dear(leave, required_level())
}

// Whether of all marks with which the leaving one grows its line's other mark alone costs nothing at the
// level of the required rows. `is_free` says that this one costs nothing there.
pub(crate) fn turns<T: Tableau>(c: &Corner<T>, leave: Mark, is_free: bool) -> bool
    requires { IsIn (corners.place leave) c.now.marks }
    ensures free { result ≡ true → is_free ≡ true }
    ensures dear { result ≡ true → AreDear c.now.problem c.now.marks leave }
{
    is_free && are_dear(c, leave)
}

/// The mark that enters. Where the required rows alone decide, it is the leaving one's other mark.
pub(crate) fn entering<T: Tableau>(c: &Corner<T>, leave: Mark) -> Result<Mark, OutOfMemory>
    requires columns { NoNegativeColumn c.now.problem c.now.marks }
    requires leave { MayLeave c.now.problem c.now.marks leave }
    ensures outside { IfOk result (IsOutside c.now.problem c.now.marks) }
    ensures moves { IfOk result (λ m. MovesWith c.now.problem c.now.marks m (MarkOf leave)) }
    ensures swap { IfOk result (λ m. IsDualSwap c.now.problem c.now.marks
        (record { enter = m; leave = leave })) }
{
    c.show_corner(); // for the proof: what a corner keeps
    let own = other(leave);
    let is_free = !is_dear(c, own);
    if turns(c, leave, is_free) {
        return Ok(own);
    }
    let best = least(c, leave, is_free)?;
    Ok(best.mark)
}
