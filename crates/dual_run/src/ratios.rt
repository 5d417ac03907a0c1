// Which of two columns over their numbers is the lesser.
ghost use Rattle.std.specs.Prelude.{◌≡◌, ℕ, ◌*ℤ◌, true, false, IfOk};
ghost use Rattle.std.specs.Ordering.{int_cmp};
ghost use Rattle.std.specs.declared.cmp.Ordering.TheVariants.{Less as IsLess, Greater as IsGreater};
ghost use Rattle.problem_core.specs.Corners as corners;
ghost use Rattle.problem_core.specs.Corners.{NoNegativeColumn};
ghost use Rattle.problem_core.specs.Levels.{IsLevelAt};
ghost use Rattle.corner_view.specs.Fronts.{IsFrontOf};
ghost use Rattle.corner_view.specs.Seen.{IsInUse, IsMarkOf};
ghost use Rattle.corner_ends.specs.Columns.{Reduced};
ghost use Rattle.dual_run.specs.Entering.{AreLevels, HasFront, IsNoGreater, IsPositive};

use corner_view::{Corner, Front, Tableau};
use frac_core::{OutOfMemory, product};
use problem_core::{Level, Mark};
use std::cmp::Ordering;

/// An outside mark, and its number in the leaving mark's writing.
#[derive(Clone, Copy, Debug)]
pub(crate) struct Choice {
    pub mark: Mark,
    pub by: i64,
}

/// A choice with the front of its mark, None where this costs nothing.
#[derive(Clone, Copy, Debug)]
pub(crate) struct Found {
    pub choice: Choice,
    pub front: Option<Front>,
}

// The order of two marks' reduced costs at a level, each over its number.
fn order_at<T: Tableau>(c: &Corner<T>, level: Level, a: Choice, b: Choice) -> Ordering
    requires used { IsInUse c.now.problem level }
    requires a { IsMarkOf c.now.problem a.mark }
    requires b { IsMarkOf c.now.problem b.mark }
    ensures { (r : Reduced c.now.problem c.now.marks) (k : ℕ) → IsLevelAt c.now.problem level k
        → result ≡ int_cmp (b.by *ℤ r.costs k (corners.place a.mark))
        (a.by *ℤ r.costs k (corners.place b.mark)) }
{
    c.show_corner(); // for the proof: what a corner keeps
    let first = product(b.by, c.reduced(level, a.mark));
    first.cmp(&product(a.by, c.reduced(level, b.mark)))
}

// Whether the first column over its number is no greater than the second, by these levels; if not, the
// second is no greater than the first.
fn is_before_at<T: Tableau>(c: &Corner<T>, levels: &[Level], a: Choice, b: Choice) -> bool
    requires levels { AreLevels c.now.problem levels.now }
    requires a { IsMarkOf c.now.problem a.mark }
    requires b { IsMarkOf c.now.problem b.mark }
    ensures yes { result ≡ true → IsNoGreater c.now.problem c.now.marks a b }
    ensures no { result ≡ false → IsNoGreater c.now.problem c.now.marks b a }
{
    c.show_corner(); // for the proof: what a corner keeps
    for level in levels {
        match order_at(c, *level, a, b) {
            Ordering::Less => return true,
            Ordering::Greater => return false,
            Ordering::Equal => {}
        }
    }
    true
}

// The order of two fronts at one level, each over its number.
fn ratio_order(a: Choice, f: Front, b: Choice, g: Front) -> Ordering
    ensures { result ≡ int_cmp (b.by *ℤ f.reduced) (a.by *ℤ g.reduced) }
{
    let first = product(b.by, f.reduced);
    first.cmp(&product(a.by, g.reduced))
}

// The order of two columns over their numbers by their fronts: the weaker front is the lesser, and of fronts
// at one level that with the lesser ratio. Equal where levels behind them decide. Of two levels one is the
// stronger, so one look decides.
fn front_order<T: Tableau>(c: &Corner<T>, a: Choice, f: Front, b: Choice, g: Front) -> Ordering
    requires columns { NoNegativeColumn c.now.problem c.now.marks }
    requires a { IsPositive c.now.problem a }
    requires b { IsPositive c.now.problem b }
    requires f { IsFrontOf c.now.problem c.now.marks a.mark f }
    requires g { IsFrontOf c.now.problem c.now.marks b.mark g }
    ensures less { result ≡ IsLess → IsNoGreater c.now.problem c.now.marks a b }
    ensures greater { result ≡ IsGreater → IsNoGreater c.now.problem c.now.marks b a }
{
    c.show_corner(); // for the proof: what a corner keeps
    if f.level == g.level {
        return ratio_order(a, f, b, g);
    }
    if c.is_stronger(f.level, g.level) {
        Ordering::Greater
    } else {
        Ordering::Less
    }
}

// The order of two columns over their numbers, Equal where levels behind their fronts decide.
fn order<T: Tableau>(c: &Corner<T>, a: Found, b: Found) -> Ordering
    requires columns { NoNegativeColumn c.now.problem c.now.marks }
    requires a { IsPositive c.now.problem a.choice }
    requires b { IsPositive c.now.problem b.choice }
    requires f { HasFront c.now.problem c.now.marks a }
    requires g { HasFront c.now.problem c.now.marks b }
    ensures less { result ≡ IsLess → IsNoGreater c.now.problem c.now.marks a.choice b.choice }
    ensures greater { result ≡ IsGreater → IsNoGreater c.now.problem c.now.marks b.choice a.choice }
{
    c.show_corner(); // for the proof: what a corner keeps
    match a.front {
        None => Ordering::Less,
        Some(f) => match b.front {
            None => Ordering::Greater,
            Some(g) => front_order(c, a.choice, f, b.choice, g),
        },
    }
}

/// Whether the first column over its number is no greater than the second; if not, the second is no greater
/// than the first. The levels are listed only where the fronts are equal.
pub(crate) fn is_before<T: Tableau>(c: &Corner<T>, a: Found, b: Found) -> Result<bool, OutOfMemory>
    requires columns { NoNegativeColumn c.now.problem c.now.marks }
    requires a { IsPositive c.now.problem a.choice }
    requires b { IsPositive c.now.problem b.choice }
    requires f { HasFront c.now.problem c.now.marks a }
    requires g { HasFront c.now.problem c.now.marks b }
    ensures yes { IfOk result
        (λ yes. yes ≡ true → IsNoGreater c.now.problem c.now.marks a.choice b.choice) }
    ensures no { IfOk result
        (λ yes. yes ≡ false → IsNoGreater c.now.problem c.now.marks b.choice a.choice) }
{
    match order(c, a, b) {
        Ordering::Less => Ok(true),
        Ordering::Greater => Ok(false),
        Ordering::Equal => {
            let levels = c.levels()?;
            Ok(is_before_at(c, &levels, a.choice, b.choice))
        }
    }
}
