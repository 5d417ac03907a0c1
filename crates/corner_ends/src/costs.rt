// What the required rows cost.
ghost use Rattle.std.specs.Prelude.{◌≡◌, ℤ, pos, ◌<ℤ◌, ◌≤ℤ◌, true, false};
ghost use Rattle.problem_core.specs.declared.limits.TheConstants.{REQUIRED};
ghost use Rattle.problem_core.specs.declared.parts.Level.TheVariants.{Priority};
ghost use Rattle.problem_core.specs.Levels.{CostsAbove};

use corner_view::{Corner, Tableau};
use problem_core::{Level, REQUIRED};

/// Whether the number is below 0.
pub fn is_below(z: i64) -> bool
    ensures yes { result ≡ true → z <ℤ pos 0 }
    ensures no { result ≡ false → pos 0 ≤ℤ z }
{
    z < 0
}

/// Whether the number is above 0.
pub fn is_above(z: i64) -> bool
    ensures yes { result ≡ true → pos 0 <ℤ z }
    ensures no { result ≡ false → z ≤ℤ pos 0 }
{
    z > 0
}

/// The level of the required rows.
pub fn required_level() -> Level
    ensures { result ≡ Priority REQUIRED }
{
    Level::Priority(REQUIRED)
}

/// Whether the required rows cost.
pub fn is_costly<T: Tableau>(c: &Corner<T>) -> bool
    ensures yes { result ≡ true → CostsAbove c.now.problem c.now.marks 0 }
    ensures no { result ≡ false → CostsAbove c.now.problem c.now.marks 0 → ⊥ }
{
    c.show_corner(); // for the proof: what a corner keeps
    is_above(c.cost(required_level()).num())
}
