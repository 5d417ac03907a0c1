// Numbers that both runs read and compare.
ghost use Rattle.std.specs.Prelude.{◌≡◌};
ghost use Rattle.problem_core.specs.Corners as corners;
ghost use Rattle.problem_core.specs.Corners.{IsIn};
ghost use Rattle.problem_core.specs.Layout.{coefficient};
ghost use Rattle.corner_laws.specs.Runs.{Writes, Writing};
ghost use Rattle.corner_view.specs.Seen.{IsOutside};

use corner_view::{Corner, Tableau};
use problem_core::{Mark, What};

/// The coefficient of an outside mark in an inside one's writing.
pub fn coefficient_of<T: Tableau>(c: &Corner<T>, m: Mark, enter: Mark) -> i64
    requires inside { IsIn (corners.place m) c.now.marks }
    requires outside { IsOutside c.now.problem c.now.marks enter }
    ensures { (w : Writing) → Writes c.now.problem c.now.marks (corners.place m) w
        → result ≡ coefficient (corners.place enter) w.form }
{
    c.show_corner(); // for the proof: what a corner keeps
    c.coefficient(What::Mark(m), enter)
}
