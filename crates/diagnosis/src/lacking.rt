// The rows that do not hold.
ghost use Rattle.std.specs.Prelude.{◌≡◌, ◌≢◌, ◌<◌, ◌++◌, ◌∷◌, List, [], true, false, All, Any, IfOk};
ghost use Rattle.problem_core.specs.Layout as layout;
ghost use Rattle.diagnosis.specs.Unmet.{AreUnmet};

use corner_view::Tableau;
use frac_core::{OutOfMemory, Wide};
use layout_solver::Engine;
use problem_core::{REQUIRED, Row};
use std::alloc::Global;

// Whether the two errors are equal.
fn is_same(a: Wide, b: Wide) -> bool
    ensures yes { result ≡ true → a ≡ b }
    ensures no { result ≡ false → a ≢ b }
{
    a == b
}

// Appends a row with its error, if it is not required and the error is not 0.
fn push_unmet<T: Tableau>(
    out: &mut Vec<(u32, Wide)>,
    e: &Engine<T>,
    row: &Row,
) -> Result<(), OutOfMemory>
    requires held { Any (λ r. r ≡ row.now) e.now.problem.rows }
    ensures { IfOk result (λ _. (rows : List layout.Row) → All (λ r. r.id < row.now.id) rows
        → AreUnmet rows e.now.values out.old.items
        → AreUnmet (rows ++ row.now ∷ []) e.now.values out.new.items) }
{
    e.show_layout(); // for the proof: what an engine keeps
    if row.rank() == REQUIRED {
        return Ok(());
    }
    let Some(error) = e.error(row.id()) else {
        unreachable!()
    };
    if !is_same(error, Wide::of(0, 1)) {
        out.push((row.id(), error))?;
    }
    Ok(())
}

/// The rows that are not required and whose error is not 0, by number, each with its error in points.
pub fn unmet<T: Tableau>(alloc: Global, e: &Engine<T>) -> Result<Vec<(u32, Wide)>, OutOfMemory>
    ensures { IfOk result (λ out. AreUnmet e.now.problem.rows e.now.values out.items) }
{
    e.show_layout(); // for the proof: what an engine keeps
    let mut out = Vec::new(alloc);
    for row in e.rows() {
        push_unmet(&mut out, e, row)?;
    }
    Ok(out)
}
