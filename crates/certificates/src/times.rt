// What a corner's writing of a level's cost says.
ghost use Rattle.std.specs.Prelude.{◌≡◌, ◌++◌, ℕ, ℤ, [], ◌∷◌, pos, ◌<ℤ◌, All, IfOk};
ghost use Rattle.frac_core.specs.Fraction.{IsFitting};
ghost use Rattle.problem_core.specs.declared.parts.RowName.{RowName as NameOfRow};
ghost use Rattle.cert_checker.specs.LinePlaces.{names};
ghost use Rattle.corner_view.specs.Seen.{IsInUse, IsNamed};
ghost use Rattle.certificates.specs.OwnLevels.{nonzero_times};
ghost use Rattle.certificates.specs.Reading.{AreNumbersAt};

use cert_core::By;
use corner_view::{Corner, Tableau};
use frac_core::OutOfMemory;
use problem_core::{Level, RowName};
use std::alloc::Global;

/// The scale of a level.
pub(crate) fn scale<T: Tableau>(c: &Corner<T>, level: Level) -> i64
    requires level { IsInUse c.now.problem level }
    ensures value { (scale : ℕ) (times : NameOfRow → ℤ)
        → AreNumbersAt c.now.problem c.now.marks level scale times → result ≡ pos scale }
    ensures above { pos 0 <ℤ result }
    ensures fits { IsFitting result }
{
    c.show_corner(); // for the proof: what a corner keeps
    c.scale(level)
}

// The multiplier of a row or stay at a level.
fn multiplier<T: Tableau>(c: &Corner<T>, level: Level, row: RowName) -> i64
    requires level { IsInUse c.now.problem level }
    requires row { IsNamed c.now.problem row }
    ensures value { (scale : ℕ) (times : NameOfRow → ℤ)
        → AreNumbersAt c.now.problem c.now.marks level scale times → result ≡ times row }
    ensures fits { IsFitting result }
{
    c.show_corner(); // for the proof: what a corner keeps
    c.multiplier(level, row)
}

// Appends the multiplier of a row or stay, where it is not 0.
fn push_times<T: Tableau>(
    out: &mut Vec<By>,
    c: &Corner<T>,
    level: Level,
    row: RowName,
) -> Result<(), OutOfMemory>
    requires level { IsInUse c.now.problem level }
    requires row { IsNamed c.now.problem row }
    ensures pushed { IfOk result (λ _. (scale : ℕ) (times : NameOfRow → ℤ)
        → AreNumbersAt c.now.problem c.now.marks level scale times
        → out.new.items ≡ out.old.items ++ nonzero_times times (row ∷ [])) }
    ensures fits { IfOk result (λ _. All (λ b. IsFitting b.times) out.old.items
        → All (λ b. IsFitting b.times) out.new.items) }
{
    let times = multiplier(c, level, row);
    if times != 0 {
        out.push(By { row, times })?;
    }
    Ok(())
}

/// The multipliers of a level that are not 0, in the order of the lines.
pub(crate) fn times<T: Tableau>(
    alloc: Global,
    c: &Corner<T>,
    level: Level,
) -> Result<Vec<By>, OutOfMemory>
    requires level { IsInUse c.now.problem level }
    ensures value { IfOk result (λ out. (scale : ℕ) (times : NameOfRow → ℤ)
        → AreNumbersAt c.now.problem c.now.marks level scale times
        → out.items ≡ nonzero_times times (names c.now.problem)) }
    ensures fits { IfOk result (λ out. All (λ b. IsFitting b.times) out.items) }
{
    let mut out = Vec::new(alloc);
    for row in c.rows() {
        push_times(&mut out, c, level, RowName::Held(row.id()))?;
    }
    for stay in c.stays() {
        push_times(&mut out, c, level, RowName::Stay(stay.attr))?;
    }
    Ok(out)
}
