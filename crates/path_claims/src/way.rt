// The limit of a route's length, how a route ends, and the marks inside where it begins.
ghost use Rattle.std.specs.Prelude.{◌≡◌, ◌≢◌, length, IfOk, IfErr, Ok, Err};
ghost use Rattle.path_lines.specs.Tables.{line_count};
ghost use Rattle.path_claims.specs.Ways.{AreFirstSides};
ghost use Rattle.frac_core.specs.declared.memory.Stop.TheVariants as stops;
ghost use Rattle.path_claims.specs.declared.way.WayStop.TheVariants as ways;

use frac_core::{OutOfMemory, Stop};
use path_lines::SumStop;
use problem_core::{Problem, Side};
use std::alloc::Global;
use thiserror::Error;

/// The numbers of marks and of exchanges of a path are below this, so that its exchanges are counted in 32
/// bits.
pub const PATH_LIMIT: usize = 1 << 31;

/// Why a route ends: a clause fails, something that counts does not fit after so many exchanges, or memory
/// has run out.
#[derive(Clone, Copy, Debug, PartialEq, Eq, Error)]
pub enum WayStop {
    #[error("a clause of the path fails")]
    Fails,
    #[error("a number that counts does not fit after {0} exchanges")]
    NoRoom(u32),
    #[error("memory is wanting")]
    OutOfMemory,
}

impl From<OutOfMemory> for WayStop {
    ghost use Rattle.path_claims.specs.declared.way.WayStop.TheVariants.{OutOfMemory};

    ghost from_gives = { λ _ stop. stop ≡ OutOfMemory };

    fn from(_: OutOfMemory) -> WayStop {
        WayStop::OutOfMemory
    }
}

/// The value, or that the route ends after so many exchanges because it does not fit.
pub fn told<T>(made: Result<T, SumStop>, count: u32) -> Result<T, WayStop>
    ensures ok { IfOk result (λ out. made ≡ Ok out) }
    ensures stop { IfErr result (λ stop. stop ≢ ways.OutOfMemory
        → (stop ≡ ways.NoRoom count) × (made ≡ Err (stops.Refused (record {})))) }
{
    match made {
        Ok(out) => Ok(out),
        Err(Stop::Refused(_)) => Err(WayStop::NoRoom(count)),
        Err(Stop::OutOfMemory) => Err(WayStop::OutOfMemory),
    }
}

// The over marks of the rows.
fn held_sides(alloc: Global, p: &Problem) -> Result<Vec<Option<Side>>, OutOfMemory>
    ensures { IfOk result (λ out. AreFirstSides p.now (length p.now.rows) out.items) }
{
    let mut out = Vec::new(alloc);
    for _ in 0..p.rows().len() {
        out.push(Some(Side::Over))?;
    }
    Ok(out)
}

/// Which mark of each line is inside where the route begins.
pub fn first_sides(alloc: Global, p: &Problem) -> Result<Vec<Option<Side>>, OutOfMemory>
    ensures { IfOk result (λ out. AreFirstSides p.now (line_count p.now) out.items) }
{
    let mut out = held_sides(alloc, p)?;
    for _ in 0..p.stays().len() {
        out.push(None)?;
    }
    Ok(out)
}
