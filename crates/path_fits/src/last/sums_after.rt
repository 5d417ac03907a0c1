// Whether levels fit after an exchange.
ghost use Rattle.std.specs.Prelude.{List, IfOk};
ghost use Rattle.problem_core.specs.declared.parts.Mark.{Mark};
ghost use Rattle.problem_core.specs.declared.stops.What.TheVariants.{Level as LevelOf};
ghost use Rattle.problem_core.specs.declared.stops.Quantity.TheVariants as quantities;
ghost use Rattle.path_fits.specs.Fits.{IsFitAt, IsLastAfter, IsSizedLast, marks_after};

use crate::last::{Fit, Last};
use crate::places::place_of_level;
use frac_core::{OutOfMemory, Stop};
use path_levels::{LevelRow, LineExchange, Tableau, next_level};
use problem_core::{Level, Problem};
use std::alloc::Global;

/// Whether a level fits after the exchange.
pub(crate) fn level_fit(
    alloc: Global,
    p: &Problem,
    last: Last<'_>,
    level: Level,
) -> Result<Fit, OutOfMemory>
    requires { IsSizedLast last }
    ensures { IfOk result (λ fit. (at : List Mark) → IsLastAfter p.now at last.entry
        → IsFitAt p.now (marks_after p.now last.entry at) (quantities.Plain (LevelOf level)) fit) }
{
    let Tableau { corner, levels } = last.tableau;
    let Some(place) = place_of_level(corner.outline, level) else {
        return Ok(Fit::Fits);
    };
    let (step, sum) = (last.step, &levels[place]);
    let exchange = LineExchange { corner, step };
    match next_level(alloc, exchange, LevelRow { place, sum }) {
        Ok(next) => {
            let _ = next.cost.num(); // for the proof: what a fraction keeps
            Ok(Fit::Fits)
        }
        Err(Stop::Refused(_)) => Ok(Fit::Unfit),
        Err(Stop::OutOfMemory) => Err(OutOfMemory),
    }
}
