// Requests to an engine, and why they stop.
ghost use Rattle.std.specs.Prelude.{◌≡◌, []};
ghost use Rattle.layout_solver.specs.Requests.{run_of, still_of};

use crate::engine::Change;
use cert_core::{Conflict, Path, RunStop, UnfitPath};
use frac_core::OutOfMemory;
use problem_core::Row;
use std::alloc::Global;
use thiserror::Error;

/// A request to an engine. Each request first moves the stays to the present values.
#[derive(Drop)]
pub enum Request {
    /// Attributes, at 0, and rows join.
    Add { attrs: Vec<u32>, rows: Vec<Row> },
    /// Rows get other constants, by rising row number.
    Shift(Vec<Change>),
    /// Rows leave in this order, and then attributes.
    Remove { rows: Vec<u32>, attrs: Vec<u32> },
    /// The stays of these attributes come first.
    Keep(Vec<u32>),
    /// Nothing else changes.
    Stand,
}

/// Why a request has no solution, or none was found.
#[derive(Debug, Drop, Error)]
pub enum RequestStop {
    /// The required rows have no solution, as these multipliers show.
    #[error("the required rows are in conflict")]
    Conflict(Conflict),
    /// A quantity does not fit, while these leaving rows, by number, are still held.
    #[error("a quantity doesn't fit")]
    Unfit { still: Vec<u32>, at: UnfitPath },
    /// The path has as many exchanges as the budget.
    #[error("the exchanges are used up")]
    Spent(Path),
    /// Memory ran out.
    #[error("memory is wanting")]
    OutOfMemory,
}

impl From<OutOfMemory> for RequestStop {
    ghost use Rattle.layout_solver.specs.declared.request.RequestStop.TheVariants.{OutOfMemory};

    ghost from_gives = { λ _ stop. stop ≡ OutOfMemory };

    fn from(_: OutOfMemory) -> RequestStop {
        RequestStop::OutOfMemory
    }
}

/// The stop of a run, with no row still held.
pub(crate) fn stop_of(alloc: Global, stop: RunStop) -> RequestStop
    ensures run { run_of result ≡ stop }
    ensures still { still_of result ≡ [] }
{
    match stop {
        RunStop::Conflict(by) => RequestStop::Conflict(by),
        RunStop::Unfit(at) => RequestStop::Unfit {
            still: Vec::new(alloc),
            at,
        },
        RunStop::Spent(path) => RequestStop::Spent(path),
        RunStop::OutOfMemory => RequestStop::OutOfMemory,
    }
}
