// The lines of a corner.
ghost use Rattle.std.specs.Prelude.{◌<◌, length};
ghost use Rattle.path_lines.specs.Tables.{IsTurned};

use crate::spots::Step;
use frac_core::Frac;
use problem_core::Side;

/// `own` times a line's deviation is the sum of the outside lines' deviations, each times its number, and
/// `own` times the value; in lowest terms.
#[derive(Drop)]
pub struct Sum {
    pub own: i64,
    pub by: Vec<i64>,
    pub value: Frac,
}

/// A line whose mark of this side is inside.
#[derive(Drop)]
pub struct Inside {
    pub side: Side,
    pub sum: Sum,
}

/// Brings the other mark of an inside line in.
pub(crate) fn turn(lines: &mut [Option<Inside>], step: Step)
    requires { step.enter.at < length lines.old }
    ensures { IsTurned step.enter.at step.enter.side lines.old lines.new }
{
    if let Some(inside) = &mut lines[step.enter.at] {
        inside.side = step.enter.side;
    }
}
