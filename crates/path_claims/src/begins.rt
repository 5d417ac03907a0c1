// The corner where a route begins.
ghost use Rattle.std.specs.Prelude.{IfOk};
ghost use Rattle.path_claims.specs.Begun.{IsBegun};
ghost use Rattle.path_levels.specs.Outlines.{IsOutline, IsSizedOutline};

use crate::stations::Table;
use frac_core::{OutOfMemory, Stop};
use path_fits::row_lines;
use path_levels::{CornerLines, Outline, first_levels};
use path_lines::{Inside, with_stays};
use problem_core::{Problem, Quantity};
use std::alloc::Global;

/// The lines and the rows of levels where a route begins, or the lines before the first sum of a row's first
/// terms or of a level's first rows that does not fit there.
#[derive(Drop)]
pub enum Begun {
    Whole(Table),
    Until {
        lines: Vec<Option<Inside>>,
        unfit: Quantity,
    },
}

/// The corner where a route begins, up to the first sum that does not fit.
pub fn begin(alloc: Global, p: &Problem, outline: &Outline) -> Result<Begun, OutOfMemory>
    requires outline { IsOutline p.now outline.now }
    requires sized { IsSizedOutline outline.now }
    ensures { IfOk result (IsBegun p.now outline.now) }
{
    p.show_whole(); // for the proof: what a problem keeps
    let made = row_lines(alloc, p)?;
    if let Some(unfit) = made.unfit {
        let lines = made.lines;
        return Ok(Begun::Until { lines, unfit });
    }
    let lines = with_stays(made.lines, p)?;
    let corner = CornerLines {
        outline,
        lines: &lines,
    };
    match first_levels(alloc, corner) {
        Ok(levels) => Ok(Begun::Whole(Table { lines, levels })),
        Err(Stop::Refused(rows)) => {
            let unfit = Quantity::Rows {
                level: rows.level,
                first: rows.first,
            };
            Ok(Begun::Until { lines, unfit })
        }
        Err(Stop::OutOfMemory) => Err(OutOfMemory),
    }
}
