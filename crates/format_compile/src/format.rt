// Visual formats: the rows that each asks of its views.
ghost use Rattle.std.specs.Prelude.{◌≡◌, ◌<◌, List, IfOk, IfErr};
ghost use Rattle.vfl_text.specs.View.{meaning};
ghost use Rattle.view_tree.specs.Views.{LiveView};
ghost use Rattle.format_compile.specs.FormatParts as parts;
ghost use Rattle.format_compile.specs.FormatStops.{row_count};
ghost use Rattle.format_compile.specs.FormatRows.{IsCompiledFormat, MayStopFormat};

use crate::lists::parts_of;
use crate::refusals::{checked, row_count};
use crate::rows::rows_of;
use compile_parts::CompileStop;
use constraint_compile::Compiled;
use frac_core::OutOfMemory;
use name_tables::Metrics;
use script_text::{Align, Direction};
use std::alloc::Global;
use vfl_text::Format;
use view_tree::Tree;

/// The number of the format's rows.
pub fn format_row_count(
    alloc: Global,
    format: &Format<'_>,
    align: Option<Align>,
    direction: Direction,
) -> Result<usize, OutOfMemory>
    ensures { IfOk result (λ n. (views : List LiveView)
        → n ≡ row_count views (parts.parts (meaning format.now) align direction)) }
{
    let parts = parts_of(alloc, format, align, direction)?;
    Ok(row_count(&parts))
}

/// The rows of a visual format and the views in its text. The views of a horizontal one follow each other in
/// the direction. The rows are numbered from the first number, in the order of the text. Those of the
/// alignment come last.
///
/// It stops at the first unknown name of the text, or else at the first wrong use in the order `Align`,
/// `Parent`, `Object`, `Priority`, or else at the first limit that is passed: `Rows` if a row's number would
/// be [`NUMBER_LIMIT`](problem_core::NUMBER_LIMIT) or more, then `Attributes`, `Coefficient` and `Constant`,
/// each over all rows.
// It has seven parameters, since a line keeps the format and its alignment apart, metrics change without the
// views, and the direction is the scene's.
pub fn compile_format(
    alloc: Global,
    tree: &Tree,
    metrics: &Metrics,
    format: &Format<'_>,
    align: Option<Align>,
    first_row: u32,
    direction: Direction,
) -> Result<Compiled, CompileStop>
    requires first { 0 < first_row }
    ensures compiled { IfOk result (IsCompiledFormat tree.now.views metrics.now
        (meaning format.now) align direction first_row) }
    ensures stop { IfErr result
        (MayStopFormat tree.now.views metrics.now (meaning format.now) align direction first_row) }
{
    let parts = parts_of(alloc, format, align, direction)?;
    let asked = checked(alloc, tree, metrics, format.axis, align, &parts, first_row)?;
    let rows = rows_of(alloc, metrics, &asked.rows, first_row)?;
    Ok(Compiled::of(rows, asked.views))
}
