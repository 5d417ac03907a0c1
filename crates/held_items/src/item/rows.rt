// The rows of what is held.
ghost use Rattle.std.specs.Prelude.{◌≡◌, ◌∷◌, ◌++◌, ◌<◌, ◌≤◌, ◌*◌, ◌+◌, [], All, IfOk, OnOk};
ghost use Rattle.problem_core.specs.declared.parts.Rel.TheVariants as rel;
ghost use Rattle.problem_core.specs.declared.limits.TheConstants.{NUMBER_LIMIT};
ghost use Rattle.problem_core.specs.Kept.{IsNumber, IsRow};
ghost use Rattle.problem_core.specs.Window.{required_row, structural_rows, zero_fraction};
ghost use Rattle.view_tree.specs.declared.limits.TheConstants.{ID_LIMIT};
ghost use Rattle.held_items.specs.declared.row_numbers.TheConstants.{VIEW_ROWS};
ghost use Rattle.held_items.specs.Items.{rows_of_views, size_rows};
ghost use Rattle.constraint_compile.specs.Compiled.{AreRowsNow, AreSmallForms};
ghost use Rattle.constraint_compile.specs.Suggestions.{suggested_row, IsSuggestion};

use crate::item::WindowSize;
use crate::row_numbers::{HEIGHT_ROW, LEFT_ROW, TOP_ROW, VIEW_ROWS, WIDTH_ROW};
use constraint_compile::{Compiled, Suggestion};
use frac_core::{Frac, OutOfMemory, Stop};
use name_tables::Metrics;
use problem_core::{REQUIRED, Rel, Row, Term};
use std::alloc::Global;
use view_tree::ViewId;

// The required row of one attribute, once.
fn required(alloc: Global, id: u32, attr: u32, rel: Rel, constant: Frac) -> Result<Row, OutOfMemory>
    requires id { IsNumber id }
    requires attr { IsNumber attr }
    ensures row { IfOk result (λ row. row ≡ required_row id attr rel constant) }
    ensures kept { IfOk result IsRow }
{
    let _den = constant.den(); // for the proof: what a fraction keeps
    let terms = [Term { attr, by: 1 }];
    let row = Row::of(alloc, id, REQUIRED, 1, rel, 1, constant, &terms)?;
    row.show_row(); // for the proof: what a row keeps
    Ok(row)
}

// Appends the required row of one attribute, once, with the constant 0.
fn push_required(
    alloc: Global,
    rows: &mut Vec<Row>,
    id: u32,
    attr: u32,
    rel: Rel,
) -> Result<(), OutOfMemory>
    requires id { IsNumber id }
    requires attr { IsNumber attr }
    ensures row { OnOk result
        (rows.new.items ≡ rows.old.items ++ required_row id attr rel zero_fraction ∷ []) }
    ensures each { OnOk result (All IsRow rows.old.items → All IsRow rows.new.items) }
{
    let row = required(alloc, id, attr, rel, Frac::zero())?;
    rows.push(row)?;
    Ok(())
}

// A list of two rows.
fn pair(alloc: Global, one: Row, other: Row) -> Result<Vec<Row>, OutOfMemory>
    ensures { IfOk result (λ rows. rows.items ≡ one ∷ other ∷ []) }
{
    let mut rows = Vec::new(alloc);
    rows.push(one)?;
    rows.push(other)?;
    Ok(rows)
}

/// The window's rows: its left and top are 0, its width and height at least 0.
pub fn structural_rows(alloc: Global) -> Result<Vec<Row>, OutOfMemory>
    ensures rows { IfOk result (λ rows. rows.items ≡ structural_rows) }
    ensures each { IfOk result (λ rows. All IsRow rows.items) }
{
    let attrs = ViewId(0).attributes();
    let mut rows = Vec::new(alloc);
    push_required(alloc, &mut rows, LEFT_ROW, attrs.left, Rel::Eq)?;
    push_required(alloc, &mut rows, TOP_ROW, attrs.top, Rel::Eq)?;
    push_required(alloc, &mut rows, WIDTH_ROW, attrs.width, Rel::Ge)?;
    push_required(alloc, &mut rows, HEIGHT_ROW, attrs.height, Rel::Ge)?;
    Ok(rows)
}

/// The rows of so many views. The first view has this number, and its rows begin at this one.
pub fn view_rows(
    alloc: Global,
    first_row: u32,
    id: u32,
    count: u32,
) -> Result<Vec<Row>, OutOfMemory>
    requires first_row { 0 < first_row }
    requires rows { first_row + VIEW_ROWS * count ≤ NUMBER_LIMIT }
    requires ids { id + count ≤ ID_LIMIT }
    ensures rows { IfOk result (λ rows. rows.items ≡ rows_of_views first_row id count) }
    ensures each { IfOk result (λ rows. All IsRow rows.items) }
{
    let mut rows = Vec::new(alloc);
    let mut row = first_row;
    let mut next = id;
    let mut left = count;
    while left > 0 {
        let attrs = ViewId(next).attributes();
        push_required(alloc, &mut rows, row, attrs.width, Rel::Ge)?;
        push_required(alloc, &mut rows, row + 1, attrs.height, Rel::Ge)?;
        row += VIEW_ROWS;
        next += 1;
        left -= 1;
    }
    Ok(rows)
}

/// The rows of the window's size.
pub fn size_rows(alloc: Global, first_row: u32, size: &WindowSize) -> Result<Vec<Row>, OutOfMemory>
    requires { (0 < first_row) × (first_row < NUMBER_LIMIT) }
    ensures rows { IfOk result
        (λ rows. rows.items ≡ size_rows first_row size.now.width size.now.height) }
    ensures each { IfOk result (λ rows. All IsRow rows.items) }
{
    let attrs = ViewId(0).attributes();
    let width = required(alloc, first_row, attrs.width, Rel::Eq, size.width)?;
    let height = required(alloc, first_row + 1, attrs.height, Rel::Eq, size.height)?;
    pair(alloc, width, height)
}

/// The row of a suggestion, in a list.
pub fn suggestion_rows(alloc: Global, suggestion: &Suggestion) -> Result<Vec<Row>, OutOfMemory>
    requires { IsSuggestion suggestion.now }
    ensures rows { IfOk result (λ rows. rows.items ≡ suggested_row suggestion.now ∷ []) }
    ensures each { IfOk result (λ rows. All IsRow rows.items) }
{
    let row = suggestion.row(alloc)?;
    row.show_row(); // for the proof: what a row keeps
    let mut rows = Vec::new(alloc);
    rows.push(row)?;
    Ok(rows)
}

/// The rows of a line. Its constants are small for these metrics after each term.
pub fn small_line_rows(
    alloc: Global,
    line: &Compiled,
    metrics: &Metrics,
) -> Result<Vec<Row>, OutOfMemory>
    requires { AreSmallForms metrics.now line.now.rows }
    ensures rows { IfOk result (λ rows. AreRowsNow metrics.now line.now.rows rows.items) }
    ensures each { IfOk result (λ rows. All IsRow rows.items) }
{
    match line.rows_now(alloc, metrics) {
        Ok(rows) => Ok(rows),
        Err(Stop::OutOfMemory) => Err(OutOfMemory),
        Err(Stop::Refused(_)) => unreachable!(),
    }
}
