// The marks inside, and the stops that name them; and the lines of a row.
ghost use Rattle.std.specs.Prelude.{◌≡◌, ◌<◌, ◌++◌, [], ◌∷◌, false, length, map, IfOk, OnOk};
ghost use Rattle.problem_core.specs.Unfit.{over_mark};
ghost use Rattle.corner_table.specs.Tables.{IsListedOf, inside_of, lists_of, marks_over, problem_of, row_at};
ghost use Rattle.corner_table.specs.Tables.{row_names, stay_names};
ghost use Rattle.corner_table.specs.Reads.Listing.{IsListedBut};
ghost use Rattle.corner_table.specs.Kept.{AreSlots, AreStored};
ghost use Rattle.corner_view.specs.Seen.{IsNamed};
ghost use Rattle.corner_table.specs.Paths.{IsPathStop};

use crate::listing::Listed;
use crate::slots::{line_slot, side_at};
use crate::table::{LEVELS, Table};
use cert_core::{Path, RunStop, UnfitPath};
use frac_core::{OutOfMemory, Stop};
use problem_core::{Mark, Quantity, Row, RowName, Side, TableStop};

// Puts the inside mark of a line behind the others, if it has one.
fn push_inside(table: &Table, row: RowName, out: &mut Vec<Mark>) -> Result<(), OutOfMemory>
    requires slots { AreSlots (lists_of table.now) }
    requires row { IsNamed (problem_of (lists_of table.now)) row }
    ensures { OnOk result (out.new.items ≡ out.old.items ++ inside_of (lists_of table.now) (row ∷ [])) }
{
    if let Some(side) = side_at(table, line_slot(table, row)) {
        out.push(Mark { row, side })?;
    }
    Ok(())
}

// Puts the inside marks of the rows behind the others.
fn push_rows(table: &Table, out: &mut Vec<Mark>) -> Result<(), OutOfMemory>
    requires slots { AreSlots (lists_of table.now) }
    ensures { OnOk result (out.new.items ≡ out.old.items ++ inside_of (lists_of table.now)
        (row_names (lists_of table.now))) }
{
    for row in table.rows.as_slice() {
        push_inside(table, RowName::Held(row.id()), out)?;
    }
    Ok(())
}

// Puts the inside marks of the stays behind the others.
fn push_stays(table: &Table, out: &mut Vec<Mark>) -> Result<(), OutOfMemory>
    requires slots { AreSlots (lists_of table.now) }
    ensures { OnOk result (out.new.items ≡ out.old.items ++ inside_of (lists_of table.now)
        (stay_names (lists_of table.now))) }
{
    for stay in table.stays.as_slice() {
        push_inside(table, RowName::Stay(stay.attr), out)?;
    }
    Ok(())
}

// Puts the over marks of the rows behind the others.
fn push_over(rows: &[Row], out: &mut Vec<Mark>) -> Result<(), OutOfMemory>
    ensures { OnOk result (out.new.items ≡ out.old.items ++ map (λ r. over_mark r.id) rows.now) }
{
    for row in rows {
        out.push(Mark {
            row: RowName::Held(row.id()),
            side: Side::Over,
        })?;
    }
    Ok(())
}

/// The marks inside of the rows, the over marks of these rows, which are still to join, and the marks inside
/// of the stays.
pub fn marks_with(table: &Table, rest: &[Row]) -> Result<Vec<Mark>, OutOfMemory>
    requires slots { AreSlots (lists_of table.now) }
    ensures { IfOk result (λ marks. marks.items ≡ marks_over (lists_of table.now) rest.now) }
{
    let mut out = Vec::new(table.alloc);
    push_rows(table, &mut out)?;
    push_over(rest, &mut out)?;
    push_stays(table, &mut out)?;
    Ok(out)
}

// The path to where these rows are still to join, with the quantity.
fn unfit_path(table: &Table, rest: &[Row], quantity: Quantity) -> Result<UnfitPath, OutOfMemory>
    requires slots { AreSlots (lists_of table.now) }
    ensures path { IfOk result (λ at. at.path
        ≡ record { dual = false; corner = marks_over (lists_of table.now) rest.now; swaps = [] }) }
    ensures quantity { IfOk result (λ at. at.quantity ≡ quantity) }
{
    let marks = marks_with(table, rest)?;
    let path = Path::of(table.alloc, false, &marks, &[])?;
    Ok(UnfitPath { path, quantity })
}

/// The stop of a quantity that does not fit where these rows are still to join.
pub fn path_stop(table: &Table, rest: &[Row], stop: TableStop) -> RunStop
    requires slots { AreSlots (lists_of table.now) }
    ensures { IsPathStop (lists_of table.now) rest.now stop result }
{
    let Stop::Refused(quantity) = stop else {
        return RunStop::OutOfMemory;
    };
    match unfit_path(table, rest, quantity) {
        Ok(at) => RunStop::Unfit(at),
        Err(OutOfMemory) => RunStop::OutOfMemory,
    }
}

// Lists a line, unless the slot is a level's or w.
fn list_line(w: u32, line: u32, listed: &mut Listed) -> Result<(), OutOfMemory>
    ensures { OnOk result (IsListedBut w line listed.old listed.new) }
{
    if line >= LEVELS && line != w {
        listed.push(line)?;
    }
    Ok(())
}

/// Lists the outside lines that stand in the row of a slot.
pub fn list_row(table: &Table, w: u32, listed: &mut Listed) -> Result<(), OutOfMemory>
    requires slots { AreSlots (lists_of table.now) }
    requires stored { AreStored (lists_of table.now) }
    requires within { w < length table.now.matrix.rows }
    ensures { OnOk result (IsListedOf w (row_at (lists_of table.now) w) listed.old listed.new) }
{
    for e in table.matrix.row(w).entries() {
        list_line(w, e.col.0 as u32, listed)?;
    }
    Ok(())
}
