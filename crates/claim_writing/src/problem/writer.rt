// The text of problems.
ghost use Rattle.std.specs.Prelude.{◌≡◌, ◌++◌, IfOk, OnErr, string_bytes, map};
ghost use Rattle.claim_writing.specs.Texts.{Adds};
ghost use Rattle.claim_writing.specs.Lines.{problem_text, text_of_lines, row_line, stay_line};

use crate::problem::line_writers::{put_row, put_stay};
use frac_core::OutOfMemory;
use problem_core::{Problem, Row, Stay};
use std::alloc::Global;

fn put_rows(text: &mut String, rows: &[Row]) -> Result<(), OutOfMemory>
    ensures { IfOk result (λ _. Adds text.old text.new (text_of_lines (map row_line rows.now))) }
{
    for row in rows {
        put_row(text, row)?;
    }
    Ok(())
}

fn put_stays(text: &mut String, stays: &[Stay]) -> Result<(), OutOfMemory>
    ensures { IfOk result (λ _. Adds text.old text.new (text_of_lines (map stay_line stays.now))) }
{
    for stay in stays {
        put_stay(text, stay)?;
    }
    Ok(())
}

// The text of a problem, apart.
fn text_of(alloc: Global, rows: &[Row], stays: &[Stay]) -> Result<String, OutOfMemory>
    ensures { IfOk result (λ text.
        string_bytes text ≡ problem_text (record { rows = rows.now; stays = stays.now })) }
{
    let mut text = String::new(alloc);
    put_rows(&mut text, rows)?;
    put_stays(&mut text, stays)?;
    Ok(text)
}

/// Appends the lines of the rows and then those of the stays. After want of memory nothing was appended.
pub fn rows_text(rows: &[Row], stays: &[Stay], out: &mut Vec<u8>) -> Result<(), OutOfMemory>
    ensures written { IfOk result (λ _.
        out.new.items ≡ out.old.items ++ problem_text (record { rows = rows.now; stays = stays.now })) }
    ensures unchanged { OnErr result (out.new.items ≡ out.old.items) }
{
    let text = text_of(*out.allocator(), rows, stays)?;
    Ok(out.extend_from_slice(text.as_bytes())?)
}

/// Appends the lines of the rows and then those of the stays. After want of memory nothing was appended.
pub fn problem_text(p: &Problem, out: &mut Vec<u8>) -> Result<(), OutOfMemory>
    ensures written { IfOk result (λ _. out.new.items ≡ out.old.items ++ problem_text p.now) }
    ensures unchanged { OnErr result (out.new.items ≡ out.old.items) }
{
    rows_text(p.rows(), p.stays(), out)
}
