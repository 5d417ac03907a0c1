// The text of claims.
ghost use Rattle.std.specs.Prelude.{◌≡◌, ◌++◌, ◌∷◌, [], IfOk, OnErr, string_bytes, map};
ghost use Rattle.span_text.specs.Bytes.{newline};
ghost use Rattle.claim_writing.specs.Texts.{Adds};
ghost use Rattle.claim_writing.specs.ClaimLines.{value_line, level_line, by_line};
ghost use Rattle.claim_writing.specs.Names.{row_word, level_word};
ghost use Rattle.claim_writing.specs.ClaimLines.{level_lines, lines_of_levels, best_lines};
ghost use Rattle.claim_writing.specs.ClaimLines.{bys_text, conflict_lines, values_text};
ghost use Rattle.claim_writing.specs.Lines.{text_of_lines};
ghost use Rattle.claim_writing.specs.ClaimLines.{claim_text};

use crate::claim::Claim;
use crate::claim::path_writer::path_claim_text;
use crate::problem::line_writers::put_fraction;
use cert_core::{Best, BestLevel, By, Conflict};
use frac_core::{Frac, OutOfMemory};
use problem_core::{Level, RowName, Values};
use std::alloc::Global;

/// Appends the name of a row: its number, or that of a stay's attribute behind an `s`.
pub(crate) fn put_row_name(text: &mut String, row: RowName) -> Result<(), OutOfMemory>
    ensures { IfOk result (λ _. Adds text.old text.new (row_word row)) }
{
    match row {
        RowName::Held(id) => write!(text, "{id}")?,
        RowName::Stay(attr) => write!(text, "s{attr}")?,
    }
    Ok(())
}

/// Appends the name of a level: its rank, or the number of a stay's attribute behind an `s`.
pub(crate) fn put_level_name(text: &mut String, level: Level) -> Result<(), OutOfMemory>
    ensures { IfOk result (λ _. Adds text.old text.new (level_word level)) }
{
    match level {
        Level::Priority(rank) => write!(text, "{rank}")?,
        Level::Stay(attr) => write!(text, "s{attr}")?,
    }
    Ok(())
}

fn put_value(text: &mut String, pair: &(u32, Frac)) -> Result<(), OutOfMemory>
    ensures { IfOk result (λ _. Adds text.old text.new (value_line pair.now ++ newline ∷ [])) }
{
    let attr = pair.0;
    let value = pair.1;
    write!(text, "value {attr} ")?;
    put_fraction(text, value)?;
    writeln!(text)?;
    Ok(())
}

fn put_by(text: &mut String, by: &By) -> Result<(), OutOfMemory>
    ensures { IfOk result (λ _. Adds text.old text.new (by_line by.now ++ newline ∷ [])) }
{
    let times = by.times;
    write!(text, "by {times} row ")?;
    put_row_name(text, by.row)?;
    writeln!(text)?;
    Ok(())
}

fn put_level(text: &mut String, level: Level, scale: i64) -> Result<(), OutOfMemory>
    ensures { IfOk result (λ _. Adds text.old text.new
        (level_line (record { level = level; scale = scale }) ++ newline ∷ [])) }
{
    write!(text, "level ")?;
    put_level_name(text, level)?;
    writeln!(text, " {scale}")?;
    Ok(())
}

fn put_bys(text: &mut String, bys: &[By]) -> Result<(), OutOfMemory>
    ensures { IfOk result (λ _. Adds text.old text.new (text_of_lines (map by_line bys.now))) }
{
    for by in bys {
        put_by(text, by)?;
    }
    Ok(())
}

fn put_values(text: &mut String, values: &[(u32, Frac)]) -> Result<(), OutOfMemory>
    ensures { IfOk result (λ _. Adds text.old text.new (text_of_lines (map value_line values.now))) }
{
    for pair in values {
        put_value(text, pair)?;
    }
    Ok(())
}

// The line of a level, and those of its multipliers.
fn put_whole_level(text: &mut String, level: &BestLevel) -> Result<(), OutOfMemory>
    ensures { IfOk result (λ _. Adds text.old text.new (text_of_lines (level_lines level.now))) }
{
    put_level(text, level.level(), level.scale())?;
    put_bys(text, level.by())
}

fn put_levels(text: &mut String, levels: &[BestLevel]) -> Result<(), OutOfMemory>
    ensures { IfOk result (λ _. Adds text.old text.new (text_of_lines (lines_of_levels levels.now))) }
{
    for level in levels {
        put_whole_level(text, level)?;
    }
    Ok(())
}

fn put_best(text: &mut String, values: &Values, best: &Best) -> Result<(), OutOfMemory>
    ensures { IfOk result (λ _. Adds text.old text.new (text_of_lines (best_lines values.now best.now))) }
{
    put_values(text, values.pairs())?;
    writeln!(text, "best")?;
    put_levels(text, best.levels())
}

fn put_conflict(text: &mut String, conflict: &Conflict) -> Result<(), OutOfMemory>
    ensures { IfOk result (λ _. Adds text.old text.new (text_of_lines (conflict_lines conflict.now))) }
{
    writeln!(text, "conflict")?;
    put_bys(text, conflict.by())
}

// The text of multipliers, apart.
fn bys_apart(alloc: Global, bys: &[By]) -> Result<String, OutOfMemory>
    ensures { IfOk result (λ text. string_bytes text ≡ bys_text bys.now) }
{
    let mut text = String::new(alloc);
    put_bys(&mut text, bys)?;
    Ok(text)
}

// The text of values, apart.
fn values_apart(alloc: Global, values: &Values) -> Result<String, OutOfMemory>
    ensures { IfOk result (λ text. string_bytes text ≡ values_text values.now) }
{
    let mut text = String::new(alloc);
    put_values(&mut text, values.pairs())?;
    Ok(text)
}

// The text of a conflict, apart.
fn conflict_apart(alloc: Global, conflict: &Conflict) -> Result<String, OutOfMemory>
    ensures { IfOk result (λ text. string_bytes text ≡ text_of_lines (conflict_lines conflict.now)) }
{
    let mut text = String::new(alloc);
    put_conflict(&mut text, conflict)?;
    Ok(text)
}

// The text of values with a certificate, apart.
fn best_apart(alloc: Global, values: &Values, best: &Best) -> Result<String, OutOfMemory>
    ensures { IfOk result (λ text. string_bytes text ≡ text_of_lines (best_lines values.now best.now)) }
{
    let mut text = String::new(alloc);
    put_best(&mut text, values, best)?;
    Ok(text)
}

/// Appends the lines of multipliers. After want of memory nothing was appended.
pub fn bys_text(bys: &[By], out: &mut Vec<u8>) -> Result<(), OutOfMemory>
    ensures written { IfOk result (λ _. out.new.items ≡ out.old.items ++ bys_text bys.now) }
    ensures unchanged { OnErr result (out.new.items ≡ out.old.items) }
{
    let text = bys_apart(*out.allocator(), bys)?;
    Ok(out.extend_from_slice(text.as_bytes())?)
}

/// Appends the lines of values. After want of memory nothing was appended.
pub fn values_text(values: &Values, out: &mut Vec<u8>) -> Result<(), OutOfMemory>
    ensures written { IfOk result (λ _. out.new.items ≡ out.old.items ++ values_text values.now) }
    ensures unchanged { OnErr result (out.new.items ≡ out.old.items) }
{
    let text = values_apart(*out.allocator(), values)?;
    Ok(out.extend_from_slice(text.as_bytes())?)
}

/// Appends the lines of a conflict. After want of memory nothing was appended.
pub fn conflict_text(conflict: &Conflict, out: &mut Vec<u8>) -> Result<(), OutOfMemory>
    ensures written { IfOk result
        (λ _. out.new.items ≡ out.old.items ++ text_of_lines (conflict_lines conflict.now)) }
    ensures unchanged { OnErr result (out.new.items ≡ out.old.items) }
{
    let text = conflict_apart(*out.allocator(), conflict)?;
    Ok(out.extend_from_slice(text.as_bytes())?)
}

/// Appends the lines of values with a certificate. After want of memory nothing was appended.
pub fn best_text(values: &Values, best: &Best, out: &mut Vec<u8>) -> Result<(), OutOfMemory>
    ensures written { IfOk result
        (λ _. out.new.items ≡ out.old.items ++ text_of_lines (best_lines values.now best.now)) }
    ensures unchanged { OnErr result (out.new.items ≡ out.old.items) }
{
    let text = best_apart(*out.allocator(), values, best)?;
    Ok(out.extend_from_slice(text.as_bytes())?)
}

/// Appends the lines of a claim. After want of memory nothing was appended.
pub fn cert_text(claim: &Claim, out: &mut Vec<u8>) -> Result<(), OutOfMemory>
    ensures written { IfOk result (λ _. out.new.items ≡ out.old.items ++ claim_text claim.now) }
    ensures unchanged { OnErr result (out.new.items ≡ out.old.items) }
{
    match claim {
        Claim::IsBest { values, best } => best_text(values, best, out),
        Claim::IsConflict(conflict) => conflict_text(conflict, out),
        Claim::IsPath { path, unfit } => path_claim_text(path, *unfit, out),
    }
}
