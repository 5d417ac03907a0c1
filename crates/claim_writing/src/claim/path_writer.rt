// The text of paths, and of quantities that don't fit.
ghost use Rattle.std.specs.Prelude.{◌≡◌, ◌++◌, ◌∷◌, [], IfOk, OnErr, string_bytes, map};
ghost use Rattle.problem_core.specs.declared.stops.Quantity.TheVariants.{Terms, Rows, Shifts};
ghost use Rattle.span_text.specs.Bytes.{newline};
ghost use Rattle.claim_writing.specs.Texts.{Adds};
ghost use Rattle.claim_writing.specs.Lines.{text_of_lines};
ghost use Rattle.claim_writing.specs.PathTexts.{mark_text, in_line, swap_line, path_text, path_lines};
ghost use Rattle.claim_writing.specs.PathTexts.{unfit_text, unfit_path_text, unfit_lines, kind_words};
ghost use Rattle.claim_writing.specs.PathTexts.{what_text};
ghost use Rattle.claim_writing.specs.PathTexts.{breakpoint_text, quantity_text};
ghost use Rattle.claim_writing.specs.Words.{line_of};

use crate::claim::writer::{put_level_name, put_row_name};
use cert_core::{Path, Swap, UnfitPath};
use frac_core::OutOfMemory;
use problem_core::{Level, Mark, Quantity, Side, What};
use std::alloc::Global;

fn put_mark(text: &mut String, mark: Mark) -> Result<(), OutOfMemory>
    ensures { IfOk result (λ _. Adds text.old text.new (mark_text mark)) }
{
    put_row_name(text, mark.row)?;
    match mark.side {
        Side::Under => write!(text, "-")?,
        Side::Over => write!(text, "+")?,
    }
    Ok(())
}

// Appends the line of a mark inside.
fn put_in(text: &mut String, mark: Mark) -> Result<(), OutOfMemory>
    ensures { IfOk result (λ _. Adds text.old text.new (in_line mark ++ newline ∷ [])) }
{
    write!(text, "in ")?;
    put_mark(text, mark)?;
    writeln!(text)?;
    Ok(())
}

fn put_swap(text: &mut String, swap: Swap) -> Result<(), OutOfMemory>
    ensures { IfOk result (λ _. Adds text.old text.new (swap_line swap ++ newline ∷ [])) }
{
    write!(text, "swap ")?;
    put_mark(text, swap.enter)?;
    write!(text, " ")?;
    put_mark(text, swap.leave)?;
    writeln!(text)?;
    Ok(())
}

// Appends a line for each mark inside.
fn put_corner(text: &mut String, marks: &[Mark]) -> Result<(), OutOfMemory>
    ensures { IfOk result (λ _. Adds text.old text.new (text_of_lines (map in_line marks.now))) }
{
    for mark in marks {
        put_in(text, *mark)?;
    }
    Ok(())
}

fn put_swaps(text: &mut String, swaps: &[Swap]) -> Result<(), OutOfMemory>
    ensures { IfOk result (λ _. Adds text.old text.new (text_of_lines (map swap_line swaps.now))) }
{
    for swap in swaps {
        put_swap(text, *swap)?;
    }
    Ok(())
}

// Appends the first line of a path.
fn put_kind(text: &mut String, dual: bool) -> Result<(), OutOfMemory>
    ensures { IfOk result (λ _. Adds text.old text.new (line_of (kind_words dual) ++ newline ∷ [])) }
{
    if dual {
        writeln!(text, "path dual")?;
    } else {
        writeln!(text, "path primal")?;
    }
    Ok(())
}

fn put_path(text: &mut String, path: &Path) -> Result<(), OutOfMemory>
    ensures { IfOk result (λ _. Adds text.old text.new (path_text path.now)) }
{
    put_kind(text, path.dual())?;
    put_corner(text, path.corner())?;
    put_swaps(text, path.swaps())
}

fn put_what(text: &mut String, what: What) -> Result<(), OutOfMemory>
    ensures { IfOk result (λ _. Adds text.old text.new (what_text what)) }
{
    match what {
        What::Attr(attr) => write!(text, "attr {attr}")?,
        What::Mark(mark) => {
            write!(text, "mark ")?;
            put_mark(text, mark)?;
        }
        What::Level(level) => {
            write!(text, "level ")?;
            put_level_name(text, level)?;
        }
    }
    Ok(())
}

// Appends what is written of a row's first terms.
fn put_terms(text: &mut String, mark: Mark, first: u32) -> Result<(), OutOfMemory>
    ensures { IfOk result (λ _. Adds text.old text.new (quantity_text (Terms mark first))) }
{
    put_what(text, What::Mark(mark))?;
    write!(text, " terms {first}")?;
    Ok(())
}

// Appends what is written of a level's first rows.
fn put_rows(text: &mut String, level: Level, first: u32) -> Result<(), OutOfMemory>
    ensures { IfOk result (λ _. Adds text.old text.new (quantity_text (Rows level first))) }
{
    put_what(text, What::Level(level))?;
    write!(text, " rows {first}")?;
    Ok(())
}

// Appends what is written of the first changed constants.
fn put_shifts(text: &mut String, what: What, first: u32) -> Result<(), OutOfMemory>
    ensures { IfOk result (λ _. Adds text.old text.new (quantity_text (Shifts what first))) }
{
    put_what(text, what)?;
    write!(text, " shifts {first}")?;
    Ok(())
}

// Appends what stands behind `unfit` in the line of a quantity.
fn put_words(text: &mut String, quantity: Quantity) -> Result<(), OutOfMemory>
    ensures { IfOk result (λ _. Adds text.old text.new (quantity_text quantity)) }
{
    match quantity {
        Quantity::Plain(what) => put_what(text, what),
        Quantity::Terms { mark, first } => put_terms(text, mark, first),
        Quantity::Rows { level, first } => put_rows(text, level, first),
        Quantity::Shifts { what, first } => put_shifts(text, what, first),
    }
}

fn put_unfit(text: &mut String, quantity: Quantity) -> Result<(), OutOfMemory>
    ensures { IfOk result (λ _. Adds text.old text.new (unfit_text quantity)) }
{
    write!(text, "unfit ")?;
    put_words(text, quantity)?;
    writeln!(text)?;
    Ok(())
}

// The line of the quantity, if there is one.
fn put_unfit_lines(text: &mut String, unfit: Option<Quantity>) -> Result<(), OutOfMemory>
    ensures { IfOk result (λ _. Adds text.old text.new (text_of_lines (unfit_lines unfit))) }
{
    match unfit {
        Some(quantity) => put_unfit(text, quantity),
        None => Ok(()),
    }
}

// The text of a claim on a path, apart.
fn path_claim_apart(
    alloc: Global,
    path: &Path,
    unfit: Option<Quantity>,
) -> Result<String, OutOfMemory>
    ensures { IfOk result (λ text. string_bytes text
        ≡ text_of_lines (path_lines path.now ++ unfit_lines unfit)) }
{
    let mut text = path_apart(alloc, path)?;
    put_unfit_lines(&mut text, unfit)?;
    Ok(text)
}

/// Appends the lines of a path, and that of the quantity, if there is one. After want of memory nothing was
/// appended.
pub(crate) fn path_claim_text(
    path: &Path,
    unfit: Option<Quantity>,
    out: &mut Vec<u8>,
) -> Result<(), OutOfMemory>
    ensures written { IfOk result (λ _. out.new.items
        ≡ out.old.items ++ text_of_lines (path_lines path.now ++ unfit_lines unfit)) }
    ensures unchanged { OnErr result (out.new.items ≡ out.old.items) }
{
    let text = path_claim_apart(*out.allocator(), path, unfit)?;
    Ok(out.extend_from_slice(text.as_bytes())?)
}

// The text of a path, apart.
fn path_apart(alloc: Global, path: &Path) -> Result<String, OutOfMemory>
    ensures { IfOk result (λ text. string_bytes text ≡ path_text path.now) }
{
    let mut text = String::new(alloc);
    put_path(&mut text, path)?;
    Ok(text)
}

// The text of a path and of a quantity, apart.
fn unfit_apart(alloc: Global, at: &UnfitPath) -> Result<String, OutOfMemory>
    ensures { IfOk result (λ text. string_bytes text ≡ unfit_path_text at.now) }
{
    let mut text = path_apart(alloc, &at.path)?;
    put_unfit(&mut text, at.quantity)?;
    Ok(text)
}

/// Appends the lines of a path: its kind, the marks of its first corner, and its exchanges. After want of
/// memory nothing was appended.
pub fn path_text(path: &Path, out: &mut Vec<u8>) -> Result<(), OutOfMemory>
    ensures written { IfOk result (λ _. out.new.items ≡ out.old.items ++ path_text path.now) }
    ensures unchanged { OnErr result (out.new.items ≡ out.old.items) }
{
    let text = path_apart(*out.allocator(), path)?;
    Ok(out.extend_from_slice(text.as_bytes())?)
}

/// Appends the lines of a path, and that of the quantity that doesn't fit at its last corner. After want of
/// memory nothing was appended.
pub fn unfit_text(at: &UnfitPath, out: &mut Vec<u8>) -> Result<(), OutOfMemory>
    ensures written { IfOk result (λ _. out.new.items ≡ out.old.items ++ unfit_path_text at.now) }
    ensures unchanged { OnErr result (out.new.items ≡ out.old.items) }
{
    let text = unfit_apart(*out.allocator(), at)?;
    Ok(out.extend_from_slice(text.as_bytes())?)
}

// The line of a quantity that doesn't fit, apart.
fn quantity_apart(alloc: Global, quantity: Quantity) -> Result<String, OutOfMemory>
    ensures { IfOk result (λ text. string_bytes text ≡ unfit_text quantity) }
{
    let mut text = String::new(alloc);
    put_unfit(&mut text, quantity)?;
    Ok(text)
}

// The line of a mark whose value is 0 where that doesn't fit, apart.
fn breakpoint_apart(alloc: Global, mark: Mark) -> Result<String, OutOfMemory>
    ensures { IfOk result (λ text. string_bytes text ≡ breakpoint_text mark) }
{
    let mut text = String::new(alloc);
    write!(text, "unfit breakpoint ")?;
    put_mark(&mut text, mark)?;
    writeln!(text)?;
    Ok(text)
}

/// Appends the line of a quantity that doesn't fit. After want of memory nothing was appended.
pub fn quantity_text(quantity: Quantity, out: &mut Vec<u8>) -> Result<(), OutOfMemory>
    ensures written { IfOk result (λ _. out.new.items ≡ out.old.items ++ unfit_text quantity) }
    ensures unchanged { OnErr result (out.new.items ≡ out.old.items) }
{
    let text = quantity_apart(*out.allocator(), quantity)?;
    Ok(out.extend_from_slice(text.as_bytes())?)
}

/// Appends the line of a mark whose value is 0 at a constant that doesn't fit. After want of memory nothing
/// was appended.
pub fn breakpoint_text(mark: Mark, out: &mut Vec<u8>) -> Result<(), OutOfMemory>
    ensures written { IfOk result (λ _. out.new.items ≡ out.old.items ++ breakpoint_text mark) }
    ensures unchanged { OnErr result (out.new.items ≡ out.old.items) }
{
    let text = breakpoint_apart(*out.allocator(), mark)?;
    Ok(out.extend_from_slice(text.as_bytes())?)
}
