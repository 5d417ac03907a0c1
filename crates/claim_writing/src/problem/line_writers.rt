// The lines of rows and stays as text.
ghost use Rattle.std.specs.Prelude.{◌++◌, ◌∷◌, [], IfOk, map};
ghost use Rattle.frac_core.specs.Text.{fraction_text};
ghost use Rattle.span_text.specs.Bytes.{newline, space};
ghost use Rattle.claim_writing.specs.Texts.{Adds};
ghost use Rattle.claim_writing.specs.Lines.{term_word, row_line, stay_line, spaced, head_line};

use frac_core::{Frac, OutOfMemory};
use problem_core::{Row, Stay, Term};

/// Appends a fraction, as `p/q` or as `p` where q is 1.
pub(crate) fn put_fraction(text: &mut String, f: Frac) -> Result<(), OutOfMemory>
    ensures { IfOk result (λ _. Adds text.old text.new (fraction_text f)) }
{
    let num = f.num();
    let den = f.den();
    if den == 1 {
        write!(text, "{num}")?;
    } else {
        write!(text, "{num}/{den}")?;
    }
    Ok(())
}

// Appends a term, behind a space.
fn put_term(text: &mut String, term: &Term) -> Result<(), OutOfMemory>
    ensures { IfOk result (λ _. Adds text.old text.new (space ∷ term_word term.now)) }
{
    let attr = term.attr;
    let by = term.by;
    write!(text, " {attr}:{by}")?;
    Ok(())
}

fn put_terms(text: &mut String, terms: &[Term]) -> Result<(), OutOfMemory>
    ensures { IfOk result (λ _. Adds text.old text.new (spaced (map term_word terms.now))) }
{
    for term in terms {
        put_term(text, term)?;
    }
    Ok(())
}

// What stands before the terms of a row.
fn put_head(text: &mut String, row: &Row) -> Result<(), OutOfMemory>
    ensures { IfOk result (λ _. Adds text.old text.new (head_line row.now)) }
{
    let id = row.id();
    let rank = row.rank();
    let weight = row.weight();
    let rel = row.rel().word();
    let scale = row.scale();
    write!(text, "row {id} {rank} {weight} {rel} {scale} ")?;
    put_fraction(text, row.constant())
}

/// Appends the line of a row, with its end.
pub(crate) fn put_row(text: &mut String, row: &Row) -> Result<(), OutOfMemory>
    ensures { IfOk result (λ _. Adds text.old text.new (row_line row.now ++ newline ∷ [])) }
{
    put_head(text, row)?;
    put_terms(text, row.terms())?;
    writeln!(text)?;
    Ok(())
}

/// Appends the line of a stay, with its end.
pub(crate) fn put_stay(text: &mut String, stay: &Stay) -> Result<(), OutOfMemory>
    ensures { IfOk result (λ _. Adds text.old text.new (stay_line stay.now ++ newline ∷ [])) }
{
    let attr = stay.attr;
    write!(text, "stay {attr} ")?;
    put_fraction(text, stay.target)?;
    writeln!(text)?;
    Ok(())
}
