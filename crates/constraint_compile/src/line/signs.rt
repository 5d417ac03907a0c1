// The terms of both sides of a line, brought to one side.
ghost use Rattle.std.specs.Prelude.{◌≡◌, ◌++◌, map, IfOk};
ghost use Rattle.script_text.specs.View.{term_view, terms_view, linear_view};
ghost use Rattle.compile_parts.specs.Fractions as fractions;
ghost use Rattle.compile_parts.specs.Meaning.{minus, terms_of};

use frac_core::{Frac, OutOfMemory};
use script_text::{ExprTerm, Linear};
use std::alloc::Global;
use std::slice;

/// The fraction with the other sign.
pub fn negated(f: Frac) -> Frac
    ensures { result ≡ fractions.negated f }
{
    match Frac::of(-i128::from(f.num()), i128::from(f.den())) {
        Ok(fraction) => fraction,
        Err(_) => unreachable!(),
    }
}

// The term with the other sign.
fn subtracted<'a>(term: &ExprTerm<'a>) -> ExprTerm<'a>
    ensures { term_view result ≡ minus (term_view term.now) }
{
    ExprTerm {
        by: negated(term.by),
        of: term.of,
    }
}

// Adds each of the terms with the other sign.
fn subtract<'a>(out: &mut Vec<ExprTerm<'a>>, terms: &[ExprTerm<'a>]) -> Result<(), OutOfMemory>
    ensures { IfOk result (λ _. terms_view out.new.items
        ≡ terms_view out.old.items ++ map minus (terms_view terms.now)) }
{
    for term in terms {
        let other = subtracted(term);
        out.extend_from_slice(slice::from_ref(&other))?;
    }
    Ok(())
}

/// The terms of the left side, and then the terms of the right side, subtracted.
pub(crate) fn signed_terms<'a>(
    alloc: Global,
    line: &Linear<'a>,
) -> Result<Vec<ExprTerm<'a>>, OutOfMemory>
    ensures { IfOk result (λ terms. terms_view terms.items ≡ terms_of (linear_view line.now)) }
{
    let mut terms = Vec::with_capacity(alloc, line.left.len() + line.right.len())?;
    terms.extend_from_slice(&line.left)?;
    subtract(&mut terms, &line.right)?;
    Ok(terms)
}
