// The words of the terms of a row.
ghost use Rattle.std.specs.Prelude.{◌≡◌, ◌<◌, ◌++◌, ◌∷◌, [], All, List, IfOk, IfSome, IfNone, IsTrue};
ghost use Rattle.std.specs.Prelude.{◌↔◌, decimal, map};
ghost use Rattle.std.specs.Fmt.{signed_decimal};
ghost use Rattle.problem_core.specs.Kept.{IsTerm};
ghost use Rattle.problem_core.specs.declared.parts.Term.{Term};
ghost use Rattle.claim_writing.specs.Lines.{term_word};
ghost use Rattle.problem_reading.specs.RowParts.{AreTerms};

use crate::numbers::{integer, natural};
use crate::words::{Words, first_part};
use frac_core::OutOfMemory;
use problem_core::{COEFFICIENT_LIMIT, NUMBER_LIMIT, TERM_LIMIT, Term};
use std::alloc::Global;

// The term of an attribute and a coefficient.
fn product(attr: &[u8], by: &[u8]) -> Option<Term>
    ensures some { IfSome result (λ t. IsTerm t × (attr.now ≡ decimal t.attr)
        × (by.now ≡ signed_decimal t.by)) }
    ensures none { IfNone result ((t : Term) → IsTerm t → attr.now ≡ decimal t.attr
        → by.now ≡ signed_decimal t.by → ⊥) }
{
    let attr = natural(attr, 1, NUMBER_LIMIT as u64)?;
    let by = integer(by, COEFFICIENT_LIMIT)?;
    if by == 0 {
        None
    } else {
        Some(Term {
            attr: attr as u32,
            by,
        })
    }
}

fn term(word: &[u8]) -> Option<Term>
    ensures some { IfSome result (λ t. IsTerm t × (word.now ≡ term_word t)) }
    ensures none { IfNone result ((t : Term) → IsTerm t → word.now ≡ term_word t → ⊥) }
{
    let cut = first_part(word, b':');
    product(cut.part, cut.rest?)
}

// Whether the attribute is above those of all these terms.
fn is_above(terms: &[Term], attr: u32) -> bool
    ensures { IsTrue result ↔ All (λ t. t.attr < attr) terms.now }
{
    terms.iter().all(|t| t.attr < attr)
}

// The term of a word that may follow these terms.
fn next_term(terms: &[Term], word: &[u8]) -> Option<Term>
    requires { AreTerms terms.now }
    ensures some { IfSome result (λ t. AreTerms (terms.now ++ t ∷ []) × (word.now ≡ term_word t)) }
    ensures none { IfNone result ((t : Term) → AreTerms (terms.now ++ t ∷ []) → word.now ≡ term_word t → ⊥) }
{
    if terms.len() == TERM_LIMIT {
        return None;
    }
    let term = term(word)?;
    if is_above(terms, term.attr) {
        Some(term)
    } else {
        None
    }
}

/// The terms that the words say.
pub(crate) fn read_terms(alloc: Global, words: &mut Words) -> Result<Option<Vec<Term>>, OutOfMemory>
    ensures some { IfOk result (λ found. IfSome found (λ v. AreTerms v.items
        × (words.old ≡ map term_word v.items))) }
    ensures none { IfOk result (λ found. IfNone found ((ts : List Term) → AreTerms ts
        → words.old ≡ map term_word ts → ⊥)) }
{
    let mut terms = Vec::new(alloc);
    while let Some(word) = words.next() {
        let Some(term) = next_term(&terms, word) else {
            return Ok(None);
        };
        terms.push(term)?;
    }
    Ok(Some(terms))
}
