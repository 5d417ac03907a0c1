// The line of a row.
ghost use Rattle.std.specs.Prelude.{◌≡◌, ℕ, ◌++◌, List, IfOk, IfSome, IfNone};
ghost use Rattle.problem_core.specs.Layout as layout;
ghost use Rattle.problem_core.specs.Kept.{IsRow};
ghost use Rattle.problem_reading.specs.Words.{words};
ghost use Rattle.problem_reading.specs.RowParts.{head_words, row_from, IsHead, AreTerms};
ghost use Rattle.claim_writing.specs.Lines.{row_words};
ghost use Rattle.problem_reading.specs.declared.problem.row_lines.Head.{Head};

use crate::fields::{next_fraction, next_is, next_number, next_relation};
use crate::problem::term_words::read_terms;
use crate::words::Words;
use frac_core::{Frac, OutOfMemory};
use problem_core::{COEFFICIENT_LIMIT, NUMBER_LIMIT, REQUIRED, Rel, Row, Term, WEIGHT_LIMIT};
use std::alloc::Global;

// What stands before the terms of a row.
#[derive(Clone, Copy)]
struct Head {
    id: u32,
    rank: u16,
    weight: u16,
    rel: Rel,
    scale: u32,
    constant: Frac,
}

// What the words before the terms say, if they are in the form.
fn read_head(words: &mut Words) -> Option<Head>
    ensures some { IfSome result (λ h. IsHead h × (words.old ≡ head_words h ++ words.new)) }
    ensures none { IfNone result ((h : Head) (more : List (List ℕ)) → IsHead h
        → words.old ≡ head_words h ++ more → ⊥) }
{
    if !next_is(words, b"row") {
        return None;
    }
    let id = next_number(words, 1, NUMBER_LIMIT as u64)?;
    let rank = next_number(words, 0, REQUIRED as u64)?;
    let weight = next_number(words, 1, WEIGHT_LIMIT as u64)?;
    let rel = next_relation(words)?;
    let scale = next_number(words, 1, COEFFICIENT_LIMIT)?;
    let constant = next_fraction(words)?;
    Some(Head {
        id: id as u32,
        rank: rank as u16,
        weight: weight as u16,
        rel,
        scale: scale as u32,
        constant,
    })
}

// The row of these parts.
fn make_row(alloc: Global, head: Head, terms: &[Term]) -> Result<Row, OutOfMemory>
    requires head { IsHead head }
    requires terms { AreTerms terms.now }
    ensures { IfOk result (λ r. r ≡ row_from head terms.now) }
{
    Row::of(
        alloc,
        head.id,
        head.rank,
        head.weight,
        head.rel,
        i64::from(head.scale),
        head.constant,
        terms,
    )
}

/// The row that a line says.
pub(crate) fn read_row(alloc: Global, line: &[u8]) -> Result<Option<Row>, OutOfMemory>
    ensures some { IfOk result (λ found. IfSome found (λ r. IsRow r × (words line.now ≡ row_words r))) }
    ensures none { IfOk result (λ found. IfNone found ((r : layout.Row) → IsRow r
        → words line.now ≡ row_words r → ⊥)) }
{
    let mut words = Words::of(line);
    let Some(head) = read_head(&mut words) else {
        return Ok(None);
    };
    let Some(terms) = read_terms(alloc, &mut words)? else {
        return Ok(None);
    };
    Ok(Some(make_row(alloc, head, &terms)?))
}
