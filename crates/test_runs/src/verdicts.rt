// What the checker says of the claims that answers print.
use crate::lines::text_of;
use crate::tested::{Answer, Checker, Kind};
use edge_io::{MemorySink, MemorySource};
use frac_core::OutOfMemory;
use std::alloc::Global;
use test_text::put_text;

/// A problem and a claim behind it, which the checker reads.
pub trait Claimed {
    /// Appends both.
    fn push(&self, text: &mut String) -> Result<(), OutOfMemory>;
}

// The text of both.
fn claim_text<C: Claimed>(alloc: Global, claimed: &C) -> Result<String, OutOfMemory> {
    let mut text = String::new(alloc);
    claimed.push(&mut text)?;
    Ok(text)
}

// The source of both.
fn source_of<C: Claimed>(alloc: Global, claimed: &C) -> Result<MemorySource, OutOfMemory> {
    let text = claim_text(alloc, claimed)?.into_bytes();
    Ok(MemorySource::new(text, Vec::new(alloc), Vec::new(alloc)))
}

fn put_checked<P: Checker>(
    alloc: Global,
    out: &mut String,
    source: &mut MemorySource,
) -> Result<(), OutOfMemory> {
    let mut sink = MemorySink::new(alloc, 100, Vec::new(alloc))?;
    P::check(alloc, source, &mut sink);
    put_text(out, sink.bytes())
}

/// Appends what the checker says of a problem and a claim.
pub fn put_verdict_of<P: Checker, C: Claimed>(
    alloc: Global,
    out: &mut String,
    claimed: &C,
) -> Result<(), OutOfMemory> {
    let mut source = source_of(alloc, claimed)?;
    put_checked::<P>(alloc, out, &mut source)
}

// Whether the checker says yes to a problem and a claim.
fn says_yes<P: Checker, C: Claimed>(alloc: Global, claimed: &C) -> Result<bool, OutOfMemory> {
    let mut verdict = String::new(alloc);
    put_verdict_of::<P, C>(alloc, &mut verdict, claimed)?;
    Ok(verdict.as_str() == "yes\n")
}

// Multipliers, behind the problem that they speak of.
#[derive(Clone, Copy)]
struct Multipliers<'a> {
    problem: &'a str,
    claim: &'a str,
}

impl Claimed for Multipliers<'_> {
    fn push(&self, text: &mut String) -> Result<(), OutOfMemory> {
        text.push_str(self.problem)?;
        Ok(text.push_str(self.claim)?)
    }
}

// The multipliers of an answer, if it prints any: a certificate stands with its own problem, a conflict
// speaks of that of its step.
fn multipliers_of<'a>(problem: &'a [u8], answer: &'a Answer) -> Option<Multipliers<'a>> {
    let text = text_of(&answer.text);
    match answer.kind {
        Kind::Certificate => Some(Multipliers {
            problem: "",
            claim: text,
        }),
        Kind::Conflict => Some(Multipliers {
            problem: text_of(problem),
            claim: text.strip_prefix("refused 6 ").unwrap_or(text),
        }),
        _ => None,
    }
}

/// Appends what the checker says of the multipliers of an answer, where it prints any.
pub fn put_verdict<P: Checker>(
    alloc: Global,
    out: &mut String,
    problem: &[u8],
    answer: &Answer,
) -> Result<(), OutOfMemory> {
    match multipliers_of(problem, answer) {
        Some(claimed) => put_verdict_of::<P, _>(alloc, out, &claimed),
        None => Ok(()),
    }
}

/// Whether the checker says yes to the multipliers of an answer, if it prints any.
pub fn is_yes<P: Checker>(
    alloc: Global,
    problem: &[u8],
    answer: &Answer,
) -> Result<Option<bool>, OutOfMemory> {
    match multipliers_of(problem, answer) {
        Some(claimed) => Ok(Some(says_yes::<P, _>(alloc, &claimed)?)),
        None => Ok(None),
    }
}
