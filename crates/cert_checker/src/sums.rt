// Sums of rows, each times its multiplier, by attribute.
ghost use Rattle.std.specs.Prelude.{◌≡◌, ℕ, ◌+◌, ◌*◌, ◌^◌, ◌<◌, ◌≤◌, ◌↔◌, length, pos, ◌+ℤ◌, ◌*ℤ◌, All};
ghost use Rattle.std.specs.Prelude.{IsTrue, IfOk, OnOk, unsigned_abs};
ghost use Rattle.std.specs.Ordering.{nat_cmp};
ghost use Rattle.std.specs.BTreeMap.{IsOrdered, values};
ghost use Rattle.frac_core.specs.Fraction.{IsFitting};
ghost use Rattle.problem_core.specs.declared.limits.TheConstants.{ROW_LIMIT, TERM_LIMIT};
ghost use Rattle.problem_core.specs.Layout.{coefficient, sum_of};
ghost use Rattle.cert_checker.specs.LineSums.{sum_at, form_at, line_count, IsAdded, IsSmall};

use crate::arithmetic::{product, total};
use frac_core::OutOfMemory;
use problem_core::{Problem, Term};
use std::alloc::Global;
use std::collections::BTreeMap;

/// A line of the problem, rows before stays, by its place among them, and its multiplier.
#[derive(Clone, Copy)]
pub struct Weighted {
    pub at: usize,
    pub times: i64,
}

// Adds a number to the sum of an attribute.
fn add(sums: &mut BTreeMap<u32, i128>, attr: u32, more: i128) -> Result<(), OutOfMemory>
    requires sum { unsigned_abs (sum_at sums.old attr) < 2 ^ 126 }
    requires more { unsigned_abs more < 2 ^ 126 }
    ensures { OnOk result (IsAdded sums.old sums.new attr more) }
{
    let sum = sums.get(&attr).copied().unwrap_or(0);
    sums.insert(attr, total(sum, more))?;
    Ok(())
}

// Adds the terms, each times `times`, to the sums of their attributes.
fn add_terms(sums: &mut BTreeMap<u32, i128>, terms: &[Term], times: i64) -> Result<(), OutOfMemory>
    requires times { IsFitting times }
    requires terms { All IsSmall terms.now }
    requires count { length terms.now ≤ TERM_LIMIT }
    requires room { (v : ℕ) → unsigned_abs (sum_at sums.old v) < 2 ^ 110 }
    ensures sums { OnOk result ((v : ℕ) → sum_at sums.new v
        ≡ sum_at sums.old v +ℤ times *ℤ coefficient v terms.now) }
    ensures room { OnOk result ((v : ℕ) → unsigned_abs (sum_at sums.new v)
        ≤ unsigned_abs (sum_at sums.old v) + 2 ^ 89) }
{
    for term in terms {
        add(sums, term.attr, product(times, term.by))?;
    }
    Ok(())
}

// Adds the line's form, each term times `times`, to the sums of its attributes.
fn add_line(
    sums: &mut BTreeMap<u32, i128>,
    p: &Problem,
    at: usize,
    times: i64,
) -> Result<(), OutOfMemory>
    requires at { at < line_count p.now }
    requires times { IsFitting times }
    requires room { (v : ℕ) → unsigned_abs (sum_at sums.old v) < 2 ^ 110 }
    ensures sums { OnOk result ((v : ℕ) → sum_at sums.new v
        ≡ sum_at sums.old v +ℤ times *ℤ coefficient v (form_at p.now at)) }
    ensures room { OnOk result ((v : ℕ) → unsigned_abs (sum_at sums.new v)
        ≤ unsigned_abs (sum_at sums.old v) + 2 ^ 89) }
{
    p.show_whole(); // for the proof: what a problem keeps
    let rows = p.rows();
    if at < rows.len() {
        let row = &rows[at];
        return add_terms(sums, row.terms(), times);
    }
    let stay = p.stays()[at - rows.len()];
    add_terms(
        sums,
        &[Term {
            attr: stay.attr,
            by: 1,
        }],
        times,
    )
}

// Whether each sum is 0.
fn are_zero(sums: &BTreeMap<u32, i128>) -> bool
    ensures all { IsTrue result ↔ All (λ s. s ≡ pos 0) (values sums.now) }
    ensures ordered { IsOrdered nat_cmp sums.now }
{
    sums.values().all(|sum| *sum == 0)
}

/// Whether the lines, each times its multiplier, cancel at each attribute.
pub(crate) fn cancel(alloc: Global, p: &Problem, weighted: &[Weighted]) -> Result<bool, OutOfMemory>
    requires weighted { All (λ w. (w.at < line_count p.now) × IsFitting w.times) weighted.now }
    requires count { length weighted.now ≤ 2 * ROW_LIMIT }
    ensures { IfOk result (λ yes. IsTrue yes ↔ ((v : ℕ)
        → sum_of (λ w. w.times *ℤ coefficient v (form_at p.now w.at)) weighted.now ≡ pos 0)) }
{
    let mut sums = BTreeMap::new(alloc);
    for line in weighted {
        add_line(&mut sums, p, line.at, line.times)?;
    }
    Ok(are_zero(&sums))
}
