// Rows: a relation of a sum of attributes and a constant, with a rank and a weight.
ghost use Rattle.std.specs.Prelude.{◌≡◌, ◌≢◌, ◌<◌, ◌<ℤ◌, pos, nat_abs, length, All, AllPairs, Any};
ghost use Rattle.std.specs.Prelude.{IfOk, IfSome, IfNone};
ghost use Rattle.std.specs.List.{HoldsAt};
ghost use Rattle.problem_core.specs.Kept.{IsRow};
ghost use Rattle.problem_core.specs.Unfit.{at_constant};

use crate::parts::{Rel, Term};
use frac_core::{Frac, OutOfMemory};
use std::alloc::Global;
use std::marker::Model;

/// A row `a1*x1 + .. + an*xn REL c` of whole coefficients, with its number, its rank and its weight.
///
/// The scale is the factor by which the row as written was multiplied to make its coefficients whole: a gap
/// is the left side less the constant, divided by the scale, in points. The rank [`REQUIRED`] is that of a
/// required row, those below it are priorities, and the rank 0 is that of a probe.
#[derive(Clone, Debug, Drop)]
pub struct Row {
    id: u32,
    rank: u16,
    weight: u16,
    rel: Rel,
    scale: i64,
    constant: Frac,
    terms: Vec<Term>,
}

impl Model for Row {
    ghost use Rattle.std.specs.Prelude.{◌<ℤ◌, pos};
    ghost use Rattle.problem_core.specs.Layout as layout;
    ghost use Rattle.problem_core.specs.Kept.{IsRow};

    ghost Value = { layout.Row };

    ghost use Rattle.problem_core.specs.Fields.{row_of};

    ghost view = { row_of };

    ghost invariant = { λ r. (pos 0 <ℤ r.scale) × IsRow (row_of r) };
}

impl Row {
    /// The row with just these parts, which `IsRow` limits. They come one by one, since a type that holds all
    /// eight would be the row once more.
    pub fn of(
        alloc: Global,
        id: u32,
        rank: u16,
        weight: u16,
        rel: Rel,
        scale: i64,
        constant: Frac,
        terms: &[Term],
    ) -> Result<Row, OutOfMemory>
        requires scale { pos 0 <ℤ scale }
        requires row { IsRow (record {
          id = id;
          rank = rank;
          weight = weight;
          rel = rel;
          scale = nat_abs scale;
          constant = constant;
          terms = terms.now;
        }) }
        ensures { IfOk result (λ r. r ≡ record {
          id = id;
          rank = rank;
          weight = weight;
          rel = rel;
          scale = nat_abs scale;
          constant = constant;
          terms = terms.now;
        }) }
    {
        Ok(Row {
            id,
            rank,
            weight,
            rel,
            scale,
            constant,
            terms: Vec::from_slice(alloc, terms)?,
        })
    }

    /// The row with another constant.
    pub fn with_constant(&self, alloc: Global, constant: Frac) -> Result<Row, OutOfMemory>
        ensures { IfOk result (λ r. r ≡ at_constant constant self.now) }
    {
        self.show_row(); // for the proof: what a row keeps
        let _den = constant.den(); // for the proof: what a fraction keeps
        Row::of(
            alloc,
            self.id(),
            self.rank(),
            self.weight(),
            self.rel(),
            self.scale(),
            constant,
            self.terms(),
        )
    }

    /// The number, from 1 to [`NUMBER_LIMIT`](crate::NUMBER_LIMIT).
    pub fn id(&self) -> u32
        ensures { result ≡ self.now.id }
    {
        self.id
    }

    /// The rank, at most [`REQUIRED`](crate::REQUIRED).
    pub fn rank(&self) -> u16
        ensures { result ≡ self.now.rank }
    {
        self.rank
    }

    /// The weight, from 1 to [`WEIGHT_LIMIT`](crate::WEIGHT_LIMIT).
    pub fn weight(&self) -> u16
        ensures { result ≡ self.now.weight }
    {
        self.weight
    }

    /// The relation of the sum to the constant.
    pub fn rel(&self) -> Rel
        ensures { result ≡ self.now.rel }
    {
        self.rel
    }

    /// The scale, from 1 to [`COEFFICIENT_LIMIT`](crate::COEFFICIENT_LIMIT).
    pub fn scale(&self) -> i64
        ensures { result ≡ pos self.now.scale }
    {
        self.scale
    }

    /// The constant, in points.
    pub fn constant(&self) -> Frac
        ensures { result ≡ self.now.constant }
    {
        self.constant
    }

    /// The terms, by rising attribute.
    pub fn terms(&self) -> &[Term]
        ensures { result.now ≡ self.now.terms }
    {
        &self.terms
    }

    /// Shows what each row keeps.
    pub fn show_row(&self)
        ensures { IsRow self.now }
    {
        let _ = &self.id; // for the proof: what a row keeps
    }
}

/// The place of the row of this number, found by halving.
pub fn row_place(rows: &[Row], id: u32) -> Option<usize>
    requires { AllPairs (λ r s. r.id < s.id) rows.now }
    ensures within { IfSome result (λ i. i < length rows.now) }
    ensures found { IfSome result (HoldsAt (λ r. r.id ≡ id) rows.now) }
    ensures absent { IfNone result (All (λ r. r.id ≢ id) rows.now) }
{
    rows.binary_search_by_key(&id, |row| row.id()).ok()
}

/// The row of this number, found by halving.
pub fn row_of(rows: &[Row], id: u32) -> Option<&Row>
    requires { AllPairs (λ r s. r.id < s.id) rows.now }
    ensures some { IfSome result (λ held. (held.now.id ≡ id) × Any (λ r. r ≡ held.now) rows.now) }
    ensures none { IfNone result (Any (λ r. r.id ≡ id) rows.now → ⊥) }
{
    let place = row_place(rows, id)?;
    Some(&rows[place])
}
