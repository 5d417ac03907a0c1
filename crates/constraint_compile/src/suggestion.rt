// The row of a suggestion that an attribute of a view has a value.
ghost use Rattle.std.specs.Prelude.{◌≡◌, ◌<◌, ◌≤◌, ◌*ℤ◌, pos, ◌∷◌, [], length, None, All, AllPairs};
ghost use Rattle.std.specs.Prelude.{IfOk, IfErr, OnOk, IfSome, IfNone, OnSome};
ghost use Rattle.frac_core.specs.Fraction.{IsFitting};
ghost use Rattle.problem_core.specs.Kept.{IsTerm};
ghost use Rattle.span_text.specs.Objects.{object_view};
ghost use Rattle.compile_parts.specs.Fractions.{negated, IsConstant, IsSmallConstant};
ghost use Rattle.compile_parts.specs.Shares.{IsAttrSum};
ghost use Rattle.constraint_compile.specs.Suggestions.{priority_or, scale_of, suggested_row, terms_in};
ghost use Rattle.constraint_compile.specs.Suggestions.{with_terms, IsSuggestion};
ghost use Rattle.constraint_compile.specs.Constants.{ConstantsAreAsSaid};

use compile_parts::{AttrSum, Ratio, attr_sum, edge_and_size, small_of};
use frac_core::{Frac, OutOfMemory};
use problem_core::{Rel, Row, Term};
use script_text::{AttrWord, Direction};
use span_text::{Object, UNIT};
use std::alloc::Global;
use view_tree::ViewId;

/// A suggestion that an attribute of a view has a value: the number and the rank of the row, the view's
/// number, the attribute as it is written, the direction in which it is meant, and the row's constant.
#[derive(Clone, Copy)]
pub struct Suggestion {
    pub row: u32,
    pub rank: u16,
    pub view: u32,
    pub word: AttrWord,
    pub direction: Direction,
    pub constant: Frac,
}

/// The rank of a suggestion without a priority.
pub const USUAL_RANK: u16 = 750;

// The number that makes the attribute's halves whole.
fn scale_of(word: AttrWord) -> u8
    ensures value { result ≡ scale_of word }
    ensures few { result ≤ 2 }
    ensures above { 0 < result }
{
    attr_sum(word).scale
}

// The numerator times the attribute's scale.
fn scaled(word: AttrWord, num: i64) -> i128
    requires { IsFitting num }
    ensures { result ≡ pos (scale_of word) *ℤ num }
{
    i128::from(scale_of(word)) * i128::from(num)
}

/// The constant of the row of a suggestion of this value, if both of its parts are below the limit in size.
pub fn suggested_constant(word: AttrWord, value: Frac) -> Option<Frac>
    ensures constant { IfSome result (IsConstant (scale_of word) (negated value)) }
    ensures small { OnSome result (IsSmallConstant (scale_of word) (negated value)) }
    ensures none { IfNone result (IsSmallConstant (scale_of word) (negated value) → ⊥) }
{
    let num = scaled(word, value.num());
    let den = i128::from(value.den());
    small_of(Ratio { num, den })
}

/// The priority, or this usual one if none is written.
pub fn priority_or(priority: Option<Object<'_>>, usual: u16) -> Option<Object<'_>>
    ensures { object_view result ≡ priority_or usual (object_view priority.entry) }
{
    match priority {
        Some(priority) => Some(priority),
        None => Some(Object::Number {
            thousandths: i32::from(usual) * UNIT as i32,
        }),
    }
}

impl Suggestion {
    // The row with these terms.
    fn with_terms(&self, alloc: Global, terms: &[Term]) -> Result<Row, OutOfMemory>
        requires kept { IsSuggestion self.now }
        requires terms { All IsTerm terms.now }
        requires rising { AllPairs (λ s t. s.attr < t.attr) terms.now }
        requires few { length terms.now ≤ 2 }
        ensures { IfOk result (λ row. row ≡ with_terms self.now terms.now) }
    {
        let _den = self.constant.den(); // for the proof: what a fraction keeps
        let scale = i64::from(scale_of(self.word));
        Row::of(
            alloc,
            self.row,
            self.rank,
            1,
            Rel::Eq,
            scale,
            self.constant,
            terms,
        )
    }

    // The row of this sum, in the attributes of its view.
    fn in_terms(&self, alloc: Global, sum: AttrSum) -> Result<Row, OutOfMemory>
        requires kept { IsSuggestion self.now }
        requires sum { IsAttrSum sum }
        ensures { IfOk result (λ row. row ≡ with_terms self.now (terms_in self.now.view sum)) }
    {
        let of = edge_and_size(sum.is_across, ViewId(self.view), sum.edge, sum.size);
        if sum.size == 0 {
            return self.with_terms(alloc, &[of.edge]);
        }
        if sum.edge == 0 {
            return self.with_terms(alloc, &[of.size]);
        }
        self.with_terms(alloc, &[of.edge, of.size])
    }

    /// The row.
    pub fn row(&self, alloc: Global) -> Result<Row, OutOfMemory>
        requires { IsSuggestion self.now }
        ensures { IfOk result (λ row. row ≡ suggested_row self.now) }
    {
        self.in_terms(alloc, attr_sum(self.word.turned(self.direction)))
    }
}

/// The constants that definitions and clauses cite by name are these numbers.
pub fn constants_are_as_said()
    ensures { ConstantsAreAsSaid }
{}
