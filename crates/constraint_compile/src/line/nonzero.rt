// Which coefficients of a sum are not 0, whatever their size.
ghost use Rattle.std.specs.Prelude.{◌≡◌, ◌≢◌, ◌≤◌, ◌<◌, ◌+◌, ◌*◌, ◌^◌, ◌+ℤ◌, ◌*ℤ◌, ℕ, pos, unsigned_abs};
ghost use Rattle.std.specs.Prelude.{true, false, length, IsTrue, IfOk, OnOk, All, AllPairs};
ghost use Rattle.problem_core.specs.declared.limits.TheConstants.{TERM_LIMIT};
ghost use Rattle.compile_parts.specs.Fractions.{total};
ghost use Rattle.compile_parts.specs.Addends.{addend_view, addends_view, sum_of, IsKept};
ghost use Rattle.compile_parts.specs.Shares.{IsOff};
ghost use Rattle.constraint_compile.specs.Coefficients.Sums.{HasTooMany};
ghost use Rattle.constraint_compile.specs.Coefficients.Pieces.{piece_value, IsPiece, AreDoubled, HasFound};
ghost use Rattle.compile_parts.specs.declared.limits.TheConstants.{ADDEND_LIMIT};

use crate::line::sums::{double_den, halves, split, times_halves};
use compile_parts::{ADDEND_LIMIT, Addend};
use frac_core::OutOfMemory;
use problem_core::TERM_LIMIT;
use std::alloc::Global;

/// A fraction that need not be in lowest terms.
#[derive(Clone, Copy)]
pub(crate) struct Piece {
    pub num: i64,
    pub den: i64,
}

/// The denominator of a piece is at most 2 to this power: it is twice that of a fraction, or 1.
pub(crate) const DEN_BITS: u32 = 43;

// A sum of pieces, of no more than there may be, that isn't 0 is past their number in size after this many
// doublings.
const ROUNDS: u32 = DEN_BITS * ADDEND_LIMIT as u32 + 8;

// The share of an attribute in an addend.
fn piece_of(addend: &Addend<'_>, attr: u32) -> Piece
    requires { IsKept addend.now }
    ensures value { piece_value result ≡ (addend_view addend.now).share attr }
    ensures kept { IsPiece result }
{
    match addend.share() {
        Some(share) => Piece {
            num: times_halves(share.by.num(), halves(&share.of, attr)),
            den: double_den(share.by),
        },
        None => Piece { num: 0, den: 1 },
    }
}

// The share of the attribute in each addend, in order.
fn pieces_of(alloc: Global, added: &[Addend<'_>], attr: u32) -> Result<Vec<Piece>, OutOfMemory>
    requires { All IsKept added.now }
    ensures total { IfOk result (λ pieces. total piece_value pieces.items
        ≡ sum_of (addends_view added.now) attr) }
    ensures long { IfOk result (λ pieces. length pieces.items ≡ length added.now) }
    ensures kept { IfOk result (λ pieces. All IsPiece pieces.items) }
{
    let mut pieces = Vec::with_capacity(alloc, added.len())?;
    for addend in added {
        pieces.push(piece_of(addend, attr))?;
    }
    Ok(pieces)
}

// Twice a piece: a whole number, and a piece that is at most 1 in size.
#[derive(Clone, Copy)]
struct TwoPieces {
    whole: i64,
    rest: Piece,
}

fn twice(piece: Piece) -> TwoPieces
    requires { IsPiece piece }
    ensures value { result.whole *ℤ piece.den +ℤ result.rest.num ≡ pos 2 *ℤ piece.num }
    ensures den { result.rest.den ≡ piece.den }
    ensures kept { IsPiece result.rest }
    ensures low { unsigned_abs result.rest.num ≤ unsigned_abs result.rest.den }
    ensures small { unsigned_abs result.whole ≤ 2 ^ 45 }
{
    let parts = split(2 * piece.num, piece.den);
    TwoPieces {
        whole: parts.whole,
        rest: Piece {
            num: parts.rest,
            den: piece.den,
        },
    }
}

// Twice a sum of pieces.
#[derive(Drop)]
struct Double {
    whole: i64,
    rests: Vec<Piece>,
}

fn doubled(alloc: Global, pieces: &[Piece]) -> Result<Double, OutOfMemory>
    requires few { length pieces.now ≤ ADDEND_LIMIT }
    requires kept { All IsPiece pieces.now }
    ensures { IfOk result (λ d. AreDoubled pieces.now d.whole d.rests.items) }
{
    let mut whole = 0;
    let mut rests = Vec::with_capacity(alloc, pieces.len())?;
    for piece in pieces {
        let next = twice(*piece);
        whole += next.whole;
        rests.push(next.rest)?;
    }
    Ok(Double { whole, rests })
}

// Twice the whole number, and so many more.
fn twice_with(whole: i64, more: i64) -> i64
    requires whole { unsigned_abs whole ≤ ADDEND_LIMIT }
    requires more { unsigned_abs more ≤ 2 ^ 51 }
    ensures { result ≡ pos 2 *ℤ whole +ℤ more }
{
    2 * whole + more
}

// Whether the whole number is past the greatest number of pieces in size.
fn is_past(whole: i64) -> bool
    ensures yes { IsTrue result → ADDEND_LIMIT < unsigned_abs whole }
    ensures no { result ≡ false → unsigned_abs whole ≤ ADDEND_LIMIT }
{
    whole.unsigned_abs() > ADDEND_LIMIT as u64
}

// Whether a sum is 0. If it is, so are its doubles. Otherwise one of them is past the number of pieces in
// size.
fn is_zero(alloc: Global, pieces: Vec<Piece>) -> Result<bool, OutOfMemory>
    requires few { length pieces.items ≤ ADDEND_LIMIT }
    requires kept { All IsPiece pieces.items }
    ensures yes { IfOk result (λ zero. IsTrue zero → (total piece_value pieces.items).num ≡ pos 0) }
    ensures no { IfOk result (λ zero. zero ≡ false → (total piece_value pieces.items).num ≢ pos 0) }
{
    let mut whole = 0;
    let mut rests = pieces;
    for _round in 0..ROUNDS {
        let next = doubled(alloc, &rests)?;
        whole = twice_with(whole, next.whole);
        rests = next.rests;
        if is_past(whole) {
            return Ok(false);
        }
    }
    Ok(true)
}

// Whether the coefficient of an attribute is 0.
fn is_absent(alloc: Global, added: &[Addend<'_>], attr: u32) -> Result<bool, OutOfMemory>
    requires kept { All IsKept added.now }
    requires few { length added.now ≤ ADDEND_LIMIT }
    ensures yes { IfOk result (λ absent. IsTrue absent
        → (sum_of (addends_view added.now) attr).num ≡ pos 0) }
    ensures no { IfOk result (λ absent. absent ≡ false
        → (sum_of (addends_view added.now) attr).num ≢ pos 0) }
{
    let pieces = pieces_of(alloc, added, attr)?;
    is_zero(alloc, pieces)
}

// Appends the attribute at a place unless its coefficient is 0.
fn keep(
    alloc: Global,
    found: &mut Vec<u32>,
    attrs: &[u32],
    added: &[Addend<'_>],
    place: usize,
) -> Result<(), OutOfMemory>
    requires kept { All IsKept added.now }
    requires few { length added.now ≤ ADDEND_LIMIT }
    requires rising { AllPairs (λ a b. a < b) attrs.now }
    requires place { place < length attrs.now }
    requires found { HasFound (sum_of (addends_view added.now)) attrs.now place found.old.items }
    ensures { OnOk result (HasFound (sum_of (addends_view added.now)) attrs.now (place
        + 1) found.new.items) }
{
    let attr = attrs[place];
    if is_absent(alloc, added, attr)? {
        return Ok(());
    }
    found.push(attr)?;
    Ok(())
}

// The attributes whose coefficients aren't 0.
fn nonzero(alloc: Global, attrs: &[u32], added: &[Addend<'_>]) -> Result<Vec<u32>, OutOfMemory>
    requires kept { All IsKept added.now }
    requires few { length added.now ≤ ADDEND_LIMIT }
    requires rising { AllPairs (λ a b. a < b) attrs.now }
    ensures { IfOk result (λ found. HasFound (sum_of (addends_view added.now)) attrs.now
        (length attrs.now) found.items) }
{
    let mut found = Vec::new(alloc);
    for place in 0..attrs.len() {
        keep(alloc, &mut found, attrs, added, place)?;
    }
    Ok(found)
}

// Whether there are more attributes than a row may have terms. If not, no more of them have coefficients.
fn may_be_many(attrs: &[u32]) -> bool
    ensures no { result ≡ false → length attrs.now ≤ TERM_LIMIT }
{
    attrs.len() > TERM_LIMIT
}

/// Whether more attributes than a row may have terms have coefficients that aren't 0 in the sum.
pub(crate) fn has_too_many(
    alloc: Global,
    attrs: &[u32],
    added: &[Addend<'_>],
) -> Result<bool, OutOfMemory>
    requires kept { All IsKept added.now }
    requires few { length added.now ≤ ADDEND_LIMIT }
    requires rising { AllPairs (λ a b. a < b) attrs.now }
    requires off { (v : ℕ) → IsOff attrs.now v → All (λ a. ((addend_view a).share v).num ≡ pos 0) added.now }
    ensures yes { IfOk result (λ many. IsTrue many
        → HasTooMany (sum_of (addends_view added.now))) }
    ensures no { IfOk result (λ many. many ≡ false → HasTooMany (sum_of (addends_view added.now))
        → ⊥) }
{
    if !may_be_many(attrs) {
        return Ok(false);
    }
    let found = nonzero(alloc, attrs, added)?;
    Ok(found.len() > TERM_LIMIT)
}
