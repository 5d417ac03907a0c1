// The order of sums where a route begins: rows' sums by number, and then levels' sums, strongest first.
ghost use Rattle.std.specs.Prelude.{◌≡◌, ◌↔◌, ◌+◌, ◌<◌, ◌≤◌, ℕ, length, get_or, All};
ghost use Rattle.std.specs.Prelude.{IfSome, IfNone, IsTrue, Some, false};
ghost use Rattle.problem_core.specs.declared.limits.TheConstants.{REQUIRED};
ghost use Rattle.problem_core.specs.declared.parts.Level.TheVariants.{Priority, Stay as StayLevel};
ghost use Rattle.problem_core.specs.Layout.{Row};
ghost use Rattle.problem_core.specs.Levels.{IsLevelAt};
ghost use Rattle.problem_core.specs.Unfit.{over_mark};
ghost use Rattle.path_lines.specs.Room.{IsSumOf};
ghost use Rattle.path_claims.specs.PathClauses.{row_of_terms};
ghost use Rattle.path_claims.specs.Orders.{IsFirstOf, IsFitBefore, IsJudgedTo, IsSumAt, IsSizeOf, Precedes};

use path_fits::Fit;
use path_lines::stay_of;
use problem_core::{
    FIRST_STAY_LEVEL, Level, Mark, Problem, Quantity, REQUIRED, Row, RowName, Side,
};

/// The place of a sum in the order: the number of its row or level, and how many terms or rows it sums.
#[derive(Clone, Copy)]
pub struct SumAt {
    pub is_rows: bool,
    pub at: u32,
    pub first: u32,
}

// The number of the row whose over mark this is.
fn row_number(mark: Mark) -> Option<u32>
    ensures some { IfSome result (λ id. mark ≡ over_mark id) }
    ensures none { IfNone result ((id : ℕ) → mark ≡ over_mark id → ⊥) }
{
    match (mark.row, mark.side) {
        (RowName::Held(id), Side::Over) => Some(id),
        _ => None,
    }
}

// The number of a priority's level.
fn priority_number(rank: u16) -> Option<u32>
    ensures some { IfSome result (λ k. k + rank ≡ REQUIRED) }
    ensures none { IfNone result ((k : ℕ) → k + rank ≡ REQUIRED → ⊥) }
{
    if rank > REQUIRED {
        return None;
    }
    Some(u32::from(REQUIRED - rank))
}

// The number of the level of an attribute's stay.
fn stay_number(p: &Problem, attr: u32) -> Option<u32>
    ensures some { IfSome result (IsLevelAt p.now (StayLevel attr)) }
    ensures none { IfNone result ((k : ℕ) → IsLevelAt p.now (StayLevel attr) k → ⊥) }
{
    p.show_whole(); // for the proof: what a problem keeps
    let at = stay_of(p.stays(), attr)?;
    Some(FIRST_STAY_LEVEL + at as u32)
}

// The number of a level.
fn level_number(p: &Problem, level: Level) -> Option<u32>
    ensures some { IfSome result (IsLevelAt p.now level) }
    ensures none { IfNone result ((k : ℕ) → IsLevelAt p.now level k → ⊥) }
{
    match level {
        Level::Priority(rank) => priority_number(rank),
        Level::Stay(attr) => stay_number(p, attr),
    }
}

// The place of a sum in the order, unless it is none of the problem's.
fn sum_at(p: &Problem, sum: Quantity) -> Option<SumAt>
    ensures some { IfSome result (IsSumAt p.now sum) }
    ensures none { IfNone result (IsSumOf p.now sum → ⊥) }
{
    match sum {
        Quantity::Terms { mark, first } => {
            let at = row_number(mark)?;
            let is_rows = false;
            Some(SumAt { is_rows, at, first })
        }
        Quantity::Rows { level, first } => {
            let at = level_number(p, level)?;
            let is_rows = true;
            Some(SumAt { is_rows, at, first })
        }
        _ => None,
    }
}

// Whether a sum comes before another.
fn is_before(a: SumAt, b: SumAt) -> bool
    ensures { IsTrue result ↔ Precedes a b }
{
    if a.is_rows != b.is_rows {
        return b.is_rows;
    }
    if a.at != b.at {
        return a.at < b.at;
    }
    a.first < b.first
}

// Whether so many first terms with this mark are a sum of the row's.
fn is_first_of(r: &Row, mark: Mark, first: u32) -> bool
    ensures { result ≡ false → IsFirstOf mark first r.now → ⊥ }
{
    r.show_row(); // for the proof: what a row keeps
    let row = RowName::Held(r.id());
    let side = Side::Over;
    mark == Mark { row, side } && first >= 1 && first as usize <= r.terms().len() + 1
}

// Whether they are a sum of some row's.
fn is_terms_sum(rows: &[Row], mark: Mark, first: u32) -> bool
    ensures { result ≡ false → All (λ r. IsFirstOf mark first r → ⊥) rows.now }
{
    rows.iter().any(|r| is_first_of(r, mark, first))
}

// How many rows have this rank.
fn rank_count(p: &Problem, rank: u16) -> usize
    ensures { IsSizeOf p.now (Priority rank) result }
{
    p.show_whole(); // for the proof: what a problem keeps
    let mut count = 0;
    for r in p.rows() {
        if r.rank() == rank {
            count += 1;
        }
    }
    count
}

// How many lines a level has.
fn level_size(p: &Problem, level: Level) -> usize
    ensures { IsSizeOf p.now level result }
{
    match level {
        Level::Priority(rank) => rank_count(p, rank),
        Level::Stay(_) => 1,
    }
}

// Whether the quantity is a sum of the problem's.
fn is_sum(p: &Problem, sum: Quantity) -> bool
    ensures { result ≡ false → IsSumOf p.now sum → ⊥ }
{
    match sum {
        Quantity::Terms { mark, first } => is_terms_sum(p.rows(), mark, first),
        Quantity::Rows { level, first } => first >= 1 && first as usize <= level_size(p, level),
        _ => false,
    }
}

/// Whether a quantity fits, if this sum is the first that does not.
pub fn fit_before(p: &Problem, named: Quantity, unfit: Quantity) -> Fit
    requires { IsSumOf p.now unfit }
    ensures { IsFitBefore p.now named unfit result }
{
    p.show_whole(); // for the proof: what a problem keeps
    if named == unfit {
        return Fit::Unfit;
    }
    if !is_sum(p, named) {
        return Fit::NoRoom;
    }
    let Some(at) = sum_at(p, named) else {
        return Fit::NoRoom;
    };
    let Some(first) = sum_at(p, unfit) else {
        return Fit::NoRoom;
    };
    if is_before(at, first) {
        Fit::Fits
    } else {
        Fit::NoRoom
    }
}

// How many rows have lesser numbers.
fn rows_before(p: &Problem, id: u32) -> usize
    ensures within { result ≤ length p.now.rows }
    ensures before { (k : ℕ) (d : Row) → k < result → (get_or p.now.rows k d).id < id }
    ensures after { (k : ℕ) (d : Row) → result ≤ k → k < length p.now.rows
        → id ≤ (get_or p.now.rows k d).id }
{
    p.show_whole(); // for the proof: what a problem keeps
    for (at, r) in p.rows().iter().enumerate() {
        if r.id() >= id {
            return at;
        }
    }
    p.rows().len()
}

/// How many of the rows are judged by their values, if a path without swaps is shown with the quantity.
pub fn judged_rows(p: &Problem, named: Quantity) -> usize
    ensures { IsJudgedTo p.now (row_of_terms (Some named)) result }
{
    if let Quantity::Terms { mark, .. } = named {
        if let RowName::Held(id) = mark.row {
            return rows_before(p, id);
        }
    }
    p.rows().len()
}
