// The columns of two rows, from the lowest up.
ghost use Rattle.std.specs.Prelude.{◌≡◌, ℕ, ℤ, true, false, ◌&&◌, nat_eq, ◌+◌, ◌-◌, ◌<◌, ◌≤◌, ◌^◌};
ghost use Rattle.std.specs.Prelude.{◌*ℤ◌, ◌+ℤ◌, pos, unsigned_abs, length, IfSome, IfNone, ◌⊎◌, FitsSigned};
ghost use Rattle.std.specs.Int.{w64};
ghost use Rattle.frac_core.specs.Fraction.{IsFitting};
ghost use Rattle.row_core.specs.Rows.{IsRising, AllFit, coefficient};
ghost use Rattle.row_core.specs.Combinations.{IsFactor};
ghost use Rattle.row_core.specs.Walks.{IsSmallProduct, HasSmallProducts, HasNext, IsLowestOf, alone};
ghost use Rattle.row_core.specs.Walks.{from_left, from_right, from_both};
ghost use Rattle.row_core.specs.Walks.{IsRowRead, IsSumRead, IsReading, IsNarrow, IsNarrowSum, IsEnd};
ghost use Rattle.row_core.specs.Walks.{HasNarrowProducts, IsPlaceOf, whole_of};
ghost use Rattle.row_core.specs.declared.walk.TheConstants.{NARROW_PRODUCT};

use crate::entry::{Col, Entry, Factors, Patch};

/// Below this a factor's product with a number that fits is below [`NARROW_PRODUCT`].
pub(crate) const NARROW_FACTOR: u128 = 1 << 19;

/// Of numbers below this, two and then one more can be added in 64 bits.
pub(crate) const NARROW_PRODUCT: u128 = 1 << 61;

/// A sum `k*r + n*p` of multiples of two rows and of a number at one column, perhaps without another column.
#[derive(Clone, Copy, Debug)]
pub(crate) struct Sum<'a> {
    pub r: &'a [Entry],
    pub p: &'a [Entry],
    pub k: i128,
    pub n: i128,
    pub leaves: bool,
    pub without: Col,
    pub at: Col,
    pub extra: i128,
}

/// How many entries of two rows have been read, and whether the number at one column has been.
#[derive(Clone, Copy, Debug, PartialEq, Eq)]
pub(crate) struct Place {
    pub left: usize,
    pub right: usize,
    pub is_added: bool,
}

/// The sum of multiples of two rows alone.
pub(crate) fn plain<'a>(r: &'a [Entry], p: &'a [Entry], by: Factors) -> Sum<'a>
    ensures r { result.r.now ≡ r.now }
    ensures p { result.p.now ≡ p.now }
    ensures k { result.k ≡ by.k }
    ensures n { result.n ≡ by.n }
    ensures extra { result.extra ≡ pos 0 }
    ensures leaves { result.leaves ≡ false }
{
    Sum {
        r,
        p,
        k: by.k,
        n: by.n,
        leaves: false,
        without: Col(0),
        at: Col(0),
        extra: 0,
    }
}

/// The sum that leaves a column out and adds a number at another one.
pub(crate) fn patched<'a>(r: &'a [Entry], p: &'a [Entry], by: Factors, but: Patch) -> Sum<'a>
    ensures r { result.r.now ≡ r.now }
    ensures p { result.p.now ≡ p.now }
    ensures k { result.k ≡ by.k }
    ensures n { result.n ≡ by.n }
    ensures leaves { result.leaves ≡ true }
    ensures without { result.without ≡ but.without }
    ensures at { result.at ≡ but.at }
    ensures extra { result.extra ≡ but.extra }
{
    Sum {
        r,
        p,
        k: by.k,
        n: by.n,
        leaves: true,
        without: but.without,
        at: but.at,
        extra: but.extra,
    }
}

/// The place before all columns.
pub(crate) fn start(sum: &Sum<'_>) -> Place
    ensures left { result.left ≡ 0 }
    ensures right { result.right ≡ 0 }
    ensures added { result.is_added ≡ true → sum.now.extra ≡ pos 0 }
{
    Place {
        left: 0,
        right: 0,
        is_added: sum.extra == 0,
    }
}

/// What two rows have at a column, and what has been read then.
#[derive(Clone, Copy, Debug, PartialEq, Eq)]
pub(crate) struct RowsRead {
    pub col: u64,
    pub left: i64,
    pub right: i64,
    pub next: Place,
}

// The first row's next entry, where the second has none at its column.
fn left_only(at: Place, entry: Entry) -> RowsRead
    requires { at.left < 2 ^ 63 }
    ensures { result ≡ from_left at entry }
{
    RowsRead {
        col: entry.col.0,
        left: entry.by,
        right: 0,
        next: Place {
            left: at.left + 1,
            right: at.right,
            is_added: at.is_added,
        },
    }
}

// The second row's next entry, where the first has none at its column.
fn right_only(at: Place, entry: Entry) -> RowsRead
    requires { at.right < 2 ^ 63 }
    ensures { result ≡ from_right at entry }
{
    RowsRead {
        col: entry.col.0,
        left: 0,
        right: entry.by,
        next: Place {
            left: at.left,
            right: at.right + 1,
            is_added: at.is_added,
        },
    }
}

// The next entries of both rows, which are at one column.
fn one_of_each(at: Place, left: Entry, right: Entry) -> RowsRead
    requires left { at.left < 2 ^ 63 }
    requires right { at.right < 2 ^ 63 }
    ensures { result ≡ from_both at left right }
{
    RowsRead {
        col: left.col.0,
        left: left.by,
        right: right.by,
        next: Place {
            left: at.left + 1,
            right: at.right + 1,
            is_added: at.is_added,
        },
    }
}

// The next entries of both rows, or the one that is below the other.
fn lowest_of(at: Place, left: Entry, right: Entry) -> RowsRead
    requires left { at.left < 2 ^ 63 }
    requires right { at.right < 2 ^ 63 }
    ensures { IsLowestOf at left right result }
{
    if left.col.0 < right.col.0 {
        left_only(at, left)
    } else if right.col.0 < left.col.0 {
        right_only(at, right)
    } else {
        one_of_each(at, left, right)
    }
}

// Reads the two rows at the lowest column that has not been read, unless there is none. As below, its callers
// keep the place in registers where this is inlined.
#[inline(always)]
fn next_of_rows(sum: &Sum<'_>, at: Place) -> Option<RowsRead>
    requires { IsPlaceOf sum.now at }
    ensures left { IfSome result (λ x. IsRowRead sum.now.r.now at.left x.col x.left x.next.left) }
    ensures right { IfSome result (λ x. IsRowRead sum.now.p.now at.right x.col x.right x.next.right) }
    ensures added { IfSome result (λ x. x.next.is_added ≡ at.is_added) }
    ensures one { IfSome result (λ x. HasNext sum.now.r.now at.left x.col
        ⊎ HasNext sum.now.p.now at.right x.col) }
    ensures left_end { IfNone result (length sum.now.r.now ≤ at.left) }
    ensures right_end { IfNone result (length sum.now.p.now ≤ at.right) }
{
    if at.left == sum.r.len() {
        if at.right == sum.p.len() {
            return None;
        }
        let right = sum.p[at.right];
        return Some(right_only(at, right));
    }
    let left = sum.r[at.left];
    if at.right == sum.p.len() {
        return Some(left_only(at, left));
    }
    let right = sum.p[at.right];
    Some(lowest_of(at, left, right))
}

// What has been read of the two rows when the number at one column is added before their next one.
fn added_alone(at: Place, col: u64) -> RowsRead
    ensures { result ≡ alone at col }
{
    RowsRead {
        col,
        left: 0,
        right: 0,
        next: Place {
            left: at.left,
            right: at.right,
            is_added: true,
        },
    }
}

// The same with the number at one column added, where that is theirs.
fn with_added(read: RowsRead, col: u64) -> RowsRead
    ensures col { result.col ≡ read.col }
    ensures left { result.left ≡ read.left }
    ensures right { result.right ≡ read.right }
    ensures next_left { result.next.left ≡ read.next.left }
    ensures next_right { result.next.right ≡ read.next.right }
    ensures added { result.next.is_added ≡ nat_eq read.col col }
{
    RowsRead {
        col: read.col,
        left: read.left,
        right: read.right,
        next: Place {
            left: read.next.left,
            right: read.next.right,
            is_added: read.col == col,
        },
    }
}

// Reads the two rows at the lowest column that has not been read, or at that of the number. Its callers are
// loops that keep the place in registers where this is inlined.
#[inline(always)]
fn next_of_both(sum: &Sum<'_>, at: Place) -> Option<RowsRead>
    requires { IsPlaceOf sum.now at }
    ensures read { IfSome result (IsSumRead sum.now at) }
    ensures end { IfNone result (IsEnd sum.now at) }
{
    let rows = next_of_rows(sum, at);
    if at.is_added {
        return rows;
    }
    match rows {
        None => Some(added_alone(at, sum.at.0)),
        Some(read) => {
            if read.col <= sum.at.0 {
                Some(with_added(read, sum.at.0))
            } else {
                Some(added_alone(at, sum.at.0))
            }
        }
    }
}

// The product.
fn product(k: i128, by: i64) -> i128
    requires { IsSmallProduct k by }
    ensures value { result ≡ k *ℤ by }
    ensures small { IsSmallProduct k by }
{
    if k == 1 {
        return i128::from(by);
    }
    k * i128::from(by)
}

// The sum of two products.
fn both(sum: &Sum<'_>, left: i64, right: i64) -> i128
    requires left { IsSmallProduct sum.now.k left }
    requires right { IsSmallProduct sum.now.n right }
    ensures value { result ≡ sum.now.k *ℤ left +ℤ sum.now.n *ℤ right }
    ensures small { unsigned_abs result < 2 ^ 127 - 2 ^ 85 }
{
    product(sum.k, left) + product(sum.n, right)
}

// Whether the column is left out.
fn is_left_out(sum: &Sum<'_>, col: u64) -> bool
    ensures { result ≡ (sum.now.leaves && nat_eq col sum.now.without.0) }
{
    col == sum.without.0 && sum.leaves
}

// The number that the sum has at a column where the rows have these ones.
fn total(sum: &Sum<'_>, left: i64, right: i64, col: u64) -> i128
    requires left { IsSmallProduct sum.now.k left }
    requires right { IsSmallProduct sum.now.n right }
    requires extra { IsFactor sum.now.extra }
    ensures value { result ≡ whole_of sum.now col (sum.now.k *ℤ left +ℤ sum.now.n *ℤ right) }
    ensures small { unsigned_abs result < 2 ^ 127 }
{
    if is_left_out(sum, col) {
        return 0;
    }
    let rows = both(sum, left, right);
    if col == sum.at.0 {
        rows + sum.extra
    } else {
        rows
    }
}

// The product, where it has 64 bits.
fn narrow_product(k: i128, by: i64) -> i64
    requires k { IsNarrow k }
    requires by { IsFitting by }
    ensures value { result ≡ k *ℤ by }
    ensures small { unsigned_abs result < NARROW_PRODUCT }
{
    k as i64 * by
}

// The sum of two products of 64 bits.
fn narrow_both(sum: &Sum<'_>, left: i64, right: i64) -> i64
    requires k { IsNarrow sum.now.k }
    requires n { IsNarrow sum.now.n }
    requires left { IsFitting left }
    requires right { IsFitting right }
    ensures value { result ≡ sum.now.k *ℤ left +ℤ sum.now.n *ℤ right }
    ensures small { unsigned_abs result < 2 ^ 62 }
{
    narrow_product(sum.k, left) + narrow_product(sum.n, right)
}

// The number that the sum has at a column where the rows have these ones, in 64 bits.
fn narrow_total(sum: &Sum<'_>, left: i64, right: i64, col: u64) -> i64
    requires narrow { IsNarrowSum sum.now }
    requires left { IsFitting left }
    requires right { IsFitting right }
    ensures value { result ≡ whole_of sum.now col (sum.now.k *ℤ left +ℤ sum.now.n *ℤ right) }
{
    if is_left_out(sum, col) {
        return 0;
    }
    let rows = narrow_both(sum, left, right);
    if col == sum.at.0 {
        rows + sum.extra as i64
    } else {
        rows
    }
}

/// The number of a sum at a column, and what has been read then.
#[derive(Clone, Copy, Debug, PartialEq, Eq)]
pub(crate) struct Reading {
    pub col: u64,
    pub by: i128,
    pub next: Place,
}

/// Reads the sum at the lowest column that has not been read, unless there is none, in 128 bits.
pub(crate) fn read_wide(sum: &Sum<'_>, at: Place) -> Option<Reading>
    requires place { IsPlaceOf sum.now at }
    requires products { HasSmallProducts sum.now }
    ensures read { IfSome result (IsReading sum.now at) }
    ensures small { IfSome result (λ x. unsigned_abs x.by < 2 ^ 127) }
    ensures end { IfNone result (IsEnd sum.now at) }
{
    let read = next_of_both(sum, at)?;
    Some(Reading {
        col: read.col,
        by: total(sum, read.left, read.right, read.col),
        next: read.next,
    })
}

/// The same in 64 bits, which are faster.
pub(crate) fn read_narrow(sum: &Sum<'_>, at: Place) -> Option<Reading>
    requires place { IsPlaceOf sum.now at }
    requires products { HasNarrowProducts sum.now }
    ensures read { IfSome result (IsReading sum.now at) }
    ensures small { IfSome result (λ x. unsigned_abs x.by < 2 ^ 127) }
    ensures narrow { IfSome result (λ x. FitsSigned w64 x.by) }
    ensures end { IfNone result (IsEnd sum.now at) }
{
    let read = next_of_both(sum, at)?;
    Some(Reading {
        col: read.col,
        by: i128::from(narrow_total(sum, read.left, read.right, read.col)),
        next: read.next,
    })
}
