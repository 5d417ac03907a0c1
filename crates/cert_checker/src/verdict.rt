// The checker's answer, and the numbers of the clauses.
ghost use Rattle.cert_checker.specs.Constants.{ConstantsAreAsSaid};

/// What the checker says of a claim: it holds, or the number of the first clause that fails, or the number
/// of the row at which there is no room for the sums.
#[derive(Clone, Copy, Debug, PartialEq, Eq)]
pub enum Verdict {
    Yes,
    No(u32),
    NoRoom(u32),
}

/// The clause that just the attributes with stays have values.
pub const GIVEN_CLAUSE: u32 = 1;

/// The clause that each required row holds.
pub const REQUIRED_CLAUSE: u32 = 2;

/// The clause that scales are above 0, rows and levels are the problem's, and at each level the lines cancel.
pub const BALANCE_CLAUSE: u32 = 3;

/// The clause that the first number of each column that is not 0 is above 0.
pub const COLUMNS_CLAUSE: u32 = 4;

/// The clause that the column of each side that the values use is all 0.
pub const FREE_CLAUSE: u32 = 5;

/// The clause that multipliers are of required rows, which cancel at each attribute, and there is one.
pub const CANCEL_CLAUSE: u32 = 6;

/// The clause that no multiplier is below 0 at a `>=`, or above 0 at a `<=`.
pub const SIGNS_CLAUSE: u32 = 7;

/// The clause that the sum of the constants is above 0.
pub const SUM_CLAUSE: u32 = 8;

/// The constants that definitions and clauses cite by name are these numbers.
pub fn constants_are_as_said()
    ensures { ConstantsAreAsSaid }
{}
