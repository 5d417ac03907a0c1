// The limits of problems, and the numbers by which levels and columns are counted.
ghost use Rattle.problem_core.specs.Constants.{ConstantsAreAsSaid};

/// The rank of required rows, which is the greatest one.
pub const REQUIRED: u16 = 1000;

/// The level of the first stay, and the count of those before it, which the ranks have.
pub const FIRST_STAY_LEVEL: u32 = REQUIRED as u32 + 1;

/// The greatest weight of a row.
pub const WEIGHT_LIMIT: u16 = 1000;

/// The greatest number of a row or of an attribute. A session gives out numbers below it: the greatest one is
/// left for a row that is only tried.
pub const NUMBER_LIMIT: u32 = 1 << 31;

/// The greatest scale of a row, and the greatest size of a term's coefficient.
pub const COEFFICIENT_LIMIT: u64 = 1 << 30;

/// The most terms of a row.
pub const TERM_LIMIT: usize = 32;

/// The most rows of a problem, and the most stays.
pub const ROW_LIMIT: usize = 4096;

/// The column of the attribute 0: those before it are the columns of marks.
pub const MARKS: u64 = 1 << 34;

/// What the common denominator of a row's values is below, and each value times it, where a gap's sign is
/// asked for.
pub const GAP_ROOM: u128 = 1 << 62;

/// The constants that definitions and clauses cite by name are these numbers.
pub fn constants_are_as_said()
    ensures { ConstantsAreAsSaid }
{}
