// How numbers are written.
ghost use Rattle.span_text.specs.Constants.{ConstantsAreAsSaid};

/// One, in thousandths.
pub const UNIT: u32 = 1000;

/// What the first digit behind a point counts, in thousandths.
pub const TENTH: u32 = 100;

/// What the second digit behind a point counts, in thousandths.
pub const HUNDREDTH: u32 = 10;

/// How many digits a number may have in front of its point.
pub const NUMBER_DIGITS: usize = 6;

/// How many digits a number may have behind its point.
pub const DECIMALS: usize = 3;

/// How many digits each part of a ratio may have.
pub const RATIO_DIGITS: usize = 4;

/// How many digits a whole number may have that counts something.
pub const WHOLE_DIGITS: usize = 19;

/// The constants that definitions and clauses cite by name are these numbers.
pub fn constants_are_as_said()
    ensures { ConstantsAreAsSaid }
{}
