// The limits of lines, beside those of problems.
ghost use Rattle.compile_parts.specs.Constants.{ConstantsAreAsSaid};

/// The greatest number of a row's addends, which are the terms on both sides of a line.
pub const ADDEND_LIMIT: usize = 64;

/// Both parts of a row's constant are below this in size.
pub const CONSTANT_LIMIT: u64 = 1 << 40;

/// The constants that definitions and clauses cite by name are these numbers.
pub fn constants_are_as_said()
    ensures { ConstantsAreAsSaid }
{}
