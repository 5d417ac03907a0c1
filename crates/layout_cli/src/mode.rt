// How much the modes read.
ghost use Rattle.layout_cli.specs.Constants.{ConstantsAreAsSaid};

/// The constants that definitions and clauses cite by name are these numbers.
pub fn constants_are_as_said()
    ensures { ConstantsAreAsSaid }
{}
