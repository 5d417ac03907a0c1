// The limit of a host.
ghost use Rattle.scene_host.specs.Constants.{ConstantsAreAsSaid};

/// How many scenes there may be.
pub const SCENE_LIMIT: usize = 64;

/// The constants that definitions and clauses cite by name are these numbers.
pub fn constants_are_as_said()
    ensures { ConstantsAreAsSaid }
{}
