// The limits of texts that are read.
ghost use Rattle.problem_reading.specs.Constants.{ConstantsAreAsSaid};

/// What the length of a text is below, in bytes: so its lines are counted in 32 bits.
pub const TEXT_LIMIT: usize = 1 << 31;

/// The most rows of a problem that is read: those of a scene, and one more for a probe.
pub const TEXT_ROW_LIMIT: usize = 2001;

/// The most stays of a problem that is read: four for each view of a scene.
pub const TEXT_STAY_LIMIT: usize = 800;

/// The constants that definitions and clauses cite by name are these numbers.
pub fn constants_are_as_said()
    ensures { ConstantsAreAsSaid }
{}
