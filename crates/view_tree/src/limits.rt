// The limits of a tree.
ghost use Rattle.view_tree.specs.Constants.{ConstantsAreAsSaid};

/// How many views may be live, the window counted.
pub const VIEW_LIMIT: usize = 200;

/// Each view's number is below this. So the numbers of its four attributes are at most four times this, which
/// is the greatest number that an attribute may have (`NUMBER_LIMIT` in `problem_core`).
pub const ID_LIMIT: u32 = 1 << 29;

/// The greatest depth of a view. The window's is 1.
pub const DEPTH_LIMIT: u32 = 32;

/// The constants that definitions and clauses cite by name are these numbers.
pub fn constants_are_as_said()
    ensures { ConstantsAreAsSaid }
{}
