// The laws of a constant that slides, and of sweeps, each the contract of a function that does nothing.
ghost use Rattle.sweep_laws.specs.Instances.{SomeAreTooLarge, SomeBounded, SomeConflicts, SomeSweeps};
ghost use Rattle.sweep_laws.specs.Instances.{SomeTurn, StraightIsWrong};
ghost use Rattle.sweep_laws.specs.Laws.{BetweenMixes, ColumnsAtEach, ConstantsAreSeenAlike, CornerAtEach};
ghost use Rattle.sweep_laws.specs.Laws.{CornerIsPiece, CostsBetween, CostsBeyond, LastConstantStands};
ghost use Rattle.sweep_laws.specs.Laws.{MixStands, PathFarther, SweepCovers, SweepDecides, ValuesBetween};

/// Of two constants that a row gets the last one stands.
pub fn last_constant_stands()
    ensures { LastConstantStands }
{}

/// The problems of two constants of a row differ in that constant alone.
pub fn constants_are_seen_alike()
    ensures { ConstantsAreSeenAlike }
{}

/// Marks are a corner with each constant if they are with one.
pub fn corner_at_each()
    ensures { CornerAtEach }
{}

/// No column is negative with any constant if none is with one.
pub fn columns_at_each()
    ensures { ColumnsAtEach }
{}

/// A constant between two mixes them.
pub fn between_mixes()
    ensures { BetweenMixes }
{}

/// The mix of the points that stand at a corner with two constants stands there with the mix of these.
pub fn mix_stands()
    ensures { MixStands }
{}

/// Values that aren't negative with two constants aren't between.
pub fn values_between()
    ensures { ValuesBetween }
{}

/// Where the required rows cost nothing with two constants, they don't between.
pub fn costs_between()
    ensures { CostsBetween }
{}

/// Where they cost nothing with one constant, and something with another, they do with each beyond the first.
pub fn costs_beyond()
    ensures { CostsBeyond }
{}

/// A path that is lawful with the slide's end is with each constant beyond one at which no mark that left is
/// above 0 any more.
pub fn path_farther()
    ensures { PathFarther }
{}

/// Where a corner is a best end with two constants, its values at both are the ends of a right piece.
pub fn corner_is_piece()
    ensures { CornerIsPiece }
{}

/// Each constant between the two is in some stretch.
pub fn sweep_covers()
    ensures { SweepCovers }
{}

/// For each constant between the two a sweep gives the best values, or shows the conflict.
pub fn sweep_decides()
    ensures { SweepDecides }
{}

/// Of a view that is as wide as the window, but no wider than 150: the two pieces are a sweep, cut anywhere
/// too, and so is the piece of one width; but one straight piece isn't, nor is a bend elsewhere, a piece of
/// no length between two, a sweep backwards, one with a gap, or none at all.
pub fn some_sweeps()
    ensures { SomeSweeps }
{}

/// What is right at both ends may be wrong between.
pub fn straight_is_wrong()
    ensures { StraightIsWrong }
{}

/// Of a view that must have room: the multipliers refute each width below, but not the width at which it just
/// fits, which is the piece's.
pub fn some_conflicts()
    ensures { SomeConflicts }
{}

/// Of a view that must not grow: they refute each width above, but not the one at which it is just as wide.
pub fn some_bounded()
    ensures { SomeBounded }
{}

/// A part as large as `PART_BOUND` is too large, and one that can be reduced isn't.
pub fn some_are_too_large()
    ensures { SomeAreTooLarge }
{}

/// A mark turns where its value is 0, unless that is the same everywhere.
pub fn some_turn()
    ensures { SomeTurn }
{}
