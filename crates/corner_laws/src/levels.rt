// What holds of the writings of levels' costs.
ghost use Rattle.corner_laws.specs.LevelLaws.{CommonShareIsUnit, LevelFits, LevelNumbers};
ghost use Rattle.corner_laws.specs.LevelLaws.{LevelWritingExists, MultipliersAreUnique, MultipliersExist};
ghost use Rattle.corner_laws.specs.LevelLaws.{NumbersAreEqual, RowsLift, SmallLevelFits, StayLevelRow};
ghost use Rattle.corner_laws.specs.LevelLaws.{UnfitFromLevel, WritingFromLevel};

/// The multipliers of a corner are unique at each level, up to the scale.
pub fn multipliers_are_unique()
    ensures { MultipliersAreUnique }
{}

/// The numbers of a level's writing are unique at a corner: its scale, each multiplier and each reduced cost.
pub fn numbers_are_equal()
    ensures { NumbersAreEqual }
{}

/// The lowest terms of a level's numbers are its writing.
pub fn writing_from_level()
    ensures { WritingFromLevel }
{}

/// Where the lowest terms of a level's numbers or its cost do not fit, it has no writing that fits.
pub fn unfit_from_level()
    ensures { UnfitFromLevel }
{}

/// A level's cost that does not fit before later rows join is that of its first j rows where they have
/// joined, and does not fit there.
pub fn rows_lift()
    ensures { RowsLift }
{}

/// A level's row in lowest terms gives the level's writing in joint lowest terms: its scale is the row's own
/// number times the level's unit.
pub fn level_numbers()
    ensures { LevelNumbers }
{}

/// The least common multiple of the scales of a level's lines, each over its common divisor with the weight,
/// is the level's unit.
pub fn common_share_is_unit()
    ensures { CommonShareIsUnit }
{}

/// A stay that is inside needs no row for its level: its own is the level's, in units of 1.
pub fn stay_level_row()
    ensures { StayLevelRow }
{}

/// All numbers of a level's writing fit where its scale, the outside lines' multipliers and the reduced costs
/// of the level's own lines do.
pub fn level_fits()
    ensures { LevelFits }
{}

/// They fit where its scale is below 2^30 and the outside lines' multipliers are below 2^41.
pub fn small_level_fits()
    ensures { SmallLevelFits }
{}

/// At a corner each level has multipliers.
pub fn multipliers_exist()
    ensures { MultipliersExist }
{}

/// Each level's cost has a writing at a corner: where none fits, that is not for want of one.
pub fn level_writing_exists()
    ensures { LevelWritingExists }
{}
