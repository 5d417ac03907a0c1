// The checker's answer on a path, and the numbers of the clauses.
ghost use Rattle.path_claims.specs.Constants.{ConstantsAreAsSaid};

/// The checker's answer on a path: it is lawful, or the number of the first clause that fails, or the number
/// of exchanges of the checker's route after which a quantity that counts does not fit.
#[derive(Clone, Copy, Debug, PartialEq, Eq)]
pub enum PathVerdict {
    Yes,
    No(u32),
    NoRoom(u32),
}

/// The clause that a path's first marks are a corner.
pub const CORNER_CLAUSE: u32 = 9;

/// The clause that each swap of a path is an exchange.
pub const EXCHANGES_CLAUSE: u32 = 10;

/// The clause that no corner of a path comes twice.
pub const APART_CLAUSE: u32 = 11;

/// The clause that each corner of a path is sound: no value is negative, on a dual path no column.
pub const SOUND_CLAUSE: u32 = 12;

/// The clause that no corner of a path before the last is an end, and each exchange is called for.
pub const CALLED_CLAUSE: u32 = 13;

/// The clause that the quantity of a path does not fit at its last corner.
pub const UNFIT_CLAUSE: u32 = 14;

/// The constants that definitions and clauses cite by name are these numbers.
pub fn constants_are_as_said()
    ensures { ConstantsAreAsSaid }
{}
