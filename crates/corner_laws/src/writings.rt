// What holds of writings at a corner.
ghost use Rattle.corner_laws.specs.WritingLaws.{ValuesAreUnique, WritingsAreEqual, WritingFromEquation};
ghost use Rattle.corner_laws.specs.WritingLaws.{ColumnHasWriting, RayIsColumn, TermsLift, UnfitFromEquation};
ghost use Rattle.corner_laws.specs.WritingLaws.{WritingExists, WritingIsRow, WritingMoves};

/// Two writings of one quantity at a corner have the same value.
pub fn values_are_unique()
    ensures { ValuesAreUnique }
{}

/// Two writings of one quantity at a corner are the same: the scale, each coefficient and the value.
pub fn writings_are_equal()
    ensures { WritingsAreEqual }
{}

/// The lowest terms of a quantity's equation are its writing, with the constant over the scale as its value.
pub fn writing_from_equation()
    ensures { WritingFromEquation }
{}

/// Where the lowest terms or the value of a quantity's equation do not fit, it has no writing that fits.
pub fn unfit_from_equation()
    ensures { UnfitFromEquation }
{}

/// A sum of a row's first terms that does not fit before later rows join does not fit where they have joined
/// over.
pub fn terms_lift()
    ensures { TermsLift }
{}

/// On an outside mark's ray each column moves by the mark's coefficient in the column's equation, over its
/// scale.
pub fn ray_is_column()
    ensures { RayIsColumn }
{}

/// How far an inside mark moves where an outside one grows: its writing's scale times the one is the outside
/// mark's coefficient times the other.
pub fn writing_moves()
    ensures { WritingMoves }
{}

/// An inside mark's writing is a row: its numbers are the scale at the mark itself, and the form's
/// coefficients, with the other sign, elsewhere.
pub fn writing_is_row()
    ensures { WritingIsRow }
{}

/// Each quantity that a corner fixes has a writing there: where none fits, that is not for want of one.
pub fn writing_exists()
    ensures { WritingExists }
{}

/// So has each mark and each attribute.
pub fn column_has_writing()
    ensures { ColumnHasWriting }
{}
