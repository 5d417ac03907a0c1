// What a corner is as a system of equations.
ghost use Rattle.corner_laws.specs.CornerLaws.{ConstantsKeepCorner, CornerHasRays, UnfitIsWritten};

/// A corner is a square system with one solution: as many columns as equations. So each outside mark can grow
/// alone.
pub fn corner_has_rays()
    ensures { CornerHasRays }
{}

/// The marks are a corner too where the same rows have other constants.
pub fn constants_keep_corner()
    ensures { ConstantsKeepCorner }
{}

/// Whatever is told as unfit has a writing in the problem in which it is judged: it does not fit, and is not
/// told for want of a writing.
pub fn unfit_is_written()
    ensures { UnfitIsWritten }
{}
