// The laws of a row or an attribute that joins, each the contract of a function that does nothing.
ghost use Rattle.corner_lines.specs.JoinLaws.{AttrIsOwnDeviation, AttrJoinsCorner, AttrJoinsRays};
ghost use Rattle.corner_lines.specs.JoinLaws.{EquationsHoldWithAttr, EquationsHoldWithRow, JoinedHasRays};
ghost use Rattle.corner_lines.specs.JoinLaws.{JoinedIsCorner, JoinedTurns, JoinedUnderHasRays};
ghost use Rattle.corner_lines.specs.JoinLaws.{JoinedUnderIsCorner, JoinedUnderKeepsEquations};
ghost use Rattle.corner_lines.specs.JoinLaws.{LastTermsAreUnfit, NoTermsAreZero, PathBeginsWithMore};
ghost use Rattle.corner_lines.specs.JoinLaws.{PathBeginsWithNone, StoodClearsStays, StoodHasRays};
ghost use Rattle.corner_lines.specs.JoinLaws.{StoodIsCorner, StoodKeepsAttrs, StoodKeepsRows, TermsAreUnfit};
ghost use Rattle.corner_lines.specs.JoinLaws.{TermsGiveDeviation, TermsGoOn};

/// A corner with a new row's over mark is a corner of the problem with the row, and each outside mark can
/// grow alone there too.
pub fn joined_is_corner()
    ensures corner { JoinedIsCorner }
    ensures rays { JoinedHasRays }
{}

/// All equations without a number for the row hold there.
pub fn equations_hold_with_row()
    ensures { EquationsHoldWithRow }
{}

/// No terms have the sum 0.
pub fn no_terms_are_zero()
    ensures { NoTermsAreZero }
{}

/// The sum of a row's first terms goes on with the next attribute's equation.
pub fn terms_go_on()
    ensures { TermsGoOn }
{}

/// The sum of all terms gives the row's deviation.
pub fn terms_give_deviation()
    ensures { TermsGiveDeviation }
{}

/// If a sum of the first terms has no writing that fits, it may be the quantity that a stop names.
pub fn terms_are_unfit()
    ensures { TermsAreUnfit }
{}

/// If the over mark has no writing that fits, so may the whole sum less the constant.
pub fn last_terms_are_unfit()
    ensures { LastTermsAreUnfit }
{}

/// The row joins under by an exchange of its two marks.
pub fn joined_turns()
    ensures { JoinedTurns }
{}

/// A corner with a new row's under mark is a corner too, and each outside mark can grow alone there.
pub fn joined_under_is_corner()
    ensures corner { JoinedUnderIsCorner }
    ensures rays { JoinedUnderHasRays }
{}

/// All equations are the same whether the row is over or under.
pub fn joined_under_keeps_equations()
    ensures { JoinedUnderKeepsEquations }
{}

/// A corner is a corner of the problem with a new attribute, whose stay is outside, and each outside mark
/// can grow alone there too.
pub fn attr_joins_corner()
    ensures corner { AttrJoinsCorner }
    ensures rays { AttrJoinsRays }
{}

/// All equations without a number for the new stay hold there.
pub fn equations_hold_with_attr()
    ensures { EquationsHoldWithAttr }
{}

/// The new attribute is its stay's target plus its stay's deviation.
pub fn attr_is_own_deviation()
    ensures { AttrIsOwnDeviation }
{}

/// If the stays move to the values at a corner, it stays a corner, and each outside mark can still grow
/// alone.
pub fn stood_is_corner()
    ensures corner { StoodIsCorner }
    ensures rays { StoodHasRays }
{}

/// The attributes' equations stay as they are.
pub fn stood_keeps_attrs()
    ensures { StoodKeepsAttrs }
{}

/// The equations of rows' deviations stay as they are.
pub fn stood_keeps_rows()
    ensures { StoodKeepsRows }
{}

/// The equations of the stays' deviations keep their numbers, and their values become 0.
pub fn stood_clears_stays()
    ensures { StoodClearsStays }
{}

/// Before a row joins, a path begins at the corner's own marks.
pub fn path_begins_with_none()
    ensures { PathBeginsWithNone }
{}

/// After rows have joined one by one, each with its mark that is not negative, a path begins.
pub fn path_begins_with_more()
    ensures { PathBeginsWithMore }
{}
