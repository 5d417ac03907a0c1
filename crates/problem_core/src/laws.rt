// The laws of layout problems, each the contract of a function that does nothing.
ghost use Rattle.problem_core.specs.Laws.{AddedStaysBest, AgreedIsBest, BestIsUnique, BestStaysBest};
ghost use Rattle.problem_core.specs.Laws.{CertificateShowsBest, CostlessIsBest, EndHasCertificate};
ghost use Rattle.problem_core.specs.Laws.{ErrorlessIsBest, FirstSceneIsBest, RefutationShowsConflict};
ghost use Rattle.problem_core.specs.Laws.{RequiredCostRefutes, SameIsBest, WholeIsProper, WindowIsBest};

/// What the type of a problem keeps is what the laws ask of one.
pub fn whole_is_proper()
    ensures { WholeIsProper }
{}

/// What satisfies, and gives the stays' attributes the values that all that satisfies gives them, is best.
pub fn agreed_is_best()
    ensures { AgreedIsBest }
{}

/// What satisfies, and costs nothing at every level, is best.
pub fn costless_is_best()
    ensures { CostlessIsBest }
{}

/// An assignment at which no row and no stay has an error is best.
pub fn errorless_is_best()
    ensures { ErrorlessIsBest }
{}

/// What gives the stays' attributes the same values as what is best is best.
pub fn same_is_best()
    ensures { SameIsBest }
{}

/// What is best stays best when rows and stays are added that have no error there.
pub fn added_stays_best()
    ensures { AddedStaysBest }
{}

/// A window of a given size: its values are best for its six rows, whatever the stays' targets are.
pub fn window_is_best()
    ensures { WindowIsBest }
{}

/// A window of no given size: its values 0 are best for its four rows, with the stays at 0.
pub fn first_scene_is_best()
    ensures { FirstSceneIsBest }
{}

/// Multipliers that refute the required rows show a conflict.
pub fn refutation_shows_conflict()
    ensures { RefutationShowsConflict }
{}

/// An assignment with a certificate is best.
pub fn certificate_shows_best()
    ensures { CertificateShowsBest }
{}

/// A problem has at most one best assignment.
pub fn best_is_unique()
    ensures { BestIsUnique }
{}

/// At a corner where the required cost is above 0 and no reduced cost of that level is negative, the level's
/// multipliers refute the required rows.
pub fn required_cost_refutes()
    ensures { RequiredCostRefutes }
{}

/// At a corner with no negative value and no negative column, the corner's multipliers are a certificate.
pub fn end_has_certificate()
    ensures { EndHasCertificate }
{}

/// What is best stays best when the stays' targets become its values.
pub fn best_stays_best()
    ensures { BestStaysBest }
{}
