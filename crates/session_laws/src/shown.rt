// The laws of what is shown, each the contract of a function that does nothing.
ghost use Rattle.session_laws.specs.Shown.Shown.{CertificatesAreAccepted, CertifiedIsNotEnough};
ghost use Rattle.session_laws.specs.Shown.Shown.{ConflictsAreAccepted, ShownIsJudged};
ghost use Rattle.session_laws.specs.Shown.Shown.{SomeAreShown, SpentPathsAreAccepted, UnfitPathsAreAccepted};
ghost use Rattle.session_laws.specs.Shown.Steps.{LeavingStopsAreAccepted, StepStopsAreAccepted};
ghost use Rattle.session_laws.specs.Shown.Cores.{CoresAreAccepted, TrialStopsAreAccepted};

/// The lines of a problem and of a claim on it are judged as just these: no line is outside the form, and the
/// answer is the verdict on this claim.
pub fn shown_is_judged()
    ensures { ShownIsJudged }
{}

/// The values and the certificate of a corner, shown with its problem, are answered `yes`, or `no room`.
pub fn certificates_are_accepted()
    ensures { CertificatesAreAccepted }
{}

/// So are the multipliers of a conflict.
pub fn conflicts_are_accepted()
    ensures { ConflictsAreAccepted }
{}

/// So are a path to what does not fit, with the quantity, and a path that has used its budget up.
pub fn paths_are_accepted()
    ensures unfit { UnfitPathsAreAccepted }
    ensures spent { SpentPathsAreAccepted }
{}

/// So is what each stop of a step shows where rows join or constants change.
pub fn step_stops_are_accepted()
    ensures { StepStopsAreAccepted }
{}

/// So is what each stop of a removal shows, in the problem of the rows that are left or still held.
pub fn leaving_stops_are_accepted()
    ensures { LeavingStopsAreAccepted }
{}

/// So are the multipliers of a core, with its rows alone, and what each stop of a trial shows, with the rows
/// that are held.
pub fn cores_are_accepted()
    ensures cores { CoresAreAccepted }
    ensures stops { TrialStopsAreAccepted }
{}

/// Of some problems best values, a conflict, a path to what does not fit, and one that has used its budget up
/// are shown.
pub fn some_are_shown()
    ensures { SomeAreShown }
{}

/// What certifies values needn't be in the form that is read.
pub fn certified_is_not_enough()
    ensures { CertifiedIsNotEnough }
{}
