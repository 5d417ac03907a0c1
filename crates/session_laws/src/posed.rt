// The laws of what a command poses, each the contract of a function that does nothing.
ghost use Rattle.session_laws.specs.Posed.Laws.{FirstIsDefinite, OneProblemIsPosed, SizesArePosed};
ghost use Rattle.session_laws.specs.Posed.Laws.{StepsStayDefinite};
ghost use Rattle.session_laws.specs.Posed.Questions.{CoreIsNotAccepted, CoresArePosed, SizesAreExplained};
ghost use Rattle.session_laws.specs.Posed.Questions.{SolvableIsNotRefused};

/// Two problems that a command poses are one, where no denominator is 0 and each view is newer than its
/// parent.
pub fn one_problem_is_posed()
    ensures { OneProblemIsPosed }
{}

/// So it is in a new session.
pub fn first_is_definite()
    ensures { FirstIsDefinite }
{}

/// So it stays, whatever a line leads to.
pub fn steps_stay_definite()
    ensures { StepsStayDefinite }
{}

/// In a new session a size of the window poses the problem of the window's four rows and the two of its size.
pub fn sizes_are_posed()
    ensures { SizesArePosed }
{}

/// What is told as a core of a command is one, of the problem that it poses.
pub fn cores_are_posed()
    ensures { CoresArePosed }
{}

/// Where it is told that a command would not clash, it is not refused for a conflict; where a core is told,
/// it is not accepted.
pub fn questions_foretell()
    ensures solvable { SolvableIsNotRefused }
    ensures core { CoreIsNotAccepted }
{}

/// In a new session it is told of a width of 1 that there is no conflict, and of a width of -1 that it
/// clashes with the window's own row.
pub fn sizes_are_explained()
    ensures { SizesAreExplained }
{}
