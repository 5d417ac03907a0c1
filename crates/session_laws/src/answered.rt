// The laws of answers, each the contract of a function that does nothing.
ghost use Rattle.std.specs.Prelude.{[], ◌∷◌};
ghost use Rattle.script_text.specs.Meaning as mean;
ghost use Rattle.session_undo.specs.Machine.{PosesChange};
ghost use Rattle.session_laws.specs.Answered.Examples.{bare};
ghost use Rattle.session_laws.specs.Answered.States.{bounded_state, far_state, free_state, held_state};
ghost use Rattle.session_laws.specs.Answered.States.{without_width};
ghost use Rattle.session_laws.specs.Answered.Room.{HasRoomToProbe};
ghost use Rattle.session_laws.specs.Answered.Laws.{BoundRemovalsHaveRoom, BoundsFit, ChangesAreAnswered};
ghost use Rattle.session_laws.specs.Answered.Laws.{FirstMetricsAreAccepted, FirstSceneFits};
ghost use Rattle.session_laws.specs.Answered.Laws.{LargeBudgetsAreNeverSpent, OthersAreAccepted, ProbesAreAnswered};
ghost use Rattle.session_laws.specs.Answered.Laws.{MiddleRemovalHasRoom, QuestionsAreAnswered, RemovalHasRoom};
ghost use Rattle.session_laws.specs.Answered.Laws.{SteepDoesNotFit, SweepsAreAnswered};

/// If there is room for the problem of a change, a cause is against the change, or it is
/// accepted where the required rows have a solution, and refused for their conflict where they have none.
/// Views that come, what leaves, and another direction are accepted.
pub fn changes_are_answered()
    ensures { ChangesAreAnswered }
{}

/// Where there is room for each probe, `diagnose` tells what is found.
pub fn probes_are_answered()
    ensures { ProbesAreAnswered }
{}

/// Where there is room for it, a sweep's stretches are told, unless a cause is against it.
pub fn sweeps_are_answered()
    ensures { SweepsAreAnswered }
{
    sweep_param::sweeps_are_answered();
}

/// Where there is room for each trial, why a command would clash is told, unless a cause is against it.
pub fn questions_are_answered()
    ensures { QuestionsAreAnswered }
{}

/// A comment, a question, `undo` with an earlier scene, and a budget within its limits are accepted, whatever
/// the numbers and the budget are.
pub fn others_are_accepted()
    ensures { OthersAreAccepted }
{}

/// No run uses up a budget of at least 4^N, where N counts the rows and stays of its problem.
pub fn large_budgets_are_never_spent()
    ensures { LargeBudgetsAreNeverSpent }
{}

/// At each corner of the first scene's problem each quantity fits.
pub fn first_scene_fits()
    ensures { FirstSceneFits }
{}

/// Where the height is 2^30 times a width that was 4096 before, some quantity doesn't fit at some corner.
pub fn steep_problem_does_not_fit()
    ensures { SteepDoesNotFit }
{}

/// In the first session, with the budget that it has, a metric is accepted unless a cause is against it.
pub fn first_metrics_are_accepted()
    ensures { FirstMetricsAreAccepted }
{}

/// Where one attribute is 0 and has no row, its probes have room; where it has the greatest value that fits,
/// they haven't.
pub fn some_probes_have_room()
    ensures has { HasRoomToProbe free_state }
    ensures lacks { HasRoomToProbe far_state → ⊥ }
{}

/// Where one attribute has a row, by a line of a group, there is room for the group's removal; so is there in
/// the scene of some lines, where the row that leaves comes before others.
pub fn some_removals_have_room()
    ensures has { RemovalHasRoom }
    ensures some { PosesChange held_state (mean.Leave (mean.Remove [])) bare }
    ensures middle { MiddleRemovalHasRoom }
    ensures left { PosesChange bounded_state (mean.Leave (mean.Remove (103 ∷ []))) without_width }
{}

/// Where each row bounds one attribute by a small whole number, no row is new and no constant changes, each
/// quantity fits at each corner.
pub fn bounds_fit()
    ensures { BoundsFit }
{}

/// So a removal from such rows has room, whichever of them leave.
pub fn bound_removals_have_room()
    ensures { BoundRemovalsHaveRoom }
{}
