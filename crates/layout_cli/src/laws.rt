// The laws of runs, each the contract of a function that does nothing.
ghost use Rattle.session_undo.specs.State.{IsBestState, IsFirst, State};
ghost use Rattle.layout_cli.specs.Laws.{BestValuesAreUnique, CountedRunsAreRuns, HostedSessionsRunAlone};
ghost use Rattle.layout_cli.specs.Laws.{RunsLeadToBestValues};

/// A problem has at most one list of best values.
pub fn best_values_are_unique()
    ensures { BestValuesAreUnique }
{}

/// The values of a new session are best.
pub fn first_values_are_best()
    ensures { (first : State) → IsFirst first → IsBestState first }
{}

/// Over any lines, a run leads from best values to best values, in the scene and in all that are kept.
pub fn runs_lead_to_best_values()
    ensures { RunsLeadToBestValues }
{}

/// Where the refusals of lines are counted there is a run of the lines, good where none is refused.
pub fn counted_runs_are_runs()
    ensures { CountedRunsAreRuns }
{}

/// What a host of sessions says under a name is a run of that name's lines alone, whatever lines of other
/// names stand between.
pub fn hosted_sessions_run_alone()
    ensures { HostedSessionsRunAlone }
{}
