// What a session says to a line: its replies, and the causes of its refusals.
ghost use Rattle.std.specs.Prelude.{◌≡◌, ℕ, List};
ghost use Rattle.view_tree.specs.JsonStops.{MayStayOut};
ghost use Rattle.session_undo.specs.Adding.{IsAnswerOf, NoEnd, TellsStop};
ghost use Rattle.session_undo.specs.Machine.{TriedTree};
ghost use Rattle.session_undo.specs.Explained.{core_refusal};
ghost use Rattle.session_undo.specs.Probed.{probe_refusal, sweep_refusal};
ghost use Rattle.session_undo.specs.Replies.{MayRefuse};
ghost use Rattle.session_undo.specs.State.{State};

use cert_core::{Best, Conflict, Path, UnfitPath};
use compile_parts::KindWord;
use conflict_core::{CoreStop, Found};
use diagnosis::{DiagnoseStop, Diagnosis};
use frac_core::{Frac, OutOfMemory};
use layout_solver::RequestStop;
use name_tables::{LimitWord, OwnedName};
use sweep_run::{Stretch, SweepQuantity, SweepStop};
use thiserror::Error;
use view_tree::TreeStop;

/// The reply to an accepted line.
#[derive(Debug, Drop)]
pub enum Reply {
    /// No reply, to a blank line or a comment.
    Silent,
    /// A change was made.
    Done,
    /// The frames of all views.
    Frames,
    /// The problem.
    Rows,
    /// The problem, its values, and the multipliers that show them to be the best.
    Certificate(Best),
    /// What the layout lacks, and what it leaves open.
    Diagnosed(Diagnosis),
    /// Whether the required rows of a command's problem have a solution, or a core of them.
    Why(Found),
    /// The solutions for every width between two.
    Swept(Stretches),
}

/// The stretches of a sweep, in rising order.
#[derive(Debug, Drop)]
pub struct Stretches(pub Vec<Stretch>);

/// There is no earlier scene.
#[derive(Clone, Copy, Debug, PartialEq, Eq, Error)]
#[error("there is no earlier scene")]
pub struct NoEarlier;

/// The run that stopped because a quantity doesn't fit or the exchanges are used up.
#[derive(Debug, Drop)]
pub enum StopPlace {
    /// The run over the command's own problem.
    Step,
    /// The removal, while these leaving rows were still held.
    Still(Vec<u32>),
    /// The probe that wishes this attribute at the next value, above or below.
    Probe { attr: u32, up: bool },
    /// The trial of these rows.
    Held(Vec<u32>),
    /// A run of a sweep, with this width of the window.
    Sweep(Frac),
}

/// Why a line is refused. A refused line changes nothing.
#[derive(Debug, Drop, Error)]
pub enum Refusal {
    /// The line violates the grammar at this offset.
    #[error("the line leaves the grammar at offset {0}")]
    Syntax(usize),
    /// No view, metric, group or suggestion has this name, and the line needs one.
    #[error("nothing has the name")]
    Unknown(OwnedName),
    /// A view or a metric has this name.
    #[error("a view or a metric has the name")]
    Taken(OwnedName),
    /// A limit would be exceeded.
    #[error("a limit would be passed")]
    Limit(LimitWord),
    /// A name or a number is used wrongly.
    #[error("{0}")]
    Kind(KindWord),
    /// The required rows have no solution, as these multipliers show.
    #[error("the required rows have no solution")]
    Conflict(Conflict),
    /// There is no earlier scene.
    #[error("there is no earlier scene")]
    NoEarlier,
    /// A quantity doesn't fit at the end of this path.
    #[error("a quantity doesn't fit")]
    Overflow {
        place: StopPlace,
        at: UnfitPath,
    },
    /// The exchanges are used up.
    #[error("the exchanges are used up")]
    Spent {
        place: StopPlace,
        path: Path,
    },
    /// The value that a probe of this attribute would wish, above or below, doesn't fit.
    #[error("the value that a probe would wish doesn't fit")]
    NoTarget {
        attr: u32,
        up: bool,
    },
    /// A quantity of a sweep doesn't fit at the end of this path, with this width of the window.
    #[error("a quantity of a sweep doesn't fit")]
    SweepOverflow {
        width: Frac,
        path: Path,
        what: SweepQuantity,
    },
    /// Memory ran out. This ends a script's run.
    #[error("memory is wanting")]
    OutOfMemory,
}

impl From<OutOfMemory> for Refusal {
    ghost use Rattle.std.specs.Prelude.{◌≡◌};
    ghost use Rattle.session_undo.specs.declared.reply.Refusal.TheVariants.{OutOfMemory as NoMemory};

    ghost from_gives = { λ _ stop. stop ≡ NoMemory };

    fn from(_: OutOfMemory) -> Refusal {
        Refusal::OutOfMemory
    }
}

/// The refusal of a tree whose text begins at this offset of its line.
pub fn tree_refusal(start: usize, stop: TreeStop) -> Refusal
    ensures { (old : State) (text : List ℕ) → MayStayOut old.scene.tree old.scene.metrics text stop
        → MayRefuse (λ reply. TriedTree old text start NoEnd reply old) result }
{
    match stop {
        TreeStop::Syntax => Refusal::Syntax(start),
        TreeStop::Shape => Refusal::Kind(KindWord::Tree),
        TreeStop::Unknown(name) => Refusal::Unknown(name),
        TreeStop::Taken(name) => Refusal::Taken(name),
        TreeStop::Limit(word) => Refusal::Limit(word),
        TreeStop::OutOfMemory => Refusal::OutOfMemory,
    }
}

// The refusal for a stop of a step of the scene.
fn refusal_of(stop: RequestStop) -> Refusal
    ensures { TellsStop stop result }
{
    match stop {
        RequestStop::Conflict(by) => Refusal::Conflict(by),
        RequestStop::Unfit { still, at } => {
            let place = if still.is_empty() {
                StopPlace::Step
            } else {
                StopPlace::Still(still)
            };
            Refusal::Overflow { place, at }
        }
        RequestStop::Spent(path) => Refusal::Spent {
            place: StopPlace::Step,
            path,
        },
        RequestStop::OutOfMemory => Refusal::OutOfMemory,
    }
}

/// The answer for the outcome of a step of the scene.
pub fn answer_of(end: Result<(), RequestStop>) -> Result<Reply, Refusal>
    ensures { IsAnswerOf end result }
{
    match end {
        Ok(()) => Ok(Reply::Done),
        Err(stop) => Err(refusal_of(stop)),
    }
}

/// The refusal for a stop of the probe of an attribute.
pub fn probe_refusal(attr: u32, stop: DiagnoseStop) -> Refusal
    ensures { result ≡ probe_refusal attr stop }
{
    match stop {
        DiagnoseStop::Unfit { up, at } => Refusal::Overflow {
            place: StopPlace::Probe { attr, up },
            at,
        },
        DiagnoseStop::Spent { up, path } => Refusal::Spent {
            place: StopPlace::Probe { attr, up },
            path,
        },
        DiagnoseStop::Target { up } => Refusal::NoTarget { attr, up },
        DiagnoseStop::OutOfMemory => Refusal::OutOfMemory,
    }
}

/// The refusal for a stop of a trial.
pub fn core_refusal(stop: CoreStop) -> Refusal
    ensures { result ≡ core_refusal stop }
{
    match stop {
        CoreStop::Unfit { held, at } => Refusal::Overflow {
            place: StopPlace::Held(held),
            at,
        },
        CoreStop::Spent { held, path } => Refusal::Spent {
            place: StopPlace::Held(held),
            path,
        },
        CoreStop::OutOfMemory => Refusal::OutOfMemory,
    }
}

/// The refusal for a stop of a sweep.
pub fn sweep_refusal(stop: SweepStop) -> Refusal
    ensures { result ≡ sweep_refusal stop }
{
    match stop {
        SweepStop::Unfit { width, path, what } => Refusal::SweepOverflow { width, path, what },
        SweepStop::Spent { width, path } => Refusal::Spent {
            place: StopPlace::Sweep(width),
            path,
        },
        SweepStop::OutOfMemory => Refusal::OutOfMemory,
    }
}
