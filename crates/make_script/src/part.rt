// The parts of a script that have a line for each of many views.
ghost use Rattle.std.specs.Prelude.{◌≡◌};
ghost use Rattle.make_script.specs.Script as made;

use crate::draws::next_state;

/// A part of a script, with a line for each of many views.
#[derive(Clone, Copy, Debug, PartialEq, Eq)]
pub enum Part {
    /// The views.
    Views,
    /// How far each view is from the left, and its width.
    Sizes,
    /// The height of each view but the last, and the view below it.
    Stacks,
    /// By how much each view but the first is wider than the one before.
    Widths,
    /// A suggested width of each view.
    Suggestions,
}

impl Part {
    /// The state after a line of this part that was drawn from a state.
    pub(crate) fn state_after(self, state: u64) -> u64
        ensures { result ≡ made.state_after self state }
    {
        match self {
            Part::Views => state,
            Part::Sizes => next_state(next_state(next_state(state))),
            Part::Widths => next_state(next_state(state)),
            Part::Stacks | Part::Suggestions => next_state(state),
        }
    }
}
