// The generator: its states, and the numbers that are drawn from them.
ghost use Rattle.std.specs.Prelude.{◌≡◌, ◌<◌};
ghost use Rattle.make_script.specs.Draws.{drawn, next};

/// The state after this one.
pub(crate) fn next_state(state: u64) -> u64
    ensures { result ≡ next state }
{
    state.wrapping_mul(5).wrapping_add(7)
}

/// The number below a bound that the state gives.
pub(crate) fn draw(bound: u64, state: u64) -> u64
    requires { 0 < bound }
    ensures value { result ≡ drawn bound state }
    ensures small { result < bound }
{
    state / 4 % bound
}
