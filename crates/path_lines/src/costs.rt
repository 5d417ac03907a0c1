// The costs of a line's deviations.
ghost use Rattle.std.specs.Prelude.{◌≡◌, pos};
ghost use Rattle.problem_core.specs.Certificates.{over_weight, under_weight};

use problem_core::Rel;

/// The costs of a deviation below and of one above.
pub fn weights(rel: Rel, weight: u16) -> (i64, i64)
    ensures under { result.0 ≡ pos (under_weight rel weight) }
    ensures over { result.1 ≡ pos (over_weight rel weight) }
{
    let weight = i64::from(weight);
    match rel {
        Rel::Eq => (weight, weight),
        Rel::Ge => (weight, 0),
        Rel::Le => (0, weight),
    }
}
