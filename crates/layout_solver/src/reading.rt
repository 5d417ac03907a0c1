// Lookups in rows and stays.
ghost use Rattle.std.specs.Prelude.{◌≡◌, ℕ, true, false, Any, IfSome, IfNone};
ghost use Rattle.problem_core.specs.Layout.{HasStay, Problem};
ghost use Rattle.problem_core.specs.Levels.{IsLevelAt};
ghost use Rattle.corner_view.specs.Seen.{IsLevelOf};

use problem_core::{Level, REQUIRED, Row, Stay};

/// Whether an attribute has a stay.
pub(crate) fn has_stay(stays: &[Stay], attr: u32) -> bool
    ensures yes { result ≡ true → HasStay stays.now attr }
    ensures no { result ≡ false → HasStay stays.now attr → ⊥ }
{
    stays.iter().any(|stay| stay.attr == attr)
}

/// Whether a problem with these stays has the level.
pub(crate) fn has_level(stays: &[Stay], level: Level) -> bool
    ensures yes { (p : Problem) → p.stays ≡ stays.now → result ≡ true → IsLevelOf p level }
    ensures no { (p : Problem) → p.stays ≡ stays.now → result ≡ false → (k : ℕ) → IsLevelAt p level k → ⊥ }
{
    match level {
        Level::Priority(rank) => rank <= REQUIRED,
        Level::Stay(attr) => has_stay(stays, attr),
    }
}

/// The row with the number.
pub(crate) fn row_of(rows: &[Row], id: u32) -> Option<&Row>
    ensures some { IfSome result (λ held. (held.now.id ≡ id) × Any (λ r. r ≡ held.now) rows.now) }
    ensures none { IfNone result (Any (λ r. r.id ≡ id) rows.now → ⊥) }
{
    rows.iter().find(|row| row.id() == id)
}
