// The meaning of single names and numbers.
ghost use Rattle.std.specs.Prelude.{◌≡◌, ℕ, ◌*◌, pos, Some, is_some, IfSome, IfNone};
ghost use Rattle.span_text.specs.declared.limits.TheConstants.{UNIT};
ghost use Rattle.view_tree.specs.Views.{view_named};
ghost use Rattle.compile_parts.specs.Meaning.{IsRowRank};

use frac_core::Frac;
use problem_core::REQUIRED;
use span_text::UNIT;
use view_tree::Tree;

/// Whether a live view has the name.
pub(crate) fn is_view(tree: &Tree, name: &str) -> bool
    ensures { result ≡ is_some (view_named tree.now.views name.now) }
{
    tree.find(name).is_some()
}

/// The rank of so many thousandths.
pub(crate) fn rank_of_thousandths(thousandths: i32) -> Option<u16>
    ensures some { IfSome result (λ r. (thousandths ≡ pos (r * UNIT)) × IsRowRank r) }
    ensures none { IfNone result ((r : ℕ) → thousandths ≡ pos (r * UNIT) → IsRowRank r → ⊥) }
{
    if thousandths <= 0 {
        return None;
    }
    let size = thousandths as u32;
    if size % UNIT != 0 || size > u32::from(REQUIRED) * UNIT {
        return None;
    }
    Some((size / UNIT) as u16)
}

// The rank of the fraction.
fn rank_of_fraction(f: Frac) -> Option<u16>
    ensures some { IfSome result (λ r. (f ≡ record { num = pos r; den = 1 }) × IsRowRank r) }
    ensures none { IfNone result ((r : ℕ) → f ≡ record { num = pos r; den = 1 } → IsRowRank r → ⊥) }
{
    let num = f.num();
    if f.den() == 1 && num > 0 && num <= i64::from(REQUIRED) {
        Some(num as u16)
    } else {
        None
    }
}

/// The rank of the metric's value, if there is a metric.
pub(crate) fn rank_of_metric(value: Option<Frac>) -> Option<u16>
    ensures some { IfSome result (λ r. (value ≡ Some (record { num = pos r; den = 1 })) × IsRowRank r) }
    ensures none { IfNone result ((r : ℕ) → value ≡ Some (record { num = pos r; den = 1 }) → IsRowRank r
        → ⊥) }
{
    rank_of_fraction(value?)
}
