// The contribution of each term to a row, without names of views.
ghost use Rattle.std.specs.Prelude.{◌≡◌, ℕ, IfSome, IfNone};
ghost use Rattle.problem_core.specs.Window.{zero_fraction};
ghost use Rattle.compile_parts.specs.Shares.{share_fraction, AreHalves};
ghost use Rattle.compile_parts.specs.Addends.{addend_view, IsKept};

use crate::shares::Share;
use frac_core::Frac;

/// The contribution of a term to a row.
#[derive(Clone, Copy)]
pub enum Addend<'a> {
    /// So many times an attribute of a view.
    Attr(Share),
    /// A number.
    Number(Frac),
    /// So many times the metric of this name.
    Multiple { by: Frac, name: &'a str },
    /// Nothing, as an attribute of no view.
    Nothing,
}

impl Addend<'_> {
    /// The contribution to the coefficients of attributes.
    pub fn share(&self) -> Option<Share>
        requires { IsKept self.now }
        ensures some { IfSome result (λ s. (v : ℕ) → (addend_view self.now).share v ≡ share_fraction s v) }
        ensures halves { IfSome result (λ s. AreHalves s.of) }
        ensures none { IfNone result ((v : ℕ) → (addend_view self.now).share v ≡ zero_fraction) }
    {
        match *self {
            Addend::Attr(share) => Some(share),
            Addend::Number(_) => None,
            Addend::Multiple { by: _, name: _ } => None,
            Addend::Nothing => None,
        }
    }
}
