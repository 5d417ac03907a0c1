// The values of attributes.
ghost use Rattle.std.specs.Prelude.{◌≡◌, IfOk};
ghost use Rattle.problem_core.specs.Gaps.{value_of};
ghost use Rattle.problem_core.specs.Kept.{AreRising};

use frac_core::{Frac, OutOfMemory};
use std::alloc::Global;
use std::marker::Model;

/// Attributes with their values, by rising attribute.
#[derive(Clone, Debug, Drop)]
pub struct Values {
    pairs: Vec<(u32, Frac)>,
}

impl Model for Values {
    ghost use Rattle.std.specs.Prelude.{List, ℕ};
    ghost use Rattle.frac_core.specs.Fraction.{Fraction};
    ghost use Rattle.problem_core.specs.Kept.{AreRising};

    ghost Value = { List (ℕ × Fraction) };

    ghost view = { λ v. v.pairs.items };

    ghost invariant = { λ v. AreRising v.pairs.items };
}

impl Values {
    /// The values with just these pairs, whose attributes must rise.
    pub fn of(alloc: Global, pairs: &[(u32, Frac)]) -> Result<Values, OutOfMemory>
        requires { AreRising pairs.now }
        ensures { IfOk result (λ v. v ≡ pairs.now) }
    {
        Ok(Values {
            pairs: Vec::from_slice(alloc, pairs)?,
        })
    }

    /// The pairs, by rising attribute.
    pub fn pairs(&self) -> &[(u32, Frac)]
        ensures { result.now ≡ self.now }
    {
        &self.pairs
    }

    /// The attribute's value, 0 where it has none.
    pub fn value(&self, attr: u32) -> Frac
        ensures { result ≡ value_of self.now attr }
    {
        for (number, value) in self.pairs() {
            if *number == attr {
                return *value;
            }
        }
        Frac::zero()
    }
}
