// Multipliers that show a conflict.
ghost use Rattle.std.specs.Prelude.{◌≡◌, IfOk};
ghost use Rattle.cert_core.specs.Claims.{AreBys};

use crate::by::By;
use frac_core::OutOfMemory;
use std::alloc::Global;
use std::marker::Model;

/// Rows with their multipliers, which claim that the required rows have no solution.
#[derive(Clone, Debug, Drop)]
pub struct Conflict {
    by: Vec<By>,
}

impl Model for Conflict {
    ghost use Rattle.std.specs.Prelude.{List};
    ghost use Rattle.cert_core.specs.declared.by.By.{By};
    ghost use Rattle.cert_core.specs.Claims.{AreBys};

    ghost Value = { List By };

    ghost view = { λ c. c.by.items };

    ghost invariant = { λ c. AreBys c.by.items };
}

impl Conflict {
    /// The claim with just these multipliers, which fit and are of different rows.
    pub fn of(alloc: Global, by: &[By]) -> Result<Conflict, OutOfMemory>
        requires { AreBys by.now }
        ensures { IfOk result (λ c. c ≡ by.now) }
    {
        Ok(Conflict {
            by: Vec::from_slice(alloc, by)?,
        })
    }

    /// The rows with their multipliers.
    pub fn by(&self) -> &[By]
        ensures value { result.now ≡ self.now }
        ensures kept { AreBys self.now }
    {
        &self.by
    }
}
