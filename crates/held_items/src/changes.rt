// How far a constant moves, and the changes of the window's size.
ghost use Rattle.std.specs.Prelude.{◌≡◌, ◌<◌, true, false};
ghost use Rattle.problem_core.specs.declared.limits.TheConstants.{NUMBER_LIMIT};
ghost use Rattle.held_items.specs.Moving.{FitsAfter, size_changes};

use crate::item::WindowSize;
use frac_core::Frac;
use layout_solver::Change;

/// Whether the second constant minus the first fits.
pub fn fits_after(from: Frac, to: Frac) -> bool
    ensures yes { result ≡ true → FitsAfter from to }
    ensures no { result ≡ false → FitsAfter from to → ⊥ }
{
    match Frac::mul_add(to, -1, 1, from) {
        Ok(_) => true,
        Err(_) => false,
    }
}

/// Whether the second size minus the first fits.
pub fn is_near_size(from: &WindowSize, to: &WindowSize) -> bool
    ensures yes { result ≡ true
        → FitsAfter from.now.width to.now.width × FitsAfter from.now.height to.now.height }
    ensures no { result ≡ false
        → FitsAfter from.now.width to.now.width × FitsAfter from.now.height to.now.height → ⊥ }
{
    fits_after(from.width, to.width) && fits_after(from.height, to.height)
}

/// The constants of the two rows of the window's size. The first has this number.
pub fn size_changes(first_row: u32, size: &WindowSize) -> [Change; 2]
    requires { first_row < NUMBER_LIMIT }
    ensures { result ≡ size_changes first_row size.now.width size.now.height }
{
    [
        Change {
            row: first_row,
            constant: size.width,
        },
        Change {
            row: first_row + 1,
            constant: size.height,
        },
    ]
}
