// The order of two quotients whose cross products would not fit.
ghost use Rattle.std.specs.Prelude.{◌≡◌, ◌<◌, ◌*◌, ◌<ℤ◌, ◌*ℤ◌, pos};
ghost use Rattle.std.specs.Ordering.{nat_cmp, int_cmp};

use std::cmp::Ordering;

// The order of a/b and c/d, by successive quotients: where the whole parts are equal, a/b stands to c/d as
// the reciprocals of what is left stand to each other the other way round.
fn cmp_sizes(mut a: u128, mut b: u128, mut c: u128, mut d: u128) -> Ordering
    requires b { 0 < b }
    requires d { 0 < d }
    ensures { result ≡ nat_cmp (a * d) (c * b) }
{
    loop {
        let (whole_left, whole_right) = (a / b, c / d);
        let (rest_left, rest_right) = (a % b, c % d);
        if whole_left != whole_right {
            return whole_left.cmp(&whole_right);
        }
        if rest_left == 0 || rest_right == 0 {
            return rest_left.cmp(&rest_right);
        }
        a = d;
        c = b;
        b = rest_right;
        d = rest_left;
    }
}

/// The order of a/b and c/d, for any numbers whose denominators are above 0.
pub fn cmp_wide(a: i128, b: i128, c: i128, d: i128) -> Ordering
    requires b { pos 0 <ℤ b }
    requires d { pos 0 <ℤ d }
    ensures { result ≡ int_cmp (a *ℤ d) (c *ℤ b) }
{
    let (left, right) = (a.unsigned_abs(), c.unsigned_abs());
    let (left_den, right_den) = (b.unsigned_abs(), d.unsigned_abs());
    match (a < 0, c < 0) {
        (true, false) => Ordering::Less,
        (false, true) => Ordering::Greater,
        (false, false) => cmp_sizes(left, left_den, right, right_den),
        (true, true) => cmp_sizes(right, right_den, left, left_den),
    }
}
