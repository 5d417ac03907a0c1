// A level's row at a corner.

use frac_core::Frac;

/// The cost of a level at a corner, in lowest terms. `own * unit` times the cost is the sum of three parts:
/// the outside lines' deviations, each times its number; `own` times the counts in units of the level's
/// inside lines; and `own * unit` times the cost at the corner.
#[derive(Drop)]
pub struct LevelSum {
    pub unit: i64,
    pub own: i64,
    pub by: Vec<i64>,
    pub cost: Frac,
}

/// The row of the level at a place of the outline.
#[derive(Clone, Copy)]
pub struct LevelRow<'a> {
    pub place: usize,
    pub sum: &'a LevelSum,
}
