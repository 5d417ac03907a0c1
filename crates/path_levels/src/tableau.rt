// The kept parts of a corner of a problem.

use crate::outline::Outline;
use crate::sums::LevelSum;
use path_lines::Inside;

/// A corner's lines, and the outline of the problem whose lines they are.
#[derive(Clone, Copy)]
pub struct CornerLines<'a> {
    pub outline: &'a Outline,
    pub lines: &'a [Option<Inside>],
}

/// A corner's tableau: its lines, and the row of each level of the outline.
#[derive(Clone, Copy)]
pub struct Tableau<'a> {
    pub corner: CornerLines<'a>,
    pub levels: &'a [LevelSum],
}
