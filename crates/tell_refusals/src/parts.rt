// What explanations read of a session.
use frac_core::Frac;
use name_tables::Metrics;
use problem_core::{Problem, Row};
use view_tree::Tree;

/// How many lines, rows and views a session may hold, and its greatest budget.
#[derive(Clone, Copy)]
pub struct Most {
    pub lines: usize,
    pub rows: usize,
    pub views: usize,
    pub budget: u64,
}

/// The parts of a session. Some causes alone need the last three.
#[derive(Clone, Copy)]
pub struct Parts<'a> {
    pub tree: &'a Tree,
    pub metrics: &'a Metrics,
    /// The rows of all that is held, by rising number.
    pub rows: &'a [Row],
    pub most: Most,
    /// For a conflict: the problem that the line would solve.
    pub problem: Option<&'a Problem>,
    /// For an unknown group: the groups that hold lines.
    pub groups: &'a [&'a [u8]],
    /// For ambiguous attributes: the values of all attributes, by number.
    pub values: &'a [(u32, Frac)],
}
