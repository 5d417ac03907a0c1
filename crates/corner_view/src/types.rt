// What a corner's readings answer with.
use problem_core::{Level, RowName};

/// What a place in the order of a corner's attributes and lines is of.
#[derive(Clone, Copy, Debug, PartialEq, Eq)]
pub enum Owner {
    Level,
    Attr(u32),
    Line(RowName),
}

/// The first level at which a mark's reduced cost is not 0, and this cost.
#[derive(Clone, Copy, Debug, PartialEq, Eq)]
pub struct Front {
    pub level: Level,
    pub reduced: i64,
}

/// The fronts of a line's marks.
#[derive(Clone, Copy, Debug)]
pub struct Fronts {
    pub under: Option<Front>,
    pub over: Option<Front>,
}
