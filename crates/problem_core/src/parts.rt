// The parts of a layout problem that are plain data.
ghost use Rattle.std.specs.Prelude.{◌≡◌};
ghost use Rattle.problem_core.specs.Layout.{rel_word};

use frac_core::Frac;

/// The relation of a row's left side to its constant.
#[derive(Clone, Copy, Debug, PartialEq, Eq)]
pub enum Rel {
    Eq,
    Le,
    Ge,
}

impl Rel {
    /// The sign, as a line of a script or of a problem has it.
    pub fn word(self) -> &'static str
        ensures { result.now ≡ rel_word self }
    {
        match self {
            Rel::Eq => "==",
            Rel::Le => "<=",
            Rel::Ge => ">=",
        }
    }
}

/// The two deviations of a row from its constant.
#[derive(Clone, Copy, Debug, PartialEq, Eq)]
pub enum Side {
    Under,
    Over,
}

/// A held row by its number, or the row of an attribute's stay.
#[derive(Clone, Copy, Debug, PartialEq, Eq)]
pub enum RowName {
    Held(u32),
    Stay(u32),
}

/// One of the two deviations of a row.
#[derive(Clone, Copy, Debug, PartialEq, Eq)]
pub struct Mark {
    pub row: RowName,
    pub side: Side,
}

/// The rows of one priority, or the stay of one attribute by itself.
#[derive(Clone, Copy, Debug, PartialEq, Eq)]
pub enum Level {
    Priority(u16),
    Stay(u32),
}

/// An attribute times a whole number.
#[derive(Clone, Copy, Debug, PartialEq, Eq)]
pub struct Term {
    pub attr: u32,
    pub by: i64,
}

/// An attribute and the value that it is drawn to.
#[derive(Clone, Copy, Debug, PartialEq, Eq)]
pub struct Stay {
    pub attr: u32,
    pub target: Frac,
}
