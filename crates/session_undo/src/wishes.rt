// Suggestions and sizes of views: the first of its kind, or another constant of a held one.
use constraint_compile::Suggestion;
use held_items::IntrinsicSize;

/// A suggestion that may be held.
#[derive(Clone, Copy)]
pub enum NewSuggestion {
    /// The first of its attribute, which takes a row.
    First(Suggestion),
    /// One that is held, with another constant.
    Again(Suggestion),
}

/// A size of a view that may be held.
#[derive(Clone, Copy)]
pub enum NewIntrinsic {
    /// The first of its view, which takes four rows.
    First(IntrinsicSize),
    /// One that is held, with other constants.
    Again(IntrinsicSize),
}
