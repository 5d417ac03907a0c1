// The parts of a format.
ghost use Rattle.std.specs.Prelude.{◌≡◌, ◌+◌};
ghost use Rattle.std.specs.Vec.{vec_len};

use problem_core::Rel;
use span_text::Object;

/// The direction of a format.
#[derive(Clone, Copy)]
pub enum Axis {
    H,
    V,
}

/// What a size or a space is to be, and how strongly: with no priority it is required.
#[derive(Clone, Copy)]
pub struct Pred<'a> {
    pub rel: Rel,
    pub object: Object<'a>,
    pub priority: Option<Object<'a>>,
}

/// A connection of two neighbours.
#[derive(Drop)]
pub enum Spacing<'a> {
    /// No space.
    Flush,
    /// The space that is usual there.
    Standard,
    /// The space that each of the predicates asks for, which are at least one in a format that was read.
    Given(Vec<Pred<'a>>),
}

/// A view and what its size along the format is to be.
#[derive(Drop)]
pub struct Item<'a> {
    pub name: &'a str,
    pub sizes: Vec<Pred<'a>>,
}

/// A row or a column of views, from left to right or from top to bottom. A parent may stand at either end.
#[derive(Drop)]
pub struct Format<'a> {
    pub axis: Axis,
    pub from_parent: Option<Spacing<'a>>,
    pub items: Vec<Item<'a>>,
    pub spacings: Vec<Spacing<'a>>,
    pub to_parent: Option<Spacing<'a>>,
    ghost between: { vec_len spacings + 1 ≡ vec_len items },
}

impl<'a> Item<'a> {
    /// What the view's size along the format is to be.
    pub fn sizes(&self) -> &[Pred<'a>]
        ensures { result.now ≡ self.now.sizes.items }
    {
        &self.sizes
    }
}

impl<'a> Format<'a> {
    /// The views in order, at least one.
    pub fn items(&self) -> &[Item<'a>]
        ensures { result.now ≡ self.now.items.items }
    {
        &self.items
    }

    /// The connections between the views, in order.
    pub fn spacings(&self) -> &[Spacing<'a>]
        ensures { result.now ≡ self.now.spacings.items }
    {
        &self.spacings
    }
}
