// The numbers of a view's attributes.
ghost use Rattle.std.specs.Prelude.{◌≡◌, ◌<◌};
ghost use Rattle.view_tree.specs.Attributes.{attributes_of};
ghost use Rattle.view_tree.specs.declared.limits.TheConstants.{ID_LIMIT};

use crate::view::ViewId;

/// The numbers of a view's attributes.
#[derive(Clone, Copy)]
pub struct Attributes {
    pub left: u32,
    pub top: u32,
    pub width: u32,
    pub height: u32,
}

impl ViewId {
    /// The numbers of the view's attributes. No two views share one.
    pub fn attributes(self) -> Attributes
        requires { self.0 < ID_LIMIT }
        ensures { result ≡ attributes_of self.0 }
    {
        let first = 4 * self.0 + 1;
        Attributes {
            left: first,
            top: first + 1,
            width: first + 2,
            height: first + 3,
        }
    }
}
