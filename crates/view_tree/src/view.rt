// A view as a caller sees it.

/// The number of a view. The window's is 0, and no two live views have the same.
#[derive(Clone, Copy, Debug, PartialEq, Eq)]
pub struct ViewId(pub u32);

/// A live view. The window alone has no parent.
#[derive(Clone, Copy)]
pub struct View<'a> {
    pub id: ViewId,
    pub name: &'a str,
    pub parent: Option<ViewId>,
}
