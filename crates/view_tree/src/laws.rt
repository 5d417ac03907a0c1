// What follows from the definitions alone.
ghost use Rattle.view_tree.specs.Laws.{DepthIsUnique, NumbersRise};

/// A view has at most one depth.
pub fn depth_is_unique()
    ensures { DepthIsUnique }
{}

/// The views of a branch are so many as its size, and their numbers go up one by one from the next one.
pub fn numbers_rise()
    ensures { NumbersRise }
{}
