// The meaning of the answer on a path, each law the contract of a function that does nothing.
ghost use Rattle.path_claims.specs.PathClauses.{PathIsItsClauses, YesIsPath};
ghost use Rattle.path_claims.specs.Instances.{SomePathsHold};

/// A path is lawful exactly if its clauses hold.
pub fn path_is_its_clauses()
    ensures { PathIsItsClauses }
{}

/// The clauses of a path and its quantity hold exactly if it is a path, and the quantity doesn't fit at its
/// last corner.
pub fn yes_is_path()
    ensures { YesIsPath }
{}

/// The definitions of the first four clauses hold of some small paths, and fail of others.
pub fn some_paths_hold()
    ensures { SomePathsHold }
{}
