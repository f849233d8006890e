//! Laws of closed footpaths.
ghost use Rattle.footpaths.specs.Closure.{ClosuresAreUnique, TooManyHaveNoClosure};

/// A law: two closures of the same direct footpaths within the same limit are one.
pub fn closures_are_unique()
    ensures { ClosuresAreUnique }
{}

/// A law: footpaths that are too many have no closure.
pub fn too_many_have_no_closure()
    ensures { TooManyHaveNoClosure }
{}
