// Laws on what is the same at all positions between two.
ghost use Rattle.layering.specs.SameLaws.{SameBelowNext, SameBelowNextWithin, SameWhereBare, SameThrough};

/// Where the same joins stand, the same stands at a key below the next rank where it does below the rank and the joins of the rank
/// make the same there.
pub fn same_below_next()
    ensures { SameBelowNext }
{}

/// At a key of a range it is enough that those joins of the rank make the same that the range reaches.
pub fn same_below_next_within()
    ensures { SameBelowNextWithin }
{}

/// At a key of a range that is bare at all positions from one to another, what stands below any rank is the same where the
/// base pair is.
pub fn same_where_bare()
    ensures { SameWhereBare }
{}

/// What is the same from one position to a second and from there to a third is the same all the way.
pub fn same_through()
    ensures { SameThrough }
{}
