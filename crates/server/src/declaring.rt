// Which joins are declared, as a part of types.
use std::marker::Brand;

/// Names the joins that are declared before any link is served, in contracts alone: the first client of `staff` has written their
/// declarations, and the others have seen them first.
pub trait Declaring {
    ghost use Rattle.std.specs.Prelude.{List};
    ghost use Rattle.semantics.specs.Joins.{Join};

    /// Which joins, in order.
    ghost joins: { List Join };
}

/// The joins that a call picks.
impl Declaring for Brand {
    ghost use Rattle.std.specs.Prelude.{[]};

    ghost joins = { [] };
}
