// Further laws on the sets of joins that may stand.
ghost use Rattle.growing_history.specs.AdmissibleLaws.{JoinsWhereAdmissible, DeclaresWhereAdmissible, PartIsAdmissible, DropsWhereStanding};

/// A join has no cause against it exactly where the admissible set stays admissible with it.
pub fn joins_where_admissible()
    ensures { JoinsWhereAdmissible }
{}

/// Where the joins that stand are admissible, the verdict of a declaration is none exactly where the history has room, no put or remove has entered before, and the joins are admissible with the new one.
pub fn declares_where_admissible()
    ensures { DeclaresWhereAdmissible }
{}

/// A set without some of its joins is admissible where the set is.
pub fn part_is_admissible()
    ensures { PartIsAdmissible }
{}

/// A drop has no cause against it exactly where there is room and a join with the position stands.
pub fn drops_where_standing()
    ensures { DropsWhereStanding }
{}
