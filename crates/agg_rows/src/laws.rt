// Laws on setting a listed pair.
ghost use Rattle.agg_rows.specs.Laws.{SetListsPair, SetKeepsOthers, SetLeavesListed};

/// The pairs of the group are the old ones with the value at the source key, or with none there.
pub fn set_lists_pair()
    ensures { SetListsPair }
{}

/// The pairs of each other group are as before.
pub fn set_keeps_others()
    ensures { SetKeepsOthers }
{}

/// Output keys and source keys still ascend, and no group is without a pair.
pub fn set_leaves_listed()
    ensures { SetLeavesListed }
{}
