// Laws on readings: what a rank is, and which cycle is the least.
ghost use Rattle.semantics.specs.GraphLaws.{RankIsOneMore, CycleIsLeast};

/// Without a cycle a rank is 0 where nothing is read, otherwise one more than the greatest rank that is read.
pub fn rank_is_one_more()
    ensures { RankIsOneMore }
{}

/// There is a least cycle exactly where one goes through the vertex: no other is shorter, and none as short is less.
pub fn cycle_is_least()
    ensures { CycleIsLeast }
{}
