// Laws on what changed between two positions.
ghost use Rattle.growing_history.specs.ListLaws.{ChangesTurn, ChangesAscend, ChangesAreThose, ChangesAmongKeys, ChangesOfPairs};

/// Setting and taking out the listed keys turns the earlier pairs of the range into the later ones.
pub fn changes_turn()
    ensures { ChangesTurn }
{}

/// The keys that are listed ascend, each once.
pub fn changes_ascend()
    ensures { ChangesAscend }
{}

/// Exactly those keys of the range are listed that have not the same pair at both positions, with their later values.
pub fn changes_are_those()
    ensures { ChangesAreThose }
{}

/// Of ascending keys of the range, among which is each one that changed, those that changed are what is listed.
pub fn changes_among_keys()
    ensures { ChangesAmongKeys }
{}

/// What is listed is told by the pairs of the range alone.
pub fn changes_of_pairs()
    ensures { ChangesOfPairs }
{}
