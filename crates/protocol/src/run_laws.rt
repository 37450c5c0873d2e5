// Laws on runs.

ghost use Rattle.protocol.specs.RunLaws.{OutcomeOfParts, ToldComposes};

/// Lines in two parts have the replies of the first part and then those of the second, which goes on from the history
/// that the first leaves, with its lines counted on; where the first part ends the session, nothing follows.
pub fn outcome_of_parts()
    ensures { OutcomeOfParts }
{}

/// What a client is told from one view to a second, and then from that to a third, it is told from the first to the third.
pub fn told_composes()
    ensures { ToldComposes }
{}
