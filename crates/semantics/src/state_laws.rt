// Laws on the state: its keys ascend, and what decides the value at a key.
ghost use Rattle.semantics.specs.StateLaws.{StateIsSorted, StateElsewhere, StateOfOutput};

/// The keys of the state after a history ascend, each once.
pub fn state_is_sorted()
    ensures { StateIsSorted }
{}

/// At a key that fits no output of the joins that stand, the state has what is visible there.
pub fn state_elsewhere()
    ensures { StateElsewhere }
{}

/// At a key that fits the output of a join of an admissible set, the state has what that join makes of the state below its rank.
pub fn state_of_output()
    ensures { StateOfOutput }
{}
