// Laws on the answers to reads.
ghost use Rattle.key_ranges.specs.AnswerLaws.{FirstOfJustIsFound, NoneOfJustIsAbsent};

/// What stands at a key is the pair in the range of just that key.
pub fn first_of_just_is_found()
    ensures { FirstOfJustIsFound }
{}

/// Where that range has no pair, nothing stands at the key.
pub fn none_of_just_is_absent()
    ensures { NoneOfJustIsAbsent }
{}
