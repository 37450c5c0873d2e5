// Laws on what changes in several ranges, and on passes that read.
ghost use Rattle.base_shards.specs.Laws.{OneRangeAlone, ReadingGoesOn};

/// Of one range alone what changes is the changed keys of the range.
pub fn one_range_alone()
    ensures { OneRangeAlone }
{}

/// A pass that reads on, and reads on again, has read on.
pub fn reading_goes_on()
    ensures { ReadingGoesOn }
{}
