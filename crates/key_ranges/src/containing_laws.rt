// Laws on the slots that ranges share, on the prefix ranges of patterns, and on containing ranges.
ghost use Rattle.key_ranges.specs.ContainingLaws.{SharedIsLongest, BindRangeIsLeast, BindRangeIsShared, BindRangeGivesSlots, RangeSlotsAreShared, RangeSlotsAreSlots, RangeSlotsAreOfOutput, RangeSlotsAddToShared, PatternRangeHolds, PatternRangeIsRange, PatternRangeIsExact, PatternRangeBeginsWithKey, FirstOpenFollowsFixed, OpenAfterShared, ContainingHolds, ContainingIsRange, ContainingLiesInPrefix, OnlyHasPlaces, OnlyIsGiven};

/// The shared beginning of a range is the longest beginning of its first bound that ends with `|` and whose range holds
/// both bounds.
pub fn shared_is_longest()
    ensures { SharedIsLongest }
{}

/// The slots that a range of an output shares are the least under which the output's first segments take those of the
/// shared beginning; there are none exactly where they take them under no slots, or no segment is left.
pub fn bind_range_is_least()
    ensures { BindRangeIsLeast }
{}

/// The slots that a range of an output shares are a part of those of each key of the range that fits the output.
pub fn bind_range_is_shared()
    ensures { BindRangeIsShared }
{}

/// The texts of the shared slots may stand for segments, in 16 places.
pub fn bind_range_gives_slots()
    ensures { BindRangeGivesSlots }
{}

/// The slots of a range are a part of those of each key of the range that fits the output.
pub fn range_slots_are_shared()
    ensures { RangeSlotsAreShared }
{}

/// The texts of the slots of a range may stand for segments, in 16 places.
pub fn range_slots_are_slots()
    ensures { RangeSlotsAreSlots }
{}

/// The slots of a range have texts for places of the output alone.
pub fn range_slots_are_of_output()
    ensures { RangeSlotsAreOfOutput }
{}

/// The slots that a range shares are a part of its slots.
pub fn range_slots_add_to_shared()
    ensures { RangeSlotsAddToShared }
{}

/// Every key that fits a pattern under slots of which the given ones are a part lies in its prefix range.
pub fn pattern_range_holds()
    ensures { PatternRangeHolds }
{}

/// The prefix range of a pattern is a range.
pub fn pattern_range_is_range()
    ensures { PatternRangeIsRange }
{}

/// The prefix range of a pattern holds those keys alone whose segments begin with the pattern's fixed texts, and all of
/// them; there is none only where no such key has at most 512 bytes.
pub fn pattern_range_is_exact()
    ensures { PatternRangeIsExact }
{}

/// The first bound of a pattern's prefix range is a key, which it holds; so there is a range exactly where the segments of
/// some key of at most 512 bytes begin with the fixed texts.
pub fn pattern_range_begins_with_key()
    ensures { PatternRangeBeginsWithKey }
{}

/// The first open segment of a pattern is the one that follows its fixed texts.
pub fn first_open_follows_fixed()
    ensures { FirstOpenFollowsFixed }
{}

/// The segment that follows the shared texts of a range is found exactly where the slots that the range shares are a part
/// of the given ones; it is the one at that place.
pub fn open_after_shared()
    ensures { OpenAfterShared }
{}

/// Every key that fits a source together with an output key of the range, under slots of which the given ones are a part,
/// lies in the containing range.
pub fn containing_holds()
    ensures { ContainingHolds }
{}

/// A containing range is a range.
pub fn containing_is_range()
    ensures { ContainingIsRange }
{}

/// A containing range lies in the prefix range of the source; there is none only where the source has no prefix range.
pub fn containing_lies_in_prefix()
    ensures { ContainingLiesInPrefix }
{}

/// The slots of one pattern alone have 16 places.
pub fn only_has_places()
    ensures { OnlyHasPlaces }
{}

/// The slots of one pattern alone have the given text at each place that occurs among the pattern's slots, and none at
/// every other place.
pub fn only_is_given()
    ensures { OnlyIsGiven }
{}
