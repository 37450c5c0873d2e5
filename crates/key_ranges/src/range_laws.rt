// Laws on ranges.
ghost use Rattle.key_ranges.specs.RangeLaws.{CutIsCommonPart, CutIsOpen, HoldersMeet, MeetIsShared, CutIsRange, PrefixRangeHolds, PrefixRangeIsRange, JustHolds, JustIsRange, JustIsSingle, SingleHoldsFirst};

/// The common part of two ranges holds the keys that both hold; there is none only where they hold none in common.
pub fn cut_is_common_part()
    ensures { CutIsCommonPart }
{}

/// The common part of two ranges is not empty; so there is one exactly where they hold a key in common.
pub fn cut_is_open()
    ensures { CutIsOpen }
{}

/// Two ranges that hold one key meet.
pub fn holders_meet()
    ensures { HoldersMeet }
{}

/// Each of two ranges that meet holds the greater of their first bounds.
pub fn meet_is_shared()
    ensures { MeetIsShared }
{}

/// The common part of two ranges is a range.
pub fn cut_is_range()
    ensures { CutIsRange }
{}

/// A prefix range holds the keys that begin with its text.
pub fn prefix_range_holds()
    ensures { PrefixRangeHolds }
{}

/// The prefix range of a key that ends with `|` is a range.
pub fn prefix_range_is_range()
    ensures { PrefixRangeIsRange }
{}

/// The range of one key holds it alone.
pub fn just_holds()
    ensures { JustHolds }
{}

/// The range of one key is a range.
pub fn just_is_range()
    ensures { JustIsRange }
{}

/// The range of one key is single.
pub fn just_is_single()
    ensures { JustIsSingle }
{}

/// A single range holds its first bound alone.
pub fn single_holds_first()
    ensures { SingleHoldsFirst }
{}
