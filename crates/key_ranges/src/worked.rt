// Worked rows: containing ranges that are narrowed by a slot of fixed width, and some that are not.
ghost use Rattle.key_ranges.specs.Worked.{BetweenTimes, BehindTime, WholeTimeline, FromTime, PartsOfTime, NoTime, WrongOrder, BetweenUsers, OtherSlot, OtherWidth, OtherUser, VaryingWidth, LowWithinCharacter, HighWithinCharacter, HighAtCharacter, TooLong, LongEnough, OneTooLong};

/// Between two times only the posts of these times are read.
pub fn between_times()
    ensures { BetweenTimes }
{}

/// A last bound that goes on behind a time leaves all posts of that time in.
pub fn behind_time()
    ensures { BehindTime }
{}

/// A whole timeline asks for all posts.
pub fn whole_timeline()
    ensures { WholeTimeline }
{}

/// From one time on there is no last bound to narrow by.
pub fn from_time()
    ensures { FromTime }
{}

/// Parts of a time narrow as well.
pub fn parts_of_time()
    ensures { PartsOfTime }
{}

/// An empty range of the output gives an empty one.
pub fn no_time()
    ensures { NoTime }
{}

/// Where bounds are in the wrong order, the last one is not set below the first.
pub fn wrong_order()
    ensures { WrongOrder }
{}

/// Between two users those are read whom these users follow.
pub fn between_users()
    ensures { BetweenUsers }
{}

/// The posters whom a user follows are not in the order of times.
pub fn other_slot()
    ensures { OtherSlot }
{}

/// A slot of another width is another one.
pub fn other_width()
    ensures { OtherWidth }
{}

/// The slots of another user than the range's do not narrow.
pub fn other_user()
    ensures { OtherUser }
{}

/// A slot of varying width does not narrow, since keys are not in the order of its texts.
pub fn varying_width()
    ensures { VaryingWidth }
{}

/// A narrowed first bound ends at a character.
pub fn low_within_character()
    ensures { LowWithinCharacter }
{}

/// A last bound that would end within a character stays.
pub fn high_within_character()
    ensures { HighWithinCharacter }
{}

/// One that ends at a character is cut there.
pub fn high_at_character()
    ensures { HighAtCharacter }
{}

/// Bounds of more than 513 bytes are not used.
pub fn too_long()
    ensures { TooLong }
{}

/// Bounds of 513 bytes are.
pub fn long_enough()
    ensures { LongEnough }
{}

/// Each bound is used by itself.
pub fn one_too_long()
    ensures { OneTooLong }
{}
