// Laws on kept ranges over histories that grow, and on their notes.
ghost use Rattle.kept_ranges.specs.SoundLaws.{NotedInOrder, NotedKeepsLater, SoundOverLonger, FilledIsSound, AdvancedIsSound, RelistedIsSound, MendedIsSound};

/// Added notes stay in the order in which they were made, and their start does not fall.
pub fn noted_in_order()
    ensures { NotedInOrder }
{}

/// No note is lost that was made after the position at which the notes start.
pub fn noted_keeps_later()
    ensures { NotedKeepsLater }
{}

/// What is right for a history is right for each longer one.
pub fn sound_over_longer()
    ensures { SoundOverLonger }
{}

/// A range that is filled at a position is right there.
pub fn filled_is_sound()
    ensures { FilledIsSound }
{}

/// A range of a copy join that is advanced is right at the later position.
pub fn advanced_is_sound()
    ensures { AdvancedIsSound }
{}

/// A range of an aggregate that is advanced is right at the later position.
pub fn relisted_is_sound()
    ensures { RelistedIsSound }
{}

/// A range of a copy join of which pending slots are mended is right where it stands.
pub fn mended_is_sound()
    ensures { MendedIsSound }
{}
