// Laws on the ids that have to go.
ghost use Rattle.evict_book.specs.Books.{LeftFits, VictimsGoFirst, VictimsAreFewest};

/// What is left weighs no more than the limit together.
pub fn left_fits()
    ensures { LeftFits }
{}

/// The ids that go are the first ones, and the others are left.
pub fn victims_go_first()
    ensures { VictimsGoFirst }
{}

/// With fewer gone the others would weigh more than the limit together.
pub fn victims_are_fewest()
    ensures { VictimsAreFewest }
{}
