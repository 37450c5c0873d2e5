// Laws on patterns: what binds, what is filled and what overlaps.
ghost use Rattle.semantics.specs.PatternLaws.{BindIsLeast, FitsOverlap, FillFits, FitIsFill};

/// `bind` gives the least slots under which a key fits a pattern and of which the given slots are a part, and none exactly where there are no such slots.
pub fn bind_is_least()
    ensures { BindIsLeast }
{}

/// Two patterns that one key fits overlap.
pub fn fits_overlap()
    ensures { FitsOverlap }
{}

/// A filled key fits the pattern under the slots that it was filled from, and has at most 512 bytes.
pub fn fill_fits()
    ensures { FillFits }
{}

/// A key of at most 512 bytes that fits a pattern under slots is what they fill.
pub fn fit_is_fill()
    ensures { FitIsFill }
{}
