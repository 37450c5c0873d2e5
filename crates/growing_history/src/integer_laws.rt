// Laws on the numbers that values write.
ghost use Rattle.growing_history.specs.IntegerLaws.{CanonicalIntegerIsWritten, NoCanonicalInteger};

/// The number of a text is n exactly where n is from -2^63 to 2^63 - 1 and the text is its decimal, as it is written with no leading zero and no sign but `-`.
pub fn canonical_integer_is_written()
    ensures { CanonicalIntegerIsWritten }
{}

/// A text has no number exactly where it is the decimal of no number from -2^63 to 2^63 - 1.
pub fn no_canonical_integer()
    ensures { NoCanonicalInteger }
{}
