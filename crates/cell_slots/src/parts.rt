// In how many parts a range is kept.
ghost use Rattle.std.specs.Prelude.{◌≡◌, ◌<◌, ◌≤◌, true, false};
ghost use Rattle.key_ranges.specs.Ranges.{is_open};

use key_space::Range;

/// Of a range in more parts than this the gaps are not kept: else one scan over many kept ranges would take a cell for each gap.
const MOST_PARTS: usize = 64;

/// Says whether a range that is not empty is in so many parts that none of its gaps is to be kept: more than 64. Constant.
pub fn are_too_many(parts: usize, range: &Range) -> bool
    ensures open { result ≡ true → is_open range.now ≡ true }
    ensures many { result ≡ true → 64 < parts }
    ensures few { result ≡ false → is_open range.now ≡ true → parts ≤ 64 }
{
    range.lo() < range.hi() && parts > MOST_PARTS
}
