// Laws on what noted slots cover and meet.
ghost use Rattle.lazy_log.specs.Laws.{CoveredIsMet};

/// Slots that cover a key of a range meet the range.
pub fn covered_is_met()
    ensures { CoveredIsMet }
{}
