// A law on one changed source pair.
ghost use Rattle.eager_apply.specs.Laws.{SetsOneRow};

/// Once a pair is applied, the value at its output key is the pair's, or none where it has none, and at every other key
/// what it was.
pub fn sets_one_row()
    ensures { SetsOneRow }
{}
