// Laws on the state as what the joins make of the state itself, with no ranks.
ghost use Rattle.growing_history.specs.FixedPointLaws.{StateIsFixedPoint, FixedPointIsState};

/// Where the joins that stand are admissible, the state has at each key of an output what that join makes of the state itself, and at every other key what is visible.
pub fn state_is_fixed_point()
    ensures { StateIsFixedPoint }
{}

/// The state is the only such table with ascending keys.
pub fn fixed_point_is_state()
    ensures { FixedPointIsState }
{}
