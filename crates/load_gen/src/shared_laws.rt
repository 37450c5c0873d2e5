// Laws on a load that workers share.
ghost use Rattle.load_gen.specs.Shares.{SharedLoadIsLoad};

/// However the entries of the workers interleave, the tables hold in the end what they hold where one client does all acts in
/// order, after as many entries: each key that is written names its poster, so that the writes of one key are one worker's.
pub fn shared_load_is_load()
    ensures { SharedLoadIsLoad }
{}
