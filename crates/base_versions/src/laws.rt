// Laws on versions and changes.
ghost use Rattle.base_versions.specs.Laws.{ValueInIsBase, ChangedInIsChanged};

/// The version of a key at a position is its base pair there.
pub fn value_in_is_base()
    ensures { ValueInIsBase }
{}

/// The changes of a table say which keys of its ranges the entries put or remove.
pub fn changed_in_is_changed()
    ensures { ChangedInIsChanged }
{}
