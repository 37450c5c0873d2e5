// The writes of a line of entries, one after another.
ghost use Rattle.std.specs.Prelude.{◌≡◌, ℕ, ◌+◌, drop, map};
ghost use Rattle.follow_node.specs.Replicas.{TakesSome};
ghost use Rattle.follow_node.specs.Fed.{writes_of};

use crate::{Replica, Taken};
use join_types::Entry;

/// Gives the replica the writes of the entries but the first `taken`, which it has, in order, and counts them. `Done`: it has all.
/// `Refused`, `OutOfMemory`: it refused the next one, or found no memory for it.
pub fn take_entries<R: Replica>(replica: &mut R, entries: Vec<Entry>, taken: &mut u64) -> Taken
    ensures taken { (n : ℕ) × (taken.new ≡ taken.old + n)
        × TakesSome (R.writes replica.old) (drop taken.old (writes_of entries.items)) result n (R.writes replica.new) }
{
    let mut skipped = *taken;
    for entry in entries {
        if skipped > 0 {
            skipped -= 1;
            continue;
        }
        match replica.take(entry.write) {
            Taken::Done => *taken += 1,
            other => return other,
        }
    }
    Taken::Done
}
