// Room of queues from whose front elements go.
ghost use Rattle.std.specs.Prelude.{◌≡◌};

use std::collections::VecDeque;

/// A queue with room for no more than this keeps it.
const ROOM_KEPT: usize = 64;

/// Lets go of room that a queue does not need: of all where it is empty, and where it has room for more than 64 and for four times
/// as many as it has. Else what was written often once would keep its room for ever. Constant over many calls.
pub(crate) fn let_room_go<T: Drop>(queue: &mut VecDeque<T>)
    ensures { queue.new.items ≡ queue.old.items }
{
    let room = queue.capacity();
    if queue.is_empty() || (ROOM_KEPT < room && queue.len() <= room / 4) {
        queue.shrink_to_fit();
    }
}
