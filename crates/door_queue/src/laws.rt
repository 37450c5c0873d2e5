// Laws on doors.
ghost use Rattle.door_queue.specs.Runs.{KeptIsTakenOrLeft};

/// Each item that was kept was taken once, in the order of keeping, or is left.
pub fn kept_is_taken_or_left<T>()
    ensures { KeptIsTakenOrLeft T }
{}
