// Saying of a joins file what its joins are, or which line is refused first.
ghost use Rattle.std.specs.Prelude.{◌≡◌, ◌≢◌, ◌≤◌};
ghost use Rattle.pq_io.specs.Faults.{Rose};
ghost use Rattle.pequod_commands.specs.Statuses.{ChecksTo};

use crate::status::Status;
use joins_file::report;
use pq_io::{Failed, Shelf, Sink, TakeFault, write_whole};
use std::alloc::Global;

/// Takes the file of that name and writes about it, all at once at the end.
pub fn check<W: Sink, F: Shelf>(alloc: Global, name: &str, sink: &mut W, shelf: &mut F) -> Status
    ensures check { ChecksTo result.number (F.held shelf.old) name.now (W.taken sink.old) (W.taken sink.new) }
    ensures same_held { F.held shelf.new ≡ F.held shelf.old }
    ensures sink_later { W.faults sink.old ≤ W.faults sink.new }
    ensures shelf_later { F.faults shelf.old ≤ F.faults shelf.new }
    ensures write { result.number ≡ 5 → Rose (W.faults sink.old) (W.faults sink.new) }
    ensures writes_kept { result.number ≢ 5 → W.faults sink.new ≡ W.faults sink.old }
    ensures memory_sink { result.number ≡ 6 → sink.new ≡ sink.old }
    ensures shelf { result.number ≡ 9 → Rose (F.faults shelf.old) (F.faults shelf.new) }
    ensures shelf_kept { result.number ≢ 9 → F.faults shelf.new ≡ F.faults shelf.old }
{
    let bytes = match shelf.take(alloc, name) {
        Ok(bytes) => bytes,
        Err(TakeFault::Failed) => return Status::SHELF_FAULT,
        Err(TakeFault::OutOfMemory(memory)) => return Status::memory(memory),
    };
    let report = match report(alloc, bytes.as_slice()) {
        Ok(report) => report,
        Err(memory) => return Status::memory(memory),
    };
    match write_whole(sink, report.text.as_slice()) {
        Err(Failed) => Status::WRITE_FAULT,
        Ok(()) => {
            if report.refused {
                Status::REFUSED
            } else {
                Status::DONE
            }
        }
    }
}
