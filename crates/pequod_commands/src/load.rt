// Loading a cache with acts that are drawn, and telling what it holds then.
ghost use Rattle.std.specs.Prelude.{◌≡◌, ◌≢◌, ◌≤◌};
ghost use Rattle.pq_io.specs.Faults.{Rose};
ghost use Rattle.pequod_commands.specs.Loads.{LoadsTo};

use crate::status::Status;
use command_words::Room;
use load_run::{Load, load_text};
use pq_io::{Failed, Gate, Sink, write_whole};
use std::alloc::Global;
use std::sync::Wait;
use std::thread::Threads;

/// Does the acts of a load by its workers, over so much room, and writes the line of what stands then. Before a range of a join's
/// output is filled or mended the gate is passed.
pub fn load<R: Threads + Wait + Sync, W: Sink, G: Gate + Sync>(
    rt: &R,
    alloc: Global,
    room: Room,
    load: Load,
    sink: &mut W,
    gate: &G,
) -> Status
    requires some_cells { 1 ≤ room.cells }
    requires few_cells { room.cells ≤ 65536 }
    requires some_rows { 1 ≤ room.rows }
    requires some_users { 1 ≤ load.users }
    requires few_users { load.users ≤ 9999 }
    requires few_steps { load.steps ≤ 1000000 }
    requires some_workers { 1 ≤ load.workers }
    requires few_workers { load.workers ≤ 64 }
    ensures load { LoadsTo result.number load.number load.steps load.users (W.taken sink.old) (W.taken sink.new) }
    ensures sink_later { W.faults sink.old ≤ W.faults sink.new }
    ensures write { result.number ≡ 5 → Rose (W.faults sink.old) (W.faults sink.new) }
    ensures writes_kept { result.number ≢ 5 → W.faults sink.new ≡ W.faults sink.old }
    ensures memory_sink { result.number ≡ 6 → sink.new ≡ sink.old }
{
    let line = match load_text(rt, alloc, gate, room.cells, room.rows, load) {
        Ok(line) => line,
        Err(memory) => return Status::memory(memory),
    };
    match write_whole(sink, line.as_slice()) {
        Err(Failed) => Status::WRITE_FAULT,
        Ok(()) => Status::DONE,
    }
}
