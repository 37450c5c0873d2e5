// Printing the answers to the events of a script, or which line is refused first.
ghost use Rattle.std.specs.Prelude.{◌≡◌, ◌≢◌, ◌≤◌, IfOk, is_err};
ghost use Rattle.core_events.specs.Scripts.{script_events, replay_text};
ghost use Rattle.pq_io.specs.Faults.{Rose};
ghost use Rattle.pequod_commands.specs.Replays.{ReplaysTo};

use crate::status::Status;
use command_words::Room;
use event_script::{Script, answers_text, marks_of_cells, read_script, refused_text};
use out_of_memory::OutOfMemory;
use pq_io::{Failed, Shelf, Sink, TakeFault, write_whole};
use scan_core::run_events;
use std::alloc::Global;

/// What is printed about a script, and whether a line of it is refused.
#[derive(Drop)]
struct Printed {
    text: Vec<u8>,
    refused: bool,
}

/// Reads a script and answers its events, over so much room.
fn print_answers(alloc: Global, bytes: &[u8], room: Room) -> Result<Printed, OutOfMemory>
    requires some_cells { 1 ≤ room.cells }
    requires few_cells { room.cells ≤ 65536 }
    requires some_rows { 1 ≤ room.rows }
    ensures text { IfOk result (λ printed. printed.text.items ≡ replay_text bytes.now) }
    ensures refused { IfOk result (λ printed. printed.refused ≡ is_err (script_events bytes.now)) }
{
    match read_script(alloc, bytes)? {
        Script::Refused(line) => Ok(Printed {
            text: refused_text(alloc, line)?,
            refused: true,
        }),
        Script::Events(events) => {
            let marks = marks_of_cells(alloc, events.as_slice())?;
            let answers = run_events(alloc, room.cells, room.rows, events)?;
            Ok(Printed {
                text: answers_text(alloc, marks.as_slice(), answers)?,
                refused: false,
            })
        }
    }
}

/// Takes the script of that name and answers its events in order, over so much room. What is printed is written all at
/// once at the end.
pub fn replay<W: Sink, F: Shelf>(
    alloc: Global,
    name: &str,
    room: Room,
    sink: &mut W,
    shelf: &mut F,
) -> Status
    requires some_cells { 1 ≤ room.cells }
    requires few_cells { room.cells ≤ 65536 }
    requires some_rows { 1 ≤ room.rows }
    ensures replay { ReplaysTo result.number (F.held shelf.old) name.now (W.taken sink.old) (W.taken sink.new) }
    ensures same_held { F.held shelf.new ≡ F.held shelf.old }
    ensures sink_later { W.faults sink.old ≤ W.faults sink.new }
    ensures shelf_later { F.faults shelf.old ≤ F.faults shelf.new }
    ensures write { result.number ≡ 5 → Rose (W.faults sink.old) (W.faults sink.new) }
    ensures writes_kept { result.number ≢ 5 → W.faults sink.new ≡ W.faults sink.old }
    ensures memory_sink { result.number ≡ 6 → sink.new ≡ sink.old }
    ensures shelf { result.number ≡ 9 → Rose (F.faults shelf.old) (F.faults shelf.new) }
    ensures shelf_kept { result.number ≢ 9 → F.faults shelf.new ≡ F.faults shelf.old }
{
    let bytes = match shelf.take(alloc, name) {
        Ok(bytes) => bytes,
        Err(TakeFault::Failed) => return Status::SHELF_FAULT,
        Err(TakeFault::OutOfMemory(memory)) => return Status::memory(memory),
    };
    let printed = match print_answers(alloc, bytes.as_slice(), room) {
        Ok(printed) => printed,
        Err(memory) => return Status::memory(memory),
    };
    match write_whole(sink, printed.text.as_slice()) {
        Err(Failed) => Status::WRITE_FAULT,
        Ok(()) => {
            if printed.refused {
                Status::REFUSED
            } else {
                Status::DONE
            }
        }
    }
}
