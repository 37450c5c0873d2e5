// The top call: all that the program does, over what it is handed.
ghost use Rattle.std.specs.Prelude.{◌≡◌, ◌≢◌, ◌<◌, ◌≤◌, ◌↔◌, ◌⊎◌, List, Option, ℕ, map, string_bytes, false, Some, None};
ghost use Rattle.pq_io.specs.Doors.{doors_told};
ghost use Rattle.pq_io.specs.Faults.{Rose};
ghost use Rattle.pq_io.specs.Links.{link_told};
ghost use Rattle.command_words.specs.Commands as plain;
ghost use Rattle.pequod_commands.specs.Built.{built_command, links_of, uses_doors, uses_source, uses_sink, uses_shelf};
ghost use Rattle.pequod_commands.specs.Statuses.{RunsTo, ChecksTo};
ghost use Rattle.pequod_commands.specs.Replays.{ReplaysTo};
ghost use Rattle.pequod_commands.specs.Serves.{ServesTo};
ghost use Rattle.pequod_commands.specs.Loads.{LoadsTo};

use crate::check::check;
use crate::load::load;
use crate::replay::replay;
use crate::run::run;
use crate::serve::{Serving, serve};
use crate::status::Status;
use command_words::{Command, read_command};
use load_run::Load;
use pq_io::{Doors, Gate, Link, Shelf, Sink, Source};
use std::alloc::Global;
use std::sync::Wait;
use std::thread::Threads;

/// Does what the words after the program's name ask for, and says how that ended.
///
/// `run` answers one client's lines from the source into the sink. `check FILE` takes a joins file from the shelf and writes about
/// it into the sink. `replay FILE` takes a script from the shelf and writes the answers to its events. `load` does acts that are
/// drawn and writes what stands then. `serve ADDRESS` declares the joins of a joins file, if one is named, opens the doors and
/// answers the lines of each link that they give. Words that form no command have status 2. What a command does not use is
/// unchanged: `run` leaves the shelf and the doors, `check` and `replay` the source and the doors, `load` all but the sink, `serve`
/// the source, and no command all four. With status 6 source and sink are unchanged, and with each status but 0 and 8 the doors.
/// When `serve` ends with 0 or 8, the receipts of all links that the doors gave have gone back to them. The gate is passed before a
/// range of a join's output is filled or mended for a link or for a worker of a load.
pub fn pequod<R, S, W, F, D, G>(
    rt: &R,
    alloc: Global,
    words: &[String],
    source: &mut S,
    sink: &mut W,
    shelf: &mut F,
    doors: &mut D,
    gate: &G,
) -> Status
where
    R: Threads + Wait + Sync,
    S: Source,
    W: Sink,
    F: Shelf,
    D: Doors + Send,
    <D::Wire as Link>::Receipt: Send,
    G: Gate + Sync,
    ensures words { (result.number ≡ 2) ↔ (built_command (map string_bytes words.now) ≡ None) }
    ensures run { (room : plain.Room) → built_command (map string_bytes words.now) ≡ Some (plain.run room) →
        RunsTo result.number (S.left source.old) (S.left source.new) (W.taken sink.old) (W.taken sink.new) }
    ensures check { (name : List ℕ) → built_command (map string_bytes words.now) ≡ Some (plain.check name) →
        ChecksTo result.number (F.held shelf.old) name (W.taken sink.old) (W.taken sink.new) }
    ensures replay { (name : List ℕ) (room : plain.Room) → built_command (map string_bytes words.now) ≡ Some (plain.replay name room) →
        ReplaysTo result.number (F.held shelf.old) name (W.taken sink.old) (W.taken sink.new) }
    ensures load { (room : plain.Room) (workers number steps users : ℕ) → built_command (map string_bytes words.now) ≡ Some (plain.load room workers number steps users) →
        LoadsTo result.number number steps users (W.taken sink.old) (W.taken sink.new) }
    ensures serve { (address : List ℕ) (room : plain.Room) (workers links : ℕ) (joins : Option (List ℕ)) → built_command (map string_bytes words.now) ≡ Some (plain.serve address room workers links joins) →
        ServesTo (link_told D.Wire.left D.Wire.taken D.Wire.read_faults D.Wire.write_faults) D.Wire.tells result.number address workers
        (F.held shelf.old) joins (W.taken sink.old) (W.taken sink.new)
        (doors_told D.held D.returned D.opened D.faults doors.old) (doors_told D.held D.returned D.opened D.faults doors.new) }

    // Where no count rose, `check`, `replay` and `load` have one of these ends, and so has `serve`.
    ensures check_ends { (name : List ℕ) → built_command (map string_bytes words.now) ≡ Some (plain.check name) →
        (Rose (W.faults sink.old) (W.faults sink.new) → ⊥) → (Rose (F.faults shelf.old) (F.faults shelf.new) → ⊥) →
        (result.number ≡ 0) ⊎ ((result.number ≡ 6) ⊎ (result.number ≡ 7)) }
    ensures replay_ends { (name : List ℕ) (room : plain.Room) → built_command (map string_bytes words.now) ≡ Some (plain.replay name room) →
        (Rose (W.faults sink.old) (W.faults sink.new) → ⊥) → (Rose (F.faults shelf.old) (F.faults shelf.new) → ⊥) →
        (result.number ≡ 0) ⊎ ((result.number ≡ 6) ⊎ (result.number ≡ 7)) }
    ensures load_ends { (room : plain.Room) (workers number steps users : ℕ) → built_command (map string_bytes words.now) ≡ Some (plain.load room workers number steps users) →
        (Rose (W.faults sink.old) (W.faults sink.new) → ⊥) →
        (result.number ≡ 0) ⊎ (result.number ≡ 6) }
    ensures serve_ends { (address : List ℕ) (room : plain.Room) (workers links : ℕ) (joins : Option (List ℕ)) → built_command (map string_bytes words.now) ≡ Some (plain.serve address room workers links joins) →
        (Rose (W.faults sink.old) (W.faults sink.new) → ⊥) → (Rose (F.faults shelf.old) (F.faults shelf.new) → ⊥) → (Rose (D.faults doors.old) (D.faults doors.new) → ⊥) →
        (result.number ≡ 0) ⊎ ((result.number ≡ 6) ⊎ (result.number ≡ 7)) }

    // What the command does not use is unchanged.
    ensures same_source { uses_source (built_command (map string_bytes words.now)) ≡ false → source.new ≡ source.old }
    ensures same_sink { uses_sink (built_command (map string_bytes words.now)) ≡ false → sink.new ≡ sink.old }
    ensures same_shelf { uses_shelf (built_command (map string_bytes words.now)) ≡ false → shelf.new ≡ shelf.old }
    ensures same_doors { uses_doors (built_command (map string_bytes words.now)) ≡ false → doors.new ≡ doors.old }
    ensures same_held { F.held shelf.new ≡ F.held shelf.old }

    // Where there was no memory, nothing was read and nothing written. The doors were touched only where they closed or failed.
    ensures memory_source { result.number ≡ 6 → source.new ≡ source.old }
    ensures memory_sink { result.number ≡ 6 → sink.new ≡ sink.old }
    ensures untouched_doors { result.number ≢ 0 → result.number ≢ 8 → doors.new ≡ doors.old }

    // A fault comes only from the object whose count of faults rose, and where a count rose the status is that of its object; so
    // no two rose.
    ensures source_later { S.faults source.old ≤ S.faults source.new }
    ensures sink_later { W.faults sink.old ≤ W.faults sink.new }
    ensures shelf_later { F.faults shelf.old ≤ F.faults shelf.new }
    ensures doors_later { D.faults doors.old ≤ D.faults doors.new }
    ensures read { result.number ≡ 4 → Rose (S.faults source.old) (S.faults source.new) }
    ensures read_rose { S.faults source.old < S.faults source.new → result.number ≡ 4 }
    ensures write { result.number ≡ 5 → Rose (W.faults sink.old) (W.faults sink.new) }
    ensures write_rose { W.faults sink.old < W.faults sink.new → result.number ≡ 5 }
    ensures shelf { result.number ≡ 9 → Rose (F.faults shelf.old) (F.faults shelf.new) }
    ensures shelf_rose { F.faults shelf.old < F.faults shelf.new → result.number ≡ 9 }
    ensures doors { result.number ≡ 8 → Rose (D.faults doors.old) (D.faults doors.new) }
    ensures doors_rose { D.faults doors.old < D.faults doors.new → result.number ≡ 8 }
{
    match read_command(words) {
        None => Status::WORDS,
        Some(
            Command::Serve {
                address,
                room,
                workers,
                joins,
                ..
            },
        ) => {
            let serving = Serving {
                address,
                room,
                workers,
                joins,
            };
            serve(rt, alloc, serving, sink, shelf, doors, gate)
        }
        Some(Command::Run(room)) => run(rt, alloc, room, source, sink, gate),
        Some(Command::Check(name)) => check(alloc, name, sink, shelf),
        Some(Command::Replay { file, room }) => replay(alloc, file, room, sink, shelf),
        Some(
            Command::Load {
                room,
                workers,
                number,
                steps,
                users,
            },
        ) => {
            let plan = Load {
                number,
                steps,
                users,
                workers,
            };
            load(rt, alloc, room, plan, sink, gate)
        }
    }
}

/// After how many links the real doors close: the number that `serve` is given. It is 0, which is no end, for every other
/// command and where the words form none.
pub fn links(words: &[String]) -> u64
    ensures { result ≡ links_of (built_command (map string_bytes words.now)) }
{
    match read_command(words) {
        Some(Command::Serve { links, .. }) => links,
        _ => 0,
    }
}
