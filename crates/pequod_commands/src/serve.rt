// Serving clients over links.
ghost use Rattle.std.specs.Prelude.{◌≡◌, ◌≢◌, ◌≤◌, ◌⊎◌, map, option_map, is_err, true, IfErr, IfOk, MatchOption, OnOk};
ghost use Rattle.protocol.specs.JoinsFile.{check_text, file_history};
ghost use Rattle.pq_io.specs.Doors.{OpenedAt, OpenedNowhereElse, doors_told};
ghost use Rattle.pq_io.specs.Faults.{Rose};
ghost use Rattle.pq_io.specs.Links.{link_told};
ghost use Rattle.pq_io.specs.Streams.{Took, TookProperPrefix};
ghost use Rattle.server.specs.Doors.{HoldNone};
ghost use Rattle.server.specs.Receipts.{LinksCameBack};
ghost use Rattle.server.specs.Staffs.{AreDeclarable};
ghost use Rattle.pequod_commands.specs.Serves.{AreOfFile, AreServed, EndsUnserved, IsJoinsEnd, ServesTo};

use crate::status::Status;
use command_words::Room;
use join_set::JoinSet;
use join_types::Join;
use joins_file::{Declared, declare, report};
use out_of_memory::OutOfMemory;
use pq_io::{Doors, Failed, Gate, Link, Shelf, Sink, TakeFault, write_whole};
use server::{Ended, Size};
use std::alloc::Global;
use std::sync::Wait;
use std::thread::Threads;

/// What is served.
#[derive(Clone, Copy)]
pub struct Serving<'a> {
    /// The address, as `127.0.0.1:7000`.
    pub address: &'a str,
    /// How much is kept.
    pub room: Room,
    /// How many workers serve links, 1 to 64.
    pub workers: u32,
    /// The name of the joins file, if there is one.
    pub joins: Option<&'a str>,
}

/// Copies of the joins of a set, in order.
fn copies(alloc: Global, set: &JoinSet) -> Result<Vec<Join>, OutOfMemory>
    ensures { IfOk result (λ joins. joins.items ≡ map (λ s. s.join) set.now.standing) }
{
    let mut joins = Vec::with_capacity(alloc, set.len())?;
    for i in 0..set.len() {
        joins.push(set.join(i).copy(alloc)?)?;
    }
    Ok(joins)
}

/// The joins that the bytes of a joins file declare, in order. None exactly where a line is refused.
fn joins_of(alloc: Global, bytes: &[u8]) -> Result<Option<Vec<Join>>, OutOfMemory>
    ensures { IfOk result (λ found. MatchOption found (is_err (file_history bytes.now) ≡ true) (λ joins. AreOfFile bytes.now joins.items)) }
{
    match declare(alloc, bytes)? {
        Declared::Joins(standing) => Ok(Some(copies(alloc, standing.joins())?)),
        Declared::Refused(_) => Ok(None),
    }
}

/// Writes the row of the first refused line of a joins file, all at once.
fn write_refused<W: Sink>(alloc: Global, bytes: &[u8], sink: &mut W) -> Status
    ensures written { result.number ≡ 7 → Took (W.taken sink.old) (W.taken sink.new) (check_text bytes.now) }
    ensures cut { result.number ≡ 5 → TookProperPrefix (W.taken sink.old) (W.taken sink.new) (check_text bytes.now) }
    ensures ends { (result.number ≡ 7) ⊎ ((result.number ≡ 5) ⊎ (result.number ≡ 6)) }
    ensures sink_later { W.faults sink.old ≤ W.faults sink.new }
    ensures write { result.number ≡ 5 → Rose (W.faults sink.old) (W.faults sink.new) }
    ensures writes_kept { result.number ≢ 5 → W.faults sink.new ≡ W.faults sink.old }
    ensures memory_sink { result.number ≡ 6 → sink.new ≡ sink.old }
{
    let report = match report(alloc, bytes) {
        Ok(report) => report,
        Err(memory) => return Status::memory(memory),
    };
    match write_whole(sink, report.text.as_slice()) {
        Ok(()) => Status::REFUSED,
        Err(Failed) => Status::WRITE_FAULT,
    }
}

/// The joins of the joins file with a name, and none without a name. Where there are none to serve, how `serve` ends: a line
/// is refused, which is written; the shelf gave no file; or there was no memory.
fn named_joins<W: Sink, F: Shelf>(
    alloc: Global,
    name: Option<&str>,
    sink: &mut W,
    shelf: &mut F,
) -> Result<Vec<Join>, Status>
    ensures joins { IfOk result (λ joins. AreServed (F.held shelf.old) (option_map (λ text. text.now) name.entry) joins.items) }
    ensures declarable { IfOk result (λ joins. AreDeclarable joins.items) }
    ensures same_sink { OnOk result (sink.new ≡ sink.old) }
    ensures ended { IfErr result (λ status. EndsUnserved status.number (F.held shelf.old) (option_map (λ text. text.now) name.entry) (W.taken sink.old) (W.taken sink.new)) }
    ensures same_held { F.held shelf.new ≡ F.held shelf.old }
    ensures sink_later { W.faults sink.old ≤ W.faults sink.new }
    ensures shelf_later { F.faults shelf.old ≤ F.faults shelf.new }
    ensures write { IfErr result (λ status. status.number ≡ 5 → Rose (W.faults sink.old) (W.faults sink.new)) }
    ensures writes_kept { IfErr result (λ status. status.number ≢ 5 → W.faults sink.new ≡ W.faults sink.old) }
    ensures memory_sink { IfErr result (λ status. status.number ≡ 6 → sink.new ≡ sink.old) }
    ensures shelf { IfErr result (λ status. status.number ≡ 9 → Rose (F.faults shelf.old) (F.faults shelf.new)) }
    ensures shelf_kept { IfErr result (λ status. status.number ≢ 9 → F.faults shelf.new ≡ F.faults shelf.old) }
    ensures shelf_same { OnOk result (F.faults shelf.new ≡ F.faults shelf.old) }
    ensures others { IfErr result (λ status. IsJoinsEnd status.number) }
{
    let Some(name) = name else {
        return Ok(Vec::new(alloc));
    };
    let bytes = match shelf.take(alloc, name) {
        Ok(bytes) => bytes,
        Err(TakeFault::Failed) => return Err(Status::SHELF_FAULT),
        Err(TakeFault::OutOfMemory(memory)) => return Err(Status::memory(memory)),
    };
    match joins_of(alloc, bytes.as_slice()) {
        Ok(Some(joins)) => Ok(joins),
        Ok(None) => Err(write_refused(alloc, bytes.as_slice(), sink)),
        Err(memory) => Err(Status::memory(memory)),
    }
}

/// Serves the links of the doors, once they are open at the address, by a cache with these joins.
fn serve_links<R, D, G>(
    rt: &R,
    alloc: Global,
    serving: Serving<'_>,
    joins: Vec<Join>,
    doors: &mut D,
    gate: &G,
) -> Status
where
    R: Threads + Wait + Sync,
    D: Doors + Send,
    <D::Wire as Link>::Receipt: Send,
    G: Gate + Sync,
    requires some_cells { 1 ≤ serving.room.cells }
    requires few_cells { serving.room.cells ≤ 65536 }
    requires some_rows { 1 ≤ serving.room.rows }
    requires some_workers { 1 ≤ serving.workers }
    requires few_workers { serving.workers ≤ 64 }
    requires joins { AreDeclarable joins.items }
    ensures closed { result.number ≡ 0 → HoldNone (D.held doors.new) }
    ensures opened { result.number ≡ 0 → OpenedAt (D.opened doors.old) (D.opened doors.new) serving.entry.address.now }
    ensures nowhere_else { result.number ≡ 8 → OpenedNowhereElse (D.opened doors.old) (D.opened doors.new) serving.entry.address.now }
    ensures links { result.number ≢ 6 → LinksCameBack (link_told D.Wire.left D.Wire.taken D.Wire.read_faults D.Wire.write_faults) D.Wire.tells serving.entry.workers joins.items
        (doors_told D.held D.returned D.opened D.faults doors.old) (doors_told D.held D.returned D.opened D.faults doors.new) }
    ensures ends { (result.number ≡ 0) ⊎ ((result.number ≡ 6) ⊎ (result.number ≡ 8)) }
    ensures doors_later { D.faults doors.old ≤ D.faults doors.new }
    ensures doors { result.number ≡ 8 → Rose (D.faults doors.old) (D.faults doors.new) }
    ensures doors_kept { result.number ≢ 8 → D.faults doors.new ≡ D.faults doors.old }
    ensures memory_doors { result.number ≡ 6 → doors.new ≡ doors.old }
{
    let size = Size {
        cells: serving.room.cells,
        rows: serving.room.rows,
        workers: serving.workers,
    };
    match server::serve(rt, alloc, size, joins, serving.address, doors, gate) {
        Ended::Closed => Status::DONE,
        Ended::Failed => Status::DOORS_FAULT,
        Ended::OutOfMemory(memory) => Status::memory(memory),
    }
}

/// Declares the joins of the joins file, opens the doors, and serves each link that they give until they close or fail. Then the
/// receipts of all these links go back to the doors. A line of the joins file that is refused is written. Where the status is
/// neither 0 nor 8 the doors stay as they are.
pub fn serve<R, W, F, D, G>(
    rt: &R,
    alloc: Global,
    serving: Serving<'_>,
    sink: &mut W,
    shelf: &mut F,
    doors: &mut D,
    gate: &G,
) -> Status
where
    R: Threads + Wait + Sync,
    W: Sink,
    F: Shelf,
    D: Doors + Send,
    <D::Wire as Link>::Receipt: Send,
    G: Gate + Sync,
    requires some_cells { 1 ≤ serving.room.cells }
    requires few_cells { serving.room.cells ≤ 65536 }
    requires some_rows { 1 ≤ serving.room.rows }
    requires some_workers { 1 ≤ serving.workers }
    requires few_workers { serving.workers ≤ 64 }
    ensures serve { ServesTo (link_told D.Wire.left D.Wire.taken D.Wire.read_faults D.Wire.write_faults) D.Wire.tells result.number serving.entry.address.now serving.entry.workers
        (F.held shelf.old) (option_map (λ text. text.now) serving.entry.joins) (W.taken sink.old) (W.taken sink.new)
        (doors_told D.held D.returned D.opened D.faults doors.old) (doors_told D.held D.returned D.opened D.faults doors.new) }
    ensures same_held { F.held shelf.new ≡ F.held shelf.old }
    ensures sink_later { W.faults sink.old ≤ W.faults sink.new }
    ensures shelf_later { F.faults shelf.old ≤ F.faults shelf.new }
    ensures doors_later { D.faults doors.old ≤ D.faults doors.new }
    ensures write { result.number ≡ 5 → Rose (W.faults sink.old) (W.faults sink.new) }
    ensures writes_kept { result.number ≢ 5 → W.faults sink.new ≡ W.faults sink.old }
    ensures memory_sink { result.number ≡ 6 → sink.new ≡ sink.old }
    ensures untouched_doors { result.number ≢ 0 → result.number ≢ 8 → doors.new ≡ doors.old }
    ensures shelf { result.number ≡ 9 → Rose (F.faults shelf.old) (F.faults shelf.new) }
    ensures shelf_kept { result.number ≢ 9 → F.faults shelf.new ≡ F.faults shelf.old }
    ensures doors { result.number ≡ 8 → Rose (D.faults doors.old) (D.faults doors.new) }
    ensures doors_kept { result.number ≢ 8 → D.faults doors.new ≡ D.faults doors.old }
{
    let joins = match named_joins(alloc, serving.joins, sink, shelf) {
        Ok(joins) => joins,
        Err(status) => return status,
    };
    serve_links(rt, alloc, serving, joins, doors, gate)
}
