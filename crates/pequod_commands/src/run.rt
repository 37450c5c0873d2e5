// Serving one client over a source and a sink.
ghost use Rattle.std.specs.Prelude.{◌≡◌, ◌≢◌, ◌≤◌, [], length};
ghost use Rattle.pequod_cache.specs.Sitting.{AreOf, AreOfParts, AreWriters};
ghost use Rattle.pq_io.specs.Faults.{Rose};
ghost use Rattle.session.specs.Ends.{plain_end};
ghost use Rattle.pequod_commands.specs.Statuses.{status_of, RunsTo};

use crate::status::Status;
use base_shards::Naming;
use command_words::Room;
use pequod_cache::{LoneClient, OnlyWriter, Seats};
use pq_io::{Both, Gate, Link, Sink, Source};
use session::{End, serve_link};
use std::alloc::Global;
use std::marker::Brand;
use std::sync::Wait;

/// The status of an end.
fn status_of(end: End) -> Status
    ensures { result.number ≡ status_of (plain_end end) }
{
    match end {
        End::Closed | End::Quit => Status::DONE,
        End::Long => Status::LONG,
        End::ReadFault => Status::READ_FAULT,
        End::WriteFault => Status::WRITE_FAULT,
        End::Spent => Status::SPENT,
        End::OutOfMemory(memory) => Status::memory(memory),
    }
}

/// Answers the lines of a link by a client that nobody writes beside, from the empty history, to the link's end or to a line
/// `["quit"]`.
fn serve_only<S: OnlyWriter + Drop, L: Link>(alloc: Global, mut client: S, link: &mut L) -> Status
    requires empty { S.view client ≡ [] }
    ensures run { RunsTo result.number (L.left link.old) (L.left link.new) (L.taken link.old) (L.taken link.new) }
    ensures reads_later { L.read_faults link.old ≤ L.read_faults link.new }
    ensures writes_later { L.write_faults link.old ≤ L.write_faults link.new }
    ensures read { result.number ≡ 4 → Rose (L.read_faults link.old) (L.read_faults link.new) }
    ensures reads_kept { result.number ≢ 4 → L.read_faults link.new ≡ L.read_faults link.old }
    ensures write { result.number ≡ 5 → Rose (L.write_faults link.old) (L.write_faults link.new) }
    ensures writes_kept { result.number ≢ 5 → L.write_faults link.new ≡ L.write_faults link.old }
    ensures memory { result.number ≡ 6 → link.new ≡ link.old }
    ensures same_borrows { L.borrows link.new ≡ L.borrows link.old }
{
    let end = serve_link(alloc, &mut client, link);
    // The clause on the transcript asks for a history of one client.
    client.tell_own();
    status_of(end)
}

/// Answers the lines of a link by the one client of a new cache, from an empty history, to its end or to a line `["quit"]`.
/// `seats`, `limit` and `gate` are those of `Cache::make`.
fn serve_alone<N: Naming, R: Wait, L: Link, G: Gate>(
    rt: &R,
    alloc: Global,
    seats: Seats,
    limit: u64,
    link: &mut L,
    gate: &G,
) -> Status
    requires named { seats.history ≡ N.history }
    requires client { AreWriters N.history 1 seats.clients.items }
    requires shards { AreOfParts N.history seats.shards.items }
    requires cells { AreOf N.history (length seats.cells.items) seats.cells.items }
    requires some_cells { 1 ≤ length seats.cells.items }
    requires few_cells { length seats.cells.items ≤ 65536 }
    requires limit { 1 ≤ limit }
    ensures run { RunsTo result.number (L.left link.old) (L.left link.new) (L.taken link.old) (L.taken link.new) }
    ensures reads_later { L.read_faults link.old ≤ L.read_faults link.new }
    ensures writes_later { L.write_faults link.old ≤ L.write_faults link.new }
    ensures read { result.number ≡ 4 → Rose (L.read_faults link.old) (L.read_faults link.new) }
    ensures reads_kept { result.number ≢ 4 → L.read_faults link.new ≡ L.read_faults link.old }
    ensures write { result.number ≡ 5 → Rose (L.write_faults link.old) (L.write_faults link.new) }
    ensures writes_kept { result.number ≢ 5 → L.write_faults link.new ≡ L.write_faults link.old }
    ensures memory { result.number ≡ 6 → link.new ≡ link.old }
    ensures same_borrows { L.borrows link.new ≡ L.borrows link.old }
{
    let client = match LoneClient::<R, N, G>::make(rt, alloc, seats, limit, gate) {
        Ok(client) => client,
        Err(memory) => return Status::memory(memory),
    };
    serve_only(alloc, client, link)
}

/// Answers the lines of the source into the sink over so much room, from an empty history, to its end or to a line
/// `["quit"]`. Before a range of a join's output is filled or mended the gate is passed.
pub fn run<R: Wait, S: Source, W: Sink, G: Gate>(
    rt: &R,
    alloc: Global,
    room: Room,
    source: &mut S,
    sink: &mut W,
    gate: &G,
) -> Status
    requires some_cells { 1 ≤ room.cells }
    requires few_cells { room.cells ≤ 65536 }
    requires some_rows { 1 ≤ room.rows }
    ensures run { RunsTo result.number (S.left source.old) (S.left source.new) (W.taken sink.old) (W.taken sink.new) }
    ensures source_later { S.faults source.old ≤ S.faults source.new }
    ensures sink_later { W.faults sink.old ≤ W.faults sink.new }
    ensures read { result.number ≡ 4 → Rose (S.faults source.old) (S.faults source.new) }
    ensures reads_kept { result.number ≢ 4 → S.faults source.new ≡ S.faults source.old }
    ensures write { result.number ≡ 5 → Rose (W.faults sink.old) (W.faults sink.new) }
    ensures writes_kept { result.number ≢ 5 → W.faults sink.new ≡ W.faults sink.old }
    ensures memory_source { result.number ≡ 6 → source.new ≡ source.old }
    ensures memory_sink { result.number ≡ 6 → sink.new ≡ sink.old }
{
    let seats = match Seats::make(alloc, 1, room.cells) {
        Ok(seats) => seats,
        Err(memory) => return Status::memory(memory),
    };
    let mut link = Both::new(source, sink);
    serve_alone::<Brand, _, _, _>(rt, alloc, seats, room.rows, &mut link, gate)
}
