// What is written to links that two workers serve, or one alone, and how serving ends, with ample memory.
ghost use Rattle.std.specs.Prelude.{◌≡◌, ◌≤◌, IfOk, length};
ghost use Rattle.pequod_cache.specs.Sitting.{AreOf, AreOfParts, AreWriters, IsFresh};
ghost use Rattle.join_types.specs.declared.write.Write.TheVariants.{Declare};
ghost use Rattle.server.specs.Staffs.{AreDeclarable};

use crate::copying::{Copying, Taken, expect_taken, link_of};
use base_shards::Naming;
use join_lang::parse;
use join_set::Standing;
use join_types::{Join, Write};
use out_of_memory::OutOfMemory;
use pequod_cache::Seats;
use pq_io::{MemDoors, OpenGate};
use server::{Declaring, Ended, serve_doors, staff};
use std::alloc::Global;
use std::marker::Brand;
use std::process::Abort;
use std::sync::Wait;
use std::test::Fail;
use std::thread::Threads;

/// The join that the write declares.
fn join_of(rt: &impl Abort, write: Write) -> Join
    ensures { write ≡ Declare result }
{
    match write {
        Write::Declare(join) => join,
        Write::Put(_key, _value) => panic!(rt; "it declares a join"),
        Write::Remove(_key) => panic!(rt; "it declares a join"),
        Write::Drop(_position) => panic!(rt; "it declares a join"),
    }
}

/// A join whose output has what its source has, alone in a list.
fn one_join(rt: &impl Abort, alloc: Global) -> Vec<Join>
    ensures { AreDeclarable result.items }
{
    let write = Write::Declare(parse(alloc, "b|<x> = copy a|<x>").expect(rt, "a join"));
    let cause = Standing::new(alloc).judge(&write).expect(rt, "memory");
    assert!(rt; cause.is_none());
    let mut joins = Vec::new(alloc);
    joins.push(join_of(rt, write)).expect(rt, "memory");
    joins
}

/// The seats of so many clients, and of four cells.
fn make_seats(alloc: Global, clients: u32) -> Result<Seats, OutOfMemory>
    requires some { 2 ≤ clients }
    requires few { clients ≤ 65 }
    ensures clients { IfOk result (λ seats. AreWriters seats.history (length seats.clients.items) seats.clients.items) }
    ensures two { IfOk result (λ seats. 2 ≤ length seats.clients.items) }
    ensures shards { IfOk result (λ seats. AreOfParts seats.history seats.shards.items) }
    ensures cells { IfOk result (λ seats. AreOf seats.history (length seats.cells.items) seats.cells.items) }
    ensures count { IfOk result (λ seats. length seats.cells.items ≡ 4) }
    ensures updater { IfOk result (λ seats. IsFresh seats.history seats.updater) }
{
    Seats::make(alloc, clients, 4)
}

/// Opens doors that give the links and fail at these calls, and serves them by all clients but the first, which declares the joins.
fn serve<N: Naming + Send + Sync, J: Declaring, R: Threads + Wait + Abort + Sync>(
    rt: &R,
    alloc: Global,
    seats: Seats,
    joins: Vec<Join>,
    links: Vec<Copying<'_, R>>,
    fails: Vec<usize>,
) -> Result<Ended, Fail>
    requires named { seats.history ≡ N.history }
    requires clients { AreWriters N.history (length seats.clients.items) seats.clients.items }
    requires two { 2 ≤ length seats.clients.items }
    requires shards { AreOfParts N.history seats.shards.items }
    requires cells { AreOf N.history (length seats.cells.items) seats.cells.items }
    requires count { length seats.cells.items ≡ 4 }
    requires updater { IsFresh N.history seats.updater }
    requires joins { AreDeclarable joins.items }
    requires declares { joins.items ≡ J.joins }
{
    let (first, workers, updater) = staff::<N, _, _>(rt, alloc, seats, 1_000, joins, &OpenGate)?;
    let mut doors = MemDoors::new(links, fails);
    let address = "127.0.0.1:7000";
    Ok(serve_doors::<N, J, _, _, _>(rt, alloc, address, &mut doors, first, workers, updater))
}

/// Puts a pair, and reads the join's output.
const OF_A_WRITER: &str = "[\"put\",\"a|1\",\"Hi\"]\n[\"scan\",\"b|\",\"b}\"]\n";

/// What that is answered.
const TO_A_WRITER: &str = "[\"ok\",2]\n[\"pairs\",2,[[\"b|1\",\"Hi\"]]]\n";

/// Reads the join's output, and takes leave.
const OF_A_READER: &str = "[\"get\",\"b|1\"]\n[\"quit\"]\n";

/// Serves a writer and then a reader by workers with clients of their own, one fewer than so many clients, and gives what the
/// two links took.
fn serve_both<R: Threads + Wait + Abort + Sync>(
    rt: &R,
    alloc: Global,
    clients: u32,
) -> Result<(Taken, Taken), Fail>
    requires some { 2 ≤ clients }
    requires few { clients ≤ 65 }
{
    let (writer, to_writer) = link_of(rt, alloc, OF_A_WRITER, Vec::new(alloc))?;
    let (reader, to_reader) = link_of(rt, alloc, OF_A_READER, Vec::new(alloc))?;
    let mut links = Vec::new(alloc);
    links.push(writer)?;
    links.push(reader)?;
    let seats = make_seats(alloc, clients)?;
    let joins = one_join(rt, alloc);
    let ended = serve::<Brand, Brand, _>(rt, alloc, seats, joins, links, Vec::new(alloc))?;
    assert!(rt; ended == Ended::Closed);
    Ok((to_writer, to_reader))
}

#[test]
fn two_workers_serve_two_links(rt: HostRuntime) -> Result<(), Fail> {
    let (to_writer, to_reader) = serve_both(&rt, rt.alloc(), 3)?;
    expect_taken(&rt, &to_writer, TO_A_WRITER);
    // The reader may come before the writer or after.
    let before = "[\"none\",1]\n[\"bye\"]\n".as_bytes();
    let after = "[\"value\",2,\"Hi\"]\n[\"bye\"]\n".as_bytes();
    let told = to_reader.lock(&rt);
    assert!(rt; told.as_slice() == before || told.as_slice() == after);
    Ok(())
}

#[test]
fn one_client_serves_links_in_order(rt: HostRuntime) -> Result<(), Fail> {
    let (to_writer, to_reader) = serve_both(&rt, rt.alloc(), 2)?;
    expect_taken(&rt, &to_writer, TO_A_WRITER);
    expect_taken(&rt, &to_reader, "[\"value\",2,\"Hi\"]\n[\"bye\"]\n");
    Ok(())
}

#[test]
fn closed_doors_end_it(rt: HostRuntime) -> Result<(), Fail> {
    let alloc: Global = rt.alloc();
    for clients in [2, 3] {
        let seats = make_seats(alloc, clients)?;
        let joins = one_join(&rt, alloc);
        let links = Vec::new(alloc);
        let ended = serve::<Brand, Brand, _>(&rt, alloc, seats, joins, links, Vec::new(alloc))?;
        assert!(rt; ended == Ended::Closed);
    }
    Ok(())
}

#[test]
fn links_before_a_failure_are_served(rt: HostRuntime) -> Result<(), Fail> {
    let alloc: Global = rt.alloc();
    // The doors are opened by the call 0.
    for (clients, call, told) in [
        (2, 0, ""),
        (2, 1, ""),
        (2, 2, TO_A_WRITER),
        (3, 0, ""),
        (3, 1, ""),
        (3, 2, TO_A_WRITER),
    ] {
        let (writer, to_writer) = link_of(&rt, alloc, OF_A_WRITER, Vec::new(alloc))?;
        let mut links = Vec::new(alloc);
        links.push(writer)?;
        let seats = make_seats(alloc, clients)?;
        let joins = one_join(&rt, alloc);
        let fails = vec![in alloc; call; 1]?;
        let ended = serve::<Brand, Brand, _>(&rt, alloc, seats, joins, links, fails)?;
        assert!(rt; ended == Ended::Failed);
        expect_taken(&rt, &to_writer, told);
    }
    Ok(())
}
