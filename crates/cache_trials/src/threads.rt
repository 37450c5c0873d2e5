// How much threads do together, each with a client and tables of its own: `bench/threads.sh` runs these and takes the time.
ghost use Rattle.cache_trials.specs.Seated.{AreSeats};

use crate::clients::table;
use crate::seated::make_seats;
use base_shards::Naming;
use join_lang::parse;
use key_space::{Key, Value};
use pequod_cache::{Cache, Client, Seats};
use pq_io::OpenGate;
use request_codec::Reply;
use std::alloc::Global;
use std::marker::Brand;
use std::process::Abort;
use std::sync::Wait;
use std::test::Fail;
use std::thread;
use std::thread::Threads;

/// The tables that each of four threads puts into and reads: the second has the output of a join over the first. They are all
/// of different parts of the base pairs.
const TABLES: [(&str, &str); 4] = [("a", "w"), ("b", "x"), ("c", "y"), ("d", "z")];

/// How many puts and reads the threads do together.
const TOGETHER: usize = 40_000;

/// Puts a value at one of ten keys of the table of the thread with a number, and reads the table of the output, so often.
fn put_and_look<N: Naming, R: Wait + Abort>(
    rt: &R,
    alloc: Global,
    client: Client<'_, N, OpenGate>,
    thread: usize,
    count: usize,
) {
    let mut client = client;
    let (source, output) = TABLES[thread % 4];
    let whole = table(rt, alloc, output);
    for number in 0..count {
        let key = format!(in alloc; "{source}|{}", number % 10).expect(rt, "memory");
        let key = Key::read(alloc, key.as_str()).expect(rt, "a key");
        let value = Value::read(alloc, "1").expect(rt, "a value");
        assert!(rt; matches!(client.put(rt, key, value), Reply::Done(_)));
        let found = client.read(rt, &whole).expect(rt, "memory");
        assert!(rt; !found.pairs.is_empty());
    }
}

/// Declares for each of the tables the join that copies it.
fn declare_each<N: Naming, R: Wait + Abort>(
    rt: &R,
    alloc: Global,
    client: &mut Client<'_, N, OpenGate>,
) {
    for (source, output) in TABLES {
        let text = format!(in alloc; "{output}|<x> = copy {source}|<x>").expect(rt, "memory");
        let join = parse(alloc, text.as_str()).expect(rt, "a join");
        assert!(rt; matches!(client.declare(rt, join), Reply::Done(_)));
    }
}

/// The clients of a cache put and look on a thread each.
fn share_the_work<N: Naming + Send + Sync, R: Threads + Wait + Abort + Sync>(
    rt: &R,
    alloc: Global,
    gate: &OpenGate,
    seats: Seats,
) -> Result<(), Fail>
    requires { AreSeats N.history seats }
{
    let mut clients = Cache::<N>::make(alloc, seats, 1_000, gate)?;
    let share = TOGETHER / clients.len().max(1);
    if let Some(first) = clients.first_mut() {
        declare_each(rt, alloc, first);
    }
    let mut jobs = Vec::new(alloc);
    for client in clients {
        jobs.push((client, jobs.len()))?;
    }
    let done = thread::map_vec(
        rt,
        jobs,
        &|(client, thread)| put_and_look(rt, alloc, client, thread, share),
    );
    assert!(rt; done.is_ok());
    Ok(())
}

#[test]
fn one_thread_puts_and_looks_40_000(rt: HostRuntime) -> Result<(), Fail> {
    let alloc = rt.alloc();
    let seats = make_seats(alloc, 1, 4)?;
    share_the_work::<Brand, _>(&rt, alloc, &OpenGate, seats)
}

#[test]
fn two_threads_put_and_look_40_000(rt: HostRuntime) -> Result<(), Fail> {
    let alloc = rt.alloc();
    let seats = make_seats(alloc, 2, 4)?;
    share_the_work::<Brand, _>(&rt, alloc, &OpenGate, seats)
}

#[test]
fn four_threads_put_and_look_40_000(rt: HostRuntime) -> Result<(), Fail> {
    let alloc = rt.alloc();
    let seats = make_seats(alloc, 4, 4)?;
    share_the_work::<Brand, _>(&rt, alloc, &OpenGate, seats)
}
