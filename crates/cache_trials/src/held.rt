// Two clients on two threads, of which one is held at the gate in the midst of a scan while the other is answered.
ghost use Rattle.std.specs.Prelude.{◌≤◌};
ghost use Rattle.cache_trials.specs.Seated.{AreSeats};

use crate::clients::put_at;
use crate::course::{Course, FEW_LOOKS, MANY_LOOKS, Stage, begin, come_to, wait_for};
use crate::seated::make_seats;
use base_shards::Naming;
use join_lang::parse;
use key_space::Range;
use pequod_cache::{Cache, Client, Seats};
use pq_io::Gate;
use request_codec::Reply;
use std::alloc::Global;
use std::marker::Brand;
use std::process::Abort;
use std::sync::{Arc, Wait};
use std::test::Fail;
use std::thread;
use std::thread::Threads;

/// A gate that holds the ranges of the table `t` until the other client has its answers.
#[derive(Drop)]
struct Holding<'a, R> {
    rt: &'a R,
    course: Course,
}

impl<R: Wait> Gate for Holding<'_, R> {
    fn pass(&self, table: &str) {
        if table == "t" {
            come_to(self.rt, &self.course, Stage::Held);
            wait_for(self.rt, &self.course, Stage::Passed);
        }
    }
}

/// Declares the join of timelines, and puts a subscription and a post.
fn write_timeline<N: Naming, G: Gate, R: Wait + Abort>(
    rt: &R,
    alloc: Global,
    client: &mut Client<'_, N, G>,
) {
    let text = "t|<user>|<time>|<poster> = check s|<user>|<poster> copy p|<poster>|<time>";
    let join = parse(alloc, text).expect(rt, "a join");
    assert!(rt; matches!(client.declare(rt, join), Reply::Done(1)));
    put_at(rt, alloc, client, ("s|ann|bob", "1"), 2);
    put_at(rt, alloc, client, ("p|bob|100", "Hi"), 3);
}

/// A client reads a range after so many entries, and finds one pair.
fn expect_one<N: Naming, G: Gate, R: Wait + Abort>(
    rt: &R,
    alloc: Global,
    client: &mut Client<'_, N, G>,
    bounds: (&str, &str),
    position: u64,
    wanted: (&str, &str),
) {
    let range = Range::read(alloc, bounds.0, bounds.1).expect(rt, "a range");
    let found = client.read(rt, &range).expect(rt, "memory");
    assert!(rt; found.position == position);
    assert!(rt; found.pairs.len() == 1);
    let pair = found.pairs.first().expect(rt, "a pair");
    assert!(rt; pair.key.text() == wanted.0);
    assert!(rt; pair.value.text() == wanted.1);
}

/// A client reads the timeline after so many entries.
fn expect_timeline<N: Naming, G: Gate, R: Wait + Abort>(
    rt: &R,
    alloc: Global,
    client: &mut Client<'_, N, G>,
    position: u64,
) {
    let bounds = ("t|ann|", "t|ann}");
    let wanted = ("t|ann|100|bob", "Hi");
    expect_one(rt, alloc, client, bounds, position, wanted);
}

/// Puts a pair so often, behind three entries.
fn put_often<N: Naming, G: Gate, R: Wait + Abort>(
    rt: &R,
    alloc: Global,
    client: &mut Client<'_, N, G>,
    count: u64,
)
    requires { count ≤ 100000 }
{
    for position in 4..4 + count {
        put_at(rt, alloc, client, ("q|1", "x"), position);
    }
}

/// While the other is held, puts a pair of another table so often and reads that table.
fn pass_by<'g, N: Naming, G: Gate, R: Wait + Abort>(
    rt: &R,
    alloc: Global,
    course: &Course,
    client: Client<'g, N, G>,
    count: u64,
) -> Client<'g, N, G>
    requires { count ≤ 100000 }
{
    let mut client = client;
    wait_for(rt, course, Stage::Held);
    put_often(rt, alloc, &mut client, count);
    expect_one(
        rt,
        alloc,
        &mut client,
        ("q|", "q}"),
        3 + count,
        ("q|1", "x"),
    );
    come_to(rt, course, Stage::Passed);
    client
}

/// Reads the timeline, and once more: the first read is after the entries that it found when it began, though the other wrote
/// before it ended, so many.
fn read_twice<N: Naming, G: Gate, R: Wait + Abort>(
    rt: &R,
    alloc: Global,
    client: Client<'_, N, G>,
    count: u64,
)
    requires { count ≤ 100000 }
{
    let mut client = client;
    expect_timeline(rt, alloc, &mut client, 3);
    expect_timeline(rt, alloc, &mut client, 3 + count);
}

/// One client of a cache is held in a read, and the other passes by with so many puts, each on a thread. Then the other reads what
/// was held.
fn hold_and_pass<N: Naming + Send + Sync, G: Gate + Sync, R: Threads + Wait + Abort + Sync>(
    rt: &R,
    alloc: Global,
    gate: &G,
    seats: Seats,
    course: &Course,
    count: u64,
) -> Result<(), Fail>
    requires few { count ≤ 100000 }
    requires seats { AreSeats N.history seats }
{
    let mut clients = Cache::<N>::make(alloc, seats, 1_000, gate)?;
    let other = clients.pop().expect(rt, "a client");
    let mut held = clients.pop().expect(rt, "a client");
    write_timeline(rt, alloc, &mut held);
    let (_, mut other) = thread::join(
        rt,
        move || read_twice(rt, alloc, held, count),
        move || pass_by(rt, alloc, course, other, count),
    );
    expect_timeline(rt, alloc, &mut other, 3 + count);
    Ok(())
}

/// One client is held while the other puts so often. Each gives up where it looked so often for the other.
fn hold_while<R: Threads + Wait + Abort + Sync>(
    rt: &R,
    alloc: Global,
    count: u64,
    looks: u32,
) -> Result<(), Fail>
    requires { count ≤ 100000 }
{
    let course = begin(alloc, looks)?;
    let gate = Holding {
        rt,
        course: Arc::try_clone(&course)?,
    };
    let seats = make_seats(alloc, 2, 4)?;
    hold_and_pass::<Brand, _, _>(rt, alloc, &gate, seats, &course, count)?;
    assert!(rt; !course.lock(rt).gave_up);
    Ok(())
}

#[test]
fn a_held_read_holds_no_other_client(rt: HostRuntime) -> Result<(), Fail> {
    hold_while(&rt, rt.alloc(), 1, FEW_LOOKS)
}

/// What the held read asks for is kept, and its cell is filled anew for the next read.
#[test]
fn a_held_read_keeps_what_it_reads(rt: HostRuntime) -> Result<(), Fail> {
    hold_while(&rt, rt.alloc(), 70_000, MANY_LOOKS)
}
