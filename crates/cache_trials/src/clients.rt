// What clients are told on their links, alone and beside others, and each call once, with ample memory.
ghost use Rattle.std.specs.Prelude.{◌≤◌};
ghost use Rattle.pequod_cache.specs.Sitting.{IsFresh};
ghost use Rattle.cache_trials.specs.Seated.{AreSeats};

use crate::seated::make_seats;
use base_shards::Naming;
use join_lang::parse;
use key_space::{Key, Range, Value};
use out_of_memory::OutOfMemory;
use pequod_cache::{Cache, Client, ClientService, Seats, Turn, Updater};
use pq_io::{Gate, MemLink, MemSink, MemSource, OpenGate};
use request_codec::Reply;
use session::{End, Service, serve_link};
use std::alloc::Global;
use std::marker::Brand;
use std::process::Abort;
use std::sync::Wait;
use std::test::Fail;
use std::thread;
use std::thread::Threads;

/// Which client is asked, a line that it is sent, and the line that it answers.
pub type Row = (usize, &'static str, &'static str);

/// A join is declared, its sources are put and removed, and its output is read.
const OF_A_JOIN: [Row; 10] = [
    (
        0,
        r#"["join","t|<user>|<time>|<poster> = check s|<user>|<poster> copy p|<poster>|<time>"]"#,
        r#"["ok",1]"#,
    ),
    (0, r#"["put","s|ann|bob","1"]"#, r#"["ok",2]"#),
    (0, r#"["put","p|bob|100","Hi"]"#, r#"["ok",3]"#),
    (
        0,
        r#"["scan","t|ann|","t|ann}"]"#,
        r#"["pairs",3,[["t|ann|100|bob","Hi"]]]"#,
    ),
    (0, r#"["get","t|ann|100|bob"]"#, r#"["value",3,"Hi"]"#),
    (0, r#"["get","t|ann|100|liz"]"#, r#"["none",3]"#),
    (0, r#"["remove","s|ann|bob"]"#, r#"["ok",4]"#),
    (0, r#"["get","t|ann|100|bob"]"#, r#"["none",4]"#),
    (0, r#"["scan","t|ann|","t|ann}"]"#, r#"["pairs",4,[]]"#),
    (0, r#"["get","p|bob|100"]"#, r#"["value",4,"Hi"]"#),
];

/// A client that is sent nothing before sees what another has written.
const OF_A_LOOK: [Row; 5] = [
    (0, r#"["put","k|a","1"]"#, r#"["ok",1]"#),
    (1, r#"["get","k|a"]"#, r#"["value",1,"1"]"#),
    (1, r#"["put","k|b","2"]"#, r#"["ok",2]"#),
    (0, r#"["get","k|b"]"#, r#"["value",2,"2"]"#),
    (0, r#"["get","k|c"]"#, r#"["none",2]"#),
];

/// Writes that are refused, by a client that has not seen why.
const OF_REFUSALS: [Row; 8] = [
    (
        0,
        r#"["join","t|<a> = copy p|<a>|<b>"]"#,
        r#"["error","slots",0]"#,
    ),
    (0, r#"["join","t|<a> = copy p|<a>"]"#, r#"["ok",1]"#),
    (1, r#"["put","t|x","1"]"#, r#"["error","computed",1,1]"#),
    (0, r#"["put","p|x","1"]"#, r#"["ok",2]"#),
    (
        1,
        r#"["join","t|<b> = copy q|<b>"]"#,
        r#"["error","clash",2,1]"#,
    ),
    (1, r#"["get","t|x"]"#, r#"["value",2,"1"]"#),
    (0, r#"["drop",1]"#, r#"["ok",3]"#),
    (1, r#"["drop",1]"#, r#"["error","nojoin",3]"#),
];

/// Joins that one client declares and the other drops, with pairs that they hide meanwhile.
const OF_DROPS: [Row; 11] = [
    (0, r#"["put","b|1","base"]"#, r#"["ok",1]"#),
    (0, r#"["put","a|2","A"]"#, r#"["ok",2]"#),
    (
        1,
        r#"["scan","b|","b}"]"#,
        r#"["pairs",2,[["b|1","base"]]]"#,
    ),
    (0, r#"["join","b|<x> = copy a|<x>"]"#, r#"["ok",3]"#),
    (1, r#"["scan","b|","b}"]"#, r#"["pairs",3,[["b|2","A"]]]"#),
    (1, r#"["put","b|1","x"]"#, r#"["error","computed",3,3]"#),
    (1, r#"["drop",3]"#, r#"["ok",4]"#),
    (
        0,
        r#"["scan","b|","b}"]"#,
        r#"["pairs",4,[["b|1","base"]]]"#,
    ),
    (0, r#"["join","b|<x> = count a|<x>"]"#, r#"["ok",5]"#),
    (1, r#"["scan","b|","b}"]"#, r#"["pairs",5,[["b|2","1"]]]"#),
    (0, r#"["drop",3]"#, r#"["error","nojoin",5]"#),
];

/// The service answers a line on a link with this line.
pub fn expect_line<S: Service, R: Abort>(
    rt: &R,
    alloc: Global,
    service: &mut S,
    line: &str,
    wanted: &str,
) -> Result<(), Fail> {
    let bytes = line.as_bytes().to_vec(alloc)?;
    let source = MemSource::new(bytes, Vec::new(alloc), Vec::new(alloc));
    let mut link = MemLink::new(source, MemSink::new(alloc, Vec::new(alloc)));
    let ended = serve_link(alloc, service, &mut link);
    let told = link.bytes().strip_suffix(b"\n");
    assert!(rt; ended == End::Closed && told == Some(wanted.as_bytes()));
    Ok(())
}

/// The services of the clients of a new cache that may keep so many rows.
pub fn services<'a, 'g, N: Naming, R>(
    rt: &'a R,
    alloc: Global,
    gate: &'g OpenGate,
    seats: Seats,
    rows: u64,
) -> Result<Vec<ClientService<'a, 'g, R, N, OpenGate>>, OutOfMemory>
    requires seats { AreSeats N.history seats }
    requires some_rows { 1 ≤ rows }
{
    let mut services = Vec::new(alloc);
    for client in Cache::<N>::make(alloc, seats, rows, gate)? {
        services.push(ClientService { rt, client })?;
    }
    Ok(services)
}

/// Each row is a link of its client, one after another.
pub fn run<N: Naming, R: Wait + Abort>(
    rt: &R,
    alloc: Global,
    gate: &OpenGate,
    seats: Seats,
    rows: &[Row],
) -> Result<(), Fail>
    requires { AreSeats N.history seats }
{
    let mut services = services::<N, R>(rt, alloc, gate, seats, 1_000)?;
    for (number, line, wanted) in rows {
        let service = services.get_mut(*number).expect(rt, "a client");
        expect_line(rt, alloc, service, line, wanted)?;
    }
    Ok(())
}

#[test]
fn one_client_reads_a_join(rt: HostRuntime) -> Result<(), Fail> {
    let alloc = rt.alloc();
    let seats = make_seats(alloc, 1, 4)?;
    run::<Brand, _>(&rt, alloc, &OpenGate, seats, &OF_A_JOIN)
}

#[test]
fn each_client_reads_what_the_other_wrote(rt: HostRuntime) -> Result<(), Fail> {
    let alloc = rt.alloc();
    let seats = make_seats(alloc, 2, 4)?;
    run::<Brand, _>(&rt, alloc, &OpenGate, seats, &OF_A_LOOK)
}

#[test]
fn writes_are_refused_after_what_others_wrote(rt: HostRuntime) -> Result<(), Fail> {
    let alloc = rt.alloc();
    let seats = make_seats(alloc, 2, 4)?;
    run::<Brand, _>(&rt, alloc, &OpenGate, seats, &OF_REFUSALS)
}

#[test]
fn joins_are_declared_and_dropped_after_puts(rt: HostRuntime) -> Result<(), Fail> {
    let alloc = rt.alloc();
    let seats = make_seats(alloc, 2, 4)?;
    run::<Brand, _>(&rt, alloc, &OpenGate, seats, &OF_DROPS)
}

/// How many keys a thread puts.
const COUNT: usize = 100;

/// The whole of a table.
pub fn table(rt: &impl Abort, alloc: Global, name: &str) -> Range {
    let low = format!(in alloc; "{name}|").expect(rt, "memory");
    let high = format!(in alloc; "{name}}}").expect(rt, "memory");
    Range::read(alloc, low.as_str(), high.as_str()).expect(rt, "a range")
}

/// Puts a value at so many keys of a table, and reads the table after each.
fn put_and_read<'g, N: Naming, R: Wait + Abort>(
    rt: &R,
    alloc: Global,
    mut client: Client<'g, N, OpenGate>,
    name: &str,
) -> Client<'g, N, OpenGate> {
    let whole = table(rt, alloc, name);
    let mut last = 0;
    for number in 0..COUNT {
        let key = format!(in alloc; "{name}|{number}").expect(rt, "memory");
        let key = Key::read(alloc, key.as_str()).expect(rt, "a key");
        let value = Value::read(alloc, "1").expect(rt, "a value");
        let Reply::Done(position) = client.put(rt, key, value) else {
            panic!(rt; "no cause against it")
        };
        assert!(rt; last < position);
        let found = client.read(rt, &whole).expect(rt, "memory");
        assert!(rt; position <= found.position);
        assert!(rt; found.pairs.len() == number.saturating_add(1));
        last = found.position;
    }
    client
}

/// Both tables have the keys of both threads.
fn expect_both<N: Naming, R: Wait + Abort>(
    rt: &R,
    alloc: Global,
    client: &mut Client<'_, N, OpenGate>,
) {
    for name in ["a", "b"] {
        let whole = table(rt, alloc, name);
        let found = client.read(rt, &whole).expect(rt, "memory");
        assert!(rt; found.position == 200);
        assert!(rt; found.pairs.len() == COUNT);
    }
}

/// Two threads put into tables of their own, and then their clients meet, and each reads both tables.
fn two_put_and_meet<N: Naming + Send + Sync, R: Threads + Wait + Abort + Sync>(
    rt: &R,
    alloc: Global,
    gate: &OpenGate,
    seats: Seats,
) -> Result<(), Fail>
    requires { AreSeats N.history seats }
{
    let mut clients = Cache::<N>::make(alloc, seats, 1_000, gate)?;
    let second = clients.pop().expect(rt, "a client");
    let first = clients.pop().expect(rt, "a client");
    let (mut first, mut second) = thread::join(
        rt,
        move || put_and_read(rt, alloc, first, "a"),
        move || put_and_read(rt, alloc, second, "b"),
    );
    first.meet(rt, &mut second);
    expect_both(rt, alloc, &mut first);
    expect_both(rt, alloc, &mut second);
    Ok(())
}

#[test]
fn two_threads_put_and_meet(rt: HostRuntime) -> Result<(), Fail> {
    let alloc = rt.alloc();
    let seats = make_seats(alloc, 2, 4)?;
    two_put_and_meet::<Brand, _>(&rt, alloc, &OpenGate, seats)
}

/// Puts the value at the key, as the entry at a position.
pub fn put_at<N: Naming, G: Gate, R: Wait + Abort>(
    rt: &R,
    alloc: Global,
    client: &mut Client<'_, N, G>,
    pair: (&str, &str),
    wanted: u64,
) {
    let key = Key::read(alloc, pair.0).expect(rt, "a key");
    let value = Value::read(alloc, pair.1).expect(rt, "a value");
    let Reply::Done(position) = client.put(rt, key, value) else {
        panic!(rt; "no cause against it")
    };
    assert!(rt; position == wanted);
}

/// Puts a value at a key so often, as the first entries, and reads the pair after the last.
fn put_often<N: Naming, R: Wait + Abort>(
    rt: &R,
    alloc: Global,
    client: &mut Client<'_, N, OpenGate>,
    count: u64,
) {
    for position in 1..=count {
        put_at(rt, alloc, client, ("k|a", "1"), position);
    }
    let found = client.read(rt, &table(rt, alloc, "k")).expect(rt, "memory");
    assert!(rt; found.position == count && found.pairs.len() == 1);
}

/// The one client of a cache puts so often.
fn make_and_put<N: Naming, R: Wait + Abort>(
    rt: &R,
    alloc: Global,
    gate: &OpenGate,
    seats: Seats,
    count: u64,
) -> Result<(), Fail>
    requires { AreSeats N.history seats }
{
    let mut clients = Cache::<N>::make(alloc, seats, 1_000, gate)?;
    let mut client = clients.pop().expect(rt, "a client");
    put_often(rt, alloc, &mut client, count);
    Ok(())
}

#[test]
fn one_client_puts_70_000_times(rt: HostRuntime) -> Result<(), Fail> {
    let alloc = rt.alloc();
    let seats = make_seats(alloc, 1, 4)?;
    make_and_put::<Brand, _>(&rt, alloc, &OpenGate, seats, 70_000)
}

/// How many pairs of a user's timeline there are, and after how many entries.
fn count_timeline<N: Naming, G: Gate, R: Wait + Abort>(
    rt: &R,
    alloc: Global,
    client: &mut Client<'_, N, G>,
) -> (u64, usize) {
    let range = Range::read(alloc, "t|ann|", "t|ann}").expect(rt, "a range");
    let found = client.read(rt, &range).expect(rt, "memory");
    (found.position, found.pairs.len())
}

/// Declares the join of timelines, puts a subscription and a post, and reads the timeline.
fn begin_timeline<N: Naming, R: Wait + Abort>(
    rt: &R,
    alloc: Global,
    client: &mut Client<'_, N, OpenGate>,
) {
    let text = "t|<user>|<time>|<poster> = check s|<user>|<poster> copy p|<poster>|<time>";
    let join = parse(alloc, text).expect(rt, "a join");
    assert!(rt; matches!(client.declare(rt, join), Reply::Done(1)));
    put_at(rt, alloc, client, ("s|ann|bob", "1"), 2);
    put_at(rt, alloc, client, ("p|bob|100", "Hi"), 3);
    assert!(rt; count_timeline(rt, alloc, client) == (3, 1));
}

/// A put marks the cell of the range that reads it, and the updater brings that forward, once.
fn put_and_turn<N: Naming, R: Wait + Abort>(
    rt: &R,
    alloc: Global,
    client: &mut Client<'_, N, OpenGate>,
    updater: &mut Updater<'_, N, OpenGate>,
) {
    begin_timeline(rt, alloc, client);
    assert!(rt; updater.turn(rt) == Turn::Idle);
    put_at(rt, alloc, client, ("p|bob|120", "Yo"), 4);
    let position = Some(4);
    assert!(rt; updater.turn(rt) == Turn::Brought { id: 0, position });
    assert!(rt; updater.turn(rt) == Turn::Idle);
    assert!(rt; count_timeline(rt, alloc, client) == (4, 2));
}

/// Makes a cache with an updater, and has a client put and the updater turn.
fn make_and_turn<N: Naming, R: Wait + Abort>(
    rt: &R,
    alloc: Global,
    gate: &OpenGate,
    seats: Seats,
) -> Result<(), Fail>
    requires seats { AreSeats N.history seats }
    requires updater { IsFresh N.history seats.updater }
{
    let (mut clients, mut updater) = Cache::<N>::make_with_updater(alloc, seats, 1_000, gate)?;
    let mut client = clients.pop().expect(rt, "a client");
    put_and_turn(rt, alloc, &mut client, &mut updater);
    Ok(())
}

#[test]
fn an_updater_brings_a_kept_range_forward(rt: HostRuntime) -> Result<(), Fail> {
    let alloc = rt.alloc();
    let seats = make_seats(alloc, 1, 4)?;
    make_and_turn::<Brand, _>(&rt, alloc, &OpenGate, seats)
}
