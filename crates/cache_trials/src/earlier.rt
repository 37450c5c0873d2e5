// Scans at earlier positions and change feeds, held to worked answers: what they tell of joins, and how far back they reach.
ghost use Rattle.cache_trials.specs.Seated.{AreSeats};

use crate::clients::{Row, expect_line, put_at, run};
use crate::seated::make_seats;
use base_shards::Naming;
use pequod_cache::{Cache, ClientService, Seats};
use pq_io::OpenGate;
use session::Service;
use std::alloc::Global;
use std::marker::Brand;
use std::process::Abort;
use std::sync::Wait;
use std::test::Fail;

/// A timeline of which one client reads what the other writes: scans at positions before, at and after the last, and what changed
/// since, also where a post came and went between, where a pair that no join gives stands among those of the timeline, and where
/// the join was dropped and a pair of its output is put.
const OF_A_TIMELINE: [Row; 23] = [
    (
        0,
        r#"["join","t|<user>|<time>|<poster> = check s|<user>|<poster> copy p|<poster>|<time>"]"#,
        r#"["ok",1]"#,
    ),
    (0, r#"["put","s|ann|bob","1"]"#, r#"["ok",2]"#),
    (0, r#"["put","p|bob|100","Hi"]"#, r#"["ok",3]"#),
    (0, r#"["put","p|bob|120","Yo"]"#, r#"["ok",4]"#),
    (
        1,
        r#"["scan","t|ann|","t|ann}",3]"#,
        r#"["pairs",3,[["t|ann|100|bob","Hi"]]]"#,
    ),
    (1, r#"["scan","t|ann|","t|ann}",0]"#, r#"["pairs",0,[]]"#),
    (
        1,
        r#"["scan","t|ann|","t|ann}",5]"#,
        r#"["error","ahead",4]"#,
    ),
    (
        1,
        r#"["changes","t|ann|","t|ann}",3]"#,
        r#"["changes",3,4,[["t|ann|120|bob","Yo"]]]"#,
    ),
    (0, r#"["remove","s|ann|bob"]"#, r#"["ok",5]"#),
    (
        1,
        r#"["changes","t|ann|","t|ann}",3]"#,
        r#"["changes",3,5,[["t|ann|100|bob"]]]"#,
    ),
    (
        1,
        r#"["changes","t|ann|","t|ann}",4]"#,
        r#"["changes",4,5,[["t|ann|100|bob"],["t|ann|120|bob"]]]"#,
    ),
    (
        1,
        r#"["changes","t|ann|","t|ann}",5]"#,
        r#"["changes",5,5,[]]"#,
    ),
    (
        1,
        r#"["changes","t|ann|","t|ann}",2]"#,
        r#"["changes",2,5,[]]"#,
    ),
    (
        1,
        r#"["changes","t|ann|","t|ann}",6]"#,
        r#"["error","ahead",5]"#,
    ),
    (0, r#"["put","p|bob|130","No"]"#, r#"["ok",6]"#),
    (0, r#"["put","t|ann|own","x"]"#, r#"["ok",7]"#),
    (
        1,
        r#"["changes","t|","t}",4]"#,
        r#"["changes",4,7,[["t|ann|100|bob"],["t|ann|120|bob"],["t|ann|own","x"]]]"#,
    ),
    (0, r#"["drop",1]"#, r#"["ok",8]"#),
    (0, r#"["put","t|ann|100|bob","own"]"#, r#"["ok",9]"#),
    (
        1,
        r#"["changes","t|ann|","t|ann}",4]"#,
        r#"["changes",4,9,[["t|ann|100|bob","own"],["t|ann|120|bob"],["t|ann|own","x"]]]"#,
    ),
    (
        1,
        r#"["scan","t|ann|","t|ann}",4]"#,
        r#"["pairs",4,[["t|ann|100|bob","Hi"],["t|ann|120|bob","Yo"]]]"#,
    ),
    (
        1,
        r#"["scan","t|ann|","t|ann}",9]"#,
        r#"["pairs",9,[["t|ann|100|bob","own"],["t|ann|own","x"]]]"#,
    ),
    (
        1,
        r#"["changes","p|bob|","p|bob}",4]"#,
        r#"["changes",4,9,[["p|bob|130","No"]]]"#,
    ),
];

#[test]
fn a_timeline_is_told_as_it_stood(rt: HostRuntime) -> Result<(), Fail> {
    let alloc = rt.alloc();
    let seats = make_seats(alloc, 2, 4)?;
    run::<Brand, _>(&rt, alloc, &OpenGate, seats, &OF_A_TIMELINE)
}

/// How many entries there are, each of which puts its position at one key.
const COUNT: u64 = 65_540;

/// What is told of the farthest position within reach and the first beyond it, and of the last one and the one after it.
const OF_THE_REACH: [(&str, &str); 8] = [
    (r#"["scan","k|","k}",3]"#, r#"["error","gone",65540]"#),
    (r#"["scan","k|","k}",4]"#, r#"["pairs",4,[["k|a","4"]]]"#),
    (
        r#"["scan","k|","k}",65540]"#,
        r#"["pairs",65540,[["k|a","65540"]]]"#,
    ),
    (r#"["scan","k|","k}",65541]"#, r#"["error","ahead",65540]"#),
    (r#"["changes","k|","k}",3]"#, r#"["error","gone",65540]"#),
    (
        r#"["changes","k|","k}",4]"#,
        r#"["changes",4,65540,[["k|a","65540"]]]"#,
    ),
    (
        r#"["changes","k|","k}",65540]"#,
        r#"["changes",65540,65540,[]]"#,
    ),
    (
        r#"["changes","k|","k}",65541]"#,
        r#"["error","ahead",65540]"#,
    ),
];

/// The service is sent the rows, each on a link of its own.
fn send_rows<S: Service + Drop, R: Abort>(
    rt: &R,
    alloc: Global,
    mut service: S,
    rows: &[(&str, &str)],
) -> Result<(), Fail> {
    for (line, wanted) in rows {
        expect_line(rt, alloc, &mut service, line, wanted)?;
    }
    Ok(())
}

/// The one client of a cache puts so often, and is then sent the rows.
fn put_and_ask<N: Naming, R: Wait + Abort>(
    rt: &R,
    alloc: Global,
    gate: &OpenGate,
    seats: Seats,
    rows: &[(&str, &str)],
) -> Result<(), Fail>
    requires { AreSeats N.history seats }
{
    let mut clients = Cache::<N>::make(alloc, seats, 1_000, gate)?;
    let mut client = clients.pop().expect(rt, "a client");
    for position in 1..=COUNT {
        let value = format!(in alloc; "{position}")?;
        put_at(rt, alloc, &mut client, ("k|a", value.as_str()), position);
    }
    send_rows(rt, alloc, ClientService { rt, client }, rows)
}

#[test]
fn what_lies_65_536_entries_back_is_told(rt: HostRuntime) -> Result<(), Fail> {
    let alloc = rt.alloc();
    let seats = make_seats(alloc, 1, 4)?;
    put_and_ask::<Brand, _>(&rt, alloc, &OpenGate, seats, &OF_THE_REACH)
}
