// Scans at drawn positions and what changed since, over small histories that are drawn: each is held to plain evaluation at both
// positions, and setting and taking out what changed turns the one scan into the other.
ghost use Rattle.cache_trials.specs.Seated.{AreSeats};

use crate::asking::{Ask, FIRST_JOINS, answer_afresh, draw_position, line_of, position_told};
use crate::clients::services;
use crate::seated::make_seats;
use base_shards::Naming;
use join_rows::Table;
use join_types::{Change, Pair};
use out_of_memory::OutOfMemory;
use pequod_cache::{ClientService, Seats};
use plain_history::PlainHistory;
use pq_io::OpenGate;
use rand_core::SeedableRng;
use rand_core::utils::NextWord;
use rand_pcg::Lcg64Xsh32;
use request_codec::Reply;
use session::Service;
use std::alloc::Global;
use std::marker::Brand;
use std::process::Abort;
use std::sync::Wait;
use std::test::Fail;

/// How many histories are drawn.
const HISTORIES: u64 = 2_000;

/// How many requests are drawn for each, beside those that look back.
const REQUESTS: usize = 32;

/// After one of so many of these a range is looked at from both positions.
const REQUESTS_FOR_A_LOOK_BACK: usize = 4;

/// Of so many requests one declares or drops a join.
const REQUESTS_FOR_A_CHANGE: u32 = 5;

/// The pairs of a table, in order.
fn pairs_of(alloc: Global, table: &Table) -> Result<Vec<Pair>, OutOfMemory> {
    let mut pairs = Vec::new(alloc);
    for pair in table.iter() {
        pairs.push(pair.copy()?)?;
    }
    Ok(pairs)
}

/// The table of the pairs.
fn table_of(alloc: Global, pairs: Vec<Pair>) -> Result<Table, OutOfMemory> {
    let mut table = Table::new(alloc);
    for Pair { key, value } in pairs {
        table.put(key, value)?;
    }
    Ok(table)
}

/// The pairs with what changed set, and with what has gone taken out.
fn turn(alloc: Global, pairs: Vec<Pair>, changes: Vec<Change>) -> Result<Vec<Pair>, OutOfMemory> {
    let mut table = table_of(alloc, pairs)?;
    for Change { key, value } in changes {
        match value {
            Some(value) => table.put(key, value)?,
            None => table.remove(&key),
        }
    }
    pairs_of(alloc, &table)
}

/// A range as it stood at a position, what changed in it since, and as it stands.
#[derive(Drop)]
struct Seen {
    before: Reply,
    changed: Reply,
    after: Reply,
}

/// Setting and taking out what changed turns the range as it stood into the range as it stands.
fn expect_turned<R: Abort>(rt: &R, alloc: Global, seen: Seen) {
    let Seen {
        before,
        changed,
        after,
    } = seen;
    let Reply::Pairs(_, before) = before else {
        panic!(rt; "the position is within reach")
    };
    let Reply::Changes(_, position, changes) = changed else {
        panic!(rt; "the position is within reach")
    };
    let turned = turn(alloc, before, changes).expect(rt, "memory");
    let turned = line_of(rt, alloc, &Reply::Pairs(position, turned));
    let after = line_of(rt, alloc, &after);
    let is_alike = turned.as_slice() == after.as_slice();
    assert!(rt; is_alike);
}

/// The clients of one cache, who are asked one after another, with plain evaluation beside them, and the position of a join that
/// the last declaration was told.
#[derive(Drop)]
struct Trial<S> {
    alloc: Global,
    clients: Vec<S>,
    plain: PlainHistory,
    told: u64,
}

impl<S: Service> Trial<S> {
    /// The client with a number is asked, and answers as plain evaluation does.
    fn ask<R: Abort>(&mut self, rt: &R, number: usize, ask: Ask) -> Reply {
        let alloc = self.alloc;
        let client = self.clients.get_mut(number).expect(rt, "a client");
        let reply = ask.put_to(rt, alloc, client);
        let wanted = answer_afresh(rt, ask.request(rt, alloc), &mut self.plain);
        if ask.is_declaration() {
            self.told = position_told(&wanted).unwrap_or(self.told);
        }
        let found = line_of(rt, alloc, &reply);
        let wanted = line_of(rt, alloc, &wanted);
        let is_alike = found.as_slice() == wanted.as_slice();
        assert!(rt; is_alike);
        reply
    }

    /// A client is asked for a range after so many entries, what changed since, and for the range after all.
    fn look<R: Abort>(&mut self, rt: &R, number: usize, ask: Ask, position: u64) -> Seen {
        let before = self.ask(rt, number, ask.at(position));
        let changed = self.ask(rt, number, ask.since(position));
        let after = self.ask(rt, number, ask);
        Seen {
            before,
            changed,
            after,
        }
    }

    /// One of the two clients looks at a range that is drawn from a position that is drawn.
    fn look_back<R: Abort>(&mut self, rt: &R, generator: &mut Lcg64Xsh32) {
        let number = generator.next_word() as usize % 2;
        let position = draw_position(generator, self.plain.len().saturating_add(1));
        let ask = Ask::scan(generator);
        let seen = self.look(rt, number, ask, position);
        expect_turned(rt, self.alloc, seen);
    }

    /// One of the two clients is asked what is drawn.
    fn ask_drawn<R: Abort>(&mut self, rt: &R, generator: &mut Lcg64Xsh32) {
        let ask = if generator.next_word() % REQUESTS_FOR_A_CHANGE == 0 {
            Ask::change(generator, self.told)
        } else {
            Ask::draw(generator, self.told)
        };
        let number = generator.next_word() as usize % 2;
        self.ask(rt, number, ask);
    }

    /// Some of the joins are declared first, so many, and then comes what is drawn.
    fn run<R: Abort>(&mut self, rt: &R, generator: &mut Lcg64Xsh32, joins: usize) {
        for place in 0..joins {
            self.ask(rt, 0, Ask::declare(place));
        }
        for place in 0..REQUESTS {
            self.ask_drawn(rt, generator);
            if place % REQUESTS_FOR_A_LOOK_BACK == 0 {
                self.look_back(rt, generator);
            }
        }
    }
}

/// Plays the history that is drawn from a number with the two clients of a cache, of which the number also says how many rows it
/// may keep and how many joins are declared first.
fn play<N: Naming, R: Wait + Abort>(
    rt: &R,
    alloc: Global,
    gate: &OpenGate,
    seats: Seats,
    number: u64,
) -> Result<(), Fail>
    requires { AreSeats N.history seats }
{
    let clients = services::<N, R>(rt, alloc, gate, seats, 1 + number % 24)?;
    let mut trial = Trial {
        alloc,
        clients,
        plain: PlainHistory::new(alloc),
        told: 0,
    };
    let mut generator = Lcg64Xsh32::seed_from_u64(number);
    trial.run(rt, &mut generator, number as usize % (FIRST_JOINS + 1));
    Ok(())
}

/// Plays the history that is drawn from a number.
fn play_drawn<R: Wait + Abort>(rt: &R, alloc: Global, number: u64) -> Result<(), Fail> {
    let seats = make_seats(alloc, 2, 4)?;
    play::<Brand, R>(rt, alloc, &OpenGate, seats, number)
}

#[test]
fn what_changed_turns_a_scan_into_a_later_one(rt: HostRuntime) -> Result<(), Fail> {
    for number in 0..HISTORIES {
        play_drawn(&rt, rt.alloc(), number)?;
    }
    Ok(())
}
