// Four clients of one cache, each on a thread of its own.
ghost use Rattle.std.specs.Prelude.{◌≤◌};
ghost use Rattle.cache_trials.specs.Seated.{AreSeats};

use crate::asking::{Ask, FIRST_JOINS, TABLES, position_told};
use crate::checking::{Afresh, Answered, expect_ascending};
use crate::seated::make_seats;
use base_shards::Naming;
use pequod_cache::{Cache, ClientService, Seats};
use pq_io::OpenGate;
use rand_core::SeedableRng;
use rand_pcg::Lcg64Xsh32;
use session::Service;
use std::alloc::Global;
use std::marker::Brand;
use std::process::Abort;
use std::sync::Wait;
use std::test::Fail;
use std::thread;
use std::thread::Threads;

/// How many clients there are.
const CLIENTS: u32 = 4;

/// How much each client is asked.
#[derive(Clone, Copy)]
struct Asked {
    /// How many drawn requests.
    count: usize,
    /// One of so many of them asks for an earlier position.
    per_look_back: usize,
    /// How many puts follow each of them in a table that no join reads.
    fills: usize,
    /// How many entries there are in the end, at least.
    entries: usize,
}

/// A client with what it asked and was answered, and the position of a join that its last declaration was told.
#[derive(Drop)]
struct Talk<S> {
    client: S,
    answers: Vec<Answered>,
    told: u64,
}

impl<S: Service> Talk<S> {
    /// The client is asked this.
    fn ask<R: Abort>(&mut self, rt: &R, alloc: Global, ask: Ask) {
        let reply = ask.put_to(rt, alloc, &mut self.client);
        if ask.is_declaration() {
            self.told = position_told(&reply).unwrap_or(self.told);
        }
        let noted = self.answers.push(Answered { ask, reply });
        assert!(rt; noted.is_ok(), "memory");
    }

    /// The client is asked to declare the joins.
    fn declare_joins<R: Abort>(&mut self, rt: &R, alloc: Global) {
        for place in 0..FIRST_JOINS {
            self.ask(rt, alloc, Ask::declare(place));
        }
    }

    /// The client is asked to put so often in a table that no join reads.
    fn ask_to_fill<R: Abort>(
        &mut self,
        rt: &R,
        alloc: Global,
        generator: &mut Lcg64Xsh32,
        count: usize,
    ) {
        for _ in 0..count {
            let ask = Ask::fill(generator);
            self.ask(rt, alloc, ask);
        }
    }

    /// A request that is drawn as the one at a place.
    fn draw(&self, generator: &mut Lcg64Xsh32, place: usize, asked: Asked) -> Ask {
        if place % asked.per_look_back.max(1) == 0 {
            Ask::look_back(generator, self.answers.len() as u64)
        } else {
            Ask::draw(generator, self.told)
        }
    }

    /// The client is asked what is drawn from a number.
    fn ask_drawn<R: Abort>(self, rt: &R, alloc: Global, number: u64, asked: Asked) -> Talk<S> {
        let mut talk = self;
        let mut generator = Lcg64Xsh32::seed_from_u64(number);
        for place in 0..asked.count {
            let ask = talk.draw(&mut generator, place, asked);
            talk.ask(rt, alloc, ask);
            talk.ask_to_fill(rt, alloc, &mut generator, asked.fills);
        }
        talk
    }

    /// The client is asked for all that stands.
    fn ask_for_all<R: Abort>(&mut self, rt: &R, alloc: Global) {
        for place in 0..TABLES.len() {
            self.ask(rt, alloc, Ask::whole(place));
        }
    }
}

/// A client of the cache meets each of the others.
fn meet<'a, 'g, N: Naming, R: Wait>(
    rt: &R,
    first: &mut Talk<ClientService<'a, 'g, R, N, OpenGate>>,
    others: &mut [Talk<ClientService<'a, 'g, R, N, OpenGate>>],
) {
    for other in others {
        first.client.client.meet(rt, &mut other.client.client);
    }
}

/// Who talks with the clients of a cache that may keep so many rows. The joins are declared.
fn begin<'a, 'g, N: Naming, R: Wait + Abort>(
    rt: &'a R,
    alloc: Global,
    gate: &'g OpenGate,
    seats: Seats,
    rows: u64,
) -> Result<Vec<Talk<ClientService<'a, 'g, R, N, OpenGate>>>, Fail>
    requires seats { AreSeats N.history seats }
    requires some_rows { 1 ≤ rows }
{
    let mut talks = Vec::new(alloc);
    for client in Cache::<N>::make(alloc, seats, rows, gate)? {
        talks.push(Talk {
            client: ClientService { rt, client },
            answers: Vec::new(alloc),
            told: 0,
        })?;
    }
    let first = talks.first_mut().expect(rt, "a client");
    first.declare_joins(rt, alloc);
    Ok(talks)
}

/// Each client is asked so much on a thread of its own. What a client is stays unseen here: the prover compares the types that a
/// thread is given, and a client's type is large.
fn ask_apart<S: Service + Send + Drop, R: Threads + Abort + Sync>(
    rt: &R,
    alloc: Global,
    talks: Vec<Talk<S>>,
    asked: Asked,
) -> Result<Vec<Talk<S>>, Fail> {
    let mut jobs = Vec::new(alloc);
    for talk in talks {
        jobs.push((talk, jobs.len() as u64))?;
    }
    Ok(thread::map_vec(
        rt,
        jobs,
        &|(talk, number)| talk.ask_drawn(rt, alloc, number, asked),
    )?)
}

/// Each client is asked so much on a thread of its own. Then they meet, and each is asked for all that stands.
fn talk_together<'a, 'g, N: Naming + Send + Sync, R: Threads + Wait + Abort + Sync>(
    rt: &'a R,
    alloc: Global,
    talks: Vec<Talk<ClientService<'a, 'g, R, N, OpenGate>>>,
    asked: Asked,
) -> Result<Vec<Talk<ClientService<'a, 'g, R, N, OpenGate>>>, Fail> {
    let mut talks = ask_apart(rt, alloc, talks, asked)?;
    let mut last = talks.pop().expect(rt, "a client");
    meet(rt, &mut last, talks.as_mut_slice());
    meet(rt, &mut last, talks.as_mut_slice());
    talks.push(last)?;
    for talk in talks.iter_mut() {
        talk.ask_for_all(rt, alloc);
    }
    Ok(talks)
}

/// What all clients asked and were answered, each client's in the order in which it asked.
fn answers_of<S: Drop>(alloc: Global, talks: Vec<Talk<S>>) -> Result<Vec<Vec<Answered>>, Fail> {
    let mut all = Vec::new(alloc);
    for Talk { answers, .. } in talks {
        all.push(answers)?;
    }
    Ok(all)
}

/// As many places, each for the answers of one position, as there are answers, which are more than the entries.
fn places(alloc: Global, all: &[Vec<Answered>]) -> Result<Vec<Vec<Answered>>, Fail> {
    let mut places = Vec::new(alloc);
    for _ in all.iter().flatten() {
        places.push(Vec::new(alloc))?;
    }
    Ok(places)
}

/// Puts the answers of a client, whose positions do not fall, at the places of their positions.
fn put_in_place<R: Abort>(
    rt: &R,
    answers: Vec<Answered>,
    places: &mut [Vec<Answered>],
) -> Result<(), Fail> {
    expect_ascending(rt, answers.as_slice());
    for answered in answers {
        let position = answered.position(rt) as usize;
        let place = places.get_mut(position).expect(rt, "a place");
        place.push(answered)?;
    }
    Ok(())
}

/// The answers at each place are what evaluating afresh gives after so many entries.
fn expect_afresh<R: Abort>(rt: &R, alloc: Global, places: &[Vec<Answered>]) {
    let mut afresh = Afresh::new(alloc);
    for answers in places {
        afresh.go_on(rt, answers.as_slice());
    }
}

/// Four clients are asked so much by threads, and all that they were answered is what evaluating afresh gives.
fn hold<N: Naming + Send + Sync, R: Threads + Wait + Abort + Sync>(
    rt: &R,
    alloc: Global,
    gate: &OpenGate,
    seats: Seats,
    rows: u64,
    asked: Asked,
) -> Result<(), Fail>
    requires seats { AreSeats N.history seats }
    requires some_rows { 1 ≤ rows }
{
    let talks = begin::<N, R>(rt, alloc, gate, seats, rows)?;
    let talks = talk_together(rt, alloc, talks, asked)?;
    let all = answers_of(alloc, talks)?;
    let mut places = places(alloc, all.as_slice())?;
    for answers in all {
        put_in_place(rt, answers, places.as_mut_slice())?;
    }
    let last = places.get(asked.entries).expect(rt, "so many places");
    assert!(rt; !last.is_empty());
    expect_afresh(rt, alloc, places.as_slice());
    Ok(())
}

#[test]
fn few_cells_and_rows(rt: HostRuntime) -> Result<(), Fail> {
    let alloc = rt.alloc();
    let seats = make_seats(alloc, CLIENTS, 3)?;
    let asked = Asked {
        count: 20_000,
        per_look_back: 512,
        fills: 0,
        entries: 10_000,
    };
    hold::<Brand, _>(&rt, alloc, &OpenGate, seats, 12, asked)
}

#[test]
fn many_cells_and_rows(rt: HostRuntime) -> Result<(), Fail> {
    let alloc = rt.alloc();
    let seats = make_seats(alloc, CLIENTS, 64)?;
    let asked = Asked {
        count: 5_000,
        per_look_back: 128,
        fills: 0,
        entries: 2_500,
    };
    hold::<Brand, _>(&rt, alloc, &OpenGate, seats, 100_000, asked)
}

/// Most of the entries are let go meanwhile, cells that stand too far behind are filled anew, and some positions are gone.
#[test]
fn more_entries_than_are_kept(rt: HostRuntime) -> Result<(), Fail> {
    let alloc = rt.alloc();
    let seats = make_seats(alloc, CLIENTS, 64)?;
    let asked = Asked {
        count: 100,
        per_look_back: 16,
        fills: 350,
        entries: 140_000,
    };
    hold::<Brand, _>(&rt, alloc, &OpenGate, seats, 100_000, asked)
}
