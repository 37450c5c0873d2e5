// A client of a cache that is alone, beside plain evaluation.
ghost use Rattle.std.specs.Prelude.{◌≡◌, ◌≤◌, length};
ghost use Rattle.pequod_cache.specs.Sitting.{AreOf, AreOfParts, AreWriters};

use crate::asking::{Ask, FIRST_JOINS, answer_afresh, draw_position, line_of, position_told};
use base_shards::Naming;
use pequod_cache::{LoneClient, Seats};
use plain_history::PlainHistory;
use pq_io::OpenGate;
use rand_core::SeedableRng;
use rand_core::utils::NextWord;
use rand_pcg::Lcg64Xsh32;
use session::Service;
use std::alloc::Global;
use std::marker::Brand;
use std::process::Abort;
use std::sync::Wait;
use std::test::Fail;

/// How many drawn requests a client is asked.
const COUNT: usize = 1_000;

/// One of so many of these asks for an earlier position.
const REQUESTS_FOR_A_LOOK_BACK: u32 = 8;

/// One of so many of those asks for the entries after it.
const LOOKS_BACK_FOR_A_FEED: u32 = 4;

/// A request that is drawn, where there are so many entries. A drop is of the join at this position.
fn draw(generator: &mut Lcg64Xsh32, position: u64, entries: u64) -> Ask {
    if generator.next_word() % REQUESTS_FOR_A_LOOK_BACK != 0 {
        return Ask::draw(generator, position);
    }
    if generator.next_word() % LOOKS_BACK_FOR_A_FEED == 0 {
        Ask::feed(draw_position(generator, entries.saturating_add(2)))
    } else {
        Ask::look_back(generator, entries)
    }
}

/// The service answers as plain evaluation does: first the joins are declared, and then comes what is drawn from a number.
fn expect_alike<S: Service + Drop, R: Abort>(rt: &R, alloc: Global, mut service: S, number: u64) {
    let mut generator = Lcg64Xsh32::seed_from_u64(number);
    let mut plain = PlainHistory::new(alloc);
    let mut told = 0;
    for place in 0..FIRST_JOINS + COUNT {
        let ask = if place < FIRST_JOINS {
            Ask::declare(place)
        } else {
            draw(&mut generator, told, plain.len())
        };
        let reply = ask.put_to(rt, alloc, &mut service);
        let wanted = answer_afresh(rt, ask.request(rt, alloc), &mut plain);
        if ask.is_declaration() {
            told = position_told(&wanted).unwrap_or(told);
        }
        let reply = line_of(rt, alloc, &reply);
        let wanted = line_of(rt, alloc, &wanted);
        let is_alike = reply.as_slice() == wanted.as_slice();
        assert!(rt; is_alike, "drawn from {number}, request {place}");
    }
}

/// The one client of a cache that may keep so many rows is asked what is drawn from a number.
fn ask_lone_client<N: Naming, R: Wait + Abort>(
    rt: &R,
    alloc: Global,
    seats: Seats,
    rows: u64,
    number: u64,
) -> Result<(), Fail>
    requires named { seats.history ≡ N.history }
    requires client { AreWriters N.history 1 seats.clients.items }
    requires shards { AreOfParts N.history seats.shards.items }
    requires cells { AreOf N.history (length seats.cells.items) seats.cells.items }
    requires some_cells { 1 ≤ length seats.cells.items }
    requires few_cells { length seats.cells.items ≤ 65536 }
    requires some_rows { 1 ≤ rows }
{
    let gate = OpenGate;
    let client = LoneClient::<R, N, OpenGate>::make(rt, alloc, seats, rows, &gate)?;
    expect_alike(rt, alloc, client, number);
    Ok(())
}

#[test]
fn one_client_of_a_cache(rt: HostRuntime) -> Result<(), Fail> {
    let alloc = rt.alloc();
    let seats = Seats::make(alloc, 1, 1_024)?;
    ask_lone_client::<Brand, _>(&rt, alloc, seats, 100_000, 1)?;
    let seats = Seats::make(alloc, 1, 1)?;
    ask_lone_client::<Brand, _>(&rt, alloc, seats, 100_000, 2)?;
    let seats = Seats::make(alloc, 1, 4)?;
    ask_lone_client::<Brand, _>(&rt, alloc, seats, 1, 3)
}
