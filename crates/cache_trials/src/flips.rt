// Two threads read where the ranks of two joins stand the other way round. One is held at the gate with the cell of the one join
// until the other has the cell of the other.
ghost use Rattle.cache_trials.specs.Passes.{IsWriter};
ghost use Rattle.cache_trials.specs.Seated.{AreSeats};

use crate::course::{Course, FEW_LOOKS, Stage, begin, come_to, wait_for};
use crate::kept::{Kept, keep_seats, pop_pass, read_at, write};
use crate::seated::make_seats;
use base_shards::Naming;
use key_space::Range;
use pequod_cache::Seats;
use pq_io::Gate;
use std::alloc::Global;
use std::marker::Brand;
use std::process::Abort;
use std::sync::ledger::Blank;
use std::sync::{Arc, Wait};
use std::test::Fail;
use std::thread;
use std::thread::Threads;
use write_history::{History, Pass};

/// After four entries `a` reads `m`, and `m` reads `k`. After seven `m` is no output any more, and `k` reads `n`, which reads
/// `a`: the ranks of the first join and the third have changed places.
const WRITES: [&str; 7] = [
    "a|<x> = copy m|<x>",
    "m|<x> = copy k|<x>",
    "k|<x> = copy n|<x>",
    "n|1=N",
    "drop 2",
    "m|1=M",
    "n|<x> = copy a|<x>",
];

/// A gate that holds who fills `n` until the other comes to `m`, which is not held. The one has a cell of `k` then, and wants one
/// of `a`; the other has one of `a`, and wants one of `k`.
#[derive(Drop)]
struct Crossing<'a, R> {
    rt: &'a R,
    course: Course,
}

impl<R: Wait> Gate for Crossing<'_, R> {
    fn pass(&self, table: &str) {
        if table == "n" {
            come_to(self.rt, &self.course, Stage::Held);
            wait_for(self.rt, &self.course, Stage::Passed);
        }
        if table == "m" {
            come_to(self.rt, &self.course, Stage::Passed);
        }
    }
}

/// Reads a table after so many entries, and finds one pair with this value.
fn expect_value<N: Naming, G: Gate, R: Wait + Abort>(
    rt: &R,
    alloc: Global,
    kept: &Kept<N>,
    pass: Pass,
    gate: &G,
    place: (u64, &str, &str),
    value: &str,
) -> Pass
    requires { IsWriter N.history pass }
    ensures { IsWriter N.history result }
{
    let range = Range::read(alloc, place.1, place.2).expect(rt, "a range");
    let blank = Blank::new(1);
    let (pass, seen) = read_at::<N, G, Brand, R>(rt, kept, pass, place.0, &range, gate, blank);
    assert!(rt; seen.pairs.len() == 1);
    assert!(rt; seen.pairs.first().expect(rt, "a pair").value.text() == value);
    pass
}

/// Reads `a` before the ranks change places, once the other is held.
fn read_before<N: Naming, G: Gate, R: Wait + Abort>(
    rt: &R,
    alloc: Global,
    kept: &Kept<N>,
    pass: Pass,
    gate: &G,
    course: &Course,
) -> Pass
    requires { IsWriter N.history pass }
    ensures { IsWriter N.history result }
{
    wait_for(rt, course, Stage::Held);
    expect_value(rt, alloc, kept, pass, gate, (4, "a|", "a}"), "N")
}

/// Enters what changes the ranks.
fn write_all<R: Wait + Abort>(rt: &R, alloc: Global, history: &History, pass: &mut Pass)
    requires { IsWriter history.now pass.old }
    ensures { IsWriter history.now pass.new }
{
    for text in &WRITES {
        write(rt, alloc, history, pass, text);
    }
}

/// One thread reads `k` after the change and the other `a` before it, and both come to an end.
fn cross<N: Naming + Send + Sync, G: Gate + Sync, R: Threads + Wait + Abort + Sync>(
    rt: &R,
    alloc: Global,
    gate: &G,
    seats: Seats,
    course: &Course,
) -> Result<(), Fail>
    requires { AreSeats N.history seats }
{
    let (kept, mut passes) = keep_seats::<N>(alloc, seats, 100)?;
    let kept = &kept;
    let mut first = pop_pass::<N, R>(rt, &mut passes);
    let second = pop_pass::<N, R>(rt, &mut passes);
    write_all(rt, alloc, &kept.history, &mut first);
    thread::join(
        rt,
        move || expect_value(rt, alloc, kept, first, gate, (7, "k|", "k}"), "M"),
        move || read_before(rt, alloc, kept, second, gate, course),
    );
    Ok(())
}

#[test]
fn ranks_that_change_places_hold_nobody(rt: HostRuntime) -> Result<(), Fail> {
    let alloc: Global = rt.alloc();
    let course = begin(alloc, FEW_LOOKS)?;
    let gate = Crossing {
        rt: &rt,
        course: Arc::try_clone(&course)?,
    };
    let seats = make_seats(alloc, 2, 8)?;
    cross::<Brand, _, _>(&rt, alloc, &gate, seats, &course)?;
    assert!(rt; !course.lock(&rt).gave_up);
    Ok(())
}
