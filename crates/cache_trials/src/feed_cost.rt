// How many steps a change feed of a kept range takes: they follow what changed, and not what the range holds.
ghost use Rattle.std.specs.Prelude.{◌≡◌, ◌<◌};
ghost use Rattle.cache_trials.specs.Passes.{IsWriter};
ghost use Rattle.cache_trials.specs.Seated.{AreSeats};

use crate::kept::{Kept, joins_near, keep_seats, pin_near, pop_pass, read_at, unpin, write};
use crate::seated::make_seats;
use base_shards::Naming;
use join_types::Change;
use key_space::Range;
use pequod_cache::Seats;
use pq_io::OpenGate;
use std::alloc::Global;
use std::marker::Brand;
use std::process::Abort;
use std::sync::Wait;
use std::sync::ledger::{Blank, Ledger};
use std::test::Fail;
use steps::Steps;
use write_history::{History, Pass};

/// The join of timelines.
const TIMELINE: &str = "t|<user>|<time>|<poster> = check s|<user>|<poster> copy p|<poster>|<time>";

/// What a feed found, and how many steps it took.
#[derive(Drop)]
pub struct Fed {
    /// The changes.
    pub changes: Vec<Change>,
    /// The steps.
    pub steps: u64,
}

/// What changed in the range since the first q entries. The pass is pinned meanwhile.
pub fn feed_since<N: Naming, L: Ledger, R: Wait + Abort>(
    rt: &R,
    kept: &Kept<N>,
    mut pass: Pass,
    q: u64,
    range: &Range,
    blank: Blank,
) -> (Pass, Fed)
    requires name { blank.name ≡ L.name }
    requires parts { blank.parts ≡ L.parts }
    requires some { 0 < blank.parts }
    requires may { IsWriter N.history pass }
    ensures { IsWriter N.history result.0 }
{
    let history = &*kept.history;
    let p = pin_near(rt, history, &mut pass, q);
    let old = joins_near(rt, history, &mut pass, q, p).expect(rt, "memory");
    let new = joins_near(rt, history, &mut pass, p, p).expect(rt, "memory");
    let mut steps: Steps<L> = Steps::open(blank);
    let cells = &kept.cells;
    let found = cells.changes(
        rt, &mut pass, &old, &new, q, p, range, &OpenGate, &mut steps,
    );
    let fed = Fed {
        changes: found.expect(rt, "memory"),
        steps: steps.taken(),
    };
    (unpin(rt, history, pass, p), fed)
}

/// Puts so many posts of a poster, at different times that begin with a text.
fn post<R: Wait + Abort>(
    rt: &R,
    alloc: Global,
    history: &History,
    pass: &mut Pass,
    time: &str,
    count: u64,
)
    requires { IsWriter history.now pass.old }
    ensures { IsWriter history.now pass.new }
{
    for number in 0..count {
        let text = format!(in alloc; "p|bob|{time}{number}=Hi").expect(rt, "memory");
        write(rt, alloc, history, pass, text.as_str());
    }
}

/// How many steps a feed takes that tells of so many later posts, where the timeline had so many before and is kept.
fn count_steps<N: Naming, R: Wait + Abort>(
    rt: &R,
    alloc: Global,
    seats: Seats,
    posts: u64,
    later: u64,
) -> Result<u64, Fail>
    requires { AreSeats N.history seats }
{
    let (kept, mut passes) = keep_seats::<N>(alloc, seats, 1_000)?;
    let mut pass = pop_pass::<N, R>(rt, &mut passes);
    write(rt, alloc, &kept.history, &mut pass, TIMELINE);
    post(rt, alloc, &kept.history, &mut pass, "early", posts);
    let last = write(rt, alloc, &kept.history, &mut pass, "s|ann|bob=1");
    let all = Range::read(alloc, "t|ann|", "t|ann}").expect(rt, "a range");
    let gate = &OpenGate;
    let blank = Blank::new(1);
    let (mut pass, seen) = read_at::<N, OpenGate, Brand, R>(
        rt, &kept, pass, last, &all, gate, blank,
    );
    assert!(rt; seen.pairs.len() as u64 == posts && posts < seen.steps);
    post(rt, alloc, &kept.history, &mut pass, "later", later);
    let blank = Blank::new(1);
    let (_, fed) = feed_since::<N, Brand, R>(rt, &kept, pass, last, &all, blank);
    let are_later = fed
        .changes
        .iter()
        .all(|change| change.key.text().starts_with("t|ann|later"));
    assert!(rt; fed.changes.len() as u64 == later && are_later);
    Ok(fed.steps)
}

/// The same over a history of its own.
fn count_steps_among<R: Wait + Abort>(
    rt: &R,
    alloc: Global,
    posts: u64,
    later: u64,
) -> Result<u64, Fail> {
    let seats = make_seats(alloc, 1, 4)?;
    count_steps::<Brand, R>(rt, alloc, seats, posts, later)
}

/// A feed that tells of so many posts takes as many steps beside 200 others as beside 2.
fn expect_alike<R: Wait + Abort>(rt: &R, alloc: Global, later: u64) -> Result<(), Fail> {
    let few = count_steps_among(rt, alloc, 2, later)?;
    let many = count_steps_among(rt, alloc, 200, later)?;
    assert!(rt;
        few == many,
        "{few} steps beside 2 posts, {many} beside 200"
    );
    Ok(())
}

#[test]
fn a_feed_costs_what_changed(rt: HostRuntime) -> Result<(), Fail> {
    let alloc = rt.alloc();
    expect_alike(&rt, alloc, 1)?;
    expect_alike(&rt, alloc, 200)
}
