// The parts of a cache as a test has them, with reads at any position, and two threads that read and evict at once. All with ample
// memory.
ghost use Rattle.std.specs.Prelude.{◌≡◌, ◌+◌, ◌<◌, ◌≤◌, All, take, IfOk};
ghost use Rattle.std.specs.Arc.{arc_value};
ghost use Rattle.join_set.specs.Sets.{AreJoins};
ghost use Rattle.write_history.specs.Marks.{reach};
ghost use Rattle.write_history.specs.declared.known.Mark.TheVariants.{Pinned};
ghost use Rattle.cache_trials.specs.Passes.{IsAtEnd, IsWriter};
ghost use Rattle.cache_trials.specs.Seated.{AreSeats};

use crate::seated::make_seats;
use base_shards::{BaseShards, Naming};
use join_lang::parse;
use join_set::JoinSet;
use join_types::{Pair, Write};
use key_space::{Key, Range, Value};
use out_of_memory::OutOfMemory;
use pequod_cache::Seats;
use pq_io::{Gate, OpenGate};
use range_cells::{RangeCells, Turn};
use std::alloc::Global;
use std::marker::Brand;
use std::process::Abort;
use std::sync::ledger::{Blank, Ledger};
use std::sync::{Arc, Wait};
use std::test::Fail;
use std::thread;
use std::thread::Threads;
use steps::Steps;
use write_history::{History, Pass};

/// Takes out the last pass.
pub fn pop_pass<N: Naming, R: Abort>(rt: &R, passes: &mut Vec<Pass>) -> Pass
    requires { All (λ p. IsWriter N.history p) passes.old.items }
    ensures pass { IsWriter N.history result }
    ensures each { All (λ p. IsWriter N.history p) passes.new.items }
{
    passes.pop().expect(rt, "a pass")
}

/// A history, and what is kept of it.
#[derive(Drop)]
pub struct Kept<N: Naming> {
    /// The history.
    pub history: Arc<History>,
    /// The base pairs.
    pub shards: Arc<BaseShards<N>>,
    /// What is kept.
    pub cells: RangeCells<N>,
    ghost named: { arc_value history ≡ N.history },
}

/// What is kept over seats, which is nothing yet and this much at most, and the passes of the clients, with which a test reads and
/// writes itself.
pub fn keep_seats<N: Naming>(
    alloc: Global,
    seats: Seats,
    limit: u64,
) -> Result<(Kept<N>, Vec<Pass>), OutOfMemory>
    requires seats { AreSeats N.history seats }
    requires limit { 1 ≤ limit }
    ensures { IfOk result (λ made. All (λ p. IsWriter N.history p) made.1.items) }
{
    let ids = seats.cells.len() as u32;
    let history = Arc::new(alloc, seats.history)?;
    let shards = BaseShards::new(alloc, Arc::try_clone(&history)?, seats.shards, ids)?;
    let shards = Arc::new(alloc, shards)?;
    let own = Arc::try_clone(&shards)?;
    let cells = RangeCells::new(alloc, Arc::try_clone(&history)?, own, seats.cells, limit)?;
    let kept = Kept {
        history,
        shards,
        cells,
    };
    Ok((kept, seats.clients))
}

/// The write that a text is: the text of a join, `drop` and a position, `key=value` for a put, or a key for a remove.
fn read_write(rt: &impl Abort, alloc: Global, text: &str) -> Write {
    if text.contains(" = ") {
        return Write::Declare(parse(alloc, text).expect(rt, "a join"));
    }
    if let Some(position) = text.strip_prefix("drop ") {
        return Write::Drop(position.parse::<u64>().expect(rt, "a position"));
    }
    match text.split_once('=') {
        None => Write::Remove(Key::read(alloc, text).expect(rt, "a key")),
        Some((key, value)) => Write::Put(
            Key::read(alloc, key).expect(rt, "a key"),
            Value::read(alloc, value).expect(rt, "a value"),
        ),
    }
}

/// Appends the write that a text is, and says at which position it entered.
pub fn write<R: Wait + Abort>(
    rt: &R,
    alloc: Global,
    history: &History,
    pass: &mut Pass,
    text: &str,
) -> u64
    requires { IsWriter history.now pass.old }
    ensures { IsWriter history.now pass.new }
{
    history
        .append(rt, pass, read_write(rt, alloc, text))
        .expect(rt, "no cause against it")
}

/// What a read found, and how many steps it took.
#[derive(Drop)]
pub struct Seen {
    /// The pairs.
    pub pairs: Vec<Pair>,
    /// The steps.
    pub steps: u64,
}

/// Looks, and pins the pass there. Says after how many entries.
pub fn pin<R: Wait + Abort>(rt: &R, history: &History, pass: &mut Pass) -> u64
    requires { IsWriter history.now pass.old }
    ensures { IsAtEnd history.now pass.new result }
{
    history.look_joins(rt, pass, 0).expect(rt, "memory").length
}

/// Looks, and pins the pass there, which is after the first p entries and at most 65,536 more. Says after how many.
pub fn pin_near<R: Wait + Abort>(rt: &R, history: &History, pass: &mut Pass, p: u64) -> u64
    requires { IsWriter history.now pass.old }
    ensures at_end { IsAtEnd history.now pass.new result }
    ensures within { p ≤ result }
    ensures near { result ≤ p + 65536 }
{
    let at = pin(rt, history, pass);
    assert!(rt; p <= at);
    let back = at - p;
    assert!(rt; back <= 65_536);
    at
}

/// Takes away the pin, which is after so many entries.
pub fn unpin<R: Wait>(rt: &R, history: &History, pass: Pass, _at: u64) -> Pass
    requires same_history { pass.history ≡ history.now }
    requires writer { pass.number < pass.writers }
    requires pinned { pass.mark ≡ Pinned _at }
    ensures { IsWriter history.now result }
{
    let mut pass = pass;
    history.unpin(rt, &mut pass);
    pass
}

/// The joins after the first p entries, for a pass that is pinned after so many, of which the last are at most 65,536 later.
pub fn joins_near<R: Wait>(
    rt: &R,
    history: &History,
    pass: &mut Pass,
    p: u64,
    _at: u64,
) -> Result<JoinSet, OutOfMemory>
    requires at_end { IsAtEnd history.now pass.old _at }
    requires within { p ≤ _at }
    requires near { _at ≤ p + 65536 }
    ensures joins { IfOk result (λ joins. AreJoins (reach pass.new.mark) joins (take p pass.new.view)) }
    ensures unchanged { pass.new ≡ pass.old }
    ensures at_end { IsAtEnd history.now pass.new _at }
{
    history.joins_at(rt, pass, p)
}

/// The pairs of the range after the first p entries. The pass is pinned meanwhile.
pub fn read_at<N: Naming, G: Gate, L: Ledger, R: Wait + Abort>(
    rt: &R,
    kept: &Kept<N>,
    mut pass: Pass,
    p: u64,
    range: &Range,
    gate: &G,
    blank: Blank,
) -> (Pass, Seen)
    requires name { blank.name ≡ L.name }
    requires parts { blank.parts ≡ L.parts }
    requires some { 0 < blank.parts }
    requires may { IsWriter N.history pass }
    ensures { IsWriter N.history result.0 }
{
    let history = &*kept.history;
    let at = pin_near(rt, history, &mut pass, p);
    let joins = joins_near(rt, history, &mut pass, p, at).expect(rt, "memory");
    let mut steps: Steps<L> = Steps::open(blank);
    let cells = &kept.cells;
    let found = cells.read(rt, &mut pass, &joins, p, range, gate, &mut steps);
    let seen = Seen {
        pairs: found.expect(rt, "memory"),
        steps: steps.taken(),
    };
    (unpin(rt, history, pass, at), seen)
}

/// Takes a turn at the end of the history.
pub fn turn_at_end<N: Naming, G: Gate, L: Ledger, R: Wait + Abort>(
    rt: &R,
    kept: &Kept<N>,
    mut pass: Pass,
    gate: &G,
    blank: Blank,
) -> (Pass, Turn)
    requires name { blank.name ≡ L.name }
    requires parts { blank.parts ≡ L.parts }
    requires some { 0 < blank.parts }
    requires may { IsWriter N.history pass }
    ensures { IsWriter N.history result.0 }
{
    let history = &*kept.history;
    let p = pin(rt, history, &mut pass);
    let joins = joins_near(rt, history, &mut pass, p, p).expect(rt, "memory");
    let mut steps: Steps<L> = Steps::open(blank);
    let cells = &kept.cells;
    let turn = cells.turn(rt, &mut pass, &joins, p, gate, &mut steps);
    (unpin(rt, history, pass, p), turn)
}

/// How many posts a thread makes.
const COUNT: usize = 40;

/// Subscribes a user to a poster, and makes posts. At the position of each it reads the user's timeline, which has the posts so
/// far, whatever another thread does meanwhile; and it evicts a cell that may be the other's.
fn post_and_read<N: Naming, R: Wait + Abort>(
    rt: &R,
    alloc: Global,
    kept: &Kept<N>,
    mut pass: Pass,
    user: &str,
) -> Pass
    requires { IsWriter N.history pass }
    ensures { IsWriter N.history result }
{
    let range = timeline(rt, alloc, user);
    let text = format!(in alloc; "s|{user}|{user}=1").expect(rt, "memory");
    write(rt, alloc, &kept.history, &mut pass, text.as_str());
    for number in 0..COUNT {
        let text = format!(in alloc; "p|{user}|{number}=1").expect(rt, "memory");
        let last = write(rt, alloc, &kept.history, &mut pass, text.as_str());
        let (next, found) = read_at::<N, OpenGate, Brand, R>(
            rt,
            kept,
            pass,
            last,
            &range,
            &OpenGate,
            Blank::new(1),
        );
        pass = next;
        assert!(rt; found.pairs.len() == number.saturating_add(1));
        kept.cells.evict(rt, (number % 3) as u32);
    }
    pass
}

/// The timeline of a user.
fn timeline(rt: &impl Abort, alloc: Global, user: &str) -> Range {
    let low = format!(in alloc; "t|{user}|").expect(rt, "memory");
    let high = format!(in alloc; "t|{user}}}").expect(rt, "memory");
    Range::read(alloc, low.as_str(), high.as_str()).expect(rt, "a range")
}

/// Two threads read and evict what both use; then one reads all that was posted.
fn two_read<N: Naming + Send + Sync, R: Threads + Wait + Abort + Sync>(
    rt: &R,
    alloc: Global,
    seats: Seats,
) -> Result<(), Fail>
    requires { AreSeats N.history seats }
{
    let (kept, mut passes) = keep_seats::<N>(alloc, seats, 100)?;
    let kept = &kept;
    let mut first = pop_pass::<N, R>(rt, &mut passes);
    let second = pop_pass::<N, R>(rt, &mut passes);
    let join = "t|<user>|<time>|<poster> = check s|<user>|<poster> copy p|<poster>|<time>";
    write(rt, alloc, &kept.history, &mut first, join);
    let (first, _) = thread::join(
        rt,
        move || post_and_read(rt, alloc, kept, first, "ann"),
        move || post_and_read(rt, alloc, kept, second, "bob"),
    );
    let all = Range::read(alloc, "t|", "t}").expect(rt, "a range");
    let (_, found) = read_at::<N, OpenGate, Brand, R>(
        rt,
        kept,
        first,
        83,
        &all,
        &OpenGate,
        Blank::new(1),
    );
    assert!(rt; found.pairs.len() == 80);
    Ok(())
}

#[test]
fn two_threads_read_what_is_kept(rt: HostRuntime) -> Result<(), Fail> {
    let alloc = rt.alloc();
    let seats = make_seats(alloc, 2, 3)?;
    two_read::<Brand, _>(&rt, alloc, seats)
}
