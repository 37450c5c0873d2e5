// Reads of one thread at every position, parts that two threads bring forward, and each call once, with ample memory.
ghost use Rattle.std.specs.Prelude.{◌≡◌, ◌<◌, All, length};
ghost use Rattle.std.specs.Arc.{arc_value};
ghost use Rattle.write_history.specs.Passes.{MayAppend, HasSeen};
ghost use Rattle.write_history.specs.declared.known.Mark.TheVariants.{Free, Noted};
ghost use Rattle.history_trials.specs.Seated.{IsPinned};

use crate::seats::{make_seats, pin, pop_writer, unpin};
use base_shards::{BaseShards, Naming, SHARDS};
use join_types::{Pair, Write};
use key_space::{Key, Range, Value};
use out_of_memory::OutOfMemory;
use std::alloc::Global;
use std::marker::Brand;
use std::process::Abort;
use std::sync::ledger::{Blank, Ledger};
use std::sync::{Arc, Wait};
use std::test::Fail;
use std::thread;
use std::thread::Threads;
use steps::Steps;
use write_history::{History, Pass};

/// Puts the value at the key, or removes the key, and says at which position.
pub fn write<R: Wait + Abort>(
    rt: &R,
    alloc: Global,
    history: &History,
    pass: &mut Pass,
    key: &str,
    value: Option<&str>,
) -> u64
    requires { MayAppend history.now pass.old }
    ensures may { MayAppend history.now pass.new }
    ensures seen { HasSeen history.now pass.new result }
    ensures mark { pass.new.mark ≡ pass.old.mark }
{
    let key = Key::read(alloc, key).expect(rt, "a key");
    let write = match value {
        None => Write::Remove(key),
        Some(text) => Write::Put(key, Value::read(alloc, text).expect(rt, "a value")),
    };
    history
        .append(rt, pass, write)
        .expect(rt, "no cause against it")
}

/// The range between two bounds.
pub fn range_of(rt: &impl Abort, alloc: Global, low: &str, high: &str) -> Range {
    Range::read(alloc, low, high).expect(rt, "a range")
}

/// The pairs of the range after the first p entries. The pass is pinned after so many entries as are known.
pub fn pairs<N: Naming, L: Ledger, R: Wait + Abort>(
    rt: &R,
    shards: &BaseShards<N>,
    pass: &mut Pass,
    known: u64,
    p: u64,
    range: &Range,
    blank: Blank,
) -> Vec<Pair>
    requires name { blank.name ≡ L.name }
    requires parts { blank.parts ≡ L.parts }
    requires some { 0 < blank.parts }
    requires pinned { IsPinned N.history pass.old known }
    ensures pinned { IsPinned N.history pass.new known }
    ensures may { MayAppend N.history pass.old → MayAppend N.history pass.new }
{
    let mut steps: Steps<L> = Steps::open(blank);
    assert!(rt; p <= known);
    let back = known - p;
    assert!(rt; back <= 65_536);
    let found = shards.pairs_at(rt, pass, p, range, &mut steps);
    found.expect(rt, "memory")
}

/// The keys that change in the ranges after the first q entries, up to the p-th. The pass is pinned after so many entries as are
/// known.
pub fn changed<N: Naming, L: Ledger, R: Wait + Abort>(
    rt: &R,
    shards: &BaseShards<N>,
    pass: &mut Pass,
    known: u64,
    between: (u64, u64),
    ranges: &[Range],
    blank: Blank,
) -> Vec<Key>
    requires name { blank.name ≡ L.name }
    requires parts { blank.parts ≡ L.parts }
    requires some { 0 < blank.parts }
    requires pinned { IsPinned N.history pass.old known }
    ensures pinned { IsPinned N.history pass.new known }
    ensures may { MayAppend N.history pass.old → MayAppend N.history pass.new }
{
    let (q, p) = between;
    let mut steps: Steps<L> = Steps::open(blank);
    assert!(rt; q <= p && p <= known);
    let back = known - q;
    assert!(rt; back <= 65_536);
    let found = shards.changed(rt, pass, q, p, ranges, &mut steps);
    found.expect(rt, "memory")
}

/// The keys as text, with a space behind each.
pub fn named(alloc: Global, keys: Vec<Key>) -> Result<String, Fail> {
    let mut text = String::new(alloc);
    for key in keys {
        text.push_str(key.text())?;
        text.push(' ')?;
    }
    Ok(text)
}

/// The pairs as text, with a space behind each.
pub fn shown(alloc: Global, pairs: Vec<Pair>) -> Result<String, Fail> {
    let mut text = String::new(alloc);
    for pair in pairs {
        text.push_str(pair.key.text())?;
        text.push('=')?;
        text.push_str(pair.value.text())?;
        text.push(' ')?;
    }
    Ok(text)
}

/// Writes puts, one that is put again, and removals, in two tables of different parts, and says at which position the last.
pub fn write_rows<R: Wait + Abort>(rt: &R, alloc: Global, history: &History, pass: &mut Pass) -> u64
    requires { MayAppend history.now pass.old }
    ensures may { MayAppend history.now pass.new }
    ensures mark { pass.new.mark ≡ pass.old.mark }
{
    write(rt, alloc, history, pass, "k|b", Some("1"));
    write(rt, alloc, history, pass, "k|a", Some("x"));
    write(rt, alloc, history, pass, "k|c", None);
    write(rt, alloc, history, pass, "j|z", Some("9"));
    write(rt, alloc, history, pass, "k|b", Some("2"));
    write(rt, alloc, history, pass, "k|a", None)
}

/// What is read after the first so many of these writes.
pub const EARLY: [(u64, &str, &str, &str); 10] = [
    (6, "k|", "k}", "k|b=2 "),
    (0, "k|", "k}", ""),
    (1, "k|", "k}", "k|b=1 "),
    (2, "k|", "k}", "k|a=x k|b=1 "),
    (4, "k|", "k}", "k|a=x k|b=1 "),
    (5, "k|", "k}", "k|a=x k|b=2 "),
    (5, "k|b", "k|c", "k|b=2 "),
    (3, "j|", "j}", ""),
    (4, "j|", "j}", "j|z=9 "),
    (6, "i|", "i}", ""),
];

/// The rows are written and read by one pass; the part is at the last position first, and is read at earlier ones then.
fn read_rows<N: Naming, R: Wait + Abort>(
    rt: &R,
    alloc: Global,
    history: Arc<History>,
    passes: Vec<Pass>,
    mut pass: Pass,
) -> Result<(), Fail>
    requires named { arc_value history ≡ N.history }
    requires count { length passes.items ≡ 16 }
    requires each { All (λ p. p.history ≡ N.history) passes.items }
    requires noted { All (λ p. p.mark ≡ Noted 0) passes.items }
    requires writer { MayAppend N.history pass }
    requires free { pass.mark ≡ Free }
{
    let shards: BaseShards<N> = BaseShards::new(alloc, Arc::try_clone(&history)?, passes, 4)?;
    let written = write_rows(rt, alloc, &history, &mut pass);
    let last = pin(rt, &history, &mut pass);
    assert!(rt; written == 6 && last == 6);
    for (p, low, high, wanted) in EARLY {
        let range = range_of(rt, alloc, low, high);
        let found = pairs::<N, Brand, R>(rt, &shards, &mut pass, last, p, &range, Blank::new(1));
        assert!(rt; shown(alloc, found)?.as_str() == wanted);
    }
    read_changes(rt, alloc, &shards, &mut pass, last)
}

/// What changes between two positions, in ranges of one part and of several; and the calls that read nothing.
fn read_changes<N: Naming, R: Wait + Abort>(
    rt: &R,
    alloc: Global,
    shards: &BaseShards<N>,
    pass: &mut Pass,
    last: u64,
) -> Result<(), Fail>
    requires { IsPinned N.history pass.old last }
{
    let mut ranges = Vec::new(alloc);
    ranges.push(range_of(rt, alloc, "k|", "k}"))?;
    ranges.push(range_of(rt, alloc, "j|", "j}"))?;
    ranges.push(range_of(rt, alloc, "k|b", "k}"))?;
    let rows = [
        (0, 6, 1, "k|a k|b k|c "),
        (2, 3, 1, "k|c "),
        (0, 6, 3, "j|z k|a k|b k|c "),
        (3, 5, 2, "j|z k|b "),
        (4, 5, 3, "k|b "),
        (6, 6, 3, ""),
        (0, 6, 0, ""),
    ];
    for (q, p, count, wanted) in rows {
        let asked = ranges.get(..count).ok_or("so many ranges")?;
        let found = changed::<N, Brand, R>(rt, shards, pass, last, (q, p), asked, Blank::new(1));
        assert!(rt; named(alloc, found)?.as_str() == wanted);
    }
    shards.catch_up(rt, pass, 1, last)?;
    shards.follow(rt, pass, 3, &ranges)?;
    assert!(rt; shards.next_marked(rt) == None);
    shards.forget(rt, 3);
    shards.forget(rt, 4);
    Ok(())
}

#[test]
fn one_thread_reads_at_every_position(rt: HostRuntime) -> Result<(), Fail> {
    let alloc = rt.alloc();
    let mut seats = make_seats(alloc, 1, 0, 16, 0)?;
    let pass = pop_writer(&rt, &seats.history, &mut seats.writers);
    let history = Arc::new(alloc, seats.history)?;
    read_rows::<Brand, _>(&rt, alloc, history, seats.shards, pass)
}

/// Reads a table at the position of a put, which has so many keys then, and at that of the first one, and counts the pairs of
/// another table. The pass is pinned meanwhile.
fn read_both<N: Naming, R: Wait + Abort>(
    rt: &R,
    history: &History,
    shards: &BaseShards<N>,
    pass: &mut Pass,
    tables: (&Range, &Range),
    positions: (u64, u64),
    count: usize,
) -> usize
    requires named { history.now ≡ N.history }
    requires writer { MayAppend N.history pass.old }
    requires free { pass.old.mark ≡ Free }
    ensures writer { MayAppend N.history pass.new }
    ensures free { pass.new.mark ≡ Free }
{
    let (mine, theirs) = tables;
    let (first, last) = positions;
    let at = pin(rt, history, pass);
    let found = pairs::<N, Brand, R>(rt, shards, pass, at, last, mine, Blank::new(1));
    assert!(rt; found.len() == count);
    let found = pairs::<N, Brand, R>(rt, shards, pass, at, first, mine, Blank::new(1));
    assert!(rt; found.len() == 1);
    let found = pairs::<N, Brand, R>(rt, shards, pass, at, last, theirs, Blank::new(1));
    unpin(rt, history, pass, at);
    found.len()
}

/// Puts a value at so many keys of a table, and reads the table at the position of each put, at that of the first one,
/// and another table.
fn put_and_read<N: Naming, R: Wait + Abort>(
    rt: &R,
    alloc: Global,
    history: &History,
    shards: &BaseShards<N>,
    mut pass: Pass,
    own: &str,
    other: &str,
) -> Pass
    requires named { history.now ≡ N.history }
    requires writer { MayAppend N.history pass }
    requires free { pass.mark ≡ Free }
    ensures writer { MayAppend N.history result }
    ensures free { result.mark ≡ Free }
{
    let mine = table(rt, alloc, own);
    let theirs = table(rt, alloc, other);
    let mut first = 0;
    let mut met = 0;
    for number in 0..COUNT {
        let key = format!(in alloc; "{own}|{number}").expect(rt, "memory");
        let last = write(rt, alloc, history, &mut pass, key.as_str(), Some("1"));
        if number == 0 {
            first = last;
        }
        let tables = (&mine, &theirs);
        let count = number.saturating_add(1);
        let found = read_both(rt, history, shards, &mut pass, tables, (first, last), count);
        assert!(rt; met <= found && found <= COUNT);
        met = found;
    }
    pass
}

/// How many keys a thread puts: those of two threads are more than a part takes at a time.
const COUNT: usize = 520;

/// The whole of a table.
fn table(rt: &impl Abort, alloc: Global, name: &str) -> Range {
    let low = format!(in alloc; "{name}|").expect(rt, "memory");
    let high = format!(in alloc; "{name}}}").expect(rt, "memory");
    range_of(rt, alloc, low.as_str(), high.as_str())
}

/// Two threads put into tables of their own, and read both; then they meet, and one reads both, and a table of a part
/// that no one has asked for yet.
fn two_put_and_read<N: Naming + Send + Sync, R: Threads + Wait + Abort + Sync>(
    rt: &R,
    alloc: Global,
    history: Arc<History>,
    passes: Vec<Pass>,
    first: Pass,
    second: Pass,
) -> Result<(), Fail>
    requires named { arc_value history ≡ N.history }
    requires count { length passes.items ≡ 16 }
    requires each { All (λ p. p.history ≡ N.history) passes.items }
    requires noted { All (λ p. p.mark ≡ Noted 0) passes.items }
    requires writers { MayAppend N.history first × MayAppend N.history second }
    requires free { (first.mark ≡ Free) × (second.mark ≡ Free) }
{
    let shards: BaseShards<N> = BaseShards::new(alloc, Arc::try_clone(&history)?, passes, 0)?;
    let (history, shards) = (&*history, &shards);
    let (mut first, mut second) = thread::join(
        rt,
        move || put_and_read(rt, alloc, history, shards, first, "a", "b"),
        move || put_and_read(rt, alloc, history, shards, second, "b", "a"),
    );
    history.meet(rt, &mut first, &mut second);
    let last = pin(rt, history, &mut first);
    assert!(rt; last == 1_040);
    for (name, count) in [("a", COUNT), ("b", COUNT), ("c", 0)] {
        let whole = table(rt, alloc, name);
        let found = pairs::<N, Brand, R>(rt, shards, &mut first, last, last, &whole, Blank::new(1));
        assert!(rt; found.len() == count);
    }
    Ok(())
}

#[test]
fn two_threads_put_and_read(rt: HostRuntime) -> Result<(), Fail> {
    let alloc = rt.alloc();
    let mut seats = make_seats(alloc, 2, 0, 16, 0)?;
    let second = pop_writer(&rt, &seats.history, &mut seats.writers);
    let first = pop_writer(&rt, &seats.history, &mut seats.writers);
    let history = Arc::new(alloc, seats.history)?;
    two_put_and_read::<Brand, _>(&rt, alloc, history, seats.shards, first, second)
}

/// Follows the ranges between these bounds for an id.
fn follow<N: Naming, R: Wait + Abort>(
    rt: &R,
    alloc: Global,
    shards: &BaseShards<N>,
    pass: &mut Pass,
    id: u32,
    bounds: &[(&str, &str)],
) -> Result<(), Fail>
    ensures { pass.new ≡ pass.old }
{
    let mut ranges = Vec::new(alloc);
    for (low, high) in bounds {
        ranges.push(range_of(rt, alloc, low, high))?;
    }
    shards.follow(rt, pass, id, &ranges)?;
    Ok(())
}

/// Brings all parts to a position.
fn catch_all<N: Naming, R: Wait>(
    rt: &R,
    shards: &BaseShards<N>,
    pass: &mut Pass,
    p: u64,
) -> Result<(), OutOfMemory>
    requires { HasSeen N.history pass.old p }
    ensures { MayAppend N.history pass.old → MayAppend N.history pass.new }
{
    for number in 0..SHARDS {
        shards.catch_up(rt, pass, number, p)?;
    }
    Ok(())
}

/// The ids that are marked, in order, with a space behind each. They are not marked any more.
fn take_marked<N: Naming, R: Wait>(
    rt: &R,
    alloc: Global,
    shards: &BaseShards<N>,
) -> Result<String, Fail> {
    let mut text = String::new(alloc);
    for _ in 0..8 {
        let Some(id) = shards.next_marked(rt) else {
            return Ok(text);
        };
        text.push_str(format!(in alloc; "{id} ")?.as_str())?;
    }
    Ok(text)
}

/// Two ids follow ranges of two parts. They are marked by the entries that put or remove a key of theirs, each once, in order,
/// and not once they are forgotten.
fn mark_rows<N: Naming, R: Wait + Abort>(
    rt: &R,
    alloc: Global,
    history: Arc<History>,
    passes: Vec<Pass>,
    mut pass: Pass,
) -> Result<(), Fail>
    requires named { arc_value history ≡ N.history }
    requires count { length passes.items ≡ 16 }
    requires each { All (λ p. p.history ≡ N.history) passes.items }
    requires noted { All (λ p. p.mark ≡ Noted 0) passes.items }
    requires writer { MayAppend N.history pass }
{
    let shards: BaseShards<N> = BaseShards::new(alloc, Arc::try_clone(&history)?, passes, 4)?;
    let both = [("k|", "k}"), ("j|a", "j|b")];
    follow(rt, alloc, &shards, &mut pass, 2, &both)?;
    follow(rt, alloc, &shards, &mut pass, 0, &[("k|b", "k|c")])?;
    follow(rt, alloc, &shards, &mut pass, 4, &both)?;
    let rows = [
        ("k|b", Some("1"), "0 2 "),
        ("k|a", Some("2"), "2 "),
        ("j|ab", Some("3"), "2 "),
        ("j|z", Some("4"), ""),
        ("i|a", Some("5"), ""),
        ("k|b", None, "0 2 "),
    ];
    for (key, value, wanted) in rows {
        let p = write(rt, alloc, &history, &mut pass, key, value);
        catch_all(rt, &shards, &mut pass, p)?;
        assert!(rt; take_marked(rt, alloc, &shards)?.as_str() == wanted);
    }
    write(rt, alloc, &history, &mut pass, "k|a", None);
    let p = write(rt, alloc, &history, &mut pass, "k|b", Some("6"));
    catch_all(rt, &shards, &mut pass, p)?;
    assert!(rt; take_marked(rt, alloc, &shards)?.as_str() == "2 0 ");
    let p = write(rt, alloc, &history, &mut pass, "k|b", Some("7"));
    catch_all(rt, &shards, &mut pass, p)?;
    shards.forget(rt, 2);
    assert!(rt; take_marked(rt, alloc, &shards)?.as_str() == "0 ");
    let p = write(rt, alloc, &history, &mut pass, "k|a", Some("8"));
    catch_all(rt, &shards, &mut pass, p)?;
    assert!(rt; take_marked(rt, alloc, &shards)?.as_str() == "");
    Ok(())
}

#[test]
fn ids_are_marked_by_what_is_written(rt: HostRuntime) -> Result<(), Fail> {
    let alloc = rt.alloc();
    let mut seats = make_seats(alloc, 1, 0, 16, 0)?;
    let pass = pop_writer(&rt, &seats.history, &mut seats.writers);
    let history = Arc::new(alloc, seats.history)?;
    mark_rows::<Brand, _>(&rt, alloc, history, seats.shards, pass)
}
