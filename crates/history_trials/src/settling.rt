// What is kept once the parts of the base pairs are settled, and that what may be asked for is read as before, with ample memory.
ghost use Rattle.std.specs.Prelude.{◌≡◌, All, length};
ghost use Rattle.std.specs.Arc.{arc_value};
ghost use Rattle.write_history.specs.Passes.{MayAppend};
ghost use Rattle.write_history.specs.declared.known.Mark.TheVariants.{Free, Noted};
ghost use Rattle.history_trials.specs.Seated.{IsFree, IsPinned};

use crate::appends::put_of;
use crate::pins::fill;
use crate::seats::{make_seats, pin, pop_pinned, pop_writer, unpin};
use crate::shards::{EARLY, changed, named, pairs, range_of, shown, write_rows};
use base_shards::{BaseShards, Naming};
use std::alloc::Global;
use std::marker::Brand;
use std::process::Abort;
use std::sync::ledger::Blank;
use std::sync::{Arc, Wait};
use std::test::Fail;
use std::thread;
use std::thread::Threads;
use write_history::{History, Pass};

/// Settles the parts. So many entries are kept then.
fn settle<N: Naming, R: Wait + Abort>(
    rt: &R,
    history: &History,
    shards: &BaseShards<N>,
    pass: &mut Pass,
    kept: u64,
)
    requires named { history.now ≡ N.history }
    requires may { MayAppend N.history pass.old }
    ensures may { MayAppend N.history pass.new }
    ensures mark { pass.new.mark ≡ pass.old.mark }
{
    shards.settle(rt, pass);
    let stored = history.kept(rt, pass);
    assert!(rt; stored == kept);
}

/// The pairs in a range after so many entries. The pass is pinned after so many.
fn expect_pairs<N: Naming, R: Wait + Abort>(
    rt: &R,
    alloc: Global,
    shards: &BaseShards<N>,
    pass: &mut Pass,
    at: u64,
    rows: &[(u64, &str, &str, &str)],
) -> Result<(), Fail>
    requires { IsPinned N.history pass.old at }
    ensures { IsPinned N.history pass.new at }
{
    for (p, low, high, wanted) in rows {
        let range = range_of(rt, alloc, low, high);
        let found = pairs::<N, Brand, R>(rt, shards, pass, at, *p, &range, Blank::new(1));
        assert!(rt; shown(alloc, found)?.as_str() == *wanted);
    }
    Ok(())
}

/// The keys that change in the table `k` after so many entries, up to so many. The pass is pinned after so many.
fn expect_changes<N: Naming, R: Wait + Abort>(
    rt: &R,
    alloc: Global,
    shards: &BaseShards<N>,
    pass: &mut Pass,
    at: u64,
) -> Result<(), Fail>
    requires { IsPinned N.history pass.old at }
    ensures { IsPinned N.history pass.new at }
{
    let ranges = vec![in alloc; range_of(rt, alloc, "k|", "k}")]?;
    for (q, p, wanted) in CHANGED {
        let found = changed::<N, Brand, R>(rt, shards, pass, at, (q, p), &ranges, Blank::new(1));
        assert!(rt; named(alloc, found)?.as_str() == wanted);
    }
    Ok(())
}

/// What is read at the floor, which is 4, and later, when there are 65,540 entries.
const LATE: [(u64, &str, &str, &str); 9] = [
    (4, "k|", "k}", "k|a=x k|b=1 "),
    (5, "k|", "k}", "k|a=x k|b=2 "),
    (5, "k|b", "k|c", "k|b=2 "),
    (6, "k|", "k}", "k|b=2 "),
    (65_540, "k|", "k}", "k|b=2 "),
    (4, "j|", "j}", "j|z=9 "),
    (65_540, "j|", "j}", "j|z=9 "),
    (6, "i|", "i}", ""),
    (65_540, "i|", "i}", "i|x=65539 "),
];

/// What changes after the floor and later.
const CHANGED: [(u64, u64, &str); 6] = [
    (4, 4, ""),
    (4, 5, "k|b "),
    (4, 6, "k|a k|b "),
    (4, 65_540, "k|a k|b "),
    (5, 6, "k|a "),
    (6, 65_540, ""),
];

/// The parts are settled after 65,540 entries, and read from the floor on.
fn read_late<N: Naming, R: Wait + Abort>(
    rt: &R,
    alloc: Global,
    history: Arc<History>,
    passes: Vec<Pass>,
    mut pass: Pass,
) -> Result<(), Fail>
    requires named { arc_value history ≡ N.history }
    requires count { length passes.items ≡ 16 }
    requires each { All (λ p. p.history ≡ N.history) passes.items }
    requires noted { All (λ p. p.mark ≡ Noted 0) passes.items }
    requires writer { MayAppend N.history pass }
    requires free { pass.mark ≡ Free }
{
    let shards: BaseShards<N> = BaseShards::new(alloc, Arc::try_clone(&history)?, passes, 4)?;
    write_rows(rt, alloc, &history, &mut pass);
    fill(rt, alloc, &history, &mut pass, "i|x", 6, 65_540);
    settle(rt, &history, &shards, &mut pass, 65_536);
    let at = pin(rt, &history, &mut pass);
    expect_pairs(rt, alloc, &shards, &mut pass, at, &LATE)?;
    expect_changes(rt, alloc, &shards, &mut pass, at)
}

#[test]
fn settled_parts_are_read_from_the_floor_on(rt: HostRuntime) -> Result<(), Fail> {
    let alloc = rt.alloc();
    let mut seats = make_seats(alloc, 1, 0, 16, 0)?;
    let pass = pop_writer(&rt, &seats.history, &mut seats.writers);
    let history = Arc::new(alloc, seats.history)?;
    read_late::<Brand, _>(&rt, alloc, history, seats.shards, pass)
}

/// A pass that was pinned after six entries reads at every earlier position, though the parts were settled after 70,000. Once it is
/// not pinned, they are settled as far as they may be.
fn read_early<N: Naming, R: Wait + Abort>(
    rt: &R,
    alloc: Global,
    history: Arc<History>,
    passes: Vec<Pass>,
    mut writer: Pass,
    mut pass: Pass,
) -> Result<(), Fail>
    requires named { arc_value history ≡ N.history }
    requires count { length passes.items ≡ 16 }
    requires each { All (λ p. p.history ≡ N.history) passes.items }
    requires noted { All (λ p. p.mark ≡ Noted 0) passes.items }
    requires writer { MayAppend N.history writer }
    requires pass { IsFree N.history pass }
{
    let shards: BaseShards<N> = BaseShards::new(alloc, Arc::try_clone(&history)?, passes, 4)?;
    write_rows(rt, alloc, &history, &mut writer);
    let at = pin(rt, &history, &mut pass);
    fill(rt, alloc, &history, &mut writer, "i|x", 6, 70_000);
    settle(rt, &history, &shards, &mut writer, 70_000);
    expect_pairs(rt, alloc, &shards, &mut pass, at, &EARLY)?;
    unpin(rt, &history, &mut pass, at);
    settle(rt, &history, &shards, &mut writer, 65_536);
    Ok(())
}

#[test]
fn a_pinned_pass_reads_what_it_may_ask_for(rt: HostRuntime) -> Result<(), Fail> {
    let alloc = rt.alloc();
    let mut seats = make_seats(alloc, 1, 1, 16, 0)?;
    let writer = pop_writer(&rt, &seats.history, &mut seats.writers);
    let pass = pop_pinned(&rt, &seats.history, &mut seats.pinned);
    let history = Arc::new(alloc, seats.history)?;
    read_early::<Brand, _>(&rt, alloc, history, seats.shards, writer, pass)
}

/// Settles where a position is one of every 4,096.
fn settle_at<N: Naming, R: Wait>(rt: &R, shards: &BaseShards<N>, pass: &mut Pass, position: u64)
    requires { MayAppend N.history pass.old }
    ensures may { MayAppend N.history pass.new }
    ensures mark { pass.new.mark ≡ pass.old.mark }
{
    if position % 4_096 == 0 {
        shards.settle(rt, pass);
    }
}

/// Puts so often at a key, and settles after one of every 4,096 entries of the history, as a client of the cache does.
fn put_and_settle<N: Naming, R: Wait + Abort>(
    rt: &R,
    alloc: Global,
    history: &History,
    shards: &BaseShards<N>,
    mut pass: Pass,
    key: &str,
    count: u32,
) -> Pass
    requires named { history.now ≡ N.history }
    requires may { MayAppend N.history pass }
    requires free { pass.mark ≡ Free }
    ensures may { MayAppend N.history result }
    ensures free { result.mark ≡ Free }
{
    for number in 0..count {
        let entered = history.append(rt, &mut pass, put_of(rt, alloc, key, number));
        let position = entered.expect(rt, "no cause against it");
        settle_at(rt, shards, &mut pass, position);
    }
    pass
}

/// A key is put 70,000 times. The parts are settled last after 69,632 entries, when the floor becomes 4,096.
fn put_70_000<N: Naming, R: Wait + Abort>(
    rt: &R,
    alloc: Global,
    history: Arc<History>,
    passes: Vec<Pass>,
    pass: Pass,
) -> Result<(), Fail>
    requires named { arc_value history ≡ N.history }
    requires count { length passes.items ≡ 16 }
    requires each { All (λ p. p.history ≡ N.history) passes.items }
    requires noted { All (λ p. p.mark ≡ Noted 0) passes.items }
    requires writer { MayAppend N.history pass }
    requires free { pass.mark ≡ Free }
{
    let shards: BaseShards<N> = BaseShards::new(alloc, Arc::try_clone(&history)?, passes, 0)?;
    let mut pass = put_and_settle(rt, alloc, &history, &shards, pass, "k|a", 70_000);
    let kept = history.kept(rt, &mut pass);
    assert!(rt; kept == 65_904);
    Ok(())
}

#[test]
fn of_70_000_puts_65_904_are_kept(rt: HostRuntime) -> Result<(), Fail> {
    let alloc = rt.alloc();
    let mut seats = make_seats(alloc, 1, 0, 16, 0)?;
    let pass = pop_writer(&rt, &seats.history, &mut seats.writers);
    let history = Arc::new(alloc, seats.history)?;
    put_70_000::<Brand, _>(&rt, alloc, history, seats.shards, pass)
}

/// Two threads put into tables of their own, and settle. Then the last 65,536 entries are kept, and both tables have
/// what was put last.
fn two_settle<N: Naming + Send + Sync, R: Threads + Wait + Abort + Sync>(
    rt: &R,
    alloc: Global,
    history: Arc<History>,
    passes: Vec<Pass>,
    first: Pass,
    second: Pass,
) -> Result<(), Fail>
    requires named { arc_value history ≡ N.history }
    requires count { length passes.items ≡ 16 }
    requires each { All (λ p. p.history ≡ N.history) passes.items }
    requires noted { All (λ p. p.mark ≡ Noted 0) passes.items }
    requires writers { MayAppend N.history first × MayAppend N.history second }
    requires free { (first.mark ≡ Free) × (second.mark ≡ Free) }
{
    let shards: BaseShards<N> = BaseShards::new(alloc, Arc::try_clone(&history)?, passes, 0)?;
    let (history, shards) = (&*history, &shards);
    let (mut first, _second) = thread::join(
        rt,
        move || put_and_settle(rt, alloc, history, shards, first, "a|x", 40_000),
        move || put_and_settle(rt, alloc, history, shards, second, "b|x", 40_000),
    );
    settle(rt, history, shards, &mut first, 65_536);
    let at = pin(rt, history, &mut first);
    assert!(rt; at == 80_000);
    expect_pairs(rt, alloc, shards, &mut first, at, &BOTH)
}

/// What stands in the tables of both threads after all puts.
const BOTH: [(u64, &str, &str, &str); 3] = [
    (80_000, "a|", "a}", "a|x=39999 "),
    (80_000, "b|", "b}", "b|x=39999 "),
    (80_000, "c|", "c}", ""),
];

#[test]
fn two_threads_put_and_settle(rt: HostRuntime) -> Result<(), Fail> {
    let alloc = rt.alloc();
    let mut seats = make_seats(alloc, 2, 0, 16, 0)?;
    let second = pop_writer(&rt, &seats.history, &mut seats.writers);
    let first = pop_writer(&rt, &seats.history, &mut seats.writers);
    let history = Arc::new(alloc, seats.history)?;
    two_settle::<Brand, _>(&rt, alloc, history, seats.shards, first, second)
}
