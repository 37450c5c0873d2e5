// What many threads append, whose order nobody knows beforehand, and each call once, with ample memory.
ghost use Rattle.std.specs.Prelude.{◌≡◌, ℕ, ◌<◌, ◌≤◌, All, [], ◌∷◌, true, codes, length, slice_index_or, IfOk};
ghost use Rattle.semantics.specs.Patterns.{literal, is_pattern};
ghost use Rattle.write_history.specs.Passes.{MayAppend, HasSeen};
ghost use Rattle.write_history.specs.declared.known.Mark.TheVariants.{Free, Noted, Pinned};

use crate::seats::{Seats, make_seats, pin, pop_shard, pop_writer};
use join_types::{Cause, Entry, Join, JoinSource, Kind, Op, Write};
use key_pattern::{Pattern, Segment};
use key_space::{Key, Value};
use std::alloc::{AllocError, Global};
use std::process::Abort;
use std::sync::Wait;
use std::test::Fail;
use std::thread;
use std::thread::Threads;
use write_history::{AppendFault, History, Pass};

/// The put of a number at a key.
pub fn put_of(rt: &impl Abort, alloc: Global, key: &str, number: u32) -> Write {
    let text = format!(in alloc; "{number}").expect(rt, "memory");
    let key = Key::read(alloc, key).expect(rt, "a key");
    Write::Put(key, Value::read(alloc, text.as_str()).expect(rt, "a value"))
}

/// The removal of a key.
fn removal_of(rt: &impl Abort, alloc: Global, key: &str) -> Write {
    Write::Remove(Key::read(alloc, key).expect(rt, "a key"))
}

/// What the write puts.
pub fn number_of<'a>(rt: &impl Abort, write: &'a Write) -> &'a str {
    match write {
        Write::Put(_, value) => value.text(),
        Write::Remove(_) | Write::Declare(_) | Write::Drop(_) => panic!(rt; "no put"),
    }
}

/// Appends the puts of so many numbers, from 0 up, and says at which position the last entered.
fn appended<R: Wait + Abort>(
    rt: &R,
    alloc: Global,
    history: &History,
    mut pass: Pass,
    count: u32,
) -> (Pass, u64)
    requires { MayAppend history.now pass }
    ensures seen { HasSeen history.now result.0 result.1 }
    ensures mark { result.0.mark ≡ pass.mark }
{
    let mut last = 0;
    for number in 0..count {
        let write = put_of(rt, alloc, "p|", number);
        let entered = history.append(rt, &mut pass, write);
        last = entered.expect(rt, "no cause against it");
    }
    (pass, last)
}

/// Each number below that of the writers has so many entries, in the order in which they were appended.
fn expect_own_orders(
    rt: &impl Abort,
    alloc: Global,
    entries: &[Entry],
    writers: u32,
    count: u32,
) -> Result<(), Fail> {
    let mut next = vec![in alloc; 0u32; writers as usize]?;
    for entry in entries {
        let client = entry.client as usize;
        assert!(rt; client < next.len(), "a writer {client}");
        let expected = format!(in alloc; "{}", next[client])?;
        assert_eq!(rt;
            number_of(rt, &entry.write),
            expected.as_str(),
            "of writer {client}"
        );
        next[client] = next[client].saturating_add(1);
    }
    assert!(rt; next.iter().all(|met| *met == count));
    Ok(())
}

/// The entries are those that are wanted, as both print.
fn expect_same(
    rt: &impl Abort,
    alloc: Global,
    entries: &[Entry],
    wanted: Vec<Entry>,
) -> Result<(), Fail> {
    let entries = format!(in alloc; "{entries:?}")?;
    let wanted = format!(in alloc; "{:?}", wanted.as_slice())?;
    assert!(rt; entries.as_str() == wanted.as_str());
    Ok(())
}

/// Two threads append 100 puts each, by passes of their own, which meet then. Both were pinned before the first put, and may ask
/// for it.
fn two_meet<R: Threads + Wait + Abort + Sync>(
    rt: &R,
    alloc: Global,
    history: &History,
    first: Pass,
    second: Pass,
) -> Result<(), Fail>
    requires may { MayAppend history.now first × MayAppend history.now second }
    requires pinned { (first.mark ≡ Pinned 0) × (second.mark ≡ Pinned 0) }
{
    let ((mut first, one), (mut second, other)) = thread::join(
        rt,
        move || appended(rt, alloc, history, first, 100),
        move || appended(rt, alloc, history, second, 100),
    );
    history.meet(rt, &mut first, &mut second);
    let last = one.max(other);
    assert!(rt; last == 200);
    let seen = entries_between(rt, history, &mut first, 0, last);
    expect_own_orders(rt, alloc, &seen, 2, 100)?;
    let seen = entries_between(rt, history, &mut second, 0, last);
    expect_own_orders(rt, alloc, &seen, 2, 100)?;
    assert!(rt; history.look(rt, &mut first) == 200);
    Ok(())
}

#[test]
fn two_threads_append_and_meet(rt: HostRuntime) -> Result<(), Fail> {
    let mut seats = make_seats(rt.alloc(), 2, 0, 0, 0)?;
    let second = pop_at_start(&rt, &seats.history, &mut seats.writers);
    let first = pop_at_start(&rt, &seats.history, &mut seats.writers);
    two_meet(&rt, rt.alloc(), &seats.history, first, second)
}

/// Takes out the last pass that may write, and pins it in a history without entries.
fn pop_at_start<R: Wait + Abort>(rt: &R, history: &History, writers: &mut Vec<Pass>) -> Pass
    requires may { All (λ p. MayAppend history.now p) writers.old.items }
    requires free { All (λ p. p.mark ≡ Free) writers.old.items }
    ensures pass { MayAppend history.now result }
    ensures pinned { result.mark ≡ Pinned 0 }
    ensures others { All (λ p. MayAppend history.now p) writers.new.items }
    ensures others_free { All (λ p. p.mark ≡ Free) writers.new.items }
{
    let mut pass = pop_writer(rt, history, writers);
    let at = pin(rt, history, &mut pass);
    assert!(rt; at == 0);
    pass
}

/// Each pass appends so many puts, in a thread of its own, and says at which position the last entered.
fn all_append<R: Threads + Wait + Abort + Sync>(
    rt: &R,
    alloc: Global,
    history: &History,
    passes: Vec<Pass>,
    count: u32,
) -> Result<Vec<(Pass, u64)>, AllocError>
    requires { (i : ℕ) (d : _) → i < length passes.items → MayAppend history.now (slice_index_or passes.items i d) }
    ensures { IfOk result (λ done. (i : ℕ) (d : _) → i < length done.items → HasSeen history.now (slice_index_or done.items i d).0 (slice_index_or done.items i d).1) }
{
    thread::map_vec(
        rt,
        passes,
        &|pass| appended(rt, alloc, history, pass, count),
    )
}

/// The pass meets each of the others, and says which was the last position.
fn meet_each<R>(rt: &R, history: &History, reader: &mut Pass, done: Vec<(Pass, u64)>) -> u64
    requires same_history { reader.old.history ≡ history.now }
    requires seen { (i : ℕ) (d : _) → i < length done.items → HasSeen history.now (slice_index_or done.items i d).0 (slice_index_or done.items i d).1 }
    ensures seen { HasSeen history.now reader.new result }
    ensures mark { reader.new.mark ≡ reader.old.mark }
{
    let mut last = 0;
    for (mut pass, position) in done {
        history.meet(rt, reader, &mut pass);
        last = last.max(position);
    }
    last
}

/// So many threads append so many puts each, and a pass that has noted no position, and so may ask for every entry, meets theirs.
fn all_meet<R: Threads + Wait + Abort + Sync>(
    rt: &R,
    alloc: Global,
    writers: u32,
    count: u32,
) -> Result<(), Fail>
    requires some { 0 < writers }
    requires few { writers ≤ 8 }
{
    let Seats {
        history,
        writers: passes,
        mut shards,
        ..
    } = make_seats(alloc, writers, 0, 1, 0)?;
    let mut reader = pop_shard(rt, &history, &mut shards);
    let done = all_append(rt, alloc, &history, passes, count)?;
    let last = meet_each(rt, &history, &mut reader, done);
    assert!(rt; last == u64::from(writers) * u64::from(count));
    let seen = entries_of(rt, &history, &mut reader, last);
    expect_own_orders(rt, alloc, &seen, writers, count)?;
    assert!(rt; history.look(rt, &mut reader) == last);
    Ok(())
}

/// The first so many entries, by a pass that has noted no position.
fn entries_of<R: Wait + Abort>(
    rt: &R,
    history: &History,
    reader: &mut Pass,
    count: u64,
) -> Vec<Entry>
    requires seen { HasSeen history.now reader.old count }
    requires noted { reader.old.mark ≡ Noted 0 }
    ensures { reader.new ≡ reader.old }
{
    history.entries(rt, reader, 0, count).expect(rt, "memory")
}

/// The entries from one position to another, by a pass that was pinned before the first.
fn entries_between<R: Wait + Abort>(
    rt: &R,
    history: &History,
    pass: &mut Pass,
    from: u64,
    to: u64,
) -> Vec<Entry>
    requires seen { HasSeen history.now pass.old to }
    requires order { from ≤ to }
    requires pinned { pass.old.mark ≡ Pinned 0 }
    ensures { pass.new ≡ pass.old }
{
    history.entries(rt, pass, from, to).expect(rt, "memory")
}

#[test]
fn eight_threads_append_many(rt: HostRuntime) -> Result<(), Fail> {
    all_meet(&rt, rt.alloc(), 8, 10_000)
}

// `bench/appends.sh` runs the next four and takes the time.

#[test]
fn one_thread_appends_200_000(rt: HostRuntime) -> Result<(), Fail> {
    all_meet(&rt, rt.alloc(), 1, 200_000)
}

#[test]
fn two_threads_append_200_000(rt: HostRuntime) -> Result<(), Fail> {
    all_meet(&rt, rt.alloc(), 2, 100_000)
}

#[test]
fn four_threads_append_200_000(rt: HostRuntime) -> Result<(), Fail> {
    all_meet(&rt, rt.alloc(), 4, 50_000)
}

/// The pass looks so often, at a history to which nobody appends.
fn look_often<R: Wait + Abort>(rt: &R, history: &History, pass: &mut Pass, count: u32)
    requires { pass.old.history ≡ history.now }
{
    for _ in 0..count {
        assert!(rt; history.look(rt, pass) == 0);
    }
}

#[test]
fn one_thread_looks_1_000_000(rt: HostRuntime) -> Result<(), Fail> {
    let (history, mut passes) = History::new(rt.alloc(), 1)?;
    let mut pass = passes.pop().ok_or("a pass")?;
    look_often(&rt, &history, &mut pass, 1_000_000);
    Ok(())
}

/// The pattern `table|x`.
fn fixed(rt: &impl Abort, alloc: Global, table: &str) -> Result<Pattern, Fail>
    ensures { IfOk result (λ p. (p ≡ literal table.now ∷ literal (codes "x") ∷ []) × (is_pattern p ≡ true)) }
{
    let table = Segment::Literal(String::from_str(alloc, table)?);
    let name = Segment::Literal(String::from_str(alloc, "x")?);
    match Pattern::make(vec![in alloc; table, name]?) {
        Ok(pattern) => Ok(pattern),
        Err(_) => panic!(rt; "no pattern"),
    }
}

/// The join `output|x = copy a|x`.
pub fn copy_of(rt: &impl Abort, alloc: Global, output: &str) -> Result<Join, Fail> {
    let made = fixed(rt, alloc, output)?;
    let pattern = fixed(rt, alloc, "a")?;
    let source = JoinSource {
        op: Op::Copy,
        pattern,
    };
    Ok(Join {
        output: made,
        kind: Kind::Push,
        sources: vec![in alloc; source]?,
        names: Vec::new(alloc),
    })
}

/// Offers the put of each number at `a|x`, and before each the same put at `b|x`, which the join at 1 computes. Says at
/// which position the last entered.
fn offered<R: Wait + Abort>(
    rt: &R,
    alloc: Global,
    history: &History,
    mut pass: Pass,
    count: u32,
) -> (Pass, u64)
    requires { MayAppend history.now pass }
    ensures may { MayAppend history.now result.0 }
    ensures seen { HasSeen history.now result.0 result.1 }
    ensures mark { result.0.mark ≡ pass.mark }
{
    let mut last = 0;
    for number in 0..count {
        match history.append(rt, &mut pass, put_of(rt, alloc, "b|x", number)) {
            Err(AppendFault::Refused(position, Cause::Computed(1))) => assert!(rt;
                position >= last
            ),
            other => panic!(rt; "{other:?}"),
        }
        let entered = history.append(rt, &mut pass, put_of(rt, alloc, "a|x", number));
        last = entered.expect(rt, "no cause against it");
    }
    (pass, last)
}

/// A join is declared before the puts of two threads, and another behind them; no join stands at the position of a put. Both passes
/// were pinned before the first entry.
fn declared_between<R: Threads + Wait + Abort + Sync>(
    rt: &R,
    alloc: Global,
    history: &History,
    mut first: Pass,
    second: Pass,
) -> Result<(), Fail>
    requires may { MayAppend history.now first × MayAppend history.now second }
    requires pinned { (first.mark ≡ Pinned 0) × (second.mark ≡ Pinned 0) }
{
    let declared = history.append(rt, &mut first, Write::Declare(copy_of(rt, alloc, "b")?));
    assert!(rt; matches!(&declared, Ok(1)), "{declared:?}");
    let ((mut first, one), (mut second, other)) = thread::join(
        rt,
        move || offered(rt, alloc, history, first, 50),
        move || offered(rt, alloc, history, second, 50),
    );
    let later = history.append(rt, &mut second, Write::Declare(copy_of(rt, alloc, "c")?));
    assert!(rt; matches!(&later, Ok(102)), "{later:?}");
    let dropped = history.append(rt, &mut second, Write::Drop(2));
    assert!(rt;
        matches!(&dropped, Err(AppendFault::Refused(102, Cause::NoJoin))),
        "{dropped:?}"
    );
    history.meet(rt, &mut first, &mut second);
    let last = one.max(other);
    assert!(rt; last == 101);
    let declaration = entries_between(rt, history, &mut first, 0, 1);
    let write = Write::Declare(copy_of(rt, alloc, "b")?);
    expect_same(
        rt,
        alloc,
        &declaration,
        vec![in alloc; Entry { client: 0, write }]?,
    )?;
    let seen = entries_between(rt, history, &mut first, 1, last);
    expect_own_orders(rt, alloc, &seen, 2, 50)
}

#[test]
fn a_declared_join_refuses_puts(rt: HostRuntime) -> Result<(), Fail> {
    let mut seats = make_seats(rt.alloc(), 2, 0, 0, 0)?;
    let second = pop_at_start(&rt, &seats.history, &mut seats.writers);
    let first = pop_at_start(&rt, &seats.history, &mut seats.writers);
    declared_between(&rt, rt.alloc(), &seats.history, first, second)
}

#[test]
fn each_call_answers_with_ample_memory(rt: HostRuntime) -> Result<(), Fail> {
    let alloc = rt.alloc();
    let Seats {
        history,
        mut writers,
        mut shards,
        ..
    } = make_seats(alloc, 1, 0, 1, 0)?;
    let mut reader = pop_shard(&rt, &history, &mut shards);
    let mut writer = pop_writer(&rt, &history, &mut writers);
    assert!(rt; writers.is_empty() && shards.is_empty());
    assert!(rt; history.look(&rt, &mut reader) == 0);
    let put = history.append(&rt, &mut writer, put_of(&rt, alloc, "a|x", 7));
    assert!(rt; matches!(&put, Ok(1)), "{put:?}");
    let removed = history.append(&rt, &mut writer, removal_of(&rt, alloc, "a|y"));
    assert!(rt; matches!(&removed, Ok(2)), "{removed:?}");
    assert!(rt; history.look(&rt, &mut reader) == 2);
    let seen = entries_of(&rt, &history, &mut reader, 2);
    let put = Entry {
        client: 0,
        write: put_of(&rt, alloc, "a|x", 7),
    };
    let remove = Entry {
        client: 0,
        write: removal_of(&rt, alloc, "a|y"),
    };
    expect_same(&rt, alloc, &seen, vec![in alloc; put, remove]?)?;
    assert!(rt; History::with_readers(alloc, u32::MAX, 1).is_err());
    assert!(rt; History::with_pins(alloc, u32::MAX, 1, 0, 0).is_err());
    assert!(rt; History::with_pins(alloc, 1, 1, u32::MAX, 0).is_err());
    assert!(rt; History::with_pins(alloc, 1, 1, 1, u32::MAX).is_err());
    assert!(rt; History::new(alloc, 3)?.1.len() == 3);
    Ok(())
}

/// Appends the write as the next entry, or where no memory is found the same once more: then nothing has entered, and the turn
/// is free.
fn append_next<R: Wait + Abort>(
    rt: &R,
    history: &History,
    writer: &mut Pass,
    reader: &mut Pass,
    write: Write,
    again: Write,
)
    requires may { MayAppend history.now writer.old }
    requires same_history { reader.old.history ≡ history.now }
    ensures may { MayAppend history.now writer.new }
    ensures same_history { reader.new.history ≡ history.now }
    ensures mark { reader.new.mark ≡ reader.old.mark }
{
    let before = history.look(rt, reader);
    let mut entered = history.append(rt, writer, write);
    if matches!(&entered, Err(AppendFault::OutOfMemory(_))) {
        assert!(rt; history.look(rt, reader) == before);
        entered = history.append(rt, writer, again);
    }
    assert!(rt;
        matches!(&entered, Ok(position) if *position == before.saturating_add(1)),
        "{entered:?}"
    );
}

/// Appends so many puts behind the first entry, and compares all that have entered. The reader has noted no position.
fn append_behind<R: Wait + Abort>(
    rt: &R,
    alloc: Global,
    history: &History,
    mut writer: Pass,
    mut reader: Pass,
    count: u32,
) -> Result<(), Fail>
    requires may { MayAppend history.now writer }
    requires same_history { reader.history ≡ history.now }
    requires noted { reader.mark ≡ Noted 0 }
{
    for number in 0..count {
        let put = put_of(rt, alloc, "p|", number);
        let again = put_of(rt, alloc, "p|", number);
        append_next(rt, history, &mut writer, &mut reader, put, again);
    }
    let last = history.look(rt, &mut reader);
    assert!(rt; last == 1 + u64::from(count));
    let seen = entries_of(rt, history, &mut reader, last);
    let behind = seen.get(1..).expect(rt, "the first entry");
    expect_own_orders(rt, alloc, behind, 1, count)
}

#[test]
fn an_append_without_memory_leaves_nothing(rt: HostRuntime) -> Result<(), Fail> {
    let alloc = rt.alloc();
    let Seats {
        history,
        mut writers,
        mut shards,
        ..
    } = make_seats(alloc, 1, 0, 1, 0)?;
    let mut reader = pop_shard(&rt, &history, &mut shards);
    let mut writer = pop_writer(&rt, &history, &mut writers);
    let join = Write::Declare(copy_of(&rt, alloc, "b")?);
    let again = Write::Declare(copy_of(&rt, alloc, "b")?);
    append_next(&rt, &history, &mut writer, &mut reader, join, again);
    append_behind(&rt, alloc, &history, writer, reader, 1_030)
}
