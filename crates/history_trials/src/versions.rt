// Worked rows, with ample memory.
ghost use Rattle.std.specs.Prelude.{◌≡◌, ◌<◌, ◌≤◌, IfOk};

use base_versions::{BaseVersions, shard_of};
use join_types::{Change, Entry, Write};
use key_space::{Key, Range, Value};
use std::alloc::Global;
use std::marker::Brand;
use std::process::Abort;
use std::sync::ledger::{Blank, Ledger};
use std::test::Fail;
use steps::Steps;

fn key(rt: &impl Abort, alloc: Global, text: &str) -> Key {
    Key::read(alloc, text).expect(rt, "a key")
}

/// A put of a value at a key.
pub fn put(rt: &impl Abort, alloc: Global, text: &str, value: &str) -> Entry {
    let value = Value::read(alloc, value).expect(rt, "a value");
    Entry {
        client: 0,
        write: Write::Put(key(rt, alloc, text), value),
    }
}

/// A removal of a key.
pub fn removal(rt: &impl Abort, alloc: Global, text: &str) -> Entry {
    Entry {
        client: 1,
        write: Write::Remove(key(rt, alloc, text)),
    }
}

/// Two tables: keys that are put, put again, removed, and removed though they were never there.
fn entries(rt: &impl Abort, alloc: Global) -> Result<Vec<Entry>, Fail> {
    let mut entries = Vec::new(alloc);
    entries.push(put(rt, alloc, "k|b", "1"))?;
    entries.push(put(rt, alloc, "k|a", "x"))?;
    entries.push(removal(rt, alloc, "k|c"))?;
    entries.push(put(rt, alloc, "k|b", "2"))?;
    entries.push(put(rt, alloc, "j|z", "9"))?;
    entries.push(removal(rt, alloc, "k|a"))?;
    entries.push(put(rt, alloc, "k|b", "2"))?;
    entries.push(put(rt, alloc, "k|d", "y"))?;
    entries.push(removal(rt, alloc, "k|b"))?;
    entries.push(put(rt, alloc, "k|b", "3"))?;
    Ok(entries)
}

/// The base pairs of a shard after all entries, which come in two parts.
fn known(rt: &impl Abort, alloc: Global, shard: u8, shards: u8) -> Result<BaseVersions, Fail>
    requires { shard < shards }
    ensures shard { IfOk result (λ base. base.shard ≡ shard) }
    ensures shards { IfOk result (λ base. base.shards ≡ shards) }
{
    let entries = entries(rt, alloc)?;
    assert!(rt; entries.len() == 10);
    let mut base = BaseVersions::new(alloc, shard, shards);
    assert!(rt; base.position() == 0);
    advance(rt, &mut base, &entries[..4])?;
    assert!(rt; base.position() == 4);
    advance(rt, &mut base, &entries[4..])?;
    assert!(rt; base.position() == 10);
    Ok(base)
}

/// The entries enter.
pub fn advance(rt: &impl Abort, base: &mut BaseVersions, entries: &[Entry]) -> Result<(), Fail>
    ensures shard { base.new.shard ≡ base.old.shard }
    ensures shards { base.new.shards ≡ base.old.shards }
{
    assert!(rt; base.position() < 100 && entries.len() < 100);
    base.advance(entries)?;
    Ok(())
}

/// Lets go of what nobody asks for who asks from a position on.
pub fn trim(rt: &impl Abort, base: &mut BaseVersions, to: u64)
    ensures shard { base.new.shard ≡ base.old.shard }
    ensures shards { base.new.shards ≡ base.old.shards }
{
    let position = base.position();
    assert!(rt; base.start() <= to && to <= position);
    base.trim(to);
    assert!(rt; base.start() == to && base.position() == position);
}

/// The pairs of a range at a position, as text.
fn pairs<L: Ledger>(
    rt: &impl Abort,
    alloc: Global,
    base: &BaseVersions,
    at: (u64, &str, &str),
    blank: Blank,
) -> Result<String, Fail>
    requires name { blank.name ≡ L.name }
    requires parts { blank.parts ≡ L.parts }
    requires some { 0 < blank.parts }
    requires one { base.now.shards ≡ 1 }
    requires first { base.now.shard ≡ 0 }
{
    let (p, low, high) = at;
    let range = Range::read(alloc, low, high).expect(rt, "a range");
    let mut steps: Steps<L> = Steps::open(blank);
    assert!(rt; base.start() <= p && p <= base.position());
    let found = base.pairs_at(p, &range, &mut steps)?;
    let mut text = String::new(alloc);
    for pair in found {
        text.push_str(pair.key.text())?;
        text.push('=')?;
        text.push_str(pair.value.text())?;
        text.push(' ')?;
    }
    Ok(text)
}

/// Whether these are changes of the keys, in their order.
fn are_of(changes: &[Change], keys: &[Key]) -> bool {
    for (one, key) in changes.iter().zip(keys.iter()) {
        if one.key.text() != key.text() {
            return false;
        }
    }
    changes.len() == keys.len()
}

/// The text of a value, and none of it where there is none.
fn text_of(value: Option<&Value>) -> &str {
    match value {
        None => "",
        Some(value) => value.text(),
    }
}

/// The same keys are found with what stands there, also where many changes may be sorted for them; where none may, none are given
/// if there are any.
fn expect_valued<L: Ledger>(
    rt: &impl Abort,
    base: &BaseVersions,
    between: (u64, u64),
    range: &Range,
    found: &[Key],
    steps: &mut Steps<L>,
) -> Result<(), Fail>
    requires one { base.now.shards ≡ 1 }
    requires first { base.now.shard ≡ 0 }
    requires order { between.0 ≤ between.1 }
    requires within { between.1 ≤ base.now.position }
{
    let (q, p) = between;
    let changes = base.changes(q, p, range, steps)?;
    assert!(rt; are_of(changes.as_slice(), found));
    for change in changes.iter() {
        let stands = text_of(base.get_at(p, &change.key));
        assert!(rt; text_of(change.value.as_ref()) == stands);
    }
    let few = base.few_changes(q, p, range, 1_000)?.ok_or("few")?;
    assert!(rt; are_of(few.as_slice(), found));
    let none = base.few_changes(q, p, range, 0)?;
    assert!(rt; none.is_none() || found.is_empty());
    Ok(())
}

/// The keys of a range that change between two positions, as text.
fn changed<L: Ledger>(
    rt: &impl Abort,
    alloc: Global,
    base: &BaseVersions,
    at: (u64, u64, &str, &str),
    blank: Blank,
) -> Result<String, Fail>
    requires name { blank.name ≡ L.name }
    requires parts { blank.parts ≡ L.parts }
    requires some { 0 < blank.parts }
    requires one { base.now.shards ≡ 1 }
    requires first { base.now.shard ≡ 0 }
{
    let (q, p, low, high) = at;
    let range = Range::read(alloc, low, high).expect(rt, "a range");
    let mut steps: Steps<L> = Steps::open(blank);
    assert!(rt; base.start() <= q && q <= p && p <= base.position());
    let found = base.changed(q, p, &range, &mut steps)?;
    expect_valued(rt, base, (q, p), &range, found.as_slice(), &mut steps)?;
    let mut text = String::new(alloc);
    for key in found {
        text.push_str(key.text())?;
        text.push(' ')?;
    }
    Ok(text)
}

/// The text followed by the letter a up to 513 bytes.
fn longest(alloc: Global, text: &str) -> Result<String, Fail> {
    let mut whole = String::from_str(alloc, text)?;
    for _ in text.len()..513 {
        whole.push('a')?;
    }
    Ok(whole)
}

/// The pairs of the table `k` after so many entries.
const PAIRS: [(u64, &str); 11] = [
    (0, ""),
    (1, "k|b=1 "),
    (2, "k|a=x k|b=1 "),
    (3, "k|a=x k|b=1 "),
    (4, "k|a=x k|b=2 "),
    (5, "k|a=x k|b=2 "),
    (6, "k|b=2 "),
    (7, "k|b=2 "),
    (8, "k|b=2 k|d=y "),
    (9, "k|d=y "),
    (10, "k|b=3 k|d=y "),
];

/// The keys of the table `k` that change after so many entries, up to so many.
const CHANGES: [(u64, u64, &str); 10] = [
    (0, 0, ""),
    (0, 10, "k|a k|b k|c k|d "),
    (1, 6, "k|a k|b k|c "),
    (2, 3, "k|c "),
    (3, 5, "k|b "),
    (4, 5, ""),
    (5, 6, "k|a "),
    (6, 10, "k|b k|d "),
    (9, 10, "k|b "),
    (10, 10, ""),
];

/// The pairs of the table at each position from one on.
fn expect_pairs(rt: &impl Abort, alloc: Global, base: &BaseVersions, from: u64) -> Result<(), Fail>
    requires one { base.now.shards ≡ 1 }
    requires first { base.now.shard ≡ 0 }
{
    for (p, wanted) in PAIRS {
        if from <= p {
            let found = pairs::<Brand>(rt, alloc, base, (p, "k|", "k}"), Blank::new(1))?;
            assert!(rt; found.as_str() == wanted);
        }
    }
    Ok(())
}

/// These keys of a range change between two positions.
pub fn expect_changed(
    rt: &impl Abort,
    alloc: Global,
    base: &BaseVersions,
    at: (u64, u64, &str, &str),
    wanted: &str,
) -> Result<(), Fail>
    requires one { base.now.shards ≡ 1 }
    requires first { base.now.shard ≡ 0 }
{
    let found = changed::<Brand>(rt, alloc, base, at, Blank::new(1))?;
    assert!(rt; found.as_str() == wanted);
    Ok(())
}

/// The keys that change in the table after each position from one on.
fn expect_changes(
    rt: &impl Abort,
    alloc: Global,
    base: &BaseVersions,
    from: u64,
) -> Result<(), Fail>
    requires one { base.now.shards ≡ 1 }
    requires first { base.now.shard ≡ 0 }
{
    for (q, p, wanted) in CHANGES {
        if from <= q {
            expect_changed(rt, alloc, base, (q, p, "k|", "k}"), wanted)?;
        }
    }
    Ok(())
}

#[test]
fn pairs_at_positions(rt: HostRuntime) -> Result<(), Fail> {
    let alloc = rt.alloc();
    let base = known(&rt, alloc, 0, 1)?;
    expect_pairs(&rt, alloc, &base, 0)
}

#[test]
fn what_is_trimmed_is_read_from_the_start_on(rt: HostRuntime) -> Result<(), Fail> {
    let alloc = rt.alloc();
    let mut base = known(&rt, alloc, 0, 1)?;
    for to in [0, 1, 2, 3, 5, 6, 9, 10] {
        trim(&rt, &mut base, to);
        expect_pairs(&rt, alloc, &base, to)?;
        expect_changes(&rt, alloc, &base, to)?;
    }
    Ok(())
}

#[test]
fn what_is_trimmed_at_once_is_read_from_the_start_on(rt: HostRuntime) -> Result<(), Fail> {
    let alloc = rt.alloc();
    for to in 0..=10 {
        let mut base = known(&rt, alloc, 0, 1)?;
        trim(&rt, &mut base, to);
        expect_pairs(&rt, alloc, &base, to)?;
        expect_changes(&rt, alloc, &base, to)?;
    }
    Ok(())
}

#[test]
fn entries_come_after_a_trim(rt: HostRuntime) -> Result<(), Fail> {
    let alloc = rt.alloc();
    let entries = entries(&rt, alloc)?;
    assert!(rt; entries.len() == 10);
    let mut base = BaseVersions::new(alloc, 0, 1);
    advance(&rt, &mut base, &entries[..6])?;
    trim(&rt, &mut base, 6);
    advance(&rt, &mut base, &entries[6..])?;
    assert!(rt; base.start() == 6 && base.position() == 10);
    expect_pairs(&rt, alloc, &base, 6)?;
    expect_changes(&rt, alloc, &base, 6)
}

#[test]
fn pairs_in_ranges(rt: HostRuntime) -> Result<(), Fail> {
    let alloc = rt.alloc();
    let base = known(&rt, alloc, 0, 1)?;
    let longest = longest(alloc, "k|a")?;
    let rows = [
        (10, "k|b", "k|d", "k|b=3 "),
        (10, "k|b", "k|b", ""),
        (10, "k|c", "k}", "k|d=y "),
        (8, "k|", "k|d", "k|b=2 "),
        (8, "k|", "k|", ""),
        (5, longest.as_str(), "k}", "k|b=2 "),
        (5, "k|", longest.as_str(), "k|a=x "),
        (4, "j|", "j}", ""),
        (5, "j|", "j}", "j|z=9 "),
        (10, "a|", "a}", ""),
    ];
    for (p, low, high, wanted) in rows {
        let found = pairs::<Brand>(&rt, alloc, &base, (p, low, high), Blank::new(1))?;
        assert!(rt; found.as_str() == wanted);
    }
    Ok(())
}

#[test]
fn changed_keys(rt: HostRuntime) -> Result<(), Fail> {
    let alloc = rt.alloc();
    let base = known(&rt, alloc, 0, 1)?;
    let longest = longest(alloc, "k|a")?;
    expect_changes(&rt, alloc, &base, 0)?;
    let rows = [
        (4, 5, "j|", "j}", "j|z "),
        (0, 10, "k|b", "k|d", "k|b k|c "),
        (0, 10, "k|", longest.as_str(), "k|a "),
        (0, 10, longest.as_str(), "k}", "k|b k|c k|d "),
        (0, 10, "a|", "a}", ""),
    ];
    for (q, p, low, high, wanted) in rows {
        expect_changed(&rt, alloc, &base, (q, p, low, high), wanted)?;
    }
    Ok(())
}

/// The values at keys of the second of two shards after so many entries.
const VALUES: [(u64, &str, Option<&str>); 10] = [
    (0, "k|b", None),
    (1, "k|b", Some("1")),
    (3, "k|b", Some("1")),
    (7, "k|b", Some("2")),
    (9, "k|b", None),
    (10, "k|b", Some("3")),
    (5, "k|a", Some("x")),
    (6, "k|a", None),
    (10, "k|c", None),
    (10, "k|e", None),
];

/// The values at each position from one on.
fn expect_values(rt: &impl Abort, alloc: Global, base: &BaseVersions, from: u64)
    requires two { base.now.shards ≡ 2 }
    requires second { base.now.shard ≡ 1 }
{
    for (p, text, wanted) in VALUES {
        if from <= p {
            let key = key(rt, alloc, text);
            assert!(rt; value_at(rt, base, p, &key) == wanted);
        }
    }
}

#[test]
fn values_at_positions(rt: HostRuntime) -> Result<(), Fail> {
    let alloc = rt.alloc();
    for to in 0..=10 {
        let mut base = known(&rt, alloc, 1, 2)?;
        trim(&rt, &mut base, to);
        expect_values(&rt, alloc, &base, to);
    }
    Ok(())
}

/// The value at a key of the second of two shards, as text.
fn value_at<'a>(rt: &impl Abort, base: &'a BaseVersions, p: u64, key: &Key) -> Option<&'a str>
    requires two { base.now.shards ≡ 2 }
    requires second { base.now.shard ≡ 1 }
{
    let shard = shard_of(key.table(), 2);
    assert!(rt; shard == 1 && base.start() <= p && p <= base.position());
    match base.get_at(p, key) {
        None => None,
        Some(value) => Some(value.text()),
    }
}

#[test]
fn each_shard_counts_every_entry(rt: HostRuntime) -> Result<(), Fail> {
    let alloc = rt.alloc();
    let first = known(&rt, alloc, 0, 2)?;
    let second = known(&rt, alloc, 1, 2)?;
    assert!(rt; first.position() == 10 && second.position() == 10);
    assert!(rt; shard_of("j", 2) == 0 && shard_of("k", 2) == 1 && shard_of("jk", 16) == 5);
    Ok(())
}

fn is_shared<T: Send + Sync>(_: &T) -> bool {
    true
}

#[test]
fn shared(rt: HostRuntime) {
    assert!(rt; is_shared(&BaseVersions::new(rt.alloc(), 2, 3)));
}
