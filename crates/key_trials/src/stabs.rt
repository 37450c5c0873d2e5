// Stabs of an index with very many ranges, which `bench/stabs.sh` takes the time of.
use crate::readers::{read_key, read_range};
use key_space::Key;
use std::alloc::{AllocError, Global};
use test_rows::{Answer, Fields};
use updater_index::UpdaterIndex;

/// Answers `stabs;TIMES;KEY;IDS;LOW;HIGH`, where each id has one range between texts that are numbered by it, and
/// `stabs;TIMES;KEY;0`, where ranges part from one another behind the key, 25 for each of its bytes: how many ids the key
/// concerns, if it is stabbed at all.
pub fn answer(alloc: Global, mut fields: Fields<'_>, out: &mut Answer) -> Option<()> {
    let times = fields.id();
    let key = read_key(alloc, fields.next())?;
    let ids = fields.id();
    let mut index = UpdaterIndex::new(alloc, ids.max(1));
    if ids == 0 {
        part_behind(alloc, &mut index, &key)?;
    } else {
        let low = fields.next();
        add_numbered(alloc, &mut index, ids, low, fields.next())?;
    }
    let mut count = None;
    for _ in 0..times {
        count = Some(index.stab(&key).ok()?.len());
    }
    if let Some(count) = count {
        out.number(count as u64);
    }
    Some(())
}

/// Registers one range of the id.
fn add_one(alloc: Global, index: &mut UpdaterIndex, id: u32, low: &str, high: &str) -> Option<()> {
    let mut ranges = Vec::new(alloc);
    ranges.push(read_range(alloc, low, high)?).ok()?;
    if (id as usize) < index.ids() {
        index.register(id, ranges).ok()
    } else {
        None
    }
}

/// Registers a range of each id below a number, between texts that are numbered by it.
fn add_numbered(
    alloc: Global,
    index: &mut UpdaterIndex,
    ids: u32,
    low: &str,
    high: &str,
) -> Option<()> {
    for id in 0..ids {
        let low = numbered(alloc, low, id).ok()?;
        let high = numbered(alloc, high, id).ok()?;
        add_one(alloc, index, id, low.as_str(), high.as_str())?;
    }
    Some(())
}

/// Returns the text with five digits of the number in place of each `N`, of its distance to 99,999 in place of each `D`, and
/// the two digits of its thousands in place of each `G`.
fn numbered(alloc: Global, text: &str, number: u32) -> Result<String, AllocError> {
    let mut whole = String::new(alloc);
    for letter in text.chars() {
        match letter {
            'N' => push_digits(&mut whole, number, &PLACES)?,
            'D' => push_digits(&mut whole, 99_999u32.saturating_sub(number), &PLACES)?,
            'G' => push_digits(&mut whole, number, &PLACES[..2])?,
            other => whole.push(other)?,
        }
    }
    Ok(whole)
}

/// What a decimal's last five digits count.
const PLACES: [u32; 5] = [10_000, 1_000, 100, 10, 1];

/// Writes the decimal digits of a number at these places.
fn push_digits(text: &mut String, number: u32, places: &[u32]) -> Result<(), AllocError> {
    for place in places {
        let digit = number.checked_div(*place).unwrap_or(0) % 10;
        text.push(char::from_digit(digit, 10).unwrap_or('0'))?;
    }
    Ok(())
}

/// Registers ranges of id 0 that part from one another behind each byte of the key from the third on: from that beginning
/// and `b` to that beginning and each of `c` to `{`.
fn part_behind(alloc: Global, index: &mut UpdaterIndex, key: &Key) -> Option<()> {
    let mut beginning = String::new(alloc);
    for letter in key.text().chars() {
        if beginning.len() >= 2 {
            part_at(alloc, index, beginning.as_str())?;
        }
        beginning.push(letter).ok()?;
    }
    Some(())
}

/// Registers the ranges that part behind one beginning.
fn part_at(alloc: Global, index: &mut UpdaterIndex, beginning: &str) -> Option<()> {
    let mut low = String::from_str(alloc, beginning).ok()?;
    low.push('b').ok()?;
    for last in 'c'..='{' {
        let mut high = String::from_str(alloc, beginning).ok()?;
        high.push(last).ok()?;
        add_one(alloc, index, 0, low.as_str(), high.as_str())?;
    }
    Some(())
}
