// Indexes of updaters: which ids a written key concerns, by the ranges that each id has registered, and which ids are marked.
use crate::readers::{read_bounds, read_key};
use std::alloc::Global;
use test_rows::{Answer, Fields};
use updater_index::UpdaterIndex;

/// Answers `updaters;IDS;CALL;..`, calls on one index in turn. Ids that a key concerns, and marked ids, are answered.
pub fn answer(alloc: Global, mut fields: Fields<'_>, out: &mut Answer) -> Option<()> {
    let mut index = UpdaterIndex::new(alloc, fields.id());
    for call in fields.rest().split(';') {
        answer_call(alloc, &mut index, call, out)?;
    }
    Some(())
}

/// Answers one call.
fn answer_call(
    alloc: Global,
    index: &mut UpdaterIndex,
    call: &str,
    out: &mut Answer,
) -> Option<()> {
    let mut words = Fields::words(call);
    match words.next() {
        "add" => add(alloc, index, words),
        "forget" => forget(index, words.id()),
        "mark" => mark(index, words.id()),
        "write" => index.mark_stabbed(&read_key(alloc, words.next())?).ok(),
        "next" => {
            show_next(index, out);
            Some(())
        }
        "stab" => {
            let ids = index.stab(&read_key(alloc, words.next())?).ok()?;
            out.ids(ids.as_slice());
            Some(())
        }
        _ => None,
    }
}

/// Does `add ID LOW..HIGH ..`: registers the ranges.
fn add(alloc: Global, index: &mut UpdaterIndex, mut words: Fields<'_>) -> Option<()> {
    let id = words.id();
    let mut ranges = Vec::new(alloc);
    for bounds in words.rest().split(' ') {
        ranges.push(read_bounds(alloc, bounds)?).ok()?;
    }
    if (id as usize) < index.ids() {
        index.register(id, ranges).ok()
    } else {
        None
    }
}

/// Does `forget ID`.
fn forget(index: &mut UpdaterIndex, id: u32) -> Option<()> {
    if (id as usize) < index.ids() {
        index.forget(id);
        Some(())
    } else {
        None
    }
}

/// Does `mark ID`.
fn mark(index: &mut UpdaterIndex, id: u32) -> Option<()> {
    if (id as usize) < index.ids() {
        index.mark(id).ok()
    } else {
        None
    }
}

/// Answers `next`: takes the id that was marked first.
fn show_next(index: &mut UpdaterIndex, out: &mut Answer) {
    match index.next_marked() {
        Some(id) => out.number(u64::from(id)),
        None => out.word("none"),
    }
}
