// Logs of slots under which a kept range's output is pending.
use crate::readers::{read_bounds, read_key, read_pattern};
use key_pattern::{SlotTexts, Slots};
use lazy_log::LazyLog;
use std::alloc::Global;
use test_rows::{Answer, Fields};

/// Answers `log;PATTERN;CALL;..`, calls on one log of the output pattern in turn.
pub fn answer(alloc: Global, mut fields: Fields<'_>, out: &mut Answer) -> Option<()> {
    let mut log = LazyLog::new(alloc, read_pattern(alloc, fields.next())?);
    for call in fields.rest().split(';') {
        answer_call(alloc, &mut log, call, out)?;
    }
    Some(())
}

/// Answers one call.
fn answer_call(alloc: Global, log: &mut LazyLog, call: &str, out: &mut Answer) -> Option<()> {
    let mut words = Fields::words(call);
    match words.next() {
        "note" => note(alloc, log, words),
        "covers" => {
            out.flag(log.covers(&read_key(alloc, words.next())?));
            Some(())
        }
        "meets" => {
            out.flag(log.meets(&read_bounds(alloc, words.next())?));
            Some(())
        }
        "take" => show_taken(alloc, log, words.next(), out),
        _ => None,
    }
}

/// Does `note PATTERN KEY`: notes the slots that the key gives.
fn note(alloc: Global, log: &mut LazyLog, mut words: Fields<'_>) -> Option<()> {
    let pattern = read_pattern(alloc, words.next())?;
    let key = read_key(alloc, words.next())?;
    let slots = pattern.matches(&key, &Slots::none())?;
    log.note(SlotTexts::of(alloc, &slots).ok()?).ok()
}

/// Answers `take LOW..HIGH`: how many slots are taken, and the texts of each in brackets.
fn show_taken(alloc: Global, log: &mut LazyLog, bounds: &str, out: &mut Answer) -> Option<()> {
    let range = read_bounds(alloc, bounds)?;
    let taken = log.take_meeting(&range).ok()?;
    out.number(taken.len() as u64);
    for slots in taken.iter() {
        show_texts(&slots.lend(), out);
    }
    Some(())
}

/// Adds the texts of slots in brackets.
fn show_texts(slots: &Slots<'_>, out: &mut Answer) {
    out.word("[");
    for place in 0..=255u8 {
        if let Some(text) = slots.at(place) {
            out.number(u64::from(place));
            out.more("=");
            out.more_escaped(text);
        }
    }
    out.word("]");
}
