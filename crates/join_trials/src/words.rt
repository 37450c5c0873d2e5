// What rows write, as values. Nothing stands for what is not written as it has to be.
use crate::answer::Answer;
use join_lang::{parse, print};
use join_types::{Cause, Change, Pair, Positions, Write};
use key_space::{Key, Value};
use std::alloc::Global;

/// Returns the numbers of a field, which stand between spaces.
pub fn read_numbers(alloc: Global, field: &str) -> Option<Vec<u64>> {
    let mut numbers = Vec::new(alloc);
    for word in field.split(' ') {
        if let Ok(number) = word.parse::<u64>() {
            numbers.push(number).ok()?;
        }
    }
    Some(numbers)
}

/// Returns the bytes of a text in Latin-1, where each character is one byte, and `?` stands for each that is none.
pub fn read_latin(alloc: Global, text: &str) -> Option<Vec<u8>> {
    let mut bytes = Vec::new(alloc);
    for letter in text.chars() {
        bytes
            .push(u8::try_from(u32::from(letter)).unwrap_or(b'?'))
            .ok()?;
    }
    Some(bytes)
}

/// Returns the pair that a word `KEY=VALUE` is.
pub fn read_pair(alloc: Global, word: &str) -> Option<Pair> {
    let (key, value) = word.split_once('=')?;
    let key = Key::read(alloc, key).ok()?;
    let value = Value::read(alloc, value).ok()?;
    Some(Pair { key, value })
}

/// Returns the pairs of a field, which stand between spaces.
pub fn read_pairs(alloc: Global, field: &str) -> Option<Vec<Pair>> {
    let mut pairs = Vec::new(alloc);
    if field.is_empty() {
        return Some(pairs);
    }
    for word in field.split(' ') {
        pairs.push(read_pair(alloc, word)?).ok()?;
    }
    Some(pairs)
}

/// Returns the changes of a field, which stand between spaces: `KEY=VALUE`, or `KEY` where it has gone.
pub fn read_changes(alloc: Global, field: &str) -> Option<Vec<Change>> {
    let mut changes = Vec::new(alloc);
    if field.is_empty() {
        return Some(changes);
    }
    for word in field.split(' ') {
        let (key, value) = match word.split_once('=') {
            Some((key, value)) => (key, Some(Value::read(alloc, value).ok()?)),
            None => (word, None),
        };
        let key = Key::read(alloc, key).ok()?;
        changes.push(Change { key, value }).ok()?;
    }
    Some(changes)
}

/// Returns the write that a field is: `put KEY=VALUE`, `remove KEY`, `drop POSITION` or the text of a join.
pub fn read_write(alloc: Global, field: &str) -> Option<Write> {
    if let Some(pair) = field.strip_prefix("put ") {
        let pair = read_pair(alloc, pair)?;
        return Some(Write::Put(pair.key, pair.value));
    }
    if let Some(position) = field.strip_prefix("drop ") {
        return Some(Write::Drop(position.parse::<u64>().ok()?));
    }
    match field.strip_prefix("remove ") {
        Some(key) => Some(Write::Remove(Key::read(alloc, key).ok()?)),
        None => Some(Write::Declare(parse(alloc, field).ok()?)),
    }
}

/// Adds the write as rows write it, but for the `=`.
pub fn tell_write(alloc: Global, write: &Write, answer: &mut Answer) -> Option<()> {
    match write {
        Write::Put(key, value) => {
            answer.say("put");
            answer.say(key.text());
            answer.say(value.text());
        }
        Write::Remove(key) => {
            answer.say("remove");
            answer.say(key.text());
        }
        Write::Declare(join) => {
            let text = print(alloc, join).ok()?;
            answer.say(text.as_str());
        }
        Write::Drop(position) => {
            answer.say("drop");
            answer.tell(position);
        }
    }
    Some(())
}

/// Returns the cause of this name with these numbers.
pub fn read_cause(alloc: Global, name: &str, numbers: &str) -> Option<Cause> {
    let numbers = read_numbers(alloc, numbers)?;
    let first = numbers.first().copied().unwrap_or(0);
    match name {
        "computed" => Some(Cause::Computed(first)),
        "full" => Some(Cause::Full),
        "nojoin" => Some(Cause::NoJoin),
        "slots" => Some(Cause::Slots),
        "sources" => Some(Cause::Sources),
        "clash" => Some(Cause::Clash(first)),
        "cycle" => Some(Cause::Cycle(Positions::of(numbers))),
        "deep" => Some(Cause::Deep),
        "many" => Some(Cause::Many),
        _ => None,
    }
}

/// Adds the name of the cause and its numbers, as `read_cause` reads them.
pub fn tell_cause(cause: &Cause, answer: &mut Answer) {
    match cause {
        Cause::Computed(position) => {
            answer.say("computed");
            answer.tell(position);
        }
        Cause::Full => answer.say("full"),
        Cause::NoJoin => answer.say("nojoin"),
        Cause::Slots => answer.say("slots"),
        Cause::Sources => answer.say("sources"),
        Cause::Clash(position) => {
            answer.say("clash");
            answer.tell(position);
        }
        Cause::Cycle(positions) => {
            answer.say("cycle");
            for position in positions.as_slice() {
                answer.tell(position);
            }
        }
        Cause::Deep => answer.say("deep"),
        Cause::Many => answer.say("many"),
    }
}
