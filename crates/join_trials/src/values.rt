// Joins, writes and pairs as values: what is copied shows the same, and operators are told apart.
use crate::answer::Answer;
use crate::words::{read_numbers, read_pair, read_write, tell_write};
use join_lang::parse;
use join_types::{Entry, Positions};
use std::alloc::Global;
use test_rows::Fields;

/// Copies a write, and the entry that a client has of it.
fn copy_write(alloc: Global, fields: &mut Fields<'_>, answer: &mut Answer) -> Option<()> {
    let write = read_write(alloc, fields.next())?;
    let client = u32::try_from(fields.number()).ok()?;
    let copy = write.copy(alloc).ok()?;
    tell_write(alloc, &copy, answer)?;
    let copy = Entry { client, write }.copy(alloc).ok()?;
    answer.say("by");
    answer.tell(&copy.client);
    tell_write(alloc, &copy.write, answer)
}

/// Copies each source of a join.
fn copy_sources(alloc: Global, fields: &mut Fields<'_>, answer: &mut Answer) -> Option<()> {
    let join = parse(alloc, fields.next()).ok()?;
    for source in &join.sources {
        let copy = source.copy(alloc).ok()?;
        answer.show(&copy.op);
        answer.show(&copy.pattern.segments());
    }
    Some(())
}

/// Copies a pair.
fn copy_pair(alloc: Global, fields: &mut Fields<'_>, answer: &mut Answer) -> Option<()> {
    let copy = read_pair(alloc, fields.next())?.copy().ok()?;
    answer.say(copy.key.text());
    answer.say(copy.value.text());
    Some(())
}

/// Makes positions of a list, and a list of them again.
fn list_positions(alloc: Global, fields: &mut Fields<'_>, answer: &mut Answer) -> Option<()> {
    let positions = Positions::of(read_numbers(alloc, fields.next())?);
    answer.show(&positions.as_slice());
    answer.show(&positions.into_list());
    Some(())
}

/// Tells of each operator of a join whether it is a check and whether it is an aggregate.
fn tell_operators(alloc: Global, fields: &mut Fields<'_>, answer: &mut Answer) -> Option<()> {
    let join = parse(alloc, fields.next()).ok()?;
    for source in &join.sources {
        answer.show(&source.op);
        answer.tell(&source.op.is_check());
        answer.tell(&source.op.is_aggregate());
    }
    Some(())
}

/// Runs a row of this kind.
pub fn run(alloc: Global, kind: &str, fields: &mut Fields<'_>, answer: &mut Answer) -> Option<()> {
    match kind {
        "write" => copy_write(alloc, fields, answer),
        "sources" => copy_sources(alloc, fields, answer),
        "pair" => copy_pair(alloc, fields, answer),
        "positions" => list_positions(alloc, fields, answer),
        "operators" => tell_operators(alloc, fields, answer),
        _ => None,
    }
}
