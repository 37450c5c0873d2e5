// Histories that are told by entries.
ghost use Rattle.std.specs.Prelude.{IfOk, OnOk};
ghost use Rattle.semantics.specs.Verdicts.{AllEntered};
ghost use Rattle.join_set.specs.Summaries.{StandsFor};

use crate::reading::{Unread, read_pair};
use join_lang::parse;
use join_set::Standing;
use join_types::{Entry, Write};
use key_space::Key;
use std::alloc::Global;

/// A history and what stands after it.
#[derive(Drop)]
pub struct Told {
    /// The entries, in order.
    pub entries: Vec<Entry>,
    /// What stands after them.
    pub standing: Standing,
}

/// Reads the write that a text is: the text of a join, `drop` and a position, `key=value` for a put, or a key for a remove.
fn read_write(alloc: Global, text: &str) -> Result<Write, Unread> {
    if text.contains(" = ") {
        return Ok(Write::Declare(parse(alloc, text)?));
    }
    if let Some(position) = text.strip_prefix("drop ") {
        return Ok(Write::Drop(position.parse::<u64>().map_err(|_| Unread)?));
    }
    if text.contains('=') {
        let (key, value) = read_pair(alloc, text)?;
        return Ok(Write::Put(key, value));
    }
    Ok(Write::Remove(Key::read(alloc, text)?))
}

/// Enters the write where nothing is against it; otherwise the history is `Unread`.
fn enter(told: &mut Told, write: Write) -> Result<(), Unread>
    requires entered { AllEntered told.old.entries.items }
    requires stands { StandsFor told.old.standing told.old.entries.items }
    ensures entered { OnOk result (AllEntered told.new.entries.items) }
    ensures stands { OnOk result (StandsFor told.new.standing told.new.entries.items) }
{
    if told.standing.judge(&write)?.is_some() {
        return Err(Unread);
    }
    told.standing.enter(&write)?;
    told.entries.push(Entry { client: 1, write })?;
    Ok(())
}

/// Returns the history of no entries.
fn tell_nothing(alloc: Global) -> Told
    ensures entered { AllEntered result.entries.items }
    ensures stands { StandsFor result.standing result.entries.items }
{
    Told {
        entries: Vec::new(alloc),
        standing: Standing::new(alloc),
    }
}

/// Returns the history of the entries, between which `;` stands. It is `Unread` where one of them may not enter.
pub fn tell(alloc: Global, entries: &str) -> Result<Told, Unread>
    ensures entered { IfOk result (λ told. AllEntered told.entries.items) }
    ensures stands { IfOk result (λ told. StandsFor told.standing told.entries.items) }
{
    let mut told = tell_nothing(alloc);
    for line in entries.split(';') {
        let write = read_write(alloc, line)?;
        enter(&mut told, write)?;
    }
    Ok(told)
}
