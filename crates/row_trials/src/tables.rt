// Rows of calls on a table of pairs.
//
// A key has one pair, the last that was put; a table is in the order of the bytes of its keys, so `o|10|a` stands before `o|1|a`. A
// range has the keys from its first bound on up to its last, which it leaves out, and the bounds need not be keys. Of two tables
// that are merged the other's pairs stand where both have the key. The pairs that fit a pattern under slots are left out, and no
// other: neither those with fewer or more segments, nor those of another table.
use join_rows::Table;
use key_pattern::Slots;
use key_space::Key;
use row_texts::reading::{Unread, put_pairs, read_pattern, read_range, read_table, split_call};
use row_texts::showing::{show_number, show_pairs, show_table, show_value, show_word};
use std::alloc::Global;

/// Leaves out the pairs that fit the first pattern; where a second one and a key stand behind it, those under the slots that this
/// pattern has of the key.
fn drop_fitting(alloc: Global, table: &mut Table, words: &str) -> Result<(), Unread> {
    let (pattern, given) = split_call(words);
    let pattern = read_pattern(alloc, pattern)?;
    if given.is_empty() {
        table.drop_fitting(&pattern, &Slots::none());
        return Ok(());
    }
    let (by, key) = split_call(given);
    let by = read_pattern(alloc, by)?;
    let key = Key::read(alloc, key)?;
    let slots = by.matches(&key, &Slots::none()).ok_or(Unread)?;
    table.drop_fitting(&pattern, &slots);
    Ok(())
}

/// Makes one call that changes the table, and returns it.
fn changed(alloc: Global, mut table: Table, name: &str, words: &str) -> Result<Table, Unread> {
    match name {
        "put" => put_pairs(alloc, &mut table, words)?,
        "merge" => return Ok(table.merge(read_table(alloc, words)?)?),
        "remove" => table.remove(&Key::read(alloc, words)?),
        "drop" => drop_fitting(alloc, &mut table, words)?,
        _ => return Err(Unread),
    }
    Ok(table)
}

/// Makes one call, and returns the table.
fn call(alloc: Global, table: Table, words: &str, text: &mut String) -> Result<Table, Unread> {
    let (name, words) = split_call(words);
    match name {
        "all" => show_table(text, &table)?,
        "within" => {
            let pairs = table.within(&read_range(alloc, words)?)?;
            show_pairs(text, pairs.as_slice())?;
        }
        "get" => show_value(text, table.get(&Key::read(alloc, words)?))?,
        "len" => show_number(alloc, text, table.len() as u64)?,
        "empty" => show_word(text, if table.is_empty() { "yes" } else { "no" })?,
        _ => return changed(alloc, table, name, words),
    }
    Ok(table)
}

/// Makes the calls on a table that begins empty.
pub fn play(alloc: Global, calls: &str, text: &mut String) -> Result<(), Unread> {
    let mut table = Table::new(alloc);
    for words in calls.split(';') {
        table = call(alloc, table, words, text)?;
    }
    Ok(())
}
