// What operators make of values, and the numbers that values write.
//
// A count is of all values, a sum, the least and the greatest of those that are the canonical decimal of a number from -2^63 to
// 2^63 - 1 alone, and none where there is no such; sums are exact beyond that. A copy is the last value.
use join_rows::Table;
use join_types::Pair;
use key_space::{Key, Value};
use operators::{decimal, gather, result_of, result_of_pairs, whole};
use row_texts::reading::{Unread, read_op, read_pair};
use row_texts::showing::{show_table, show_value, show_word};
use std::alloc::Global;
use test_rows::Fields;

/// Reads the values, with spaces between them.
fn read_values(alloc: Global, values: &str) -> Result<Vec<Value>, Unread> {
    let mut all = Vec::new(alloc);
    for value in values.split_whitespace() {
        all.push(Value::read(alloc, value)?)?;
    }
    Ok(all)
}

/// Writes what the operator makes of the values as a list and, for one that makes one value of many, of the pairs of `n|0`, `n|1`
/// and on with these values.
pub fn results(alloc: Global, fields: &mut Fields<'_>, text: &mut String) -> Result<(), Unread> {
    let op = read_op(fields.next())?;
    let values = read_values(alloc, fields.next())?;
    let made = result_of(alloc, op, values.as_slice())?;
    show_value(text, made.as_ref())?;
    if op.is_aggregate() {
        let pairs = numbered(alloc, values)?;
        let made = result_of_pairs(alloc, op, &pairs)?;
        show_value(text, made.as_ref())?;
    }
    Ok(())
}

/// Returns the pairs of `n|0`, `n|1` and on with these values.
fn numbered(alloc: Global, values: Vec<Value>) -> Result<Table, Unread> {
    let mut table = Table::new(alloc);
    for (place, value) in values.into_iter().enumerate() {
        let key = format!(in alloc; "n|{place}")?;
        table.put(Key::read(alloc, key.as_str())?, value)?;
    }
    Ok(table)
}

/// Writes what the operator gathers of pairs, which may have one key more than once.
pub fn gathered(alloc: Global, fields: &mut Fields<'_>, text: &mut String) -> Result<(), Unread> {
    let op = read_op(fields.next())?;
    let mut given = Vec::new(alloc);
    for pair in fields.next().split_whitespace() {
        let (key, value) = read_pair(alloc, pair)?;
        given.push(Pair { key, value })?;
    }
    show_table(text, &gather(alloc, op, given)?)?;
    Ok(())
}

/// Writes the number that a value writes, as its canonical decimal.
pub fn number(alloc: Global, fields: &mut Fields<'_>, text: &mut String) -> Result<(), Unread> {
    let value = Value::read(alloc, fields.next())?;
    match whole(&value) {
        None => show_word(text, "none")?,
        Some(number) => {
            let digits = format!(in alloc; "{number}")?;
            show_word(text, digits.as_str())?;
        }
    }
    Ok(())
}

/// Writes the canonical decimal of the least number of 128 bits.
pub fn least_number(alloc: Global, text: &mut String) -> Result<(), Unread> {
    let least = decimal(alloc, i128::MIN)?;
    show_word(text, least.text())?;
    Ok(())
}
