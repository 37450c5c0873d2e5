// Texts of a row, read as what they stand for.
use join_lang::{ParseFault, parse};
use join_rows::Table;
use join_types::Op;
use key_pattern::Pattern;
use key_space::{Key, KeyFault, Range, RangeFault, Value, ValueFault};
use out_of_memory::OutOfMemory;
use std::alloc::{AllocError, AllocFailed, Global};
use test_rows::unescape;

/// Why a row has no answer: one of its texts is not what it should be, or no memory was found.
#[derive(Clone, Copy, Debug)]
pub struct Unread;

impl From<AllocError> for Unread {
    fn from(_error: AllocError) -> Self {
        Unread
    }
}

impl<T: Drop> From<AllocFailed<T>> for Unread {
    fn from(_failed: AllocFailed<T>) -> Self {
        Unread
    }
}

impl From<OutOfMemory> for Unread {
    fn from(_error: OutOfMemory) -> Self {
        Unread
    }
}

impl From<KeyFault> for Unread {
    fn from(_fault: KeyFault) -> Self {
        Unread
    }
}

impl From<ValueFault> for Unread {
    fn from(_fault: ValueFault) -> Self {
        Unread
    }
}

impl From<RangeFault> for Unread {
    fn from(_fault: RangeFault) -> Self {
        Unread
    }
}

impl From<ParseFault> for Unread {
    fn from(_fault: ParseFault) -> Self {
        Unread
    }
}

/// Splits a call into its name and what stands behind the first space, which is empty where there is none.
pub fn split_call(words: &str) -> (&str, &str) {
    words.split_once(' ').unwrap_or((words, ""))
}

/// Reads the range `low..high`, whose bounds may be written with escapes.
pub fn read_range(alloc: Global, bounds: &str) -> Result<Range, Unread> {
    let (low, high) = bounds.split_once("..").ok_or(Unread)?;
    let low = unescape(alloc, low)?;
    let high = unescape(alloc, high)?;
    Ok(Range::read(alloc, low.as_str(), high.as_str())?)
}

/// Reads `key=value`.
pub fn read_pair(alloc: Global, pair: &str) -> Result<(Key, Value), Unread> {
    let (key, value) = pair.split_once('=').ok_or(Unread)?;
    Ok((Key::read(alloc, key)?, Value::read(alloc, value)?))
}

/// Puts the pairs, which are written as `key=value` with spaces between them, into the table, in this order.
pub fn put_pairs(alloc: Global, table: &mut Table, pairs: &str) -> Result<(), Unread> {
    for pair in pairs.split_whitespace() {
        let (key, value) = read_pair(alloc, pair)?;
        table.put(key, value)?;
    }
    Ok(())
}

/// Reads the table of pairs that are written so.
pub fn read_table(alloc: Global, pairs: &str) -> Result<Table, Unread> {
    let mut table = Table::new(alloc);
    put_pairs(alloc, &mut table, pairs)?;
    Ok(table)
}

/// Reads a pattern as joins write it: it is the output of a join that copies it.
pub fn read_pattern(alloc: Global, pattern: &str) -> Result<Pattern, Unread> {
    let text = format!(in alloc; "{pattern} = copy {pattern}")?;
    let join = parse(alloc, text.as_str())?;
    Ok(join.output.copy(alloc)?)
}

/// Reads the name of an operator.
pub fn read_op(name: &str) -> Result<Op, Unread> {
    match name {
        "check" => Ok(Op::Check),
        "copy" => Ok(Op::Copy),
        "count" => Ok(Op::Count),
        "sum" => Ok(Op::Sum),
        "min" => Ok(Op::Min),
        "max" => Ok(Op::Max),
        _ => Err(Unread),
    }
}
