// Rows of changes to the groups of an aggregate.
//
// A group lists the pairs of its source keys, each once. The count is of all that are listed, and none where none is; a sum, the
// least and the greatest are of those that are canonical decimals within 64 bits, and none where no such is listed.
use agg_rows::AggRows;
use key_space::Key;
use row_texts::reading::{Unread, read_op, read_pair, split_call};
use row_texts::showing::show_value;
use std::alloc::Global;
use test_rows::Fields;

/// Lists a pair, written as `group source=value`, or takes it out, as `group source`, and writes what the group then answers.
fn change(alloc: Global, kept: &mut AggRows, words: &str, text: &mut String) -> Result<(), Unread> {
    let (group, source) = split_call(words);
    let group = Key::read(alloc, group)?;
    if source.contains('=') {
        let (source, value) = read_pair(alloc, source)?;
        kept.set(&group, &source, Some(&value))?;
    } else {
        kept.set(&group, &Key::read(alloc, source)?, None)?;
    }
    let answer = kept.answer(&group)?;
    show_value(text, answer.as_ref())?;
    Ok(())
}

/// Makes the changes on groups of an operator that begin empty.
pub fn play(alloc: Global, fields: &mut Fields<'_>, text: &mut String) -> Result<(), Unread> {
    let op = read_op(fields.next())?;
    if !op.is_aggregate() {
        return Err(Unread);
    }
    let mut kept = AggRows::new(alloc, op);
    for words in fields.rest().split(';') {
        change(alloc, &mut kept, words, text)?;
    }
    Ok(())
}
