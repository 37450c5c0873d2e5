// What stands after a history, evaluated afresh.
//
// A pair stands as long as one way leads to it. A join may read the output of another. Output keys take the order of their own
// bytes, and a range has them from its first bound on up to its last.
use join_model::{afresh, state, value_afresh};
use key_space::Key;
use row_texts::reading::{Unread, read_range};
use row_texts::showing::{show_number, show_pairs, show_value};
use row_texts::telling::tell;
use std::alloc::Global;
use test_rows::Fields;

/// Writes the pairs of a range after a history.
pub fn scan(alloc: Global, fields: &mut Fields<'_>, text: &mut String) -> Result<(), Unread> {
    let range = read_range(alloc, fields.next())?;
    let told = tell(alloc, fields.rest())?;
    let pairs = afresh(alloc, told.entries.as_slice(), &range)?;
    show_pairs(text, pairs.as_slice())?;
    Ok(())
}

/// Writes the value of a key after a history.
pub fn value(alloc: Global, fields: &mut Fields<'_>, text: &mut String) -> Result<(), Unread> {
    let key = Key::read(alloc, fields.next())?;
    let told = tell(alloc, fields.rest())?;
    let value = value_afresh(alloc, told.entries.as_slice(), &key)?;
    show_value(text, value.as_ref())?;
    Ok(())
}

/// Writes how many pairs stand after a history.
pub fn count(alloc: Global, fields: &mut Fields<'_>, text: &mut String) -> Result<(), Unread> {
    let told = tell(alloc, fields.rest())?;
    let table = state(alloc, told.entries.as_slice())?;
    show_number(alloc, text, table.len() as u64)?;
    Ok(())
}
