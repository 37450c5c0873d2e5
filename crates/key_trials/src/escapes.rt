// The texts of rows themselves: how many bytes the text has that a row writes, and how it is written again.
use std::alloc::Global;
use test_rows::{Answer, Fields};

/// Answers `text;FIELD`: the number of its bytes, and the text as an answer writes it.
pub fn answer(alloc: Global, mut fields: Fields<'_>, out: &mut Answer) -> Option<()> {
    let text = fields.text(alloc);
    out.number(text.len() as u64);
    out.escaped(text.as_str());
    Some(())
}
