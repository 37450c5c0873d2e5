// What is evaluated of ranges of which nothing is kept.
//
// A first bound that is above all keys with one text of a slot of fixed width is raised to the next text, where that has one byte
// changed, and a last bound right before the keys with one is lowered to it. Both bound the same keys that fit the output.
use cell_slots::{output_part, reads_all};
use join_lang::parse;
use row_texts::reading::{Unread, read_range};
use row_texts::showing::show_word;
use std::alloc::Global;
use test_rows::Fields;

/// Writes the bounds of the part of a range in which all is that the join gives in it, and whether evaluating the range reads `all`
/// of what the join reads first, or `less`.
pub fn part_of(alloc: Global, fields: &mut Fields<'_>, text: &mut String) -> Result<(), Unread> {
    let join = parse(alloc, fields.next())?;
    let range = read_range(alloc, fields.next())?;
    let part = output_part(alloc, &join, &range)?;
    let reads = if reads_all(alloc, &join, &range)? {
        "all"
    } else {
        "less"
    };
    let shown = format!(in alloc; "{}..{} {reads}", part.lo(), part.hi())?;
    show_word(text, shown.as_str())?;
    Ok(())
}
