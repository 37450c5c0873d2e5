// The rows that are written about a file of joins.
ghost use Rattle.std.specs.Prelude.{◌≡◌, ◌<◌, ◌++◌, IfOk, OnOk, Some, length, flat_map, zip, slice_get, slice_index, option_map};
ghost use Rattle.semantics.specs.States.{ranks_of};
ghost use Rattle.protocol.specs.JoinsFile.{join_row, refused_row};
ghost use Rattle.joins_file.specs.Declarations.{plain_refusal};

use crate::declaring::RefusedLine;
use join_lang::print;
use join_set::JoinSet;
use out_of_memory::OutOfMemory;
use request_codec::{number_value, text_value, write_row};
use std::alloc::Global;

/// The row of the join with this number: its position, its rank in the set and its canonical text. Linear in the row.
fn join_row(alloc: Global, joins: &JoinSet, number: usize) -> Result<Vec<u8>, OutOfMemory>
    requires { number < length joins.now.standing }
    ensures { IfOk result (λ row. option_map (λ s. join_row (slice_index (ranks_of joins.now.standing) number, s)) (slice_get joins.now.standing number) ≡ Some row.items) }
{
    let word = text_value(alloc, "join")?;
    let position = number_value(joins.at(number));
    let rank = number_value(u64::from(joins.rank(number)));
    let text = print(alloc, joins.join(number))?;
    let text = text_value(alloc, text.as_str())?;
    write_row(alloc, vec![in alloc; word, position, rank, text]?)
}

/// Adds a row.
fn push_row(rows: &mut Vec<u8>, row: &[u8]) -> Result<(), OutOfMemory>
    ensures { OnOk result (rows.new.items ≡ rows.old.items ++ row.now) }
{
    rows.extend_from_slice(row)?;
    Ok(())
}

/// A row for each join, in order. Linear in the rows.
pub fn join_rows(alloc: Global, joins: &JoinSet) -> Result<Vec<u8>, OutOfMemory>
    ensures { IfOk result (λ rows. rows.items ≡ flat_map join_row (zip (ranks_of joins.now.standing) joins.now.standing)) }
{
    let mut rows = Vec::new(alloc);
    for number in 0..joins.len() {
        let row = join_row(alloc, joins, number)?;
        push_row(&mut rows, row.as_slice())?;
    }
    Ok(rows)
}

/// The row of a refused line: its number and its name. Linear in the row.
pub fn refused_row(alloc: Global, line: RefusedLine) -> Result<Vec<u8>, OutOfMemory>
    ensures { IfOk result (λ row. row.items ≡ refused_row (plain_refusal line)) }
{
    let word = text_value(alloc, "refused")?;
    let number = number_value(line.number);
    let name = text_value(alloc, line.name)?;
    write_row(alloc, vec![in alloc; word, number, name]?)
}
