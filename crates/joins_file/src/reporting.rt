// What is written about a file of joins.
ghost use Rattle.std.specs.Prelude.{◌≡◌, IfOk, is_err};
ghost use Rattle.protocol.specs.JoinsFile.{check_text, file_history};

use crate::declaring::{Declared, declare};
use crate::rows::{join_rows, refused_row};
use out_of_memory::OutOfMemory;
use std::alloc::Global;

/// What is written about a file of joins, and whether one of its lines is refused.
#[derive(Debug, Drop)]
pub struct FileReport {
    /// The rows, each ended by the byte 10.
    pub text: Vec<u8>,
    /// Whether a line is refused, of which the only row then tells.
    pub refused: bool,
}

/// The rows about a file of joins: `["join",position,rank,text]` for each join in order, with its rank in the whole set and
/// its canonical text; where a line is refused, `["refused",line,name]` for the first such line and nothing else. Its cost
/// is that of `declare`, and linear in the rows.
///
/// It may report that it found no memory for the joins or the rows.
pub fn report(alloc: Global, bytes: &[u8]) -> Result<FileReport, OutOfMemory>
    ensures text { IfOk result (λ report. report.text.items ≡ check_text bytes.now) }
    ensures refused { IfOk result (λ report. report.refused ≡ is_err (file_history bytes.now)) }
{
    match declare(alloc, bytes)? {
        Declared::Joins(standing) => Ok(FileReport {
            text: join_rows(alloc, standing.joins())?,
            refused: false,
        }),
        Declared::Refused(line) => Ok(FileReport {
            text: refused_row(alloc, line)?,
            refused: true,
        }),
    }
}
