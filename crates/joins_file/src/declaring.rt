// What the lines of a file of joins declare.
ghost use Rattle.std.specs.Prelude.{◌≡◌, IfOk};
ghost use Rattle.semantics.specs.Histories.{History};
ghost use Rattle.protocol.specs.JoinsFile.{declare_line};
ghost use Rattle.join_set.specs.Summaries.{StandsFor};
ghost use Rattle.joins_file.specs.Declarations.{join_of_line, ComesAfter, IsDeclaredBy};

use crate::lines::{is_skipped, split_first_line};
use join_lang::{ParseFault, parse};
use join_set::Standing;
use join_types::{Join, Write};
use out_of_memory::OutOfMemory;
use request_codec::cause_name;
use std::alloc::Global;

/// The name of a line that is no join text.
const SYNTAX: &str = "syntax";

/// The first line of a file that is refused.
#[derive(Clone, Copy, Debug, PartialEq, Eq)]
pub struct RefusedLine {
    /// Its number: lines count from 1, with skipped ones among them.
    pub number: u64,
    /// `syntax`, or the name of the cause that refuses its join.
    pub name: &'static str,
}

/// What a file of joins declares.
#[derive(Debug, Drop)]
pub enum Declared {
    /// Each line is skipped, or declares the next join; the first has the position 1.
    Joins(Standing),
    /// A line is refused.
    Refused(RefusedLine),
}

/// The join that a line is the text of, if it is one.
fn read_line(alloc: Global, line: &[u8]) -> Result<Option<Join>, OutOfMemory>
    ensures { IfOk result (λ join. join ≡ join_of_line line.now) }
{
    let Ok(text) = str::from_utf8(line) else {
        return Ok(None);
    };
    match parse(alloc, text) {
        Ok(join) => Ok(Some(join)),
        Err(ParseFault::Syntax { .. }) => Ok(None),
        Err(ParseFault::OutOfMemory(memory)) => Err(memory),
    }
}

/// Declares the join of a line, unless it is skipped. Where the line is refused, its name.
fn declare_line(
    alloc: Global,
    standing: &mut Standing,
    line: &[u8],
) -> Result<Option<&'static str>, OutOfMemory>
    ensures { IfOk result (λ refused. (h : History) → StandsFor standing.old h → ComesAfter (declare_line line.now h) refused standing.new) }
{
    if is_skipped(line) {
        return Ok(None);
    }
    let Some(join) = read_line(alloc, line)? else {
        return Ok(Some(SYNTAX));
    };
    let write = Write::Declare(join);
    if let Some(cause) = standing.judge(&write)? {
        return Ok(Some(cause_name(&cause)));
    }
    standing.enter(&write)?;
    Ok(None)
}

/// The joins of a file, declared in order at the positions from 1 upwards, or its first line that is refused.
///
/// Lines end at byte 10; a last line without it counts where it is not empty. One byte 13 at a line's end is dropped. A
/// line that is then empty, has spaces alone or begins with `#` is skipped. Every other line is the text of a join.
///
/// `Refused` comes exactly where a line is no join text in UTF-8, with the name `syntax`, or where a cause stands against
/// its join after those before it, with the cause's name. It may report that it found no memory for the joins. Each
/// line is read once, and each join is compared with each.
pub fn declare(alloc: Global, bytes: &[u8]) -> Result<Declared, OutOfMemory>
    ensures { IfOk result (IsDeclaredBy bytes.now) }
{
    let mut standing = Standing::new(alloc);
    let mut number = 1;
    let mut rest = bytes;
    while let Some((line, others)) = split_first_line(rest) {
        if let Some(name) = declare_line(alloc, &mut standing, line)? {
            return Ok(Declared::Refused(RefusedLine { number, name }));
        }
        rest = others;
        number += 1;
    }
    Ok(Declared::Joins(standing))
}
