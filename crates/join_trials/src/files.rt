// Files of joins: the rows about one, and what it declares.
//
// Lines end at byte 10, and one byte 13 at a line's end is dropped. A line that is then empty, has spaces alone or begins with `#`
// is skipped; every other line is the text of a join. The first line that is refused has the only row.
use crate::answer::Answer;
use crate::sets::tell_joins;
use crate::words::read_latin;
use joins_file::{Declared, declare, report};
use std::alloc::Global;
use test_rows::{Fields, unescape};

/// Tells the rows about a file, and whether one of its lines is refused.
fn tell_report(alloc: Global, file: &[u8], answer: &mut Answer) -> Option<()> {
    let report = report(alloc, file).ok()?;
    answer.say(if report.refused {
        "refused"
    } else {
        "accepted"
    });
    answer.say_bytes(report.text.as_slice());
    Some(())
}

/// Tells what a file declares: its joins, or the number of the line that is refused, and why.
fn tell_declared(alloc: Global, file: &[u8], answer: &mut Answer) -> Option<()> {
    match declare(alloc, file).ok()? {
        Declared::Joins(standing) => tell_joins(alloc, standing.joins(), answer),
        Declared::Refused(line) => {
            answer.tell(&line.number);
            answer.say(line.name);
            Some(())
        }
    }
}

/// Runs a row of this kind.
pub fn run(alloc: Global, kind: &str, fields: &mut Fields<'_>, answer: &mut Answer) -> Option<()> {
    let text = unescape(alloc, fields.next()).ok()?;
    match kind {
        "report" => tell_report(alloc, text.as_bytes(), answer),
        "report-latin" => {
            let file = read_latin(alloc, text.as_str())?;
            tell_report(alloc, file.as_slice(), answer)
        }
        "declare" => tell_declared(alloc, text.as_bytes(), answer),
        _ => None,
    }
}
