// Texts of joins: the byte at which each is refused, what is read, and the canonical text that is printed.
//
// A text is refused at the first byte of the first token that is not accepted in its place, at its end where a token is wanted
// there, and at byte 4,096 where it has more bytes. The canonical text has one space between tokens, none before or after, and no
// `push`; it is read back as the same join.
use crate::answer::Answer;
use join_lang::{ParseFault, parse, print};
use std::alloc::{AllocError, Global};
use test_rows::{Fields, unescape};

/// Runs a row of this kind: `read` tells whether a text is a join or why not, `print` the canonical text, and `memory` the fault of
/// a read that finds no memory.
pub fn run(alloc: Global, kind: &str, fields: &mut Fields<'_>, answer: &mut Answer) -> Option<()> {
    let text = unescape(alloc, fields.next()).ok()?;
    match kind {
        "read" => match parse(alloc, text.as_str()) {
            Ok(_join) => answer.say("a join"),
            Err(fault) => answer.tell(&fault),
        },
        "print" => {
            let join = parse(alloc, text.as_str()).ok()?;
            let printed = print(alloc, &join).ok()?;
            answer.say(printed.as_str());
        }
        "memory" => answer.tell(&ParseFault::from(AllocError)),
        _ => return None,
    }
    Some(())
}
