// Lines that are cut from pieces of bytes: where the first byte 10 stands, and what each piece makes of the line under way.
//
// What a piece has behind the byte that ends a line is not taken. A line may have 1,048,576 bytes.
ghost use Rattle.std.specs.Prelude.{◌≡◌, false};

use crate::answer::Answer;
use request_codec::{Fed, LINE_END, Lines, find_line_end};
use std::alloc::Global;
use test_rows::{Fields, unescape};

/// Feeds one piece, tells what it makes of the line, and begins the next line where this one has ended.
fn feed_one(lines: &mut Lines, piece: &[u8], answer: &mut Answer)
    requires { lines.old.ended ≡ false }
    ensures { lines.new.ended ≡ false }
{
    let fed = lines.feed(piece);
    answer.show(&fed);
    answer.say_bytes(lines.line());
    match fed {
        Fed::More => {}
        Fed::Line(_) | Fed::Long(_) => lines.clear(),
    }
}

/// Feeds the pieces of a row.
fn feed_pieces(alloc: Global, fields: &mut Fields<'_>, answer: &mut Answer) -> Option<()> {
    let mut lines = Lines::new(alloc).ok()?;
    for field in fields.rest().split(';') {
        let piece = unescape(alloc, field).ok()?;
        feed_one(&mut lines, piece.as_bytes(), answer);
    }
    Some(())
}

/// Tells where the first line of the bytes ends.
fn tell_end(alloc: Global, fields: &mut Fields<'_>, answer: &mut Answer) -> Option<()> {
    let bytes = unescape(alloc, fields.next()).ok()?;
    answer.show(&find_line_end(bytes.as_bytes()));
    Some(())
}

/// Runs a row of this kind.
pub fn run(alloc: Global, kind: &str, fields: &mut Fields<'_>, answer: &mut Answer) -> Option<()> {
    match kind {
        "feed" => feed_pieces(alloc, fields, answer),
        "end" => tell_end(alloc, fields, answer),
        "byte" => {
            answer.tell(&LINE_END);
            Some(())
        }
        _ => None,
    }
}
