// Lines, cut from pieces of bytes as they come.
ghost use Rattle.std.specs.Prelude.{◌≡◌, ◌+◌, ◌<◌, ◌≤◌, ◌∷◌, ◌++◌, [], IfOk, IfSome, MatchOption, length, vec_len, vec_capacity, false, position};
ghost use Rattle.std.specs.List.{list_any};
ghost use Rattle.semantics.specs.Patterns.{pieces};
ghost use Rattle.protocol.specs.JoinsFile.{counted_lines};
ghost use Rattle.protocol.specs.Lines.{line_limit};
ghost use Rattle.request_codec.specs.Feeding.{is_feed, before_feed, fed, fed_by, line_fed, ends};

use out_of_memory::OutOfMemory;
use std::alloc::Global;
use std::marker::Model;

/// The most bytes of a line, without the byte 10 that ends it.
pub const MAX_LINE_BYTES: usize = 1_048_576;

/// The byte that ends a line.
pub const LINE_END: u8 = b'\n';

/// What a piece of bytes makes of the line under way.
#[derive(Clone, Copy, Debug, PartialEq, Eq)]
pub enum Fed {
    /// The piece's byte of this number, counted from 1, is the byte 10 that ends the line.
    Line(usize),
    /// The piece's byte of this number, counted from 1, is the line's byte 1,048,577.
    Long(usize),
    /// The whole piece goes to the line, which has not ended.
    More,
}

/// The line under way: its bytes without the byte 10, and whether it has ended. It has room for the longest line from the
/// start.
#[derive(Drop)]
pub struct Lines {
    bytes: Vec<u8>,
    ended: bool,
}

impl Model for Lines {
    ghost use Rattle.request_codec.specs.Feeding.{UnderWay, HasRoom};

    ghost Value = { UnderWay };

    ghost view = { λ l. record { line = l.bytes.items; ended = l.ended } };

    ghost invariant = { λ l. HasRoom l.bytes };
}

/// Puts the bytes behind those of a list with room for them, which keeps its place.
fn fill(bytes: &mut Vec<u8>, more: &[u8])
    requires { vec_len bytes.old + length more.now ≤ vec_capacity bytes.old }
    ensures items { bytes.new.items ≡ bytes.old.items ++ more.now }
    ensures room { vec_capacity bytes.old ≤ vec_capacity bytes.new }
{
    match bytes.extend_from_slice(more) {
        Ok(()) => {}
        Err(_) => unreachable!(),
    }
}

/// Where the first byte 10 stands, if there is one. Linear in the bytes before it.
pub fn find_line_end(bytes: &[u8]) -> Option<usize>
    ensures { result ≡ position is_feed bytes.now }
{
    bytes.iter().position(|byte| *byte == LINE_END)
}

/// Cuts the first line off a text, and gives it, without the byte 10 that ends it, and what follows; nothing where the text has no
/// line. The last line counts where it is not empty. One search for the line's end.
pub fn split_first_line(bytes: &[u8]) -> Option<(&[u8], &[u8])>
    ensures lines { MatchOption result (counted_lines (pieces 10 bytes.now) ≡ []) (λ found. counted_lines (pieces 10 bytes.now) ≡ found.0.now ∷ counted_lines (pieces 10 found.1.now)) }
    ensures shorter { IfSome result (λ found. length found.1.now < length bytes.now) }
{
    if bytes.is_empty() {
        return None;
    }
    match find_line_end(bytes) {
        Some(end) => Some((&bytes[..end], &bytes[end + 1..])),
        None => Some((bytes, &[])),
    }
}

/// How many bytes of the piece stand before its first byte 10.
fn before_line_end(piece: &[u8]) -> usize
    ensures { result ≡ before_feed piece.now }
{
    find_line_end(piece).unwrap_or(piece.len())
}

/// What a piece of this length makes of a line with this room, where so many of its bytes stand before its first byte 10.
fn make_fed(before: usize, room: usize, length: usize) -> Fed
    requires { room ≤ line_limit }
    ensures { result ≡ fed_by room before length }
{
    if before > room {
        Fed::Long(room + 1)
    } else if before < length {
        Fed::Line(before + 1)
    } else {
        Fed::More
    }
}

impl Lines {
    /// An empty line, with room for 1,048,576 bytes. It takes constant time.
    ///
    /// `OutOfMemory` comes only where no such room is found.
    pub fn new(alloc: Global) -> Result<Lines, OutOfMemory>
        ensures { IfOk result (λ lines. lines ≡ record { line = []; ended = false }) }
    {
        let bytes = Vec::with_capacity(alloc, MAX_LINE_BYTES)?;
        Ok(Lines {
            bytes,
            ended: false,
        })
    }

    /// Goes on with the line by a piece of bytes, up to the byte that ends it or makes it too long; what the piece has
    /// behind that byte is not taken. It takes no memory: one search of the piece, and one copy of what the line gets.
    ///
    /// `Line` comes exactly where the byte 10 ends the line, `Long` exactly where the line reaches 1,048,577 bytes
    /// before, and `More` otherwise.
    pub fn feed(&mut self, piece: &[u8]) -> Fed
        requires { self.old.ended ≡ false }
        ensures fed { result ≡ fed self.old.line piece.now }
        ensures line { self.new.line ≡ line_fed self.old.line piece.now }
        ensures ended { self.new.ended ≡ ends result }
    {
        let before = before_line_end(piece);
        let room = MAX_LINE_BYTES - self.bytes.len();
        let fed = make_fed(before, room, piece.len());
        fill(&mut self.bytes, &piece[..before.min(room)]);
        self.ended = fed != Fed::More;
        fed
    }

    /// The bytes of the line, without the byte 10. It takes constant time.
    pub fn line(&self) -> &[u8]
        ensures line { result.now ≡ self.now.line }
        ensures short { length self.now.line ≤ line_limit }
        ensures no_feed { list_any is_feed self.now.line ≡ false }
    {
        self.bytes.as_slice()
    }

    /// Begins the next line, in the same room. It takes constant time.
    pub fn clear(&mut self)
        ensures { self.new ≡ record { line = []; ended = false } }
    {
        self.bytes.clear();
        self.ended = false;
    }
}
