// Serving a link: its bytes are cut into lines as they come, and each line is served before the next is taken.
ghost use Rattle.std.specs.Prelude.{◌≡◌, ◌≢◌, ◌<◌, ◌≤◌, ◌++◌, Err, IfOk, OnOk, MatchResult, length, take, false};
ghost use Rattle.std.specs.Io.KnownBytes.{IsAtEnd};
ghost use Rattle.semantics.specs.Texts.{Text};
ghost use Rattle.protocol.specs.Session.{Served};
ghost use Rattle.pq_io.specs.Faults.{Rose};
ghost use Rattle.pq_io.specs.Streams.{Gave, Took};
ghost use Rattle.session.specs.Ends.{plain_end};
ghost use Rattle.session.specs.Serving.{IsShortLine, GoesOn, EndsAmongLines};

use crate::line::{send, serve_line};
use crate::{End, Service};
use pq_io::{Failed, Link};
use request_codec::{Fed, Lines, long_line};
use std::alloc::Global;

/// The most reads that give bytes in one call: 2^40.
const MAX_READS: u64 = 1_099_511_627_776;

/// The most bytes of one read.
const PIECE_BYTES: usize = 16_384;

/// Takes bytes of a piece up to the end of the line under way, and serves that line, or takes the whole piece where the
/// line does not end in it. It says how many bytes it took.
/// `Quit`: the line was `["quit"]`. `Long`: it reached 1,048,577 bytes. `WriteFault`: a write failed.
fn take_line<S: Service, L: Link>(
    alloc: Global,
    service: &mut S,
    link: &mut L,
    lines: &mut Lines,
    piece: &[u8],
) -> Result<usize, End>
    requires some { 0 < length piece.now }
    requires open { lines.old.ended ≡ false }
    requires line { IsShortLine lines.old.line }
    ensures count { IfOk result (λ n. (0 < n) × (n ≤ length piece.now)) }
    ensures served { (written : Text) × Took (L.taken link.old) (L.taken link.new) written
        × MatchResult result
        (λ n. GoesOn (S.view service.old) (S.view service.new) (S.number service.old) (lines.old.line ++ take n piece.now) written lines.new.line)
        (λ end. EndsAmongLines end (record { before = S.view service.old; after = S.view service.new; client = S.number service.old; bytes = lines.old.line ++ piece.now; written = written; left = L.left link.new })) }
    ensures open { OnOk result (lines.new.ended ≡ false) }
    ensures line { OnOk result (IsShortLine lines.new.line) }
    ensures same_number { S.number service.new ≡ S.number service.old }
    ensures later { L.write_faults link.old ≤ L.write_faults link.new }
    ensures cause { result ≡ Err End.WriteFault → Rose (L.write_faults link.old) (L.write_faults link.new) }
    ensures kept { result ≢ Err End.WriteFault → L.write_faults link.new ≡ L.write_faults link.old }
    ensures same_left { L.left link.new ≡ L.left link.old }
    ensures same_read_faults { L.read_faults link.new ≡ L.read_faults link.old }
    ensures same_borrows { L.borrows link.new ≡ L.borrows link.old }
{
    match lines.feed(piece) {
        Fed::More => Ok(piece.len()),
        Fed::Long(_) => match send(link, long_line()) {
            Ok(()) => Err(End::Long),
            Err(end) => Err(end),
        },
        Fed::Line(count) => match serve_line(alloc, service, link, lines.line()) {
            Ok(()) => {
                lines.clear();
                Ok(count)
            }
            Err(end) => Err(end),
        },
    }
}

/// Takes a whole piece, and serves each line that ends in it.
/// `Quit`: a line was `["quit"]`. `Long`: one reached 1,048,577 bytes. `WriteFault`: a write failed.
fn take_piece<S: Service, L: Link>(
    alloc: Global,
    service: &mut S,
    link: &mut L,
    lines: &mut Lines,
    piece: &[u8],
) -> Result<(), End>
    requires open { lines.old.ended ≡ false }
    requires line { IsShortLine lines.old.line }
    ensures served { (written : Text) × Took (L.taken link.old) (L.taken link.new) written
        × MatchResult result
        (λ _. GoesOn (S.view service.old) (S.view service.new) (S.number service.old) (lines.old.line ++ piece.now) written lines.new.line)
        (λ end. EndsAmongLines end (record { before = S.view service.old; after = S.view service.new; client = S.number service.old; bytes = lines.old.line ++ piece.now; written = written; left = L.left link.new })) }
    ensures open { OnOk result (lines.new.ended ≡ false) }
    ensures line { OnOk result (IsShortLine lines.new.line) }
    ensures same_number { S.number service.new ≡ S.number service.old }
    ensures later { L.write_faults link.old ≤ L.write_faults link.new }
    ensures cause { result ≡ Err End.WriteFault → Rose (L.write_faults link.old) (L.write_faults link.new) }
    ensures kept { result ≢ Err End.WriteFault → L.write_faults link.new ≡ L.write_faults link.old }
    ensures same_left { L.left link.new ≡ L.left link.old }
    ensures same_read_faults { L.read_faults link.new ≡ L.read_faults link.old }
    ensures same_borrows { L.borrows link.new ≡ L.borrows link.old }
{
    let mut taken = 0;
    while taken < piece.len() {
        match take_line(alloc, service, link, lines, &piece[taken..]) {
            Ok(count) => taken += count,
            Err(end) => return Err(end),
        }
    }
    Ok(())
}

/// Serves the line under way, if it is not empty, at the end of the link.
/// `Closed`: no line was `["quit"]`. `Quit`: the line was. `WriteFault`: a write failed.
fn serve_last<S: Service, L: Link>(alloc: Global, service: &mut S, link: &mut L, line: &[u8]) -> End
    requires at_end { IsAtEnd (L.left link.old) }
    requires line { IsShortLine line.now }
    ensures served { (written : Text) × Took (L.taken link.old) (L.taken link.new) written
        × EndsAmongLines result (record { before = S.view service.old; after = S.view service.new; client = S.number service.old; bytes = line.now; written = written; left = L.left link.new }) }
    ensures same_number { S.number service.new ≡ S.number service.old }
    ensures later { L.write_faults link.old ≤ L.write_faults link.new }
    ensures cause { result ≡ End.WriteFault → Rose (L.write_faults link.old) (L.write_faults link.new) }
    ensures kept { result ≢ End.WriteFault → L.write_faults link.new ≡ L.write_faults link.old }
    ensures same_left { L.left link.new ≡ L.left link.old }
    ensures same_read_faults { L.read_faults link.new ≡ L.read_faults link.old }
    ensures same_borrows { L.borrows link.new ≡ L.borrows link.old }
{
    if line.is_empty() {
        return End::Closed;
    }
    match serve_line(alloc, service, link, line) {
        Ok(()) => End::Closed,
        Err(end) => end,
    }
}

/// Serves a link: reads, answers each line by the service, and writes each reply before it takes the next line. Where a line is
/// answered `Memory`, the service makes room before that is written. It takes memory for the longest line at first. Linear in
/// the bytes of the link, which are read 16,384 at a time, besides what the service takes for each request, and what writing its
/// reply takes. It returns after at most 2^40 reads that give bytes, if the calls of the service and the link return.
///
/// `Closed`: the link gave no more bytes, and every line was answered, none by `["bye"]`. `Quit`: a line `["quit"]` was
/// answered by `["bye"]`. `Long`: a line reached 1,048,577 bytes, and that was written. `ReadFault`: a read failed, and
/// every line that had ended was answered. `WriteFault`: a write failed, and a beginning of the replies' texts was
/// written. `Spent`: the link gave bytes in 2^40 reads, and no other end came. `OutOfMemory`: no memory was found at
/// the start, and the service and the link are unchanged.
pub fn serve_link<S: Service, L: Link>(alloc: Global, service: &mut S, link: &mut L) -> End
    ensures served { (bytes : Text) × (written : Text) × Gave (L.left link.old) (L.left link.new) bytes × Took (L.taken link.old) (L.taken link.new) written
        × Served (plain_end result) (record { before = S.view service.old; after = S.view service.new; client = S.number service.old; bytes = bytes; written = written; left = L.left link.new }) }
    ensures same_number { S.number service.new ≡ S.number service.old }
    ensures same_borrows { L.borrows link.new ≡ L.borrows link.old }

    // A count of faults rises only where that side's fault ends the call, and there it rose.
    ensures reads_later { L.read_faults link.old ≤ L.read_faults link.new }
    ensures reads_kept { result ≢ End.ReadFault → L.read_faults link.new ≡ L.read_faults link.old }
    ensures read_fault { result ≡ End.ReadFault → Rose (L.read_faults link.old) (L.read_faults link.new) }
    ensures writes_later { L.write_faults link.old ≤ L.write_faults link.new }
    ensures writes_kept { result ≢ End.WriteFault → L.write_faults link.new ≡ L.write_faults link.old }
    ensures write_fault { result ≡ End.WriteFault → Rose (L.write_faults link.old) (L.write_faults link.new) }

    // Where no memory was found at the start, the arguments are unchanged.
    ensures same_service { result ≡ End.OutOfMemory tt → service.new ≡ service.old }
    ensures same_link { result ≡ End.OutOfMemory tt → link.new ≡ link.old }
{
    let mut lines = match Lines::new(alloc) {
        Ok(lines) => lines,
        Err(memory) => return End::OutOfMemory(memory),
    };
    let mut piece = [0; PIECE_BYTES];
    for _ in 0..MAX_READS {
        match link.read(&mut piece) {
            Ok(0) => return serve_last(alloc, service, link, lines.line()),
            Ok(count) => match take_piece(alloc, service, link, &mut lines, &piece[..count]) {
                Ok(()) => {}
                Err(end) => return end,
            },
            Err(Failed) => return End::ReadFault,
        }
    }
    End::Spent
}
