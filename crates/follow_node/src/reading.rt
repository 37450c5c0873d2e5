// Reading a line of the home.
ghost use Rattle.std.specs.Prelude.{◌≡◌};
ghost use Rattle.protocol.specs.Lines.{Bytes};
ghost use Rattle.pq_io.specs.Faults.{HasCause, Rose};
ghost use Rattle.pq_io.specs.Streams.{Gave};
ghost use Rattle.follow_node.specs.Heard.{Hears};
ghost use Rattle.std.specs.Prelude.{◌≢◌, ◌≤◌, Err};

use crate::Pulled;
use pq_io::{Failed, Link};
use request_codec::{Fed, Lines};

/// The most bytes of one read.
const PIECE_BYTES: usize = 16_384;

/// Reads a line, by as many reads as it takes, into the room for it. `Bad`: a byte followed it in the same read, or it reached
/// 1,048,577 bytes. `Ended`: the home gave no more bytes. `ReadFault`: a read failed.
pub fn read_line<L: Link>(lines: &mut Lines, home: &mut L) -> Result<(), Pulled>
    ensures heard { (bytes : Bytes) × Gave (L.left home.old) (L.left home.new) bytes × Hears (L.left home.new) bytes lines.new.line result }
    ensures later { L.read_faults home.old ≤ L.read_faults home.new }
    ensures kept { result ≢ Err Pulled.ReadFault → L.read_faults home.new ≡ L.read_faults home.old }
    ensures cause { result ≡ Err Pulled.ReadFault → Rose (L.read_faults home.old) (L.read_faults home.new) }
    ensures same_taken { L.taken home.new ≡ L.taken home.old }
    ensures same_write_faults { L.write_faults home.new ≡ L.write_faults home.old }
    ensures same_borrows { L.borrows home.new ≡ L.borrows home.old }
{
    lines.clear();
    let mut piece = [0; PIECE_BYTES];
    loop {
        match home.read(&mut piece) {
            Ok(0) => return Err(Pulled::Ended),
            Ok(count) => match lines.feed(&piece[..count]) {
                Fed::More => {}
                Fed::Line(end) if end == count => return Ok(()),
                _ => return Err(Pulled::Bad),
            },
            Err(Failed) => return Err(Pulled::ReadFault),
        }
    }
}
