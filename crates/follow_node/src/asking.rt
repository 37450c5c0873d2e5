// Asking the home for entries.
ghost use Rattle.std.specs.Prelude.{◌≡◌, ◌<◌, ◌≤◌, ◌+◌, ◌++◌, OnOk, length, take};
ghost use Rattle.pq_io.specs.Faults.{HasCause};
ghost use Rattle.pq_io.specs.Streams.{Took};
ghost use Rattle.follow_node.specs.Asking.{feed_text};

use itoa::Buffer;
use pq_io::{Failed, Link, write_link};

/// The line that asks for the entries after so many: the first `len` bytes.
#[derive(Drop)]
struct FeedLine {
    bytes: [u8; 32],
    len: usize,
}

impl FeedLine {
    /// Puts the bytes behind those that are there.
    fn append(&mut self, more: &[u8])
        requires { self.old.len + length more.now ≤ 32 }
        ensures bytes { take self.new.len self.new.bytes ≡ take self.old.len self.old.bytes ++ more.now }
        ensures len { self.new.len ≡ self.old.len + length more.now }
    {
        for byte in more {
            self.bytes[self.len] = *byte;
            self.len += 1;
        }
    }
}

/// The line that asks for the entries after so many. It takes no memory.
fn feed_line(from: u64) -> FeedLine
    ensures text { take result.len result.bytes ≡ feed_text from }
    ensures short { result.len ≤ 32 }
{
    let mut line = FeedLine {
        bytes: [0; 32],
        len: 0,
    };
    let mut buffer = Buffer::new();
    line.append(b"[\"feed\",");
    line.append(buffer.format(from).as_bytes());
    line.append(b"]\n");
    line
}

/// Asks the home for the entries after so many.
pub fn ask<L: Link>(home: &mut L, from: u64) -> Result<(), Failed>
    ensures whole { OnOk result (Took (L.taken home.old) (L.taken home.new) (feed_text from)) }
    ensures cause { HasCause (L.write_faults home.old) (L.write_faults home.new) result }
    ensures same_left { L.left home.new ≡ L.left home.old }
    ensures same_faults { L.read_faults home.new ≡ L.read_faults home.old }
    ensures same_borrows { L.borrows home.new ≡ L.borrows home.old }
{
    let line = feed_line(from);
    write_link(home, &line.bytes[..line.len])
}
