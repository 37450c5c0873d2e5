// Lines that are written without memory.
ghost use Rattle.std.specs.Prelude.{◌≡◌, ◌<◌, ◌≤◌, ◌+◌, ◌^◌, ◌++◌, length, take};
ghost use Rattle.protocol.specs.Replies.{reply_text, done, memory, long};

use itoa::Buffer;
use out_of_memory::OutOfMemory;

/// The line of `Memory`.
const MEMORY_LINE: &[u8] = b"[\"error\",\"memory\"]\n";

/// The line of `Long`.
pub const LONG_LINE: &[u8] = b"[\"error\",\"long\"]\n";

/// The line of `Done`: the first `len` bytes.
#[derive(Clone, Copy, Debug)]
pub struct OkLine {
    /// The line, and bytes that are not of it.
    pub bytes: [u8; 32],
    /// How many bytes the line has.
    pub len: usize,
}

impl OkLine {
    /// Puts the bytes behind those that are there.
    fn append(&mut self, more: &[u8])
        requires { self.old.len + length more.now ≤ 32 }
        ensures bytes { take self.new.len self.new.bytes ≡ take self.old.len self.old.bytes ++ more.now }
        ensures len { self.new.len ≡ self.old.len + length more.now }
    {
        for byte in more {
            self.bytes[self.len] = *byte;
            self.len += 1;
        }
    }
}

/// The line of `Done` at a position, which has at most 23 bytes. It takes no memory, and constant time.
pub fn write_ok(position: u64) -> OkLine
    requires { position < 2 ^ 48 }
    ensures text { take result.len result.bytes ≡ reply_text (done position) }
    ensures short { result.len ≤ 23 }
{
    let mut line = OkLine {
        bytes: [0; 32],
        len: 0,
    };
    let mut buffer = Buffer::new();
    line.append(b"[\"ok\",");
    line.append(buffer.format(position).as_bytes());
    line.append(b"]\n");
    line
}

/// The line of `Memory`, which takes no memory, in constant time. Whoever writes it shows what was refused.
pub fn memory_line(_memory: &OutOfMemory) -> &'static [u8]
    ensures { result.now ≡ reply_text memory }
{
    MEMORY_LINE
}

/// The line of `Long`, which takes no memory, in constant time.
pub fn long_line() -> &'static [u8]
    ensures { result.now ≡ reply_text long }
{
    LONG_LINE
}
