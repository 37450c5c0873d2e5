// Links in memory that are served to their end: the end, how many requests the service was asked, and the bytes that were
// written; or the order of reads and writes.
//
// Each reply is written before the next line is taken, however the bytes come; nothing is read after the end. A line may have
// 1,048,576 bytes.
ghost use Rattle.std.specs.Prelude.{Some, []};

use crate::answer::Answer;
use crate::words::read_numbers;
use out_of_memory::OutOfMemory;
use pq_io::{Failed, Finished, Link, MemLink, MemSink, MemSource};
use request_codec::{Reply, Request};
use session::{Service, serve_link};
use std::alloc::{AllocError, Global};
use std::cell::Cell;
use test_rows::{Fields, unescape};

/// A service that finds memory for nothing, and counts what it was asked, and how often it was to make room.
#[derive(Drop)]
struct Forgetful {
    asked: u64,
    rooms: Cell<u64>,
}

impl Service for Forgetful {
    ghost number = { λ _. 0 };

    ghost view = { λ _. [] };

    fn answer(&mut self, request: Request) -> Reply {
        let _ = request;
        self.asked = self.asked.saturating_add(1);
        Reply::Memory(AllocError.into())
    }

    fn make_room(&self) -> bool {
        self.rooms.set(self.rooms.get().saturating_add(1));
        false
    }
}

/// A link that keeps the order of its calls: `r` for each read, `w` for each write.
#[derive(Drop)]
struct Ordered {
    link: MemLink,
    calls: Vec<u8>,
}

impl Link for Ordered {
    ghost left = { λ l. Some l.link.source.left };

    ghost taken = { λ l. Some l.link.sink.taken };

    ghost read_faults = { λ l. l.link.source.log.faults };

    ghost write_faults = { λ l. l.link.sink.log.faults };

    type Receipt = Finished<MemLink>;

    ghost tells = { λ r. record {
      left = Some r.link.source.left;
      taken = Some r.link.sink.taken;
      read_faults = r.link.source.log.faults;
      write_faults = r.link.sink.log.faults;
      refused = r.refused;
    } };

    fn read(&mut self, into: &mut [u8]) -> Result<usize, Failed> {
        let _ = self.calls.push(b'r');
        self.link.read(into)
    }

    fn write(&mut self, bytes: &[u8]) -> Result<usize, Failed> {
        let _ = self.calls.push(b'w');
        self.link.write(bytes)
    }

    fn finish(self, refused: Option<OutOfMemory>) -> Finished<MemLink> {
        let Ordered { link, .. } = self;
        link.finish(refused)
    }
}

/// Returns numbers of calls, or of bytes, as a link takes them.
fn read_sizes(alloc: Global, field: &str) -> Option<Vec<usize>> {
    let mut sizes = Vec::new(alloc);
    for number in read_numbers(alloc, field)? {
        sizes.push(usize::try_from(number).ok()?).ok()?;
    }
    Some(sizes)
}

/// Returns a link that gives the bytes of the first field by the cuts of the second, and fails at the reads of the third and the
/// writes of the fourth.
fn read_link(alloc: Global, fields: &mut Fields<'_>) -> Option<Ordered> {
    let bytes = unescape(alloc, fields.next()).ok()?.into_bytes();
    let cuts = read_sizes(alloc, fields.next())?;
    let reads = read_sizes(alloc, fields.next())?;
    let writes = read_sizes(alloc, fields.next())?;
    let source = MemSource::new(bytes, cuts, reads);
    Some(Ordered {
        link: MemLink::new(source, MemSink::new(alloc, writes)),
        calls: Vec::new(alloc),
    })
}

/// Runs a row of this kind: `serve` tells the end, the number of requests and the bytes, `calls` the end and the calls, and
/// `rooms` the end and how often the service was to make room.
pub fn run(alloc: Global, kind: &str, fields: &mut Fields<'_>, answer: &mut Answer) -> Option<()> {
    let mut service = Forgetful {
        asked: 0,
        rooms: Cell::new(0),
    };
    let mut link = read_link(alloc, fields)?;
    let end = serve_link(alloc, &mut service, &mut link);
    answer.show(&end);
    match kind {
        "calls" => answer.say_bytes(link.calls.as_slice()),
        "rooms" => answer.tell(&service.rooms.get()),
        "serve" => {
            answer.tell(&service.asked);
            answer.say_bytes(link.link.bytes());
        }
        _ => return None,
    }
    Some(())
}
