// Sources and sinks: those in memory, and those over readers and writers.
ghost use Rattle.std.specs.Prelude.{Some};

use crate::holding::holds;
use pq_io::{Failed, MemSink, MemSource, Reading, Sink, Source, Writing, write_whole};
use std::alloc::Global;
use std::io;
use std::io::{Error, ErrorKind, Read, Write};
use std::process::Abort;
use std::test::Fail;

/// Returns a source of four bytes with these cuts and failing calls.
pub fn source_of(alloc: Global, cuts: &[usize], fails: &[usize]) -> Result<MemSource, Fail> {
    let bytes = b"abcd".to_vec(alloc)?;
    Ok(MemSource::new(bytes, cuts.to_vec(alloc)?, fails.to_vec(alloc)?))
}

/// Holds the reads of a source, each into three bytes, to what they are to give. None stands for a failure.
fn gives<S: Source>(rt: &impl Abort, row: usize, source: &mut S, wanted: &[Option<&[u8]>]) {
    for (call, want) in wanted.iter().enumerate() {
        let mut into = [0; 3];
        let given = match source.read(&mut into) {
            Ok(count) => Some(&into[..count]),
            Err(Failed) => None,
        };
        holds(rt, row, call, given == *want);
    }
}

/// Holds the writes of a sink to what they are to answer.
fn takes<W: Sink>(
    rt: &impl Abort,
    row: usize,
    sink: &mut W,
    wanted: &[(&[u8], Result<usize, Failed>)],
) {
    for (call, (piece, answer)) in wanted.iter().enumerate() {
        holds(rt, row, call, sink.write(piece) == *answer);
    }
}

#[test]
fn a_source_gives_its_bytes_by_its_cuts(rt: HostRuntime) -> Result<(), Fail> {
    let table: [(&[usize], &[usize], [Option<&[u8]>; 4]); 5] = [
        (&[], &[], [Some(b"abc"), Some(b"d"), Some(b""), Some(b"")]),
        (
            &[1, 2],
            &[],
            [Some(b"a"), Some(b"bc"), Some(b"d"), Some(b"")],
        ),
        (
            &[0, 9],
            &[],
            [Some(b"a"), Some(b"bcd"), Some(b""), Some(b"")],
        ),
        (&[2, 1], &[2], [Some(b"ab"), None, Some(b"cd"), Some(b"")]),
        (&[], &[1, 3], [None, Some(b"abc"), None, Some(b"d")]),
    ];
    for (row, (cuts, fails, wanted)) in table.iter().enumerate() {
        let mut source = source_of(rt.alloc(), cuts, fails)?;
        gives(&rt, row, &mut source, wanted.as_slice());
    }
    Ok(())
}

/// A sink that takes at most three bytes in each call.
#[derive(Drop)]
struct Narrow(MemSink);

impl Sink for Narrow {
    ghost taken = { λ s. Some s.0.taken };

    ghost faults = { λ s. s.0.log.faults };

    fn write(&mut self, bytes: &[u8]) -> Result<usize, Failed> {
        self.0.write(&bytes[..bytes.len().min(3)])
    }
}

#[test]
fn a_whole_piece_is_written_or_a_part(rt: HostRuntime) -> Result<(), Fail> {
    let alloc = rt.alloc();
    let table: [(&[usize], bool, &[u8]); 4] = [
        (&[], true, b"abcdefgh"),
        (&[1], false, b""),
        (&[2], false, b"abc"),
        (&[4], true, b"abcdefgh"),
    ];
    for (row, (fails, whole, taken)) in table.iter().enumerate() {
        let mut sink = Narrow(MemSink::new(alloc, fails.to_vec(alloc)?));
        let wrote = write_whole(&mut sink, b"abcdefgh");
        holds(&rt, row, 0, wrote.is_ok() == *whole);
        holds(&rt, row, 1, sink.0.bytes() == *taken);
    }
    Ok(())
}

#[test]
fn a_sink_keeps_what_it_took(rt: HostRuntime) -> Result<(), Fail> {
    let alloc = rt.alloc();
    let mut sink = MemSink::new(alloc, [2, 4].to_vec(alloc)?);
    takes(
        &rt,
        0,
        &mut sink,
        &[(b"ab", Ok(2)), (b"cd", Err(Failed)), (b"ef", Ok(2))],
    );
    holds(&rt, 0, 3, write_whole(&mut sink, b"") == Ok(()));
    holds(&rt, 0, 4, write_whole(&mut sink, b"gh") == Err(Failed));
    holds(&rt, 0, 5, sink.bytes() == b"abef".as_slice());
    Ok(())
}

/// A stream that fails, and of which a write takes nothing and a flush fails, at the given call.
#[derive(Drop)]
struct Broken {
    calls: u8,
    wanted: u8,
}

impl Broken {
    fn next(&mut self) -> io::Result<()> {
        self.calls = self.calls.saturating_add(1);
        if self.calls == self.wanted {
            return Err(Error::from(ErrorKind::Other));
        }
        Ok(())
    }
}

impl Read for Broken {
    fn read(&mut self, into: &mut [u8]) -> io::Result<usize> {
        self.next()?;
        into.fill(b'x');
        Ok(into.len())
    }
}

impl Write for Broken {
    fn write(&mut self, bytes: &[u8]) -> io::Result<usize> {
        self.next()?;
        Ok(bytes.len().min(2))
    }

    fn flush(&mut self) -> io::Result<()> {
        self.next()
    }
}

#[test]
fn a_reader_is_read(rt: HostRuntime) {
    let mut source = Reading::new(b"abcd".as_slice());
    gives(&rt, 0, &mut source, &[Some(b"abc"), Some(b"d"), Some(b"")]);
    let mut broken = Reading::new(Broken {
        calls: 0,
        wanted: 2,
    });
    gives(&rt, 1, &mut broken, &[Some(b"xxx"), None, Some(b"xxx")]);
    holds(&rt, 1, 3, broken.faults() == 1);
}

#[test]
fn a_writer_is_written(rt: HostRuntime) {
    let mut written = Vec::new(rt.alloc());
    let mut sink = Writing::new(&mut written);
    holds(&rt, 0, 0, write_whole(&mut sink, b"abcd") == Ok(()));
    holds(&rt, 0, 1, written.as_slice() == b"abcd".as_slice());
    let mut room = [0u8; 2];
    let mut full = Writing::new(room.as_mut_slice());
    takes(
        &rt,
        1,
        &mut full,
        &[(b"abc", Ok(2)), (b"c", Err(Failed)), (b"", Ok(0))],
    );
    holds(&rt, 1, 3, full.faults() == 1);
}

#[test]
fn a_write_or_a_flush_fails(rt: HostRuntime) {
    let table = [
        (1, Err(Failed), Ok(2)),
        (2, Err(Failed), Ok(2)),
        (3, Ok(2), Err(Failed)),
        (4, Ok(2), Err(Failed)),
    ];
    for (row, (wanted, first, second)) in table.into_iter().enumerate() {
        let mut sink = Writing::new(Broken { calls: 0, wanted });
        takes(&rt, row, &mut sink, &[(b"abc", first), (b"abc", second)]);
        holds(&rt, row, 2, sink.faults() == 1);
    }
}
