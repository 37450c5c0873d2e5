// Sources and sinks over the readers and writers of std, such as standard input and output.
ghost use Rattle.std.specs.Prelude.{◌≡◌, ◌<◌, None, IfOk, length, take};
ghost use Rattle.std.specs.Io.{ReadsAtMost, WritesAtMost};
ghost use Rattle.std.specs.Io.KnownBytes.{Appends, ReadConsumes};
ghost use Rattle.pq_io.specs.Faults.{HasCause};
ghost use Rattle.pq_io.specs.Streams.{GivesNext, TakesFirst};

use crate::fault_count::FaultCount;
use crate::{Failed, Sink, Source};
use std::io::{Read, Write};
use std::marker::Model;

/// A source over a reader. It does not tell what is left (`left` is none); `given` says of each read that it gave what the reader
/// gave, as far as the reader tells it. Contracts see it as the reader and its count of faults.
#[derive(Drop)]
pub struct Reading<R> {
    inner: R,
    faults: FaultCount,
}

impl<R> Model for Reading<R> {
    ghost use Rattle.pq_io.specs.Streams.{Adapted};

    ghost Value = { Adapted R };

    ghost view = { λ s. record { inner = s.inner; faults = s.faults.0 } };
}

impl<R> Reading<R> {
    /// The reader as a source that has no fault yet.
    pub fn new(inner: R) -> Reading<R>
        ensures { result ≡ record { inner = inner; faults = 0 } }
    {
        Reading {
            inner,
            faults: FaultCount::new(),
        }
    }

    /// How many calls have failed, up to the last value of the type.
    pub fn faults(&self) -> u64
        ensures { result ≡ self.now.faults }
    {
        self.faults.count()
    }
}

impl<R: Read> Source for Reading<R> {
    ghost left = { λ _. None };

    ghost faults = { λ s. s.faults };

    /// Makes one read. Each error of the reader is a fault.
    fn read(&mut self, into: &mut [u8]) -> Result<usize, Failed>
        ensures bound { ReadsAtMost result into.new }
        ensures bytes { GivesNext None None result into.new }
        ensures given { ReadConsumes (R.remaining self.old.inner) (R.remaining self.new.inner) result into.new }
        ensures cause { HasCause self.old.faults self.new.faults result }
    {
        read_piece(&mut self.inner, &mut self.faults, into)
    }
}

/// A sink over a writer. It does not tell what was taken (`taken` is none); the clause `taken` says of each write what the writer
/// took, as far as the writer tells it. Contracts see it as the writer and its count of faults.
#[derive(Drop)]
pub struct Writing<W> {
    inner: W,
    faults: FaultCount,
}

impl<W> Model for Writing<W> {
    ghost use Rattle.pq_io.specs.Streams.{Adapted};

    ghost Value = { Adapted W };

    ghost view = { λ s. record { inner = s.inner; faults = s.faults.0 } };
}

impl<W> Writing<W> {
    /// The writer as a sink that has no fault yet.
    pub fn new(inner: W) -> Writing<W>
        ensures { result ≡ record { inner = inner; faults = 0 } }
    {
        Writing {
            inner,
            faults: FaultCount::new(),
        }
    }

    /// How many calls have failed, up to the last value of the type.
    pub fn faults(&self) -> u64
        ensures { result ≡ self.now.faults }
    {
        self.faults.count()
    }
}

impl<W: Write> Sink for Writing<W> {
    ghost taken = { λ _. None };

    ghost faults = { λ s. s.faults };

    /// Makes one write, and sends it on at once. Each error is a fault, and so is a write that takes nothing of a piece.
    fn write(&mut self, bytes: &[u8]) -> Result<usize, Failed>
        ensures bound { WritesAtMost result bytes.now }
        ensures progress { 0 < length bytes.now → IfOk result (λ n. 0 < n) }
        ensures bytes { TakesFirst None None result bytes.now }
        ensures taken { IfOk result (λ n. Appends (W.contents self.old.inner) (W.contents self.new.inner) (take n bytes.now)) }
        ensures cause { HasCause self.old.faults self.new.faults result }
    {
        write_piece(&mut self.inner, &mut self.faults, bytes)
    }
}

/// Makes one read, and says how many bytes it gave. Each error is a fault.
pub fn read_piece<R: Read>(
    inner: &mut R,
    faults: &mut FaultCount,
    into: &mut [u8],
) -> Result<usize, Failed>
    ensures bound { ReadsAtMost result into.new }
    ensures bytes { ReadConsumes (R.remaining inner.old) (R.remaining inner.new) result into.new }
    ensures cause { HasCause faults.old.0 faults.new.0 result }
{
    match inner.read(into) {
        Ok(count) => Ok(count),
        Err(_) => Err(faults.raise()),
    }
}

/// Makes one write and one flush, so that a reader at the other end sees each piece at once. Each error of either is a fault,
/// and so is a write that takes nothing of a piece.
pub fn write_piece<W: Write>(
    inner: &mut W,
    faults: &mut FaultCount,
    bytes: &[u8],
) -> Result<usize, Failed>
    ensures bound { WritesAtMost result bytes.now }
    ensures progress { 0 < length bytes.now → IfOk result (λ n. 0 < n) }
    ensures bytes { IfOk result (λ n. Appends (W.contents inner.old) (W.contents inner.new) (take n bytes.now)) }
    ensures cause { HasCause faults.old.0 faults.new.0 result }
{
    let count = match inner.write(bytes) {
        Ok(count) => count,
        Err(_) => return Err(faults.raise()),
    };
    if count == 0 && !bytes.is_empty() {
        return Err(faults.raise());
    }
    match inner.flush() {
        Ok(()) => Ok(count),
        Err(_) => Err(faults.raise()),
    }
}
