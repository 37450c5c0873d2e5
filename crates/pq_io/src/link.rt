// What reads and writes at once, and the loop that writes a whole piece to it.
ghost use Rattle.std.specs.Prelude.{◌≡◌, ◌<◌, ◌∷◌, ◌++◌, List, [], ℕ, length, IfOk, OnOk, OnErr, Ok, None};
ghost use Rattle.std.specs.declared.option.Option.{Option};
ghost use Rattle.std.specs.Borrow.{GName};
ghost use Rattle.std.specs.Io.{ReadsAtMost, WritesAtMost};
ghost use Rattle.std.specs.Io.KnownBytes.{IsAtEnd};
ghost use Rattle.pq_io.specs.Faults.{HasCause};
ghost use Rattle.pq_io.specs.Links.{LinkTold, link_told};
ghost use Rattle.pq_io.specs.Streams.{GivesNext, TakesFirst, Took, TookProperPrefix};

use crate::{Failed, Finished, Sink, Source};
use out_of_memory::OutOfMemory;
use std::snapshot::Snapshot;

/// An object that gives bytes and takes bytes. Each side has a count of faults of its own.
pub trait Link {
    /// What is left of a link whose use has ended.
    type Receipt: Drop;

    /// The bytes that are left to read, where they are told.
    ghost left: { Self → Option (List ℕ) };

    /// The bytes that were taken so far, where they are told.
    ghost taken: { Self → Option (List ℕ) };

    /// How many reads have failed, up to the last value 2^64 - 1.
    ghost read_faults: { Self → ℕ };

    /// How many writes have failed, up to the last value 2^64 - 1.
    ghost write_faults: { Self → ℕ };

    /// The references that it holds. No call replaces one.
    ghost borrows: { Self → List GName } = { λ _. [] };

    /// What a receipt tells of its link, as it was when its use ended.
    ghost tells: { Self.Receipt → LinkTold };

    /// Gives the next bytes, as a source does. What was taken stays, and so does the count of failed writes.
    /// `Failed`: nothing was given, and the count of failed reads rose.
    fn read(&mut self, into: &mut [u8]) -> Result<usize, Failed>
        ensures bound { ReadsAtMost result into.new }
        ensures bytes { GivesNext (left self.old) (left self.new) result into.new }
        ensures end { result ≡ Ok 0 → 0 < length into.new → IsAtEnd (left self.new) }
        ensures cause { HasCause (read_faults self.old) (read_faults self.new) result }
        ensures same_taken { taken self.new ≡ taken self.old }
        ensures same_faults { write_faults self.new ≡ write_faults self.old }
        ensures same_borrows { borrows self.new ≡ borrows self.old };

    /// Takes the first of the bytes, as a sink does. What is left stays, and so does the count of failed reads.
    /// `Failed`: nothing was taken, and the count of failed writes rose.
    fn write(&mut self, bytes: &[u8]) -> Result<usize, Failed>
        ensures bound { WritesAtMost result bytes.now }
        ensures progress { 0 < length bytes.now → IfOk result (λ n. 0 < n) }
        ensures bytes { TakesFirst (taken self.old) (taken self.new) result bytes.now }
        ensures cause { HasCause (write_faults self.old) (write_faults self.new) result }
        ensures same_left { left self.new ≡ left self.old }
        ensures same_faults { read_faults self.new ≡ read_faults self.old }
        ensures same_borrows { borrows self.new ≡ borrows self.old };

    /// Ends the use of the link, and gives its receipt. It takes the refusal for which the link was not served, if that was so. It
    /// takes no memory and cannot fail.
    fn finish(self, refused: Option<OutOfMemory>) -> Self::Receipt
        ensures told { tells result ≡ record (link_told left taken read_faults write_faults self) { refused = refused } };
}

/// A link that reads from a source and writes to a sink.
#[derive(Drop)]
pub struct Both<'a, R, W> {
    pub source: &'a mut R,
    pub sink: &'a mut W,
}

impl<'a, R, W> Both<'a, R, W> {
    /// The link over the two.
    pub fn new(source: &'a mut R, sink: &'a mut W) -> Both<'a, R, W>
        ensures source { result.source.now ≡ source.old }
        ensures sink { result.sink.now ≡ sink.old }
        ensures same_source { result.source.ghost_name ≡ source.entry.ghost_name }
        ensures same_sink { result.sink.ghost_name ≡ sink.entry.ghost_name }
    {
        Both { source, sink }
    }
}

impl<'a, R: Source, W: Sink> Link for Both<'a, R, W> {
    type Receipt = Finished<Snapshot<Both<'a, R, W>>>;

    ghost left = { λ b. R.left b.source.now };

    ghost taken = { λ b. W.taken b.sink.now };

    ghost read_faults = { λ b. R.faults b.source.now };

    ghost write_faults = { λ b. W.faults b.sink.now };

    ghost borrows = { λ b. b.source.ghost_name ∷ b.sink.ghost_name ∷
        (R.borrows b.source.now ++ W.borrows b.sink.now) };

    ghost tells = { λ r. record {
      left = R.left r.link.value.source.now;
      taken = W.taken r.link.value.sink.now;
      read_faults = R.faults r.link.value.source.now;
      write_faults = W.faults r.link.value.sink.now;
      refused = r.refused;
    } };

    fn read(&mut self, into: &mut [u8]) -> Result<usize, Failed> {
        self.source.read(into)
    }

    fn write(&mut self, bytes: &[u8]) -> Result<usize, Failed> {
        self.sink.write(bytes)
    }

    fn finish(self, refused: Option<OutOfMemory>) -> Finished<Snapshot<Both<'a, R, W>>> {
        let link = Snapshot::of(&self);
        Finished { link, refused }
    }
}

/// Writes all the bytes, by as many writes as it takes, at most one for each byte.
/// `Failed`: a write failed after the link had taken a proper prefix of the bytes, so never where there
/// are none.
pub fn write_link<L: Link>(link: &mut L, bytes: &[u8]) -> Result<(), Failed>
    ensures whole { OnOk result (Took (L.taken link.old) (L.taken link.new) bytes.now) }
    ensures part { OnErr result (TookProperPrefix (L.taken link.old) (L.taken link.new) bytes.now) }
    ensures cause { HasCause (L.write_faults link.old) (L.write_faults link.new) result }
    ensures same_left { L.left link.new ≡ L.left link.old }
    ensures same_faults { L.read_faults link.new ≡ L.read_faults link.old }
    ensures same_borrows { L.borrows link.new ≡ L.borrows link.old }
{
    let mut done = 0;
    while done < bytes.len() {
        done += link.write(&bytes[done..])?;
    }
    Ok(())
}

// A source that gives nothing.
#[derive(Drop)]
struct Nothing;

impl Source for Nothing {
    ghost left = { λ _. None };

    ghost faults = { λ _. 0 };

    fn read(&mut self, _into: &mut [u8]) -> Result<usize, Failed> {
        Ok(0)
    }
}

/// Writes all the bytes, by as many writes as it takes, at most one for each byte.
/// `Failed`: a write failed after the sink had taken a proper prefix of the bytes, so never where there
/// are none.
pub fn write_whole<W: Sink>(sink: &mut W, bytes: &[u8]) -> Result<(), Failed>
    ensures whole { OnOk result (Took (W.taken sink.old) (W.taken sink.new) bytes.now) }
    ensures part { OnErr result (TookProperPrefix (W.taken sink.old) (W.taken sink.new) bytes.now) }
    ensures cause { HasCause (W.faults sink.old) (W.faults sink.new) result }
    ensures same_borrows { W.borrows sink.new ≡ W.borrows sink.old }
{
    let mut nothing = Nothing;
    write_link(&mut Both::new(&mut nothing, sink), bytes)
}
