// A link in memory, for tests.
ghost use Rattle.std.specs.Prelude.{◌≡◌, ◌<◌, ◌↔◌, Some, length, IfOk, IsErr, Ok, is_err};
ghost use Rattle.std.specs.Io.{ReadsAtMost, WritesAtMost};
ghost use Rattle.std.specs.Io.KnownBytes.{IsAtEnd};
ghost use Rattle.pq_io.specs.CallLog.{NextIsListed, after_call};
ghost use Rattle.pq_io.specs.Faults.{HasCause};
ghost use Rattle.pq_io.specs.Links.{link_told};
ghost use Rattle.pq_io.specs.Memory.{given_count, told_of_state};
ghost use Rattle.pq_io.specs.Streams.{GivesNext, TakesFirst};

use crate::{Failed, Finished, Link, MemSink, MemSource, Sink, Source};
use out_of_memory::OutOfMemory;
use std::marker::Model;

/// A link that reads from a source in memory and writes to a sink in memory. Its receipt holds the link itself. Contracts see it as
/// a `LinkState`.
#[derive(Drop)]
pub struct MemLink {
    source: MemSource,
    sink: MemSink,
}

impl Model for MemLink {
    ghost use Rattle.pq_io.specs.Memory.{LinkState};

    ghost Value = { LinkState };

    ghost view = { λ l. record { source = l.source; sink = l.sink } };
}

impl MemLink {
    /// The link over the two.
    pub fn new(source: MemSource, sink: MemSink) -> MemLink
        ensures { result ≡ record { source = source; sink = sink } }
    {
        MemLink { source, sink }
    }

    /// The bytes that it has taken.
    pub fn bytes(&self) -> &[u8]
        ensures { result.now ≡ self.now.sink.taken }
    {
        self.sink.bytes()
    }
}

impl Link for MemLink {
    type Receipt = Finished<MemLink>;

    ghost left = { λ l. Some l.source.left };

    ghost taken = { λ l. Some l.sink.taken };

    ghost read_faults = { λ l. l.source.log.faults };

    ghost write_faults = { λ l. l.sink.log.faults };

    ghost tells = { λ r. told_of_state r.link r.refused };

    /// Reads from the source, as `MemSource` does.
    fn read(&mut self, into: &mut [u8]) -> Result<usize, Failed>
        ensures bound { ReadsAtMost result into.new }
        ensures bytes { GivesNext (Some self.old.source.left) (Some self.new.source.left) result into.new }
        ensures end { result ≡ Ok 0 → 0 < length into.new → IsAtEnd (Some self.new.source.left) }
        ensures cause { HasCause self.old.source.log.faults self.new.source.log.faults result }
        ensures listed { IsErr result ↔ NextIsListed self.old.source.log }
        ensures count { IfOk result (λ n. n ≡ given_count self.old.source (length into.new)) }
        ensures same_cuts { self.new.source.cuts ≡ self.old.source.cuts }
        ensures logged { self.new.source.log ≡ after_call self.old.source.log (is_err result) }
        ensures same_sink { self.new.sink ≡ self.old.sink }
    {
        self.source.read(into)
    }

    /// Writes to the sink, as `MemSink` does.
    fn write(&mut self, bytes: &[u8]) -> Result<usize, Failed>
        ensures bound { WritesAtMost result bytes.now }
        ensures progress { 0 < length bytes.now → IfOk result (λ n. 0 < n) }
        ensures bytes { TakesFirst (Some self.old.sink.taken) (Some self.new.sink.taken) result bytes.now }
        ensures cause { HasCause self.old.sink.log.faults self.new.sink.log.faults result }
        ensures listed { NextIsListed self.old.sink.log → IsErr result }
        ensures count { IfOk result (λ n. n ≡ length bytes.now) }
        ensures logged { self.new.sink.log ≡ after_call self.old.sink.log (is_err result) }
        ensures same_source { self.new.source ≡ self.old.source }
    {
        self.sink.write(bytes)
    }

    /// Gives the link itself, and the refusal.
    fn finish(self, refused: Option<OutOfMemory>) -> Finished<MemLink>
        ensures same { result.link ≡ self }
        ensures told { told_of_state result.link result.refused
            ≡ record (link_told (λ l. Some l.source.left) (λ l. Some l.sink.taken) (λ l. l.source.log.faults) (λ l. l.sink.log.faults) self) { refused = refused } }
    {
        Finished {
            link: self,
            refused,
        }
    }
}
