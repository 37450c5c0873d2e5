// A sink in memory, for tests: which of its writes fail is chosen beforehand.
ghost use Rattle.std.specs.Prelude.{◌≡◌, ◌<◌, Some, [], length, IfOk, IsErr, is_err};
ghost use Rattle.std.specs.Io.{WritesAtMost};
ghost use Rattle.pq_io.specs.CallLog.{NextIsListed, after_call, no_calls};
ghost use Rattle.pq_io.specs.Faults.{HasCause};
ghost use Rattle.pq_io.specs.Streams.{TakesFirst};

use crate::call_log::Calls;
use crate::{Failed, Sink};
use std::alloc::Global;
use std::marker::Model;

/// A sink that keeps the bytes that it takes. Contracts see it as a `SinkState`.
#[derive(Drop)]
pub struct MemSink {
    bytes: Vec<u8>,
    calls: Calls,
}

impl Model for MemSink {
    ghost use Rattle.pq_io.specs.Memory.{SinkState};

    ghost Value = { SinkState };

    ghost view = { λ s. record { taken = s.bytes.items; log = s.calls } };
}

impl MemSink {
    /// A sink that has taken nothing. A write fails exactly where its number, counted from 1, is in `fails`,
    /// and where it finds no memory for the bytes. It allocates nothing before the first write.
    pub fn new(alloc: Global, fails: Vec<usize>) -> MemSink
        ensures { result ≡ record { taken = []; log = no_calls fails.items } }
    {
        MemSink {
            bytes: Vec::new(alloc),
            calls: Calls::new(fails),
        }
    }

    /// The bytes that it has taken.
    pub fn bytes(&self) -> &[u8]
        ensures { result.now ≡ self.now.taken }
    {
        &self.bytes
    }
}

impl Sink for MemSink {
    ghost taken = { λ s. Some s.taken };

    ghost faults = { λ s. s.log.faults };

    /// Takes all the bytes or none. It takes one step for each byte and each number in `fails`.
    fn write(&mut self, bytes: &[u8]) -> Result<usize, Failed>
        ensures bound { WritesAtMost result bytes.now }
        ensures progress { 0 < length bytes.now → IfOk result (λ n. 0 < n) }
        ensures bytes { TakesFirst (Some self.old.taken) (Some self.new.taken) result bytes.now }
        ensures cause { HasCause self.old.log.faults self.new.log.faults result }
        ensures listed { NextIsListed self.old.log → IsErr result }
        ensures count { IfOk result (λ n. n ≡ length bytes.now) }
        ensures logged { self.new.log ≡ after_call self.old.log (is_err result) }
    {
        self.calls.next()?;
        match self.bytes.extend_from_slice(bytes) {
            Ok(()) => Ok(bytes.len()),
            Err(_) => Err(self.calls.fault()),
        }
    }
}
