// A source in memory, for tests: what each of its reads gives and which of them fail is chosen beforehand.
ghost use Rattle.std.specs.Prelude.{◌≡◌, ◌<◌, ◌↔◌, Some, length, IfOk, IsErr, Ok, is_err};
ghost use Rattle.std.specs.Io.{ReadsAtMost};
ghost use Rattle.std.specs.Io.KnownBytes.{IsAtEnd};
ghost use Rattle.pq_io.specs.CallLog.{NextIsListed, after_call, no_calls};
ghost use Rattle.pq_io.specs.Faults.{HasCause};
ghost use Rattle.pq_io.specs.Memory.{given_count};
ghost use Rattle.pq_io.specs.Streams.{GivesNext};

use crate::call_log::Calls;
use crate::{Failed, Source};
use std::marker::Model;

/// A source that gives the bytes that it was made with. Contracts see it as a `SourceState`.
#[derive(Drop)]
pub struct MemSource {
    bytes: Vec<u8>,
    given: usize,
    cuts: Vec<usize>,
    calls: Calls,
}

impl Model for MemSource {
    ghost use Rattle.std.specs.Prelude.{◌≤◌, drop, length};
    ghost use Rattle.pq_io.specs.Memory.{SourceState};

    ghost Value = { SourceState };

    ghost view = { λ s. record { left = drop s.given s.bytes.items; cuts = s.cuts.items; log = s.calls } };

    ghost invariant = { λ s. s.given ≤ length s.bytes.items };
}

impl MemSource {
    /// A source of these bytes. The read with number k, counted from 1, gives at most `cuts[k - 1]` bytes,
    /// where a cut of 0 counts as 1; reads after the last cut give as many as there is room for. A read
    /// fails exactly where its number is in `fails`.
    pub fn new(bytes: Vec<u8>, cuts: Vec<usize>, fails: Vec<usize>) -> MemSource
        ensures { result ≡ record { left = bytes.items; cuts = cuts.items; log = no_calls fails.items } }
    {
        MemSource {
            bytes,
            given: 0,
            cuts,
            calls: Calls::new(fails),
        }
    }
}

impl Source for MemSource {
    ghost left = { λ s. Some s.left };

    ghost faults = { λ s. s.log.faults };

    /// Takes one step for each byte that it gives and each number in `fails`.
    fn read(&mut self, into: &mut [u8]) -> Result<usize, Failed>
        ensures bound { ReadsAtMost result into.new }
        ensures bytes { GivesNext (Some self.old.left) (Some self.new.left) result into.new }
        ensures end { result ≡ Ok 0 → 0 < length into.new → IsAtEnd (Some self.new.left) }
        ensures cause { HasCause self.old.log.faults self.new.log.faults result }
        ensures listed { IsErr result ↔ NextIsListed self.old.log }
        ensures count { IfOk result (λ n. n ≡ given_count self.old (length into.new)) }
        ensures same_cuts { self.new.cuts ≡ self.old.cuts }
        ensures logged { self.new.log ≡ after_call self.old.log (is_err result) }
    {
        let number = self.calls.made();
        self.calls.next()?;
        let cut = self.cuts.get(number).copied().unwrap_or(into.len()).max(1);
        let left = &self.bytes[self.given..];
        let count = left.len().min(into.len().min(cut));
        into[..count].copy_from_slice(&left[..count]);
        self.given += count;
        Ok(count)
    }
}
