// What a source gives and a sink takes.
ghost use Rattle.std.specs.Prelude.{◌≡◌, ◌<◌, List, [], ℕ, length, IfOk, Ok};
ghost use Rattle.std.specs.declared.option.Option.{Option};
ghost use Rattle.std.specs.Borrow.{GName};
ghost use Rattle.std.specs.Io.{ReadsAtMost, WritesAtMost};
ghost use Rattle.std.specs.Io.KnownBytes.{IsAtEnd};
ghost use Rattle.pq_io.specs.Faults.{HasCause};
ghost use Rattle.pq_io.specs.Streams.{GivesNext, TakesFirst};

/// A call gave or took nothing, and the count of faults of its object rose.
#[derive(Clone, Copy, Debug, PartialEq, Eq)]
pub struct Failed;

/// An object that gives bytes.
pub trait Source {
    /// The bytes that are left, where they are told.
    ghost left: { Self → Option (List ℕ) };

    /// How many calls have failed, up to the last value 2^64 - 1.
    ghost faults: { Self → ℕ };

    /// The references that it holds. No call replaces one.
    ghost borrows: { Self → List GName } = { λ _. [] };

    /// Gives the next bytes, at most as many as `into` has room for, and says how many: they stand at the
    /// front of `into`. It gives 0 into a buffer with room only where nothing is left.
    /// `Failed`: nothing was given, and the count of faults rose.
    fn read(&mut self, into: &mut [u8]) -> Result<usize, Failed>
        ensures bound { ReadsAtMost result into.new }
        ensures bytes { GivesNext (left self.old) (left self.new) result into.new }
        ensures end { result ≡ Ok 0 → 0 < length into.new → IsAtEnd (left self.new) }
        ensures cause { HasCause (faults self.old) (faults self.new) result }
        ensures same_borrows { borrows self.new ≡ borrows self.old };
}

/// An object that takes bytes.
pub trait Sink {
    /// The bytes that were taken so far, where they are told.
    ghost taken: { Self → Option (List ℕ) };

    /// How many calls have failed, up to the last value 2^64 - 1.
    ghost faults: { Self → ℕ };

    /// The references that it holds. No call replaces one.
    ghost borrows: { Self → List GName } = { λ _. [] };

    /// Takes the first of the bytes, at least one where there is one, and says how many.
    /// `Failed`: nothing was taken, and the count of faults rose.
    fn write(&mut self, bytes: &[u8]) -> Result<usize, Failed>
        ensures bound { WritesAtMost result bytes.now }
        ensures progress { 0 < length bytes.now → IfOk result (λ n. 0 < n) }
        ensures bytes { TakesFirst (taken self.old) (taken self.new) result bytes.now }
        ensures cause { HasCause (faults self.old) (faults self.new) result }
        ensures same_borrows { borrows self.new ≡ borrows self.old };
}
