// A history for a test, its passes by what they are for, and how they are pinned and let go.
ghost use Rattle.std.specs.Prelude.{◌≡◌, ◌+◌, ◌<◌, ◌≤◌, All, length, IfOk};
ghost use Rattle.write_history.specs.Passes.{MayAppend};
ghost use Rattle.write_history.specs.declared.known.Mark.TheVariants.{Free, Pinned, Noted};
ghost use Rattle.history_trials.specs.Seated.{IsFree, IsPinned};

use out_of_memory::OutOfMemory;
use std::alloc::Global;
use std::process::Abort;
use std::sync::Wait;
use write_history::{History, Pass};

/// A history, and its passes by what they are for.
#[derive(Drop)]
pub struct Seats {
    /// The history.
    pub history: History,
    /// Passes that may write, and be pinned.
    pub writers: Vec<Pass>,
    /// Passes that only read, and may be pinned.
    pub pinned: Vec<Pass>,
    /// Passes that note positions.
    pub shards: Vec<Pass>,
    /// Passes that only read.
    pub readers: Vec<Pass>,
}

/// A history with so many passes of each kind.
pub fn make_seats(
    alloc: Global,
    writers: u32,
    pinned: u32,
    shards: u32,
    readers: u32,
) -> Result<Seats, OutOfMemory>
    requires some { 0 < writers }
    requires few { writers + pinned + shards + readers ≤ 65536 }
    ensures writer_count { IfOk result (λ seats. length seats.writers.items ≡ writers) }
    ensures writers { IfOk result (λ seats. All (λ p. MayAppend seats.history p) seats.writers.items) }
    ensures free { IfOk result (λ seats. All (λ p. p.mark ≡ Free) seats.writers.items) }
    ensures pinned { IfOk result (λ seats. All (λ p. IsFree seats.history p) seats.pinned.items) }
    ensures shard_count { IfOk result (λ seats. length seats.shards.items ≡ shards) }
    ensures shards { IfOk result (λ seats. All (λ p. p.history ≡ seats.history) seats.shards.items) }
    ensures noted { IfOk result (λ seats. All (λ p. p.mark ≡ Noted 0) seats.shards.items) }
    ensures reader_count { IfOk result (λ seats. length seats.readers.items ≡ readers) }
    ensures readers { IfOk result (λ seats. All (λ p. p.history ≡ seats.history) seats.readers.items) }
{
    let (history, mut passes) = History::with_pins(alloc, writers, pinned, shards, readers)?;
    let readers = passes.split_off((writers + pinned + shards) as usize)?;
    let shards = passes.split_off((writers + pinned) as usize)?;
    let pinned = passes.split_off(writers as usize)?;
    Ok(Seats {
        history,
        writers: passes,
        pinned,
        shards,
        readers,
    })
}

/// Takes out the last pass that may write.
pub fn pop_writer(rt: &impl Abort, history: &History, writers: &mut Vec<Pass>) -> Pass
    requires may { All (λ p. MayAppend history.now p) writers.old.items }
    requires free { All (λ p. p.mark ≡ Free) writers.old.items }
    ensures pass { MayAppend history.now result }
    ensures free { result.mark ≡ Free }
    ensures others { All (λ p. MayAppend history.now p) writers.new.items }
    ensures others_free { All (λ p. p.mark ≡ Free) writers.new.items }
{
    writers.pop().expect(rt, "a pass that may write")
}

/// Takes out the last pass that only reads and may be pinned.
pub fn pop_pinned(rt: &impl Abort, history: &History, pinned: &mut Vec<Pass>) -> Pass
    requires { All (λ p. IsFree history.now p) pinned.old.items }
    ensures pass { IsFree history.now result }
    ensures others { All (λ p. IsFree history.now p) pinned.new.items }
{
    pinned.pop().expect(rt, "a pass that may be pinned")
}

/// Takes out the last pass that notes positions. It has noted none.
pub fn pop_shard(rt: &impl Abort, history: &History, shards: &mut Vec<Pass>) -> Pass
    requires of { All (λ p. p.history ≡ history.now) shards.old.items }
    requires noted { All (λ p. p.mark ≡ Noted 0) shards.old.items }
    ensures pass { result.history ≡ history.now }
    ensures noted { result.mark ≡ Noted 0 }
    ensures others { All (λ p. p.history ≡ history.now) shards.new.items }
    ensures others_noted { All (λ p. p.mark ≡ Noted 0) shards.new.items }
{
    shards.pop().expect(rt, "a pass that notes positions")
}

/// Looks, pins the pass there, and says after how many entries.
pub fn pin<R: Wait + Abort>(rt: &R, history: &History, pass: &mut Pass) -> u64
    requires same_history { pass.old.history ≡ history.now }
    requires free { pass.old.mark ≡ Free }
    ensures pinned { IsPinned history.now pass.new result }
    ensures may { MayAppend history.now pass.old → MayAppend history.now pass.new }
{
    history.look_joins(rt, pass, 0).expect(rt, "memory").length
}

/// Takes away the pin, which is after so many entries.
pub fn unpin<R: Wait>(rt: &R, history: &History, pass: &mut Pass, _at: u64)
    requires same_history { pass.old.history ≡ history.now }
    requires pinned { pass.old.mark ≡ Pinned _at }
    ensures free { IsFree history.now pass.new }
    ensures may { MayAppend history.now pass.old → MayAppend history.now pass.new }
{
    history.unpin(rt, pass);
}
