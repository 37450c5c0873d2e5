// What takes the entries of a home.
ghost use Rattle.std.specs.Prelude.{◌≡◌, ◌≢◌, ◌≤◌, ◌<◌, ◌^◌, ◌↔◌, None, [], IfOk, OnOk, length, true, false, Ok, Err};
ghost use Rattle.protocol.specs.Lines.{Bytes};
ghost use Rattle.pq_io.specs.Faults.{HasCause, Rose};
ghost use Rattle.pq_io.specs.Streams.{Gave, Took};
ghost use Rattle.follow_node.specs.Asking.{feed_text};
ghost use Rattle.follow_node.specs.Feeders.{given};
ghost use Rattle.follow_node.specs.Heard.{Hears};
ghost use Rattle.follow_node.specs.Pulls.{is_next, TakesLine, IsHeard};
ghost use Rattle.follow_node.specs.Standing.{IsPulled, Stands};

use crate::asking::ask;
use crate::entries::take_entries;
use crate::home_line::{HomeLine, read_home_line};
use crate::reading::read_line;
use crate::{Pulled, Replica, Taken};
use out_of_memory::OutOfMemory;
use pq_io::{Failed, Link};
use request_codec::Lines;
use std::alloc::Global;
use std::marker::Model;

/// What takes the entries of a home over a link, line by line, and gives their writes to a replica. Contracts see it as a
/// `FeederView`.
#[derive(Drop)]
pub struct Feeder {
    lines: Lines,
    kept: bool,
    asked: u64,
    taken: u64,
    ended: bool,
}

impl Model for Feeder {
    ghost use Rattle.follow_node.specs.Feeders.{FeederView};

    ghost Value = { FeederView };

    ghost view = { λ f. record { line = f.lines.line; kept = f.kept; asked = f.asked; taken = f.taken; ended = f.ended } };
}

/// Whether entries may be taken: `first` is the number of entries that the pull's first line told, and `asked` the position that was
/// asked for.
fn may_take(first: Option<u64>, asked: u64, from: u64, position: u64, count: usize) -> bool
    ensures { result ≡ is_next first asked from position count }
{
    if from != asked || position < from {
        return false;
    }
    if let Some(first) = first
        && position < first
    {
        return false;
    }
    count as u64 <= position - from && (count > 0 || position == from)
}

impl Feeder {
    /// Makes a feeder that has given nothing. It takes memory for the longest line, 1,048,576 bytes.
    pub fn new(alloc: Global) -> Result<Feeder, OutOfMemory>
        ensures given { IfOk result (λ f. given f ≡ 0) }
        ensures kept { IfOk result (λ f. f.kept ≡ false) }
        ensures ended { IfOk result (λ f. f.ended ≡ false) }
        ensures stands { IfOk result (λ f. Stands [] [] f) }
    {
        let lines = Lines::new(alloc)?;
        Ok(Feeder {
            lines,
            kept: false,
            asked: 0,
            taken: 0,
            ended: false,
        })
    }

    /// Takes the writes of the kept line but those that were taken, and gives the number of entries that the pull goes up to.
    fn take_line<R: Replica>(
        &mut self,
        alloc: Global,
        replica: &mut R,
        first: Option<u64>,
    ) -> Result<u64, Pulled>
        requires kept { self.old.kept ≡ true }
        requires open { self.old.ended ≡ false }
        requires given { length (R.writes replica.old) ≡ given self.old }
        ensures taken { TakesLine first self.old self.new (R.writes replica.old) (R.writes replica.new) result }
        ensures given { length (R.writes replica.new) ≡ given self.new }
        ensures small { IfOk result (λ goal. goal < 2 ^ 64) }
    {
        match read_home_line(alloc, self.lines.line()) {
            Ok(HomeLine::Entries(from, position, entries)) => {
                if !may_take(first, self.asked, from, position, entries.len()) {
                    self.ended = true;
                    return Err(Pulled::Bad);
                }
                match take_entries(replica, entries, &mut self.taken) {
                    Taken::Done => {
                        self.kept = false;
                        self.asked = replica.length();
                        self.taken = 0;
                        Ok(first.unwrap_or(position))
                    }
                    Taken::Refused => {
                        self.ended = true;
                        Err(Pulled::Bad)
                    }
                    Taken::OutOfMemory(memory) => Err(Pulled::OutOfMemory(memory)),
                }
            }
            Ok(HomeLine::Memory) => {
                self.kept = false;
                Err(Pulled::HomeMemory)
            }
            Ok(HomeLine::Gone(position)) => {
                self.ended = true;
                Err(Pulled::Gone(position))
            }
            Ok(HomeLine::Ahead(position)) => {
                self.ended = true;
                Err(Pulled::Ahead(position))
            }
            Ok(HomeLine::Other) => {
                self.ended = true;
                Err(Pulled::Bad)
            }
            Err(memory) => Err(Pulled::OutOfMemory(memory)),
        }
    }

    /// Asks the home for the entries after so many, and keeps the line that it answers.
    fn hear<L: Link>(&mut self, home: &mut L, length: u64) -> Result<(), Pulled>
        requires given { given self.old ≡ length }
        requires open { self.old.ended ≡ false }
        ensures heard { (bytes : Bytes) × Gave (L.left home.old) (L.left home.new) bytes × IsHeard (L.left home.new) bytes length self.old self.new result }
        ensures asked { result ≢ Err Pulled.WriteFault → Took (L.taken home.old) (L.taken home.new) (feed_text length) }
        ensures reads_later { L.read_faults home.old ≤ L.read_faults home.new }
        ensures reads_kept { result ≢ Err Pulled.ReadFault → L.read_faults home.new ≡ L.read_faults home.old }
        ensures read_fault { result ≡ Err Pulled.ReadFault → Rose (L.read_faults home.old) (L.read_faults home.new) }
        ensures writes_later { L.write_faults home.old ≤ L.write_faults home.new }
        ensures writes_kept { result ≢ Err Pulled.WriteFault → L.write_faults home.new ≡ L.write_faults home.old }
        ensures write_fault { result ≡ Err Pulled.WriteFault → Rose (L.write_faults home.old) (L.write_faults home.new) }
        ensures same_borrows { L.borrows home.new ≡ L.borrows home.old }
    {
        if let Err(Failed) = ask(home, length) {
            self.ended = true;
            return Err(Pulled::WriteFault);
        }
        match read_line(&mut self.lines, home) {
            Ok(()) => {
                self.kept = true;
                self.asked = length;
                self.taken = 0;
                Ok(())
            }
            Err(pulled) => {
                self.ended = true;
                Err(pulled)
            }
        }
    }

    /// Asks the home for the entries after those that the replica has, and gives it their writes, until it has as many as the home
    /// had at the pull's first line: `Level`. A line of which not all was taken, for want of memory, is kept, and the next pull goes on
    /// with the rest of it, as its first line.
    ///
    /// `HomeMemory` comes where the home found no memory: the next pull asks again. `Gone` and `Ahead` come where the home refused the
    /// position so; `Bad` where a line is none of a feed, does not go on where the replica's writes end, has fewer entries than the
    /// pull's first line told, or fewer than it lists, lists none where there are some, has a write that the replica refuses, is too
    /// long, or was followed by a byte in the same read; `Ended` where the home's bytes end; `ReadFault` and `WriteFault` where the link
    /// failed. After each of these the feeder has ended: a later pull neither writes nor reads, and answers `Over`. `OutOfMemory` comes
    /// where none is found for a line or a write. Linear in the lines that are taken.
    pub fn pull<L: Link, R: Replica>(
        &mut self,
        alloc: Global,
        home: &mut L,
        replica: &mut R,
    ) -> Pulled
        requires given { length (R.writes replica.old) ≡ given self.old }
        ensures pulls { (bytes : Bytes) × Gave (L.left home.old) (L.left home.new) bytes
            × IsPulled (L.left home.new) self.old (R.writes replica.old) bytes result self.new (R.writes replica.new) }
        ensures given { length (R.writes replica.new) ≡ given self.new }
        ensures over { result ≡ Pulled.Over ↔ self.old.ended ≡ true }
        ensures same_home { result ≡ Pulled.Over → home.new ≡ home.old }
        ensures reads_later { L.read_faults home.old ≤ L.read_faults home.new }
        ensures reads_kept { result ≢ Pulled.ReadFault → L.read_faults home.new ≡ L.read_faults home.old }
        ensures read_fault { result ≡ Pulled.ReadFault → Rose (L.read_faults home.old) (L.read_faults home.new) }
        ensures writes_later { L.write_faults home.old ≤ L.write_faults home.new }
        ensures writes_kept { result ≢ Pulled.WriteFault → L.write_faults home.new ≡ L.write_faults home.old }
        ensures write_fault { result ≡ Pulled.WriteFault → Rose (L.write_faults home.old) (L.write_faults home.new) }
        ensures same_borrows { L.borrows home.new ≡ L.borrows home.old }
    {
        if self.ended {
            return Pulled::Over;
        }
        let mut first = None;
        loop {
            if !self.kept {
                match self.hear(home, replica.length()) {
                    Ok(()) => {}
                    Err(pulled) => return pulled,
                }
            }
            match self.take_line(alloc, replica, first) {
                Ok(goal) => {
                    if replica.length() >= goal {
                        return Pulled::Level;
                    }
                    first = Some(goal);
                }
                Err(pulled) => return pulled,
            }
        }
    }
}
