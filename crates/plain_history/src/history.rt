// Entries that entered one after another, and what stands after any beginning of them.
ghost use Rattle.std.specs.Prelude.{◌≡◌, ◌≢◌, ◌-◌, ◌≤◌, ◌∷◌, [], OnErr, IfOk, length, take, drop};
ghost use Rattle.semantics.specs.Texts.{pairs_within};
ghost use Rattle.semantics.specs.States.{state};
ghost use Rattle.semantics.specs.Verdicts.{AllEntered};
ghost use Rattle.semantics.specs.Answers.{get, scan, answer};
ghost use Rattle.protocol.specs.Requests.{write, scan_at, changes_since, feed_from};
ghost use Rattle.protocol.specs.Replies.{answered};
ghost use Rattle.protocol.specs.Earlier.{earlier_reply};
ghost use Rattle.protocol.specs.Told.{IsWithinReach, Told};
ghost use Rattle.protocol.specs.Own.{AreOwn};
ghost use Rattle.join_types.specs.Writes.{plain_write};
ghost use Rattle.request_codec.specs.Plain.{plain_reply, plain_request};
ghost use Rattle.request_codec.specs.Reach.{TellsReach};

use crate::changing::compare;
use join_model::{Entry, Standing, Write, afresh, state, value_afresh};
use join_types::Pair;
use key_space::{Key, Range};
use out_of_memory::OutOfMemory;
use request_codec::{Reply, Request, far_enough, feed_reply};
use std::alloc::Global;
use std::marker::Model;

/// How many entries back a request may reach.
const REACH: u64 = 65_536;

/// Equal entries.
fn copy_entries(alloc: Global, entries: &[Entry]) -> Result<Vec<Entry>, OutOfMemory>
    ensures { IfOk result (λ copies. copies.items ≡ entries.now) }
{
    let mut copies = Vec::new(alloc);
    for entry in entries {
        let copy = entry.copy(alloc)?;
        copies.push(copy)?;
    }
    Ok(copies)
}

/// A history whose entries are all of the client with the number 0, and entered with no cause against them. Contracts see it as its
/// entries.
#[derive(Drop)]
pub struct PlainHistory {
    alloc: Global,
    entries: Vec<Entry>,
    standing: Standing,
}

impl Model for PlainHistory {
    ghost use Rattle.semantics.specs.Histories.{History};
    ghost use Rattle.plain_history.specs.Histories.{IsKept};

    ghost Value = { History };

    ghost view = { λ h. h.entries.items };

    ghost invariant = { λ h. IsKept h.standing h.entries.items };
}

impl PlainHistory {
    /// Makes the history of no entries, which will grow by this allocator. Nothing is allocated yet.
    pub fn new(alloc: Global) -> PlainHistory
        ensures { result ≡ [] }
    {
        PlainHistory {
            alloc,
            entries: Vec::new(alloc),
            standing: Standing::new(alloc),
        }
    }

    /// Returns the number of entries, each of which is of the client with the number 0. Constant.
    pub fn len(&self) -> u64
        ensures length { result ≡ length self.now }
        ensures own { AreOwn self.now }
    {
        self.standing.length()
    }

    /// The first so many entries.
    fn beginning(&self, at: u64) -> &[Entry]
        requires { at ≤ length self.now }
        ensures entries { result.now ≡ take at self.now }
        ensures entered { AllEntered result.now }
    {
        &self.entries.as_slice()[..at as usize]
    }

    /// Returns the pairs of the range in the state after the first so many entries. It costs an evaluation of all joins.
    ///
    /// It may report that it found no memory.
    pub fn pairs_at(&self, range: &Range, at: u64) -> Result<Vec<Pair>, OutOfMemory>
        requires { at ≤ length self.now }
        ensures { IfOk result (λ pairs. pairs.items ≡ pairs_within range.now (state (take at self.now))) }
    {
        afresh(self.alloc, self.beginning(at), range)
    }

    /// The pair at the key in the state after all entries.
    fn get(&self, key: &Key) -> Result<Reply, OutOfMemory>
        ensures { IfOk result (λ reply. plain_reply reply ≡ answered (answer (get key.now) self.now)) }
    {
        let position = self.len();
        match value_afresh(self.alloc, self.beginning(position), key)? {
            Some(value) => Ok(Reply::Found(position, value)),
            None => Ok(Reply::Absent(position)),
        }
    }

    /// The pairs of the range in the state after all entries.
    fn scan(&self, range: &Range) -> Result<Reply, OutOfMemory>
        ensures { IfOk result (λ reply. plain_reply reply ≡ answered (answer (scan range.now) self.now)) }
    {
        let position = self.len();
        let pairs = self.pairs_at(range, position)?;
        Ok(Reply::Pairs(position, pairs))
    }

    /// The reply that the position lies ahead, or too far back. None where it lies within reach.
    fn out_of_reach(&self, at: u64) -> Option<Reply>
        ensures { TellsReach at (length self.now) result }
    {
        let position = self.len();
        if position < at {
            return Some(Reply::Ahead(position));
        }
        if position - at > REACH {
            return Some(Reply::Gone(position));
        }
        None
    }

    /// The pairs of the range in the state after the first so many entries.
    fn scan_at(&self, range: &Range, at: u64) -> Result<Reply, OutOfMemory>
        ensures { IfOk result (λ reply. plain_reply reply ≡ earlier_reply (scan_at range.now at) self.now) }
    {
        if let Some(reply) = self.out_of_reach(at) {
            return Ok(reply);
        }
        let pairs = self.pairs_at(range, at)?;
        Ok(Reply::Pairs(at, pairs))
    }

    /// What changed in the range from the state after the first so many entries, which lie within reach, to the one after all.
    fn compare(&self, range: &Range, from: u64) -> Result<Reply, OutOfMemory>
        requires { IsWithinReach (length self.now) from }
        ensures { IfOk result (λ reply. plain_reply reply ≡ earlier_reply (changes_since range.now from) self.now) }
    {
        let position = self.len();
        let before = state(self.alloc, self.beginning(from))?;
        let after = state(self.alloc, self.beginning(position))?;
        let changes = compare(self.alloc, &before, &after, range)?;
        Ok(Reply::Changes(from, position, changes))
    }

    /// What changed in the range since the first so many entries.
    fn changes(&self, range: &Range, from: u64) -> Result<Reply, OutOfMemory>
        ensures { IfOk result (λ reply. plain_reply reply ≡ earlier_reply (changes_since range.now from) self.now) }
    {
        match self.out_of_reach(from) {
            Some(reply) => Ok(reply),
            None => self.compare(range, from),
        }
    }

    /// Returns the entries after the first so many, up to another number of them.
    fn between(&self, from: u64, to: u64) -> &[Entry]
        requires order { from ≤ to }
        requires within { to ≤ length self.now }
        ensures { result.now ≡ take (to - from) (drop from self.now) }
    {
        &self.entries.as_slice()[from as usize..to as usize]
    }

    /// The first entries after the first so many, which lie within reach, as many as one line has room for.
    fn feed_within(&self, from: u64) -> Result<Reply, OutOfMemory>
        requires { IsWithinReach (length self.now) from }
        ensures { IfOk result (λ reply. plain_reply reply ≡ earlier_reply (feed_from from) self.now) }
    {
        let position = self.len();
        let to = far_enough(from, position);
        let entries = copy_entries(self.alloc, self.between(from, to))?;
        feed_reply(self.alloc, from, position, entries)
    }

    /// The first entries after the first so many, as many as one line has room for.
    fn feed(&self, from: u64) -> Result<Reply, OutOfMemory>
        ensures { IfOk result (λ reply. plain_reply reply ≡ earlier_reply (feed_from from) self.now) }
    {
        match self.out_of_reach(from) {
            Some(reply) => Ok(reply),
            None => self.feed_within(from),
        }
    }

    /// Enters a write where there is no cause against it: `Done` with its position, or `Refused` with the number of entries and the
    /// cause. The room for the entry is there before anything changes. It costs what `Standing` takes to judge and to enter it.
    ///
    /// It may report that it found no memory, and then nothing entered.
    pub fn write(&mut self, change: Write) -> Result<Reply, OutOfMemory>
        ensures told { IfOk result (λ reply. Told self.old self.new 0 (write (plain_write change) ∷ []) (plain_reply reply ∷ [])) }
        ensures unchanged { OnErr result (self.new ≡ self.old) }
    {
        let position = self.standing.length();
        if let Some(cause) = self.standing.judge(&change)? {
            return Ok(Reply::Refused(position, cause));
        }
        self.entries.reserve(1)?;
        self.standing.enter(&change)?;
        match self.entries.push(Entry {
            client: 0,
            write: change,
        }) {
            Ok(()) => Ok(Reply::Done(position + 1)),
            Err(_) => unreachable!(),
        }
    }

    /// Answers a request other than `Quit` as a client is answered that is alone: a write by its verdict, and a read by the state
    /// after all entries or after those that it names. A read costs an evaluation of all joins, and one of what changed two.
    ///
    /// It may report that it found no memory, and then nothing entered.
    pub fn answer(&mut self, request: Request) -> Result<Reply, OutOfMemory>
        requires { request ≢ Request.Quit }
        ensures told { IfOk result (λ reply. Told self.old self.new 0 (plain_request request ∷ []) (plain_reply reply ∷ [])) }
        ensures unchanged { OnErr result (self.new ≡ self.old) }
    {
        match request {
            Request::Put(key, value) => self.write(Write::Put(key, value)),
            Request::Remove(key) => self.write(Write::Remove(key)),
            Request::Declare(join) => self.write(Write::Declare(join)),
            Request::Drop(position) => self.write(Write::Drop(position)),
            Request::Get(key) => self.get(&key),
            Request::Scan(range) => self.scan(&range),
            Request::ScanAt(range, at) => self.scan_at(&range, at),
            Request::Changes(range, from) => self.changes(&range, from),
            Request::Feed(from) => self.feed(from),
            Request::Quit => unreachable!(),
        }
    }
}
