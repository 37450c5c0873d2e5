// A client of the cache.
ghost use Rattle.std.specs.Prelude.{◌≡◌, ◌≢◌, ◌<◌, ◌∷◌, [], IfOk, IsOkAnd};
ghost use Rattle.semantics.specs.Histories.{put, remove, declare, drop_join};
ghost use Rattle.semantics.specs.Answers.{get, scan};
ghost use Rattle.protocol.specs.Requests.{write, read, earlier, scan_at, changes_since, feed_from};
ghost use Rattle.protocol.specs.Told.{Told};
ghost use Rattle.join_types.specs.Writes.{plain_write};
ghost use Rattle.request_codec.specs.Plain.{plain_reply, plain_request};
ghost use Rattle.write_history.specs.Entries.{IsRecorded};
ghost use Rattle.write_history.specs.Passes.{GoesOn, own};
ghost use Rattle.write_history.specs.declared.known.Mark.TheVariants.{Free};
ghost use Rattle.pequod_cache.specs.Clients.{IsFound, IsReplied, IsScanned};
ghost use Rattle.pequod_cache.specs.Questions.{asked};

use crate::cache::Cache;
use crate::earlier::Question;
use base_shards::Naming;
use join_set::JoinSet;
use join_types::{Join, Pair, Write};
use key_space::{Key, Range, Value};
use out_of_memory::OutOfMemory;
use pq_io::Gate;
use request_codec::{Reply, Request};
use std::alloc::Global;
use std::marker::{Brand, Model};
use std::sync::ledger::{Blank, Ledger};
use std::sync::{Arc, Wait};
use steps::Steps;
use write_history::{AppendFault, Pass};

/// The entries from one settling of the base pairs to the next.
const SETTLING: u64 = 4_096;

/// Whether the base pairs are settled after a write with this reply: where it entered at one of every so many positions.
fn settles(reply: &Reply) -> bool {
    match reply {
        Reply::Done(position) => *position % SETTLING == 0,
        _ => false,
    }
}

/// What a client reads of a range, and after how many entries.
#[derive(Debug, Drop)]
pub struct Found {
    /// The number of entries.
    pub position: u64,
    /// The pairs, in key order.
    pub pairs: Vec<Pair>,
}

/// The pairs that were found after so many entries, with their number.
fn found_at(position: u64, pairs: Result<Vec<Pair>, OutOfMemory>) -> Result<Found, OutOfMemory>
    ensures { IfOk result (λ found. IsOkAnd pairs (λ those. (found.position ≡ position) × (found.pairs.items ≡ those.items))) }
{
    Ok(Found {
        position,
        pairs: pairs?,
    })
}

/// One client of a cache: a pass of the write history, and the joins up to a declaration or drop that it has seen. Contracts
/// see it as its pass. Clients on different threads use one cache.
#[derive(Drop)]
pub struct Client<'g, N: Naming, G> {
    alloc: Global,
    cache: Arc<Cache<N>>,
    gate: &'g G,
    pass: Pass,
    joins: JoinSet,
}

impl<'g, N: Naming, G> Model for Client<'g, N, G> {
    ghost use Rattle.write_history.specs.Passes.{PassView};
    ghost use Rattle.pequod_cache.specs.Clients.{IsClient};

    ghost Value = { PassView };

    ghost view = { λ c. c.pass };

    ghost invariant = { λ c. IsClient N.history c.pass c.joins };
}

impl<'g, N: Naming, G> Client<'g, N, G> {
    /// A client with a pass that may write. What it keeps grows by this allocator; nothing is allocated yet.
    pub(crate) fn new(
        alloc: Global,
        cache: Arc<Cache<N>>,
        pass: Pass,
        gate: &'g G,
    ) -> Client<'g, N, G>
        requires same_history { pass.history ≡ N.history }
        requires writer { pass.number < pass.writers }
        requires free { pass.mark ≡ Free }
        requires recorded { IsRecorded pass.writers pass.view }
        ensures { result ≡ pass }
    {
        Client {
            alloc,
            cache,
            gate,
            pass,
            joins: JoinSet::new(alloc),
        }
    }
}

impl<'g, N: Naming, G: Gate> Client<'g, N, G> {
    /// Appends the write to the history, or says why it may not enter.
    fn enter<R: Wait>(&mut self, rt: &R, change: Write) -> Reply
        ensures told { Told self.old.view self.new.view self.old.number (write (plain_write change) ∷ []) (plain_reply result ∷ []) }
        ensures goes_on { GoesOn self.old self.new }
    {
        match self.cache.history.append(rt, &mut self.pass, change) {
            Ok(position) => Reply::Done(position),
            Err(AppendFault::Refused(position, cause)) => Reply::Refused(position, cause),
            Err(AppendFault::OutOfMemory(memory)) => Reply::Memory(memory),
        }
    }

    /// Settles the base pairs, where it was told the position of one of every so many entries.
    fn settle_after<R: Wait>(&mut self, rt: &R, reply: &Reply)
        ensures goes_on { GoesOn self.old self.new }
        ensures own { own self.new ≡ own self.old }
    {
        if settles(reply) {
            self.cache.shards.settle(rt, &mut self.pass);
        }
    }

    /// Appends the write to the history, or says why it may not enter: `Done` with its position, `Refused` with the number of
    /// entries after which this is the cause, or `Memory`, and then nothing entered. While another thread has the history's
    /// turn, this one sleeps.
    ///
    /// After every 4,096th entry of the history the one who wrote it settles the base pairs, as `BaseShards::settle` does: what is
    /// kept of entries is so at most the last 65,536, some 4,096 more, and those that a read still reaches back to.
    pub fn write<R: Wait>(&mut self, rt: &R, change: Write) -> Reply
        ensures told { Told self.old.view self.new.view self.old.number (write (plain_write change) ∷ []) (plain_reply result ∷ []) }
        ensures goes_on { GoesOn self.old self.new }
    {
        let reply = self.enter(rt, change);
        self.settle_after(rt, &reply);
        reply
    }

    /// Puts the value at the key. It answers as `write` does.
    pub fn put<R: Wait>(&mut self, rt: &R, key: Key, value: Value) -> Reply
        ensures told { Told self.old.view self.new.view self.old.number (write (put key value) ∷ []) (plain_reply result ∷ []) }
        ensures goes_on { GoesOn self.old self.new }
    {
        self.write(rt, Write::Put(key, value))
    }

    /// Removes the key. It answers as `write` does.
    pub fn remove<R: Wait>(&mut self, rt: &R, key: Key) -> Reply
        ensures told { Told self.old.view self.new.view self.old.number (write (remove key) ∷ []) (plain_reply result ∷ []) }
        ensures goes_on { GoesOn self.old self.new }
    {
        self.write(rt, Write::Remove(key))
    }

    /// Declares the join. It answers as `write` does.
    pub fn declare<R: Wait>(&mut self, rt: &R, join: Join) -> Reply
        ensures told { Told self.old.view self.new.view self.old.number (write (declare join) ∷ []) (plain_reply result ∷ []) }
        ensures goes_on { GoesOn self.old self.new }
    {
        self.write(rt, Write::Declare(join))
    }

    /// Drops the join that was declared at the position. It answers as `write` does.
    pub fn drop_join<R: Wait>(&mut self, rt: &R, position: u64) -> Reply
        ensures told { Told self.old.view self.new.view self.old.number (write (drop_join position) ∷ []) (plain_reply result ∷ []) }
        ensures goes_on { GoesOn self.old self.new }
    {
        self.write(rt, Write::Drop(position))
    }

    /// The pairs of the range in the state after all entries that the history has now: it looks first, brings its joins there, and
    /// reads there. While it reads, it is pinned there. For the joins it compares two numbers; after a declaration or drop it
    /// copies them once, and the cells of joins that stand no more, or have another rank, are evicted first. While another thread
    /// has what it needs, this one sleeps.
    ///
    /// It may report that it found no memory.
    pub fn read<R: Wait>(&mut self, rt: &R, range: &Range) -> Result<Found, OutOfMemory>
        ensures found { IfOk result (λ found. IsFound self.old self.new range.now found.position found.pairs.items) }
        ensures goes_on { GoesOn self.old self.new }
        ensures own { own self.new ≡ own self.old }
    {
        self.read_counted::<Brand, R>(rt, range, Blank::new(1))
    }

    /// Reads the range, with a counter that nobody looks at.
    fn read_counted<L: Ledger, R: Wait>(
        &mut self,
        rt: &R,
        range: &Range,
        blank: Blank,
    ) -> Result<Found, OutOfMemory>
        requires name { blank.name ≡ L.name }
        requires parts { blank.parts ≡ L.parts }
        requires some { 0 < blank.parts }
        ensures found { IfOk result (λ found. IsFound self.old self.new range.now found.position found.pairs.items) }
        ensures goes_on { GoesOn self.old self.new }
        ensures own { own self.new ≡ own self.old }
    {
        let cache = &self.cache;
        let position = cache.look(rt, &mut self.pass, &mut self.joins)?;
        let mut steps: Steps<L> = Steps::open(blank);
        let (pass, joins) = (&mut self.pass, &self.joins);
        let found = cache
            .cells
            .read(rt, pass, joins, position, range, self.gate, &mut steps);
        cache.history.unpin(rt, &mut self.pass);
        found_at(position, found)
    }

    /// The pair at the key in the state after all entries that the history has now: `Found` or `Absent` with their number, or
    /// `Memory`.
    pub fn get<R: Wait>(&mut self, rt: &R, key: &Key) -> Reply
        ensures told { Told self.old.view self.new.view self.old.number (read (get key.now) ∷ []) (plain_reply result ∷ []) }
        ensures goes_on { GoesOn self.old self.new }
    {
        match self.try_get(rt, key) {
            Ok(reply) => reply,
            Err(memory) => Reply::Memory(memory),
        }
    }

    /// The pair at the key, or no memory.
    fn try_get<R: Wait>(&mut self, rt: &R, key: &Key) -> Result<Reply, OutOfMemory>
        ensures told { IfOk result (λ reply. Told self.old.view self.new.view self.old.number (read (get key.now) ∷ []) (plain_reply reply ∷ [])) }
        ensures goes_on { GoesOn self.old self.new }
        ensures own { own self.new ≡ own self.old }
    {
        let range = Range::just(self.alloc, key)?;
        let Found { position, pairs } = self.read(rt, &range)?;
        match pairs.into_iter().next() {
            Some(pair) => Ok(Reply::Found(position, pair.value)),
            None => Ok(Reply::Absent(position)),
        }
    }

    /// Scans the range: it looks, brings its joins there, is pinned there while it reads, and lets go of the pin. The counter is
    /// one that nobody looks at.
    fn scan_counted<L: Ledger, R: Wait>(
        &mut self,
        rt: &R,
        range: &Range,
        blank: Blank,
    ) -> Result<Reply, OutOfMemory>
        requires name { blank.name ≡ L.name }
        requires parts { blank.parts ≡ L.parts }
        requires some { 0 < blank.parts }
        ensures scanned { IfOk result (λ reply. IsScanned self.old self.new range.now (plain_reply reply)) }
        ensures goes_on { GoesOn self.old self.new }
        ensures own { own self.new ≡ own self.old }
    {
        let (alloc, cache) = (self.alloc, &self.cache);
        let position = cache.look(rt, &mut self.pass, &mut self.joins)?;
        let mut steps: Steps<L> = Steps::open(blank);
        let (pass, joins) = (&mut self.pass, &self.joins);
        let reply = cache.scan(
            rt, alloc, pass, joins, position, range, self.gate, &mut steps,
        );
        cache.history.unpin(rt, &mut self.pass);
        reply
    }

    /// Answers with the pairs of the range in the state after all entries that the history has now: `Pairs` or `Written` with their
    /// number, or `Memory`. It is `Written` where what is kept of one join's output has them all: then no pair is copied but into
    /// the reply's line.
    ///
    /// It waits as `read` does, and costs what it does, and 4 KiB that it asks for first. Where the range reaches one join's output
    /// alone and the line is not written, it looks up the range in the base pairs and in the directory of cells once more.
    pub fn scan<R: Wait>(&mut self, rt: &R, range: &Range) -> Reply
        ensures told { Told self.old.view self.new.view self.old.number (read (scan range.now) ∷ []) (plain_reply result ∷ []) }
        ensures goes_on { GoesOn self.old self.new }
    {
        match self.scan_counted::<Brand, R>(rt, range, Blank::new(1)) {
            Ok(reply) => reply,
            Err(memory) => Reply::Memory(memory),
        }
    }

    /// Asks a question about an earlier position: it looks, brings its joins to where it looked, is pinned there while the question
    /// is answered, and lets go of the pin. The counter is one that nobody looks at.
    fn ask_counted<L: Ledger, R: Wait>(
        &mut self,
        rt: &R,
        range: &Range,
        question: Question,
        at: u64,
        blank: Blank,
    ) -> Result<Reply, OutOfMemory>
        requires name { blank.name ≡ L.name }
        requires parts { blank.parts ≡ L.parts }
        requires some { 0 < blank.parts }
        ensures replied { IfOk result (λ reply. IsReplied self.old self.new (asked question range.now at) (plain_reply reply)) }
        ensures goes_on { GoesOn self.old self.new }
        ensures own { own self.new ≡ own self.old }
    {
        let cache = &self.cache;
        let position = cache.look(rt, &mut self.pass, &mut self.joins)?;
        let mut steps: Steps<L> = Steps::open(blank);
        let (pass, joins) = (&mut self.pass, &self.joins);
        let reply = cache.ask(
            rt, pass, joins, position, question, at, range, self.gate, &mut steps,
        );
        cache.history.unpin(rt, &mut self.pass);
        reply
    }

    /// What the client is told of a question about an earlier position.
    fn ask<R: Wait>(&mut self, rt: &R, range: &Range, question: Question, at: u64) -> Reply
        ensures told { Told self.old.view self.new.view self.old.number (earlier (asked question range.now at) ∷ []) (plain_reply result ∷ []) }
        ensures goes_on { GoesOn self.old self.new }
    {
        match self.ask_counted::<Brand, R>(rt, range, question, at, Blank::new(1)) {
            Ok(reply) => reply,
            Err(memory) => Reply::Memory(memory),
        }
    }

    /// The pairs of the range in the state after the first so many entries: `Pairs` with that number, `Gone` exactly where there
    /// are more than 65,536 entries after them now, `Ahead` exactly where there are not so many, both with the number of entries,
    /// or `Memory`. While it reads, it is pinned where it looked. While another thread has what it needs, this one sleeps.
    ///
    /// What is kept past the position is not brought back, but evaluated beside it.
    pub fn scan_at<R: Wait>(&mut self, rt: &R, range: &Range, at: u64) -> Reply
        ensures told { Told self.old.view self.new.view self.old.number (earlier (scan_at range.now at) ∷ []) (plain_reply result ∷ []) }
        ensures goes_on { GoesOn self.old self.new }
    {
        self.ask(rt, range, Question::Pairs, at)
    }

    /// What changed in the range from the state after the first so many entries to the one after all that the history has now:
    /// `Changes` with both numbers, or `Gone`, `Ahead` or `Memory` as `scan_at`.
    pub fn changes<R: Wait>(&mut self, rt: &R, range: &Range, from: u64) -> Reply
        ensures told { Told self.old.view self.new.view self.old.number (earlier (changes_since range.now from) ∷ []) (plain_reply result ∷ []) }
        ensures goes_on { GoesOn self.old self.new }
    {
        self.ask(rt, range, Question::Changes, from)
    }

    /// Asks for the entries after a position: it looks, is pinned there while they are copied, and lets go of the pin.
    fn look_and_feed<R: Wait>(&mut self, rt: &R, from: u64) -> Result<Reply, OutOfMemory>
        ensures replied { IfOk result (λ reply. IsReplied self.old self.new (feed_from from) (plain_reply reply)) }
        ensures goes_on { GoesOn self.old self.new }
        ensures own { own self.new ≡ own self.old }
    {
        let cache = &self.cache;
        let position = cache.look(rt, &mut self.pass, &mut self.joins)?;
        let reply = cache.feed(rt, self.alloc, &mut self.pass, position, from);
        cache.history.unpin(rt, &mut self.pass);
        reply
    }

    /// The first entries after the first so many, as many as one line has room for: `Entries` with that number, the number of all
    /// entries and those, or `Gone`, `Ahead` or `Memory` as `scan_at`. Linear in the texts of at most 1,000 entries.
    pub fn feed<R: Wait>(&mut self, rt: &R, from: u64) -> Reply
        ensures told { Told self.old.view self.new.view self.old.number (earlier (feed_from from) ∷ []) (plain_reply result ∷ []) }
        ensures goes_on { GoesOn self.old self.new }
    {
        match self.look_and_feed(rt, from) {
            Ok(reply) => reply,
            Err(memory) => Reply::Memory(memory),
        }
    }

    /// Answers a request other than `Quit`, as the call for it does.
    pub fn answer<R: Wait>(&mut self, rt: &R, request: Request) -> Reply
        requires { request ≢ Request.Quit }
        ensures told { Told self.old.view self.new.view self.old.number (plain_request request ∷ []) (plain_reply result ∷ []) }
        ensures goes_on { GoesOn self.old self.new }
    {
        match request {
            Request::Put(key, value) => self.put(rt, key, value),
            Request::Remove(key) => self.remove(rt, key),
            Request::Declare(join) => self.declare(rt, join),
            Request::Drop(position) => self.drop_join(rt, position),
            Request::Get(key) => self.get(rt, &key),
            Request::Scan(range) => self.scan(rt, &range),
            Request::ScanAt(range, at) => self.scan_at(rt, &range, at),
            Request::Changes(range, from) => self.changes(rt, &range, from),
            Request::Feed(from) => self.feed(rt, from),
            Request::Quit => unreachable!(),
        }
    }

    /// Lets go of the least recently used of what the cache keeps of the joins' outputs, for all of its clients, as
    /// `RangeCells::make_room` does, and says whether something went. No answer rests on it. It takes no memory. While another
    /// thread has what is to go, this one sleeps.
    pub fn make_room<R: Wait>(&self, rt: &R) -> bool {
        self.cache.cells.make_room(rt)
    }

    /// Both clients, of one cache, see what either has seen. It waits for nobody.
    pub fn meet<R>(&mut self, rt: &R, other: &mut Client<'g, N, G>)
        ensures first { GoesOn self.old self.new }
        ensures second { GoesOn other.old other.new }
        ensures same { self.new.view ≡ other.new.view }
        ensures own { (own self.new ≡ own self.old) × (own other.new ≡ own other.old) }
    {
        self.cache.history.meet(rt, &mut self.pass, &mut other.pass);
    }
}
