// The base pairs of all tables, in 16 parts with a lock each.
ghost use Rattle.std.specs.Prelude.{◌≡◌, ◌+◌, ◌<◌, ◌≤◌, IfOk, IfSome, All, length, take, vec_len};
ghost use Rattle.std.specs.Arc.{arc_value};
ghost use Rattle.semantics.specs.Texts.{pairs_within};
ghost use Rattle.semantics.specs.Histories.{base_of};
ghost use Rattle.growing_history.specs.Changes.{changed_keys};
ghost use Rattle.base_versions.specs.Valued.{base_changes};
ghost use Rattle.write_history.specs.declared.known.Mark.TheVariants.{Noted};
ghost use Rattle.base_shards.specs.Reading.{ReachesBack, ReadsOn};
ghost use Rattle.base_shards.specs.Changed.{changed_in_all, steps_of_all};

use crate::key_set::{add_keys, listed};
use crate::naming::Naming;
use crate::shard::{SHARDS, Shard, TRIM};
use base_versions::shard_of;
use join_types::{Change, Pair};
use key_space::{Key, Range};
use out_of_memory::OutOfMemory;
use std::alloc::Global;
use std::collections::BTreeSet;
use std::sync::ledger::Ledger;
use std::sync::{Arc, Mutex, MutexGuard, Wait};
use std::{hint, mem};
use steps::Steps;
use write_history::{History, Pass};

/// The base pairs of all tables at the later positions of a history, which threads share. The tables are in 16 parts, each
/// behind a lock of its own: a table is of the part whose number is the sum of its name's bytes modulo 16. What is read is
/// read at a position that the caller's pass has seen, whatever the parts have come to meanwhile, and that is at most 65,536
/// entries before the one at which the pass is pinned: settling lets go of what is older.
///
/// No call takes a second lock while it has one. Under the lock of a part the history's turn may be taken.
#[derive(Drop)]
pub struct BaseShards<N: Naming> {
    alloc: Global,
    history: Arc<History>,
    shards: Vec<Mutex<Shard<N>>>,
    ghost named: { arc_value history ≡ N.history },
    ghost all: { vec_len shards ≡ 16 },
}

/// How often a thread tries to take a lock that another one has, before it sleeps.
const TRIES: u32 = 1_000;

/// The number of the part that the range's table is of.
fn part_of(range: &Range) -> u8
    ensures { result < 16 }
{
    shard_of(range.table(), SHARDS)
}

/// A part for each of the passes, with the numbers from 0 up.
fn make_shards<N: Naming>(
    alloc: Global,
    passes: Vec<Pass>,
    ids: u32,
) -> Result<Vec<Mutex<Shard<N>>>, OutOfMemory>
    requires count { length passes.items ≡ 16 }
    requires same_history { All (λ pass. pass.history ≡ N.history) passes.items }
    requires noted { All (λ pass. pass.mark ≡ Noted 0) passes.items }
    ensures { IfOk result (λ shards. vec_len shards ≡ 16) }
{
    let mut shards = Vec::with_capacity(alloc, passes.len())?;
    let mut number = 0;
    for pass in passes {
        shards.push(Mutex::new(Shard::new(alloc, number, pass, ids)))?;
        number += 1;
    }
    Ok(shards)
}

impl<N: Naming> BaseShards<N> {
    /// The base pairs of the history after no entries, with a pass of it for each part, which has a word for noted positions and
    /// has noted none yet. What is read later and what the parts grow by is allocated by this allocator. No id has ranges, and
    /// none is marked. Ids are below a number; the parts take memory for them as they get ranges and marks, up to the greatest
    /// that ever had some.
    pub fn new(
        alloc: Global,
        history: Arc<History>,
        passes: Vec<Pass>,
        ids: u32,
    ) -> Result<BaseShards<N>, OutOfMemory>
        requires named { arc_value history ≡ N.history }
        requires count { length passes.items ≡ 16 }
        requires same_history { All (λ pass. pass.history ≡ N.history) passes.items }
        requires noted { All (λ pass. pass.mark ≡ Noted 0) passes.items }
    {
        let shards = make_shards(alloc, passes, ids)?;
        Ok(BaseShards {
            alloc,
            history,
            shards,
        })
    }

    /// The lock of the part with a number.
    fn shard(&self, number: u8) -> &Mutex<Shard<N>>
        requires { number < 16 }
    {
        &self.shards[usize::from(number)]
    }

    /// Takes the lock of the part with a number. Most calls have it for a few microseconds, which is less than it takes to sleep
    /// and be woken. So while another thread has it, this one tries again and again, some tens of microseconds at most, and
    /// sleeps only then.
    fn lock_part<R: Wait>(&self, rt: &R, number: u8) -> MutexGuard<'_, Shard<N>>
        requires { number < 16 }
    {
        let lock = self.shard(number);
        for _ in 0..TRIES {
            if let Some(part) = lock.try_lock() {
                return part;
            }
            hint::spin_loop();
        }
        lock.lock(rt)
    }

    /// The base pairs of the range after the first p entries that the pass has seen, in the order of their keys. Where the
    /// part of its table has not come to p, it is brought there. While another thread has the part, this one sleeps.
    ///
    /// It costs a look-up for each entry of the part up to p that is new to it, then the search for the range, and for each of its
    /// keys that stands or changed since the part was trimmed the search for its version. The steps are as many as the pairs, and
    /// one. On `OutOfMemory` they are not counted, and the part may have come nearer to p.
    pub fn pairs_at<L: Ledger, R: Wait>(
        &self,
        rt: &R,
        pass: &mut Pass,
        p: u64,
        range: &Range,
        steps: &mut Steps<L>,
    ) -> Result<Vec<Pair>, OutOfMemory>
        requires same_history { pass.old.history ≡ N.history }
        requires within { p ≤ length pass.old.view }
        requires pinned { ReachesBack pass.old p }
        ensures reads_on { ReadsOn pass.old pass.new }
        ensures exact { IfOk result (λ pairs. pairs.items ≡ pairs_within range.now (base_of (take p pass.old.view))) }
        ensures cost { IfOk result (λ pairs. steps.new ≡ steps.old + 1 + length pairs.items) }
        ensures spent { steps.old ≤ steps.new }
    {
        let number = shard_of(range.table(), SHARDS);
        let mut shard = self.lock_part(rt, number);
        shard.advance_to(rt, &self.history, pass, number, p)?;
        shard.pairs_at(p, range, steps)
    }

    /// The keys of one range that are put or removed by the entries after the first q that the pass has seen, up to the
    /// p-th.
    fn changed_within<L: Ledger, R: Wait>(
        &self,
        rt: &R,
        pass: &mut Pass,
        q: u64,
        p: u64,
        range: &Range,
        steps: &mut Steps<L>,
    ) -> Result<Vec<Key>, OutOfMemory>
        requires same_history { pass.old.history ≡ N.history }
        requires order { q ≤ p }
        requires within { p ≤ length pass.old.view }
        requires pinned { ReachesBack pass.old q }
        ensures reads_on { ReadsOn pass.old pass.new }
        ensures exact { IfOk result (λ keys. keys.items ≡ changed_keys q p range.now pass.old.view) }
        ensures cost { IfOk result (λ keys. steps.new ≡ steps.old + 1 + length keys.items) }
        ensures spent { steps.old ≤ steps.new }
    {
        let number = shard_of(range.table(), SHARDS);
        let mut shard = self.lock_part(rt, number);
        shard.advance_to(rt, &self.history, pass, number, p)?;
        shard.changed(q, p, range, steps)
    }

    /// The keys of all the ranges that are put or removed by the entries after the first q that the pass has seen, up to
    /// the p-th: in order, each once. The parts of their tables are brought to p, one after another. While another thread
    /// has one, this one sleeps.
    ///
    /// It costs what `BaseVersions::changed` does for each range, and a look-up for each entry of a part up to p that is new to
    /// it; of several ranges the keys are sorted. The steps are for each range as many as its keys, and one. On
    /// `OutOfMemory` some of them may be counted, and the parts may have come nearer to p.
    pub fn changed<L: Ledger, R: Wait>(
        &self,
        rt: &R,
        pass: &mut Pass,
        q: u64,
        p: u64,
        ranges: &[Range],
        steps: &mut Steps<L>,
    ) -> Result<Vec<Key>, OutOfMemory>
        requires same_history { pass.old.history ≡ N.history }
        requires order { q ≤ p }
        requires within { p ≤ length pass.old.view }
        requires pinned { ReachesBack pass.old q }
        ensures reads_on { ReadsOn pass.old pass.new }
        ensures exact { IfOk result (λ keys. keys.items ≡ changed_in_all q p ranges.now pass.old.view) }
        ensures cost { IfOk result (λ keys. steps.new ≡ steps.old + steps_of_all q p ranges.now pass.old.view) }
        ensures spent { steps.old ≤ steps.new }
    {
        if let [range] = ranges {
            return self.changed_within(rt, pass, q, p, range, steps);
        }
        let mut found = BTreeSet::new(self.alloc);
        for range in ranges {
            let keys = self.changed_within(rt, pass, q, p, range, steps)?;
            add_keys(&mut found, keys)?;
        }
        listed(self.alloc, found)
    }

    /// Lists the keys of the range that are put or removed by the entries after the first q that the pass has seen, up to the p-th,
    /// each with the value of its base pair after the first p, or none: in order, each once. The part of its table is brought to p.
    /// While another thread has it, this one sleeps.
    ///
    /// It costs what `BaseVersions::changes` does, and a look-up for each entry of the part up to p that is new to it. The steps
    /// are as many as the keys, and one. On `OutOfMemory` they are not counted, and the part may have come nearer to p.
    pub fn changes<L: Ledger, R: Wait>(
        &self,
        rt: &R,
        pass: &mut Pass,
        q: u64,
        p: u64,
        range: &Range,
        steps: &mut Steps<L>,
    ) -> Result<Vec<Change>, OutOfMemory>
        requires same_history { pass.old.history ≡ N.history }
        requires order { q ≤ p }
        requires within { p ≤ length pass.old.view }
        requires pinned { ReachesBack pass.old q }
        ensures reads_on { ReadsOn pass.old pass.new }
        ensures exact { IfOk result (λ found. found.items ≡ base_changes q p range.now pass.old.view) }
        ensures cost { IfOk result (λ found. steps.new ≡ steps.old + 1 + length found.items) }
        ensures spent { steps.old ≤ steps.new }
    {
        let number = shard_of(range.table(), SHARDS);
        let mut shard = self.lock_part(rt, number);
        shard.advance_to(rt, &self.history, pass, number, p)?;
        shard.changes(q, p, range, steps)
    }

    /// Lists the changes as `changes` does. None where more than so many would be sorted for them. The part of its table is brought
    /// to p. While another thread has it, this one sleeps.
    ///
    /// It costs what `BaseVersions::few_changes` does, and a look-up for each entry of the part up to p that is new to it. No step
    /// is counted: who asks counts what it hands on. On `OutOfMemory` the part may have come nearer to p.
    pub fn few_changes<R: Wait>(
        &self,
        rt: &R,
        pass: &mut Pass,
        q: u64,
        p: u64,
        range: &Range,
        most: usize,
    ) -> Result<Option<Vec<Change>>, OutOfMemory>
        requires same_history { pass.old.history ≡ N.history }
        requires order { q ≤ p }
        requires within { p ≤ length pass.old.view }
        requires pinned { ReachesBack pass.old q }
        ensures reads_on { ReadsOn pass.old pass.new }
        ensures exact { IfOk result (λ few. IfSome few (λ found. found.items ≡ base_changes q p range.now pass.old.view)) }
    {
        let number = shard_of(range.table(), SHARDS);
        let mut shard = self.lock_part(rt, number);
        shard.advance_to(rt, &self.history, pass, number, p)?;
        shard.few_changes(q, p, range, most)
    }

    /// Brings a part to a position that the pass has seen, if it is not there yet. In this and every other call that brings
    /// a part forward, the ids that follow a range with an entry's key are marked before the part takes the entry. While
    /// another thread has the part, this one sleeps. It costs a look-up and the search for these ids for each entry of the part
    /// that is new to it.
    ///
    /// On `OutOfMemory` the part may have come nearer to the position, and ids may be marked for an entry that it has not
    /// taken.
    pub fn catch_up<R: Wait>(
        &self,
        rt: &R,
        pass: &mut Pass,
        shard: u8,
        p: u64,
    ) -> Result<(), OutOfMemory>
        requires shard { shard < 16 }
        requires same_history { pass.old.history ≡ N.history }
        requires within { p ≤ length pass.old.view }
        ensures { ReadsOn pass.old pass.new }
    {
        self.lock_part(rt, shard)
            .advance_to(rt, &self.history, pass, shard, p)
    }

    /// Brings a part to a position that the pass has seen and notes it. Where no memory is found it notes nothing.
    fn note_part<R: Wait>(&self, rt: &R, pass: &mut Pass, number: u8, p: u64)
        requires number { number < 16 }
        requires same_history { pass.old.history ≡ N.history }
        requires within { p ≤ length pass.old.view }
        ensures { ReadsOn pass.old pass.new }
    {
        let mut part = self.lock_part(rt, number);
        let _ = part.advance_and_note(rt, &self.history, pass, number, p);
    }

    /// Brings each part to a position that the pass has seen and notes it, one after another.
    fn note_parts<R: Wait>(&self, rt: &R, pass: &mut Pass, p: u64)
        requires same_history { pass.old.history ≡ N.history }
        requires within { p ≤ length pass.old.view }
        ensures { ReadsOn pass.old pass.new }
    {
        for number in 0..SHARDS {
            self.note_part(rt, pass, number, p);
        }
    }

    /// Lets go of the next positions of a part up to a floor that the pass knows, if it has come to a position. Says whether there
    /// are more.
    fn trim_some<R: Wait>(
        &self,
        rt: &R,
        pass: &mut Pass,
        number: u8,
        floor: u64,
        position: u64,
    ) -> bool
        requires number { number < 16 }
        requires same_history { pass.old.history ≡ N.history }
        requires floor { floor ≤ pass.old.floor }
        ensures { ReadsOn pass.old pass.new }
    {
        self.lock_part(rt, number)
            .trim_some(rt, &self.history, pass, floor, position)
    }

    /// Lets go of the positions of a part up to a floor that the pass knows, if it has come to a position. Its lock is taken for
    /// each 256 of them anew, so that nobody waits for long.
    fn trim_part<R: Wait>(&self, rt: &R, pass: &mut Pass, number: u8, floor: u64, position: u64)
        requires number { number < 16 }
        requires same_history { pass.old.history ≡ N.history }
        requires floor { floor ≤ pass.old.floor }
        ensures { ReadsOn pass.old pass.new }
    {
        for _piece in 0..floor / TRIM + 1 {
            if !self.trim_some(rt, pass, number, floor, position) {
                return;
            }
        }
    }

    /// Lets go of the positions of each part up to a floor that the pass knows, one after another, but of those that have not come
    /// to a position.
    fn trim_parts<R: Wait>(&self, rt: &R, pass: &mut Pass, floor: u64, position: u64)
        requires same_history { pass.old.history ≡ N.history }
        requires floor { floor ≤ pass.old.floor }
        ensures { ReadsOn pass.old pass.new }
    {
        for number in 0..SHARDS {
            self.trim_part(rt, pass, number, floor, position);
        }
    }

    /// Settles the history: looks, brings each part to the last position and notes it, raises the floor of the history as far as it
    /// may be, and lets go of what each part keeps below it. A part for which no memory is found notes nothing and keeps what it
    /// has. While another thread has a part, this one sleeps.
    ///
    /// It costs what it does to bring each part there, and a look-up for each entry that is let go. A part is locked for as long as
    /// 256 of these take at most.
    pub fn settle<R: Wait>(&self, rt: &R, pass: &mut Pass)
        requires same_history { pass.old.history ≡ N.history }
        ensures { ReadsOn pass.old pass.new }
    {
        let position = self.history.look(rt, pass);
        self.note_parts(rt, pass, position);
        let floor = self.history.trim(rt, pass);
        self.trim_parts(rt, pass, floor, position);
    }

    /// Registers ranges of the part with a number under the id. Where there are none it takes no lock.
    fn follow_in<R: Wait>(
        &self,
        rt: &R,
        number: u8,
        id: u32,
        ranges: Vec<Range>,
    ) -> Result<(), OutOfMemory>
        requires { number < 16 }
    {
        if ranges.is_empty() {
            return Ok(());
        }
        self.lock_part(rt, number).follow(id, ranges)
    }

    /// Follows the ranges for the id: from now on it is marked before a part takes an entry that puts or removes a key of
    /// theirs. One that it follows already is not followed twice, and an id that is not below the number given to `new`
    /// follows none. While another thread has a part, this one sleeps; a lock is taken for each ranges of one part that
    /// stand behind one another.
    ///
    /// It costs what `UpdaterIndex::register` does. On `OutOfMemory` some of the ranges may be followed.
    pub fn follow<R: Wait>(
        &self,
        rt: &R,
        _pass: &mut Pass,
        id: u32,
        ranges: &[Range],
    ) -> Result<(), OutOfMemory>
        ensures { _pass.new ≡ _pass.old }
    {
        let mut number = 0;
        let mut run = Vec::new(self.alloc);
        for range in ranges {
            let next = part_of(range);
            if next != number {
                let before = mem::replace(&mut run, Vec::new(self.alloc));
                self.follow_in(rt, number, id, before)?;
            }
            number = next;
            run.push(range.copy()?)?;
        }
        self.follow_in(rt, number, id, run)
    }

    /// Takes away the ranges and the mark of the id in each part, one after another. It takes no memory. While another
    /// thread has a part, this one sleeps.
    pub fn forget<R: Wait>(&self, rt: &R, id: u32) {
        for shard in &self.shards {
            shard.lock(rt).forget(id);
        }
    }

    /// Takes out the id that was marked first in the first part that has one. None where no part had one when its lock was
    /// taken. It takes no memory. While another thread has a part, this one sleeps.
    pub fn next_marked<R: Wait>(&self, rt: &R) -> Option<u32> {
        for shard in &self.shards {
            let marked = shard.lock(rt).next_marked();
            if marked.is_some() {
                return marked;
            }
        }
        None
    }
}
