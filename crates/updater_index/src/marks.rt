// The ids that are marked, in the order of marking.
ghost use Rattle.std.specs.Prelude.{◌≡◌, ℕ, ◌<◌, [], ◌∷◌, false, OnOk, OnErr, MatchOption, length, slice_index_or};
ghost use Rattle.updater_index.specs.Registered.{has_id, with_mark, without_mark};

use out_of_memory::OutOfMemory;
use std::alloc::Global;
use std::collections::VecDeque;
use std::marker::Model;

/// A queue of ids, each at most once. `queued` says of each id whether it is in it, as far as it goes; the ids behind are not.
#[derive(Debug, Drop)]
pub struct Marks {
    queued: Vec<bool>,
    queue: VecDeque<u32>,
}

impl Model for Marks {
    ghost use Rattle.std.specs.Prelude.{ℕ, List};
    ghost use Rattle.updater_index.specs.Marked.{AreQueued};

    ghost Value = { List ℕ };

    ghost view = { λ m. m.queue.items };

    ghost invariant = { λ m. AreQueued m.queued.items m.queue.items };
}

/// Lengthens the tests so far that there is one for the id. Each id is tested as before.
fn reach(queued: &mut Vec<bool>, id: u32) -> Result<(), OutOfMemory>
    ensures same { (q : ℕ) → slice_index_or queued.new.items q false ≡ slice_index_or queued.old.items q false }
    ensures reached { OnOk result (id < length queued.new.items) }
{
    let count = id as usize + 1;
    if queued.len() >= count {
        return Ok(());
    }
    queued.resize(count, false)?;
    Ok(())
}

impl Marks {
    /// No marks. Nothing is allocated.
    pub fn new(alloc: Global) -> Marks
        ensures { result ≡ [] }
    {
        Marks {
            queued: Vec::new(alloc),
            queue: VecDeque::new(alloc),
        }
    }

    /// Says whether the id is marked.
    fn is_marked(&self, id: u32) -> bool
        ensures { result ≡ has_id self.now id }
    {
        if id as usize >= self.queued.len() {
            return false;
        }
        self.queued[id as usize]
    }

    /// Marks the id; one that is marked keeps its place. It takes constant time, and where no id so high was marked yet, time
    /// linear in the ids up to it.
    pub fn mark(&mut self, id: u32) -> Result<(), OutOfMemory>
        ensures ok { OnOk result (self.new ≡ with_mark self.old id) }
        ensures err { OnErr result (self.new ≡ self.old) }
    {
        if self.is_marked(id) {
            return Ok(());
        }
        reach(&mut self.queued, id)?;
        self.queue.push_back(id)?;
        self.queued[id as usize] = true;
        Ok(())
    }

    /// Takes the mark of the id away, if it has one. Linear in the marks where it has one.
    pub fn unmark(&mut self, id: u32)
        ensures { self.new ≡ without_mark id self.old }
    {
        if self.is_marked(id) {
            self.queue.retain(|other| *other != id);
            self.queued[id as usize] = false;
        }
    }

    /// Takes out the id that was marked first.
    pub fn next(&mut self) -> Option<u32>
        ensures { MatchOption result ((self.old ≡ []) × (self.new ≡ self.old)) (λ id. self.old ≡ id ∷ self.new) }
    {
        let id = self.queue.pop_front()?;
        self.queued[id as usize] = false;
        Some(id)
    }
}
