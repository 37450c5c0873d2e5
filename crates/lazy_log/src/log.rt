// Slots that were noted.
ghost use Rattle.std.specs.Prelude.{◌≡◌, ◌↔◌, [], ◌∷◌, ◌++◌, ◌+◌, ◌≤◌, filter, not, is_some, Contains, IfOk, IfSome, IsTrue, OnOk, OnErr};
ghost use Rattle.std.specs.Vec.{vec_len, vec_capacity};
ghost use Rattle.std.specs.List.{list_any};
ghost use Rattle.semantics.specs.Patterns.{Pattern as PlainPattern, bind};
ghost use Rattle.lazy_log.specs.Pending.{NotesOnce, meets_held, meets_output};
ghost use Rattle.lazy_log.specs.Held.{slots_of};
ghost use Rattle.lazy_log.specs.Index.{IsIndexOf};

use crate::index::{Index, indexed, with_slots};
use key_pattern::{Pattern, SlotTexts};
use key_space::{Key, Range};
use out_of_memory::OutOfMemory;
use std::alloc::Global;
use std::marker::Model;
use std::mem;

/// So many slots are looked for one by one before all are put in order, which takes about as long.
const LOOKS: u8 = 32;

/// Slots, and the range that holds every key of the output under them, if there is one.
#[derive(Debug, Drop)]
pub(crate) struct Noted {
    pub(crate) slots: SlotTexts,
    held: Option<Range>,
}

/// Slots of an output that were noted, in the order of noting. While many are looked for, an index of copies stands beside
/// them.
#[derive(Debug, Drop)]
pub struct LazyLog {
    alloc: Global,
    output: Pattern,
    noted: Vec<Noted>,
    index: Option<Index>,
    looks: u8,
}

impl Model for LazyLog {
    ghost use Rattle.lazy_log.specs.Pending.{PendingSlots};
    ghost use Rattle.std.specs.Prelude.{IfSome};
    ghost use Rattle.lazy_log.specs.Held.{slots_of, AreHeld};
    ghost use Rattle.lazy_log.specs.Index.{IsIndexOf};

    ghost Value = { PendingSlots };

    ghost view = { λ l. record { output = l.output; noted = slots_of l.noted.items } };

    ghost invariant = { λ l. AreHeld l.output l.noted.items × IfSome l.index (IsIndexOf l.output (slots_of l.noted.items)) };
}

/// Whether the slots are among the noted ones. Linear in the noted slots and their texts.
fn are_noted(noted: &[Noted], slots: &SlotTexts) -> bool
    ensures { IsTrue result ↔ Contains (slots_of noted.now) slots.now }
{
    for one in noted {
        if one.slots.is_same(slots) {
            return true;
        }
    }
    false
}

/// Whether the slots are among the noted ones, by the index if there is one. Logarithmic in the noted slots then.
fn are_among(index: &Option<Index>, noted: &[Noted], slots: &SlotTexts) -> bool
    ensures { (output : PlainPattern) → IfSome index.now (IsIndexOf output (slots_of noted.now)) → IsTrue result ↔ Contains (slots_of noted.now) slots.now }
{
    match index {
        None => are_noted(noted, slots),
        Some(index) => index.slots.contains(slots),
    }
}

/// Whether the key fits the output under the slots.
fn fits_under(output: &Pattern, slots: &SlotTexts, key: &Key) -> bool
    ensures { result ≡ is_some (bind output.now key.now slots.now) }
{
    output.matches(key, &slots.lend()).is_some()
}

impl Noted {
    /// Whether there is a range, and it meets the other.
    fn meets(&self, range: &Range) -> bool
        ensures { result ≡ meets_held self.now.held range.now }
    {
        match &self.held {
            None => false,
            Some(held) => held.meets(range),
        }
    }
}

/// Puts the slots that meet the range at the end of one list, and the others at the end of the other, in order. Nothing
/// is allocated.
fn part(noted: Vec<Noted>, range: &Range, taken: &mut Vec<SlotTexts>, left: &mut Vec<Noted>)
    requires taken { vec_len taken.old + vec_len noted ≤ vec_capacity taken.old }
    requires left { vec_len left.old + vec_len noted ≤ vec_capacity left.old }
    ensures taken { taken.new.items ≡ taken.old.items ++ slots_of (filter (λ n. meets_held n.held range.now) noted.items) }
    ensures left { left.new.items ≡ left.old.items ++ filter (λ n. not (meets_held n.held range.now)) noted.items }
{
    for one in noted {
        if one.meets(range) {
            taken.push_reserved(one.slots);
        } else {
            left.push_reserved(one);
        }
    }
}

impl LazyLog {
    /// Nothing is noted; the slots will be those of this output, and their list grows by this allocator. Nothing is
    /// allocated yet.
    pub fn new(alloc: Global, output: Pattern) -> LazyLog
        ensures output { result.output ≡ output }
        ensures noted { result.noted ≡ [] }
    {
        LazyLog {
            alloc,
            output,
            noted: Vec::new(alloc),
            index: None,
            looks: 0,
        }
    }

    /// Whether the slots are among the noted ones. The first 32 times it looks at all of these. Then it puts copies of them in
    /// order, which takes one sort, and from then on it is logarithmic in the noted slots.
    fn has(&mut self, slots: &SlotTexts) -> Result<bool, OutOfMemory>
        ensures same { self.new ≡ self.old }
        ensures has { IfOk result (λ has. IsTrue has ↔ Contains self.old.noted slots.now) }
    {
        if self.looks < LOOKS {
            self.looks += 1;
            return Ok(are_noted(self.noted.as_slice(), slots));
        }
        let index = mem::replace(&mut self.index, None);
        let index = indexed(self.alloc, &self.output, index, self.noted.as_slice())?;
        let has = are_among(&index, self.noted.as_slice(), slots);
        self.index = index;
        Ok(has)
    }

    /// Adds the slots at the end.
    fn push(&mut self, slots: SlotTexts) -> Result<(), OutOfMemory>
        ensures output { self.new.output ≡ self.old.output }
        ensures ok { OnOk result (self.new.noted ≡ self.old.noted ++ slots ∷ []) }
        ensures err { OnErr result (self.new.noted ≡ self.old.noted) }
    {
        let held = self.output.prefix_range(self.alloc, &slots.lend())?;
        let index = mem::replace(&mut self.index, None);
        let index = with_slots(self.alloc, &self.output, index, &slots)?;
        self.noted.push(Noted { slots, held })?;
        self.index = index;
        Ok(())
    }

    /// Adds the slots at the end, unless equal ones are noted already. The first 32 times it looks at all noted slots. Then it puts
    /// copies of them in order, which takes one sort, and from then on it is logarithmic in them, until slots are taken out.
    ///
    /// On `OutOfMemory` all is unchanged.
    pub fn note(&mut self, slots: SlotTexts) -> Result<(), OutOfMemory>
        ensures output { self.new.output ≡ self.old.output }
        ensures ok { OnOk result (NotesOnce slots self.old.noted self.new.noted) }
        ensures err { OnErr result (self.new.noted ≡ self.old.noted) }
    {
        if self.has(&slots)? {
            return Ok(());
        }
        self.push(slots)
    }

    /// Whether the key fits the output under some of the noted slots, with a look at all of them.
    fn covers_one_by_one(&self, key: &Key) -> bool
        ensures { result ≡ list_any (λ slots. is_some (bind self.now.output key.now slots)) self.now.noted }
    {
        self.noted
            .iter()
            .any(|noted| fits_under(&self.output, &noted.slots, key))
    }

    /// Whether the key fits the output under some of the noted slots, by their texts; none where no index stands beside them.
    fn covers_by_texts(&self, key: &Key) -> Result<Option<bool>, OutOfMemory>
        ensures { IfOk result (λ found. IfSome found (λ covered. covered ≡ list_any (λ slots. is_some (bind self.now.output key.now slots)) self.now.noted)) }
    {
        let Some(index) = &self.index else {
            return Ok(None);
        };
        let covered = index.covers(self.alloc, &self.output, key)?;
        Ok(Some(covered))
    }

    /// Whether the key fits the output under some of the noted slots. Where many were looked for by `note`, it is logarithmic in
    /// them for each set of places at which some of them have texts, which are as many as the ways in which changed keys set
    /// slots. Otherwise, and where no memory is found for the texts of the key, it looks at all noted slots.
    pub fn covers(&self, key: &Key) -> bool
        ensures { result ≡ list_any (λ slots. is_some (bind self.now.output key.now slots)) self.now.noted }
    {
        match self.covers_by_texts(key) {
            Ok(Some(covered)) => covered,
            _ => self.covers_one_by_one(key),
        }
    }

    /// Whether the prefix range of the output under some of the noted slots meets the range. Linear in the noted
    /// slots and the bounds, and nothing is allocated.
    pub fn meets(&self, range: &Range) -> bool
        ensures { result ≡ list_any (meets_output self.now.output range.now) self.now.noted }
    {
        self.noted.iter().any(|noted| noted.meets(range))
    }

    /// Takes out the slots under which the prefix range of the output meets the range, in the order of noting. The
    /// others are left, in their order. Linear in the noted slots and the bounds, and no text is copied. Where it takes some
    /// out, `note` looks at all that are left for the next 32 times.
    ///
    /// On `OutOfMemory` all is unchanged.
    pub fn take_meeting(&mut self, range: &Range) -> Result<Vec<SlotTexts>, OutOfMemory>
        ensures taken { IfOk result (λ taken. taken.items ≡ filter (meets_output self.old.output range.now) self.old.noted) }
        ensures left { OnOk result (self.new ≡ record self.old { noted = filter (λ slots. not (meets_output self.old.output range.now slots)) self.old.noted }) }
        ensures err { OnErr result (self.new ≡ self.old) }
    {
        if !self.meets(range) {
            return Ok(Vec::new(self.alloc));
        }
        let mut taken = Vec::with_capacity(self.alloc, self.noted.len())?;
        let mut left = Vec::with_capacity(self.alloc, self.noted.len())?;
        self.index = None;
        self.looks = 0;
        let noted = mem::replace(&mut self.noted, Vec::new(self.alloc));
        part(noted, range, &mut taken, &mut left);
        self.noted = left;
        Ok(taken)
    }
}
