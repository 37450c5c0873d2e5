// Leaves: rows whose texts lie in one block.
ghost use Rattle.std.specs.Prelude.{◌≡◌, ◌+◌, ◌<◌, ◌≤◌, [], length, take, drop, slice_range, not, is_some, if◌then◌else◌, IfOk, OnOk, OnErr, true};
ghost use Rattle.semantics.specs.Texts.{with_pair, without_key, pairs_where, pairs_within};
ghost use Rattle.semantics.specs.Patterns.{bind};
ghost use Rattle.join_rows.specs.Laid.{IsRow, AreRows};
ghost use Rattle.join_rows.specs.Found.{row_at, Finds, Parts};

use crate::dropping::drop_entries;
use crate::entry::Entry;
use crate::laying::{Laid, copy_of, put_at, size_of};
use crate::search::{find, key_at, value_at};
use crate::text::pair_of;
use join_types::Pair;
use key_pattern::{Pattern, Slots};
use key_space::Range;
use out_of_memory::OutOfMemory;
use std::alloc::Global;
use std::marker::Model;

/// Rows whose texts lie in one block, in the order in which they were written, and where each lies, in the order of their keys.
/// Texts of rows that are gone stay until room is wanted, or until they are most of what there is.
#[derive(Debug, Drop)]
pub struct Leaf {
    bytes: Vec<u8>,
    entries: Vec<Entry>,
}

impl Model for Leaf {
    ghost use Rattle.semantics.specs.Texts.{Table};
    ghost use Rattle.join_rows.specs.Laid.{rows_of, AreLaid};

    ghost Value = { Table };

    ghost view = { λ l. rows_of l.bytes.items l.entries.items };

    ghost invariant = { λ l. AreLaid l.bytes.items l.entries.items };
}

/// From one place of a leaf up to another. There is nothing between them where the first is not below the second.
#[derive(Clone, Copy, Debug, PartialEq, Eq)]
pub struct Span {
    pub from: usize,
    pub to: usize,
}

impl Leaf {
    /// No rows. Nothing is allocated yet.
    pub fn new(alloc: Global) -> Leaf
        ensures { result ≡ [] }
    {
        Leaf {
            bytes: Vec::new(alloc),
            entries: Vec::new(alloc),
        }
    }

    /// The number of the rows, which are keys and values, keys ascending.
    pub fn len(&self) -> usize
        ensures number { result ≡ length self.now }
        ensures rows { AreRows self.now }
    {
        self.entries.len()
    }

    /// The bytes that the texts take, with those of rows that are gone. It takes constant time.
    pub fn bytes(&self) -> usize {
        self.bytes.len()
    }

    /// The key of the row at a place. It takes constant time.
    pub fn key(&self, place: usize) -> &str
        requires { place < length self.now }
        ensures key { result.now ≡ (row_at place self.now).0 }
        ensures rows { AreRows self.now }
    {
        key_at(self.bytes.as_slice(), self.entries.as_slice(), place)
    }

    /// The value of the row at a place. It takes constant time.
    pub fn value(&self, place: usize) -> &str
        requires { place < length self.now }
        ensures { result.now ≡ (row_at place self.now).1 }
    {
        value_at(self.bytes.as_slice(), self.entries.as_slice(), place)
    }

    /// The place of the key, or where it would stand. Logarithmic in the rows.
    pub fn find(&self, key: &str) -> Result<usize, usize>
        ensures found { Finds key.now self.now result }
        ensures rows { AreRows self.now }
    {
        find(self.bytes.as_slice(), self.entries.as_slice(), key)
    }

    /// How many rows have keys below this one. Logarithmic in the rows.
    pub fn count_below(&self, key: &str) -> usize
        ensures { Parts key.now self.now result }
    {
        match self.find(key) {
            Ok(place) => place,
            Err(place) => place,
        }
    }

    /// Where the rows of the range stand. It takes two searches in the leaf.
    pub fn span(&self, range: &Range) -> Span
        ensures inside { result.to ≤ length self.now }
        ensures rows { slice_range self.now result.from result.to ≡ pairs_within range.now self.now }
    {
        let from = self.count_below(range.lo());
        let to = self.count_below(range.hi());
        Span { from, to }
    }

    /// The pair of the row at a place, whose texts are copied. Linear in them.
    pub fn pair(&self, alloc: Global, place: usize) -> Result<Pair, OutOfMemory>
        requires { place < length self.now }
        ensures { IfOk result (λ pair. pair ≡ row_at place self.now) }
    {
        pair_of(alloc, self.key(place), self.value(place))
    }

    /// Puts the row in the place of whatever stands at its key, and says whether nothing stood there. It takes the search for
    /// the key, is linear in the texts, and moves where the rows behind it lie.
    ///
    /// On `OutOfMemory` the rows are unchanged.
    pub fn put(&mut self, key: &str, value: &str) -> Result<bool, OutOfMemory>
        requires { IsRow (key.now, value.now) }
        ensures ok { OnOk result (self.new ≡ with_pair key.now value.now self.old) }
        ensures fresh { IfOk result (λ fresh. length self.new ≡ length self.old + (if fresh then 1 else 0)) }
        ensures err { OnErr result (self.new ≡ self.old) }
    {
        let found = self.find(key);
        self.make_room(key.len() + value.len())?;
        put_at(&mut self.bytes, &mut self.entries, found, key, value)?;
        Ok(found.is_err())
    }

    /// Takes the row at the key out, and says whether there was one. It takes the search for the key, and moves where the rows
    /// behind it lie.
    pub fn remove(&mut self, key: &str) -> bool
        ensures rows { self.new ≡ without_key key.now self.old }
        ensures gone { length self.old ≡ length self.new + (if result then 1 else 0) }
    {
        match self.find(key) {
            Err(_) => false,
            Ok(place) => {
                self.entries.remove(place);
                true
            }
        }
    }

    /// Leaves out the rows whose keys fit the pattern under the slots, and says how many there were. It looks at each key, and moves
    /// where the rows behind each that goes lie.
    pub fn drop_fitting(&mut self, pattern: &Pattern, slots: &Slots<'_>) -> usize
        ensures rows { self.new ≡ pairs_where (λ key. not (is_some (bind pattern.now key slots.now))) self.old }
        ensures gone { length self.old ≡ length self.new + result }
    {
        drop_entries(self.bytes.as_slice(), &mut self.entries, pattern, slots)
    }

    /// The rows from a place on in new memory, without room for more. Linear in their texts.
    pub fn tail(&self, place: usize) -> Result<Leaf, OutOfMemory>
        requires { place ≤ length self.now }
        ensures { IfOk result (λ tail. tail ≡ drop place self.now) }
    {
        self.copied(place, self.entries.len())
    }

    /// Leaves out the rows from a place on, and lays the others down anew, without room for more. Linear in the texts. Where no
    /// memory is found for this, the room stays as it is.
    pub fn truncate(&mut self, place: usize)
        ensures { self.new ≡ take place self.old }
    {
        self.entries.truncate(place);
        self.tidy();
    }

    /// Lays the rows down anew, without room for more. Linear in the texts. Where no memory is found for this, the room stays as it
    /// is.
    fn tidy(&mut self)
        ensures { self.new ≡ self.old }
    {
        if let Ok(copy) = self.copied(0, self.entries.len()) {
            *self = copy;
        }
    }

    /// The rows from one place up to another in new memory, without room for more. Linear in their texts.
    fn copied(&self, from: usize, to: usize) -> Result<Leaf, OutOfMemory>
        requires order { from ≤ to }
        requires inside { to ≤ length self.now }
        ensures { IfOk result (λ copy. copy ≡ slice_range self.now from to) }
    {
        let alloc = *self.bytes.allocator();
        let part = copy_of(alloc, self.bytes.as_slice(), &self.entries[from..to])?;
        let Laid { bytes, entries } = part;
        Ok(Leaf { bytes, entries })
    }

    /// Makes room for so many bytes behind those that there are. Where it is used up, what is gone is left out first if it is
    /// more than a quarter. Then it is linear in the texts, and constant else.
    fn make_room(&mut self, more: usize) -> Result<(), OutOfMemory>
        ensures { self.new ≡ self.old }
    {
        if more <= self.bytes.capacity().saturating_sub(self.bytes.len()) {
            return Ok(());
        }
        let size = size_of(self.entries.as_slice());
        if self.bytes.len().saturating_sub(size) > self.bytes.len() / 4 {
            let copy = self.copied(0, self.entries.len())?;
            *self = copy;
        }
        let spare = self.bytes.len() / 2;
        self.bytes.reserve_exact(spare.max(more))?;
        Ok(())
    }
}
