// Ranges of keys.
ghost use Rattle.std.specs.Prelude.{◌≡◌, ◌≤◌, ◌↔◌, ◌<◌, IfOk, length, true, false, [], ◌∷◌, ◌++◌, nat_eq};
ghost use Rattle.std.specs.List.{ends_with};
ghost use Rattle.std.specs.String.{string_bytes};
ghost use Rattle.semantics.specs.Texts.{Range as Bounds, bar, is_key, is_range, table_of, within};
ghost use Rattle.key_ranges.specs.Ranges.{meets, cut, later, earlier, prefix_range, just, is_single};
ghost use Rattle.key_space.specs.Parts.{ends_table};

use crate::key::Key;
use crate::key_bound::KeyBound;
use crate::shared_text::SharedText;
use crate::table::{find_table, is_table_name};
use out_of_memory::OutOfMemory;
use std::alloc::Global;
use std::marker::Model;

/// The most bytes of a bound.
pub const MAX_BOUND_BYTES: usize = 513;

/// A range of keys: those from its first bound on and below its last. For one table T the first bound begins with `T|`,
/// and the last begins with `T|` or is `T}`; neither has more than 513 bytes. A copy shares long texts.
#[derive(Debug, Drop)]
pub struct Range {
    low: KeyBound,
    high: KeyBound,
}

impl Model for Range {
    ghost use Rattle.std.specs.Prelude.{◌≡◌, true};
    ghost use Rattle.semantics.specs.Texts.{Range as Bounds, is_range};

    ghost Value = { Bounds };

    ghost view = { λ r. record { low = r.low; high = r.high } };

    ghost invariant = { λ r. is_range r.low r.high ≡ true };
}

/// Why two bounds are refused as a range.
#[derive(Debug, Drop, PartialEq, Eq)]
pub enum RangeFault {
    /// The bounds are no range.
    BadRange,
    /// No memory was found for it.
    OutOfMemory(OutOfMemory),
}

/// Whether the last bound begins with the table's name and `|`, or is the name and `}`.
fn ends_table(table: &str, high: &str) -> bool
    ensures { result ≡ ends_table table.now high.now }
{
    match high.strip_prefix(table) {
        None => false,
        Some(rest) => rest.starts_with('|') || rest == "}",
    }
}

/// Looks at a range, and so knows that its bounds are those of a range. Constant.
pub fn look_at(range: &Range)
    ensures { is_range range.now.low range.now.high ≡ true }
{
    let _low = range.lo();
}

/// Whether two texts are the bounds of a range.
fn is_range(low: &str, high: &str) -> bool
    ensures { result ≡ is_range low.now high.now }
{
    match find_table(low) {
        None => false,
        Some(table) => {
            low.len() <= MAX_BOUND_BYTES
                && high.len() <= MAX_BOUND_BYTES
                && is_table_name(table)
                && ends_table(table, high)
                && low <= high
        }
    }
}

/// The later of two bounds. Linear in the shorter text.
fn later(first: &KeyBound, second: &KeyBound) -> Result<KeyBound, OutOfMemory>
    ensures { IfOk result (λ place. place ≡ later first.now second.now) }
{
    if first < second {
        second.copy()
    } else {
        first.copy()
    }
}

/// The earlier of two bounds. Linear in the shorter text.
fn earlier(first: &KeyBound, second: &KeyBound) -> Result<KeyBound, OutOfMemory>
    ensures { IfOk result (λ place. place ≡ earlier first.now second.now) }
{
    if second < first {
        second.copy()
    } else {
        first.copy()
    }
}

/// The bound whose text is this one, followed by an ASCII character. Linear in the text.
fn followed(alloc: Global, text: &str, end: char) -> Result<KeyBound, OutOfMemory>
    requires { end < 128 }
    ensures { IfOk result (λ place. place ≡ text.now ++ end ∷ []) }
{
    let mut whole = String::with_capacity(alloc, text.len() + 1)?;
    whole.push_str(text)?;
    whole.push(end)?;
    Ok(KeyBound::of(SharedText::keep(alloc, whole)?))
}

impl Range {
    /// The range between two bounds, which are copied once. Linear in their lengths.
    ///
    /// `BadRange` comes exactly where the bounds are no range.
    pub fn read(alloc: Global, low: &str, high: &str) -> Result<Range, RangeFault>
        ensures ok { IfOk result (λ range. (range.low ≡ low.now) × (range.high ≡ high.now) × (is_range low.now high.now ≡ true)) }
        ensures bad_range { (result ≡ Err RangeFault.BadRange) ↔ (is_range low.now high.now ≡ false) }
    {
        if !is_range(low, high) {
            return Err(RangeFault::BadRange);
        }
        let low = match SharedText::read(alloc, low) {
            Ok(text) => KeyBound::of(text),
            Err(memory) => return Err(RangeFault::OutOfMemory(memory)),
        };
        let high = match SharedText::read(alloc, high) {
            Ok(text) => KeyBound::of(text),
            Err(memory) => return Err(RangeFault::OutOfMemory(memory)),
        };
        Ok(Range { low, high })
    }

    /// The range between two bounds, which it keeps: no text is copied.
    pub fn between(low: String, high: String) -> Result<Range, OutOfMemory>
        requires { is_range (string_bytes low) (string_bytes high) ≡ true }
        ensures { IfOk result (λ range. range ≡ record { low = string_bytes low; high = string_bytes high }) }
    {
        let alloc = *low.allocator();
        let low = KeyBound::of(SharedText::keep(alloc, low)?);
        let high = KeyBound::of(SharedText::keep(alloc, high)?);
        Ok(Range { low, high })
    }

    /// The first bound.
    pub fn lo(&self) -> &str
        ensures text { result.now ≡ self.now.low }
        ensures is_range { is_range self.now.low self.now.high ≡ true }
    {
        self.low.text()
    }

    /// The last bound, which no key of the range reaches.
    pub fn hi(&self) -> &str
        ensures { result.now ≡ self.now.high }
    {
        self.high.text()
    }

    /// The name of the range's table: what stands before the first `|` of its first bound. Linear in the name.
    pub fn table(&self) -> &str
        ensures table { result.now ≡ table_of self.now.low }
        ensures short { length result.now ≤ 64 }
        ensures is_range { is_range self.now.low self.now.high ≡ true }
    {
        match find_table(self.low.text()) {
            Some(table) => table,
            None => unreachable!(),
        }
    }

    /// The first bound, which shares a long text. It takes constant time.
    pub fn first_place(&self) -> Result<KeyBound, OutOfMemory>
        ensures place { IfOk result (λ place. place ≡ self.now.low) }
        ensures is_range { is_range self.now.low self.now.high ≡ true }
    {
        self.low.copy()
    }

    /// The last bound, which shares a long text. It takes constant time.
    pub fn last_place(&self) -> Result<KeyBound, OutOfMemory>
        ensures { IfOk result (λ place. place ≡ self.now.high) }
    {
        self.high.copy()
    }

    /// Whether the key lies in the range. Linear in the shorter texts.
    pub fn contains(&self, key: &Key) -> bool
        ensures { result ≡ within self.now key.now }
    {
        self.lo() <= key.text() && key.text() < self.hi()
    }

    /// Whether the range holds one key alone: its last bound is its first bound and byte 0. Linear in the bounds.
    pub fn is_single(&self) -> bool
        ensures { result ≡ is_single self.now }
    {
        match self.hi().strip_suffix('\0') {
            None => false,
            Some(front) => front == self.lo(),
        }
    }

    /// An equal range, which shares the bounds. It takes constant time.
    pub fn copy(&self) -> Result<Range, OutOfMemory>
        ensures { IfOk result (λ copy. copy ≡ self.now) }
    {
        let low = self.low.copy()?;
        let high = self.high.copy()?;
        Ok(Range { low, high })
    }

    /// Whether the two ranges meet: neither is empty, and each first bound is below the other's last. Linear in the
    /// bounds.
    pub fn meets(&self, other: &Range) -> bool
        ensures { result ≡ meets self.now other.now }
    {
        self.lo() < self.hi()
            && other.lo() < other.hi()
            && self.lo() < other.hi()
            && other.lo() < self.hi()
    }

    /// The common part of the two ranges, from the greater first bound to the lesser last one, which shares both; none
    /// exactly where they do not meet. Linear in the bounds.
    pub fn cut(&self, other: &Range) -> Result<Option<Range>, OutOfMemory>
        ensures { IfOk result (λ part. part ≡ cut self.now other.now) }
    {
        if !self.meets(other) {
            return Ok(None);
        }
        let low = later(&self.low, &other.low)?;
        let high = earlier(&self.high, &other.high)?;
        Ok(Some(Range { low, high }))
    }

    /// The range of all texts that begin with the prefix, a key that ends with `|`: its last bound is the prefix with
    /// `}` in place of the last byte. Linear in the prefix.
    pub fn prefix_range(alloc: Global, prefix: &str) -> Result<Range, OutOfMemory>
        requires key { is_key prefix.now ≡ true }
        requires ends { ends_with nat_eq prefix.now (bar ∷ []) ≡ true }
        ensures { IfOk result (λ range. range ≡ prefix_range prefix.now) }
    {
        match prefix.strip_suffix('|') {
            Some(front) => {
                let low = KeyBound::of(SharedText::read(alloc, prefix)?);
                let high = followed(alloc, front, '}')?;
                Ok(Range { low, high })
            }
            None => unreachable!(),
        }
    }

    /// The range of the key alone, from it to the key followed by byte 0. Its first bound shares the key's text. Linear
    /// in the key.
    pub fn just(alloc: Global, key: &Key) -> Result<Range, OutOfMemory>
        ensures { IfOk result (λ range. range ≡ just key.now) }
    {
        let low = key.place().copy()?;
        let high = followed(alloc, key.text(), '\0')?;
        Ok(Range { low, high })
    }
}
