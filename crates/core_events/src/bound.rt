// The text up to which a scan is answered.
ghost use Rattle.std.specs.Prelude.{◌≡◌, ◌↔◌, IfOk, Some, Err, true, false, ◌∷◌, ◌++◌, []};
ghost use Rattle.semantics.specs.Texts.{brace, has_bar};
ghost use Rattle.key_space.specs.Parts.{is_table_name};
ghost use Rattle.core_events.specs.Events.{closes_table, is_bound};

use key_space::range::MAX_BOUND_BYTES;
use key_space::table::{find_table, is_table_name, names_table};
use key_space::{KeyBound, Range, RangeFault};
use out_of_memory::OutOfMemory;
use std::alloc::Global;
use std::marker::Model;

/// A text that may bound a range: it has at most 513 bytes, and for a table's name `T` of 1 to 64 bytes it begins with `T|`
/// or is `T}`. A copy shares a long text.
#[derive(Debug, Drop)]
pub struct ScanBound {
    place: KeyBound,
}

impl Model for ScanBound {
    ghost use Rattle.std.specs.Prelude.{◌≡◌, List, ℕ, true};
    ghost use Rattle.core_events.specs.Events.{is_bound};

    ghost Value = { List ℕ };

    ghost view = { λ b. b.place };

    ghost invariant = { λ b. is_bound b.place ≡ true };
}

/// Whether the text is `T}` for a table's name `T`. Linear in the text.
fn closes_table(text: &str) -> bool
    ensures { result ≡ closes_table text.now }
{
    match text.strip_suffix('}') {
        None => false,
        Some(name) => find_table(name).is_none() && is_table_name(name),
    }
}

/// Whether the text may bound a range. Linear in the text.
fn is_bound(text: &str) -> bool
    ensures { result ≡ is_bound text.now }
{
    text.len() <= MAX_BOUND_BYTES && (names_table(text) || closes_table(text))
}

/// The place of `T}`, for a table's name `T`. Linear in the name.
fn place_behind(alloc: Global, name: &str) -> Result<KeyBound, OutOfMemory>
    requires name { is_table_name name.now ≡ true }
    requires no_bar { has_bar name.now ≡ false }
    ensures { IfOk result (λ place. place ≡ name.now ++ brace ∷ []) }
{
    let mut prefix = String::with_capacity(alloc, name.len() + 1)?;
    prefix.push_str(name)?;
    prefix.push('|')?;
    Range::prefix_range(alloc, prefix.as_str())?.last_place()
}

/// The place of a text that may bound a range. Linear in the text.
fn place_of(alloc: Global, text: &str) -> Result<KeyBound, OutOfMemory>
    requires { is_bound text.now ≡ true }
    ensures { IfOk result (λ place. place ≡ text.now) }
{
    if !names_table(text) {
        return match text.strip_suffix('}') {
            Some(name) => place_behind(alloc, name),
            None => unreachable!(),
        };
    }
    match Range::read(alloc, text, text) {
        Ok(range) => range.first_place(),
        Err(RangeFault::OutOfMemory(memory)) => Err(memory),
        Err(RangeFault::BadRange) => unreachable!(),
    }
}

impl ScanBound {
    /// The text as a bound, which is copied. Linear in its length.
    ///
    /// `BadRange` comes exactly where the text may bound no range.
    pub fn read(alloc: Global, text: &str) -> Result<ScanBound, RangeFault>
        ensures ok { IfOk result (λ bound. (bound ≡ text.now) × (is_bound text.now ≡ true)) }
        ensures bad_range { (result ≡ Err RangeFault.BadRange) ↔ (is_bound text.now ≡ false) }
    {
        if !is_bound(text) {
            return Err(RangeFault::BadRange);
        }
        match place_of(alloc, text) {
            Ok(place) => Ok(ScanBound { place }),
            Err(memory) => Err(RangeFault::OutOfMemory(memory)),
        }
    }

    /// The first bound of a range, which shares a long text. It takes constant time.
    pub fn first_of(range: &Range) -> Result<ScanBound, OutOfMemory>
        ensures { IfOk result (λ bound. bound ≡ range.now.low) }
    {
        let place = range.first_place()?;
        Ok(ScanBound { place })
    }

    /// The last bound of a range, which shares a long text. It takes constant time.
    pub fn last_of(range: &Range) -> Result<ScanBound, OutOfMemory>
        ensures { IfOk result (λ bound. bound ≡ range.now.high) }
    {
        let _low = range.lo();
        let place = range.last_place()?;
        Ok(ScanBound { place })
    }

    /// The text of the bound.
    pub fn text(&self) -> &str
        ensures text { result.now ≡ self.now }
        ensures is_bound { is_bound self.now ≡ true }
    {
        self.place.text()
    }

    /// The bound as a place in the order of keys.
    pub fn place(&self) -> &KeyBound
        ensures place { result.now ≡ self.now }
        ensures is_bound { is_bound self.now ≡ true }
    {
        &self.place
    }

    /// An equal bound, which shares a long text. It takes constant time.
    pub fn copy(&self) -> Result<ScanBound, OutOfMemory>
        ensures { IfOk result (λ copy. copy ≡ self.now) }
    {
        let place = self.place.copy()?;
        Ok(ScanBound { place })
    }
}
