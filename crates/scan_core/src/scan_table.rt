// The scans under way.
ghost use Rattle.std.specs.Prelude.{◌≡◌, [], true, false, IfOk, IfSome, MatchOption, OnErr, OnOk, Some, None, is_some, option_map};
ghost use Rattle.std.specs.Option.{IsSomeAnd};
ghost use Rattle.std.specs.Ordering.{is_le, is_lt};
ghost use Rattle.semantics.specs.Texts.{text_cmp};
ghost use Rattle.core_events.specs.Plain.{goes_on};
ghost use Rattle.scan_core.specs.Progress.{begun, further, IsEnded, IsNext, IsShort, progress_at, Puts};

use core_events::ScanBound;
use join_types::Pair;
use key_space::{Range, RangeFault};
use out_of_memory::OutOfMemory;
use std::alloc::Global;
use std::collections::BTreeMap;
use std::marker::Model;

/// A scan under way.
#[derive(Drop)]
struct UnderWay {
    range: Range,
    position: u64,
    place: ScanBound,
    pairs: Vec<Pair>,
}

/// The next part of a scan.
#[derive(Drop)]
pub struct NextPart {
    /// From the scan's place up to where it is to be answered.
    pub range: Range,
    /// After how many entries.
    pub position: u64,
}

/// A scan that has ended.
#[derive(Drop)]
pub struct EndedScan {
    /// After how many entries it was answered.
    pub position: u64,
    /// The pairs of its parts, in order.
    pub pairs: Vec<Pair>,
}

/// The scans under way, each under its number: its range, its position, the place up to which it is answered, and the pairs
/// that it has so far.
#[derive(Drop)]
pub struct ScanTable {
    alloc: Global,
    scans: BTreeMap<u32, UnderWay>,
}

impl Model for ScanTable {
    ghost use Rattle.std.specs.Prelude.{List};
    ghost use Rattle.scan_core.specs.Progress.{Progress};
    ghost use Rattle.scan_core.specs.Stored.{AllLieInRange, table_of};

    ghost Value = { List Progress };

    ghost view = { λ t. table_of t.scans.entries };

    ghost invariant = { λ t. AllLieInRange t.scans.entries };
}

/// The range from a place of a range up to a bound that goes on from there within the range. Linear in the bounds.
fn range_between(
    alloc: Global,
    whole: &Range,
    place: &ScanBound,
    upto: &ScanBound,
) -> Result<Range, OutOfMemory>
    requires begins { is_le (text_cmp whole.now.low place.now) ≡ true }
    requires goes_on { is_lt (text_cmp place.now upto.now) ≡ true }
    requires ends { is_le (text_cmp upto.now whole.now.high) ≡ true }
    ensures { IfOk result (λ part. part ≡ record { low = place.now; high = upto.now }) }
{
    let _low = whole.lo();
    match Range::read(alloc, place.text(), upto.text()) {
        Ok(range) => Ok(range),
        Err(RangeFault::BadRange) => unreachable!(),
        Err(RangeFault::OutOfMemory(memory)) => Err(memory),
    }
}

impl ScanTable {
    /// No scans, which grow by this allocator. Nothing is allocated yet.
    pub fn new(alloc: Global) -> ScanTable
        ensures { result ≡ [] }
    {
        ScanTable {
            alloc,
            scans: BTreeMap::new(alloc),
        }
    }

    /// Whether a scan with a number is under way. Logarithmic in the scans.
    pub fn has(&self, number: u32) -> bool
        ensures { result ≡ is_some (progress_at number self.now) }
    {
        self.scans.contains_key(&number)
    }

    /// Begins a scan over a range, after so many entries, in place of one with its number. Logarithmic in the scans.
    ///
    /// On `OutOfMemory` the scans are unchanged.
    pub fn begin(&mut self, number: u32, range: Range, position: u64) -> Result<(), OutOfMemory>
        ensures ok { OnOk result (Puts number (Some (begun number range position)) self.old self.new) }
        ensures err { OnErr result (self.new ≡ self.old) }
    {
        let _low = range.lo();
        let place = ScanBound::first_of(&range)?;
        let scan = UnderWay {
            range,
            position,
            place,
            pairs: Vec::new(self.alloc),
        };
        self.scans.insert(number, scan)?;
        Ok(())
    }

    /// The next part of a scan, up to a bound. None exactly where there is no such scan, or the bound is not above its place
    /// and at most its last bound. Logarithmic in the scans, and linear in the bounds.
    pub fn next_part(&self, number: u32, upto: &ScanBound) -> Result<Option<NextPart>, OutOfMemory>
        ensures { IfOk result (λ found. MatchOption found
            (IfSome (progress_at number self.now) (λ g. goes_on upto.now g.scan ≡ false))
            (λ part. IsSomeAnd (progress_at number self.now) (λ g. IsNext upto.now g part.range part.position))) }
    {
        let Some(scan) = self.scans.get(&number) else {
            return Ok(None);
        };
        if scan.place.text() >= upto.text() {
            return Ok(None);
        }
        if upto.text() > scan.range.hi() {
            return Ok(None);
        }
        let range = range_between(self.alloc, &scan.range, &scan.place, upto)?;
        Ok(Some(NextPart {
            range,
            position: scan.position,
        }))
    }

    /// Adds the pairs of a scan's next part, and moves its place to a bound that goes on from there. Logarithmic in the scans,
    /// and linear in these pairs.
    ///
    /// On `OutOfMemory` the scans are unchanged.
    pub fn add_part(
        &mut self,
        number: u32,
        upto: ScanBound,
        pairs: Vec<Pair>,
    ) -> Result<(), OutOfMemory>
        requires { IsSomeAnd (progress_at number self.old) (λ g. goes_on upto g.scan ≡ true) }
        ensures ok { OnOk result (Puts number (option_map (further upto pairs.items) (progress_at number self.old)) self.old self.new) }
        ensures err { OnErr result (self.new ≡ self.old) }
    {
        let Some(scan) = self.scans.get_mut(&number) else {
            unreachable!()
        };
        let mut more = pairs;
        scan.pairs.append(&mut more)?;
        scan.place = upto;
        Ok(())
    }

    /// Takes out a scan that is answered up to its last bound. None exactly where there is no such scan, and then nothing
    /// changes. Logarithmic in the scans; it takes no memory.
    pub fn finish(&mut self, number: u32) -> Option<EndedScan>
        ensures none { result ≡ None → IfSome (progress_at number self.old) IsShort }
        ensures unchanged { result ≡ None → self.new ≡ self.old }
        ensures ended { IfSome result (λ ended. IsSomeAnd (progress_at number self.old) (λ g. IsEnded g ended.position ended.pairs.items)) }
        ensures freed { IfSome result (λ _. Puts number None self.old self.new) }
    {
        let Some(scan) = self.scans.get(&number) else {
            return None;
        };
        if scan.place.text() < scan.range.hi() {
            return None;
        }
        let Some(whole) = self.scans.remove(&number) else {
            unreachable!()
        };
        Some(EndedScan {
            position: whole.position,
            pairs: whole.pairs,
        })
    }

    /// Takes out the scan with a number; without such a scan it does nothing. Logarithmic in the scans; it takes no memory.
    pub fn abandon(&mut self, number: u32)
        ensures { Puts number None self.old self.new }
    {
        self.scans.remove(&number);
    }
}
