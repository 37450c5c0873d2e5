// Rows in packed leaves.
ghost use Rattle.std.specs.Prelude.{◌≡◌, ◌+◌, ◌≤◌, ◌++◌, [], length, take, drop, not, is_some, IfOk, OnOk, OnErr, IsTrue};
ghost use Rattle.std.specs.FinMap.Entries.{is_sorted};
ghost use Rattle.semantics.specs.Texts.{text_cmp, with_pair, without_key, pairs_where, pairs_within};
ghost use Rattle.semantics.specs.Patterns.{bind};
ghost use Rattle.semantics.specs.States.{merged};
ghost use Rattle.join_rows.specs.Laid.{IsRow};
ghost use Rattle.join_rows.specs.Found.{AllBelow, AllAbove};
ghost use Rattle.join_rows.specs.Leaves.{all_rows, AreLeaves};

use crate::dropping::drop_between;
use crate::leaf::{Leaf, Span};
use crate::leaves::{leaf_of, put_counted, remove_counted};
use crate::refusing::refusal;
use join_types::{Pair, RowSink};
use key_pattern::{Pattern, Slots};
use key_space::{Key, Range, Value};
use out_of_memory::OutOfMemory;
use std::alloc::Global;
use std::marker::Model;

/// Pairs of a key and a value, each key once, ascending, in leaves that keep the texts of many pairs in one block.
#[derive(Debug, Drop)]
pub struct PackedRows {
    alloc: Global,
    leaves: Vec<Leaf>,
    count: u64,
}

impl Model for PackedRows {
    ghost use Rattle.semantics.specs.Texts.{Table};
    ghost use Rattle.join_rows.specs.Leaves.{all_rows, AreCounted};

    ghost Value = { Table };

    ghost view = { λ p. all_rows p.leaves.items };

    ghost invariant = { λ p. AreCounted p.leaves.items p.count };
}

/// From which leaf up to which the rows of the range stand. It takes two searches among the leaves.
fn span_of(leaves: &[Leaf], range: &Range) -> Span
    requires { AreLeaves leaves.now }
    ensures order { result.from ≤ result.to }
    ensures inside { result.to ≤ length leaves.now }
    ensures below { AllBelow range.now.low (all_rows (take result.from leaves.now)) }
    ensures above { AllAbove range.now.high (all_rows (drop result.to leaves.now)) }
{
    if leaves.is_empty() {
        return Span { from: 0, to: 0 };
    }
    let from = leaf_of(leaves, range.lo());
    let rest = &leaves[from..];
    let last = leaf_of(rest, range.hi());
    Span {
        from,
        to: from + last + 1,
    }
}

/// From which leaf up to which the rows stand whose keys fit the pattern under the slots. It takes the search for the range that
/// holds every such key. Where no memory is found for the range, these are all leaves.
fn span_fitting(alloc: Global, leaves: &[Leaf], pattern: &Pattern, slots: &Slots<'_>) -> Span
    requires { AreLeaves leaves.now }
    ensures order { result.from ≤ result.to }
    ensures inside { result.to ≤ length leaves.now }
    ensures before { pairs_where (λ key. not (is_some (bind pattern.now key slots.now))) (all_rows (take result.from leaves.now)) ≡ all_rows (take result.from leaves.now) }
    ensures behind { pairs_where (λ key. not (is_some (bind pattern.now key slots.now))) (all_rows (drop result.to leaves.now)) ≡ all_rows (drop result.to leaves.now) }
{
    match pattern.prefix_range(alloc, slots) {
        Ok(None) => Span { from: 0, to: 0 },
        Ok(Some(range)) => span_of(leaves, &range),
        Err(_) => Span {
            from: 0,
            to: leaves.len(),
        },
    }
}

/// Puts copies of the rows of a leaf that lie in the range behind the pairs. It takes two searches in the leaf, and is linear in the
/// texts that it copies.
fn copy_span(
    alloc: Global,
    leaf: &Leaf,
    range: &Range,
    pairs: &mut Vec<Pair>,
) -> Result<(), OutOfMemory>
    ensures { OnOk result (pairs.new.items ≡ pairs.old.items ++ pairs_within range.now leaf.now) }
{
    let span = leaf.span(range);
    pairs.reserve(span.to.saturating_sub(span.from))?;
    for place in span.from..span.to {
        pairs.push(leaf.pair(alloc, place)?)?;
    }
    Ok(())
}

/// Hands the rows of a leaf that lie in the range to the sink, in order, and says how many there are. It takes two searches in the
/// leaf, and what the sink takes for each row.
fn hand_span<K: RowSink>(leaf: &Leaf, range: &Range, sink: &mut K) -> Result<usize, OutOfMemory>
    ensures rows { OnOk result (K.got sink.old sink.new (pairs_within range.now leaf.now)) }
    ensures number { IfOk result (λ count. count ≡ length (pairs_within range.now leaf.now)) }
{
    let span = leaf.span(range);
    for place in span.from..span.to {
        sink.push(leaf.key(place), leaf.value(place))?;
    }
    Ok(span.to.saturating_sub(span.from))
}

/// The sum of two numbers of rows. Rows of which there are 2^64 or more have no memory. It takes constant time.
fn sum_of(alloc: Global, count: usize, more: usize) -> Result<usize, OutOfMemory>
    ensures { IfOk result (λ sum. sum ≡ count + more) }
{
    match count.checked_add(more) {
        Some(sum) => Ok(sum),
        None => Err(refusal(alloc)),
    }
}

impl PackedRows {
    /// No pairs; they grow by this allocator. Nothing is allocated yet.
    pub fn new(alloc: Global) -> PackedRows
        ensures { result ≡ [] }
    {
        PackedRows {
            alloc,
            leaves: Vec::new(alloc),
            count: 0,
        }
    }

    /// Puts the value at the key, in the place of whatever stands there. It takes the searches for the leaf and in it, and moves
    /// where the rows behind it in the leaf lie: at most 64, or a quarter of the number of leaves where that is more. Linear in the
    /// texts, which are copied.
    ///
    /// On `OutOfMemory` the pairs are unchanged.
    pub fn put(&mut self, key: &Key, value: &Value) -> Result<(), OutOfMemory>
        ensures ok { OnOk result (self.new ≡ with_pair key.now value.now self.old) }
        ensures err { OnErr result (self.new ≡ self.old) }
    {
        let key = key.text();
        let value = value.text();
        self.put_row(key, value)
    }

    /// Puts a row in the place of whatever stands at its key.
    fn put_row(&mut self, key: &str, value: &str) -> Result<(), OutOfMemory>
        requires { IsRow (key.now, value.now) }
        ensures ok { OnOk result (self.new ≡ with_pair key.now value.now self.old) }
        ensures err { OnErr result (self.new ≡ self.old) }
    {
        let count = put_counted(self.alloc, &mut self.leaves, self.count, key, value)?;
        self.count = count;
        Ok(())
    }

    /// Leaves nothing at the key. It takes the searches for the leaf and in it, and moves what stands behind it as `put` does.
    pub fn remove(&mut self, key: &Key)
        ensures { self.new ≡ without_key key.now self.old }
    {
        let key = key.text();
        self.count = remove_counted(&mut self.leaves, self.count, key);
    }

    /// The number of the pairs, whose keys ascend. It takes constant time.
    pub fn len(&self) -> u64
        ensures number { result ≡ length self.now }
        ensures ascending { IsTrue (is_sorted text_cmp self.now) }
    {
        self.count
    }

    /// The leaves that have the pairs of the range, which are lent, with other pairs beside them. It takes two searches among the
    /// leaves.
    pub fn leaves_within(&self, range: &Range) -> &[Leaf]
        ensures { pairs_within range.now (all_rows result.now) ≡ pairs_within range.now self.now }
    {
        let leaves = self.leaves.as_slice();
        let span = span_of(leaves, range);
        &leaves[span.from..span.to]
    }

    /// Copies of the pairs whose keys lie in the range, in order. It takes the search for the range, and is linear in the texts that
    /// it copies.
    pub fn within(&self, range: &Range) -> Result<Vec<Pair>, OutOfMemory>
        ensures { IfOk result (λ pairs. pairs.items ≡ pairs_within range.now self.now) }
    {
        let mut pairs = Vec::new(self.alloc);
        let leaves = self.leaves_within(range);
        for leaf in leaves {
            copy_span(self.alloc, leaf, range, &mut pairs)?;
        }
        Ok(pairs)
    }

    /// Hands the pairs whose keys lie in the range to the sink, in order, and says how many there are. It takes the search for the
    /// range, and what the sink takes for each pair. No text is copied here.
    pub fn hand_within<K: RowSink>(&self, range: &Range, sink: &mut K) -> Result<usize, OutOfMemory>
        ensures rows { OnOk result (K.got sink.old sink.new (pairs_within range.now self.now)) }
        ensures number { IfOk result (λ count. count ≡ length (pairs_within range.now self.now)) }
    {
        let mut count = 0;
        let leaves = self.leaves_within(range);
        for leaf in leaves {
            let more = hand_span(leaf, range, sink)?;
            count = sum_of(self.alloc, count, more)?;
        }
        Ok(count)
    }

    /// Leaves out the pairs whose keys fit the pattern under the slots. It takes the search for the range that holds every such key,
    /// a look at each key in the leaves of this range, and the removal of those that fit.
    ///
    /// Where no memory is found for the range, it looks at all keys instead.
    pub fn drop_fitting(&mut self, pattern: &Pattern, slots: &Slots<'_>)
        ensures { self.new ≡ pairs_where (λ key. not (is_some (bind pattern.now key slots.now))) self.old }
    {
        let span = span_fitting(self.alloc, self.leaves.as_slice(), pattern, slots);
        let count = self.count;
        self.count = drop_between(&mut self.leaves, span, count, pattern, slots);
    }

    /// The pairs of both, those of the other at the keys that both have. It takes a `put` for each pair of the other, and constant
    /// time where either has none.
    pub fn merge(self, other: PackedRows) -> Result<PackedRows, OutOfMemory>
        ensures { IfOk result (λ rows. rows ≡ merged self other) }
    {
        let own = self.len();
        let more = other.len();
        if more == 0 {
            return Ok(self);
        }
        if own == 0 {
            return Ok(other);
        }
        let PackedRows { leaves, .. } = other;
        let mut rows = self;
        for leaf in leaves.iter() {
            rows.put_all(leaf)?;
        }
        Ok(rows)
    }

    /// Puts each row of the leaf in the place of whatever stands at its key.
    fn put_all(&mut self, leaf: &Leaf) -> Result<(), OutOfMemory>
        ensures { OnOk result (self.new ≡ merged self.old leaf.now) }
    {
        for place in 0..leaf.len() {
            self.put_row(leaf.key(place), leaf.value(place))?;
        }
        Ok(())
    }
}
