// Leaves one behind another: which one a key belongs to, and how they change.
ghost use Rattle.std.specs.Prelude.{◌≡◌, ◌+◌, ◌-◌, ◌<◌, ◌≤◌, [], length, vec_len, if◌then◌else◌, IfOk, OnOk, OnErr};
ghost use Rattle.std.specs.Bool.{OnTrue};
ghost use Rattle.semantics.specs.Texts.{with_pair, without_key};
ghost use Rattle.join_rows.specs.Laid.{IsRow};
ghost use Rattle.key_ranges.specs.Ranges.{is_below};
ghost use Rattle.join_rows.specs.Found.{row_at};
ghost use Rattle.join_rows.specs.Leaves.{all_rows, leaf_at, without_empty, AreLeaves, AreCounted, IsLeafOf};

use crate::leaf::Leaf;
use crate::refusing::refusal;
use out_of_memory::OutOfMemory;
use std::alloc::Global;

/// A leaf may have as many rows as this.
const FEW_ROWS: usize = 64;

/// A leaf may have a quarter as many rows as there are leaves.
const LEAVES_A_ROW: usize = 4;

/// The rows of a leaf may take as many bytes as this.
const FEW_BYTES: usize = 16_384;

/// The rows of a leaf may take so many bytes for each leaf that there is.
const BYTES_A_LEAF: usize = 64;

/// Whether a leaf of so many rows and bytes is full, where there are so many leaves. What moves with a row is the rows of its leaf,
/// and now and then the leaves behind it. So that both stay few, a leaf may have more where there are more leaves.
fn is_full(rows: usize, bytes: usize, leaves: usize) -> bool {
    let most_rows = FEW_ROWS.max(leaves / LEAVES_A_ROW);
    let most_bytes = FEW_BYTES.max(leaves.saturating_mul(BYTES_A_LEAF));
    rows > most_rows || bytes > most_bytes
}

/// Whether the key stands in the last leaf, or would stand there. It takes constant time.
fn is_in_last(leaves: &[Leaf], key: &str) -> bool
    requires some { 0 < length leaves.now }
    requires are { AreLeaves leaves.now }
    ensures { OnTrue result (IsLeafOf key.now leaves.now (length leaves.now - 1)) }
{
    let last = leaves.len() - 1;
    !is_before(key, &leaves[last])
}

/// The place of the leaf in which the key stands, or would stand. Logarithmic in the leaves, and constant where it is the last one.
pub fn leaf_of(leaves: &[Leaf], key: &str) -> usize
    requires some { 0 < length leaves.now }
    requires are { AreLeaves leaves.now }
    ensures { IsLeafOf key.now leaves.now result }
{
    let mut low = 0;
    let mut end = leaves.len();
    if is_in_last(leaves, key) {
        return end - 1;
    }
    while low + 1 < end {
        let middle = low + (end - low) / 2;
        if is_before(key, &leaves[middle]) {
            end = middle;
        } else {
            low = middle;
        }
    }
    low
}

/// Puts the row in the place of whatever stands at its key, and gives the number of the rows then. It takes the searches for the leaf
/// and in it, and moves where the rows behind it in the leaf lie.
///
/// On `OutOfMemory` the rows are unchanged.
pub fn put_counted(
    alloc: Global,
    leaves: &mut Vec<Leaf>,
    count: u64,
    key: &str,
    value: &str,
) -> Result<u64, OutOfMemory>
    requires counted { AreCounted leaves.old.items count }
    requires row { IsRow (key.now, value.now) }
    ensures ok { OnOk result (all_rows leaves.new.items ≡ with_pair key.now value.now (all_rows leaves.old.items)) }
    ensures counted { IfOk result (λ count. AreCounted leaves.new.items count) }
    ensures err { OnErr result (all_rows leaves.new.items ≡ all_rows leaves.old.items) }
    ensures unchanged { OnErr result (AreCounted leaves.new.items count) }
{
    if count == u64::MAX {
        return Err(refusal(alloc));
    }
    let known = leaves.len();
    if known == 0 {
        return put_first(alloc, leaves, count, key, value);
    }
    let fresh = put_in(leaves, key, value)?;
    if fresh { Ok(count + 1) } else { Ok(count) }
}

/// Puts the row where there is no leaf, and gives the number of the rows then.
///
/// On `OutOfMemory` there is none still.
fn put_first(
    alloc: Global,
    leaves: &mut Vec<Leaf>,
    count: u64,
    key: &str,
    value: &str,
) -> Result<u64, OutOfMemory>
    requires none { vec_len leaves.old ≡ 0 }
    requires counted { AreCounted leaves.old.items count }
    requires row { IsRow (key.now, value.now) }
    ensures ok { OnOk result (all_rows leaves.new.items ≡ with_pair key.now value.now (all_rows leaves.old.items)) }
    ensures counted { IfOk result (λ count. AreCounted leaves.new.items count) }
    ensures err { OnErr result (all_rows leaves.new.items ≡ all_rows leaves.old.items) }
    ensures unchanged { OnErr result (AreCounted leaves.new.items count) }
{
    let leaf = leaf_of_one(alloc, key, value)?;
    let mut first = Vec::with_capacity(alloc, 1)?;
    first.push(leaf)?;
    *leaves = first;
    Ok(1)
}

/// Puts the row in the place of whatever stands at its key, and says whether nothing stood there. It takes the searches for the
/// leaf and in it, and moves where the rows behind it in the leaf lie.
///
/// On `OutOfMemory` the rows are unchanged.
fn put_in(leaves: &mut Vec<Leaf>, key: &str, value: &str) -> Result<bool, OutOfMemory>
    requires some { 0 < vec_len leaves.old }
    requires are { AreLeaves leaves.old.items }
    requires row { IsRow (key.now, value.now) }
    ensures are { AreLeaves leaves.new.items }
    ensures ok { OnOk result (all_rows leaves.new.items ≡ with_pair key.now value.now (all_rows leaves.old.items)) }
    ensures fresh { IfOk result (λ fresh. length (all_rows leaves.new.items) ≡ length (all_rows leaves.old.items) + (if fresh then 1 else 0)) }
    ensures err { OnErr result (all_rows leaves.new.items ≡ all_rows leaves.old.items) }
{
    let place = leaf_of(leaves.as_slice(), key);
    let fresh = leaves[place].put(key, value)?;
    cut_full(leaves, place, key);
    Ok(fresh)
}

/// The leaf at a place.
fn leaf_in(leaves: &[Leaf], place: usize) -> &Leaf
    requires { place < length leaves.now }
    ensures { result.now ≡ leaf_at place leaves.now }
{
    &leaves[place]
}

/// Cuts the leaf in two where it is full and memory is found: in the middle, or before the last row where that has the key which
/// came last, so that rows that come in order leave full leaves behind them. Linear in the leaf, and moves the leaves behind it.
fn cut_full(leaves: &mut Vec<Leaf>, place: usize, key: &str)
    requires inside { place < vec_len leaves.old }
    requires are { AreLeaves leaves.old.items }
    ensures are { AreLeaves leaves.new.items }
    ensures rows { all_rows leaves.new.items ≡ all_rows leaves.old.items }
{
    let leaf = leaf_in(leaves.as_slice(), place);
    let rows = leaf.len();
    if rows < 2 || !is_full(rows, leaf.bytes(), leaves.len()) {
        return;
    }
    let at = cut_place(leaf, rows, key);
    cut_before(leaves, place, at);
}

/// Cuts the leaf in two before a row of it, where memory is found. Linear in the leaf, and moves the leaves behind it.
fn cut_before(leaves: &mut Vec<Leaf>, place: usize, row: usize)
    requires inside { place < vec_len leaves.old }
    requires are { AreLeaves leaves.old.items }
    requires some { 0 < row }
    requires less { row < length (leaf_at place leaves.old.items) }
    ensures are { AreLeaves leaves.new.items }
    ensures rows { all_rows leaves.new.items ≡ all_rows leaves.old.items }
{
    let Ok(rest) = leaf_in(leaves.as_slice(), place).tail(row) else {
        return;
    };
    if leaves.insert(place + 1, rest).is_ok() {
        leaves[place].truncate(row);
    }
}

/// Where to cut a leaf of so many rows.
fn cut_place(leaf: &Leaf, rows: usize, key: &str) -> usize
    requires number { rows ≡ length leaf.now }
    requires some { 2 ≤ rows }
    ensures after { 0 < result }
    ensures before { result < rows }
{
    if leaf.key(rows - 1) == key {
        rows - 1
    } else {
        rows / 2
    }
}

/// Takes the row at the key out, and gives the number of the rows then. It takes the searches for the leaf and in it, and moves where
/// the rows behind it in the leaf lie, or the leaves behind a leaf that goes.
pub fn remove_counted(leaves: &mut Vec<Leaf>, count: u64, key: &str) -> u64
    requires { AreCounted leaves.old.items count }
    ensures rows { all_rows leaves.new.items ≡ without_key key.now (all_rows leaves.old.items) }
    ensures counted { AreCounted leaves.new.items result }
{
    let known = leaves.len();
    if known == 0 {
        return count;
    }
    let gone = remove_in(leaves, key);
    if gone { count - 1 } else { count }
}

/// Takes the row at the key out, and says whether there was one; a leaf goes with its last row. It takes the searches for the leaf
/// and in it, and moves where the rows behind it in the leaf lie, or the leaves behind a leaf that goes.
fn remove_in(leaves: &mut Vec<Leaf>, key: &str) -> bool
    requires some { 0 < vec_len leaves.old }
    requires are { AreLeaves leaves.old.items }
    ensures are { AreLeaves leaves.new.items }
    ensures rows { all_rows leaves.new.items ≡ without_key key.now (all_rows leaves.old.items) }
    ensures gone { length (all_rows leaves.old.items) ≡ length (all_rows leaves.new.items) + (if result then 1 else 0) }
{
    let place = leaf_of(leaves.as_slice(), key);
    let gone = leaves[place].remove(key);
    drop_empty(leaves, place);
    gone
}

/// Takes the leaf at a place out where it has no row, and moves the leaves behind it then.
pub fn drop_empty(leaves: &mut Vec<Leaf>, place: usize)
    requires { place < vec_len leaves.old }
    ensures { leaves.new.items ≡ without_empty place leaves.old.items }
{
    let rows = leaf_in(leaves.as_slice(), place).len();
    if rows == 0 {
        leaves.remove(place);
    }
}

/// Whether the key is below the first of the leaf.
fn is_before(key: &str, leaf: &Leaf) -> bool
    requires { 0 < length leaf.now }
    ensures { result ≡ is_below key.now (row_at 0 leaf.now).0 }
{
    key.cmp(leaf.key(0)).is_lt()
}

/// The leaf of one row.
fn leaf_of_one(alloc: Global, key: &str, value: &str) -> Result<Leaf, OutOfMemory>
    requires { IsRow (key.now, value.now) }
    ensures { IfOk result (λ leaf. leaf ≡ with_pair key.now value.now []) }
{
    let mut leaf = Leaf::new(alloc);
    leaf.put(key, value)?;
    Ok(leaf)
}
