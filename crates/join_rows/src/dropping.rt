// Rows that are left out because their keys fit a pattern.
ghost use Rattle.std.specs.Prelude.{◌≡◌, ◌+◌, ◌++◌, ◌<◌, ◌≤◌, suc, not, is_some, length, take, drop, vec_len};
ghost use Rattle.semantics.specs.Texts.{pairs_where};
ghost use Rattle.semantics.specs.Patterns.{bind};
ghost use Rattle.join_rows.specs.Laid.{rows_of, AreLaid, LaidAs};
ghost use Rattle.join_rows.specs.Leaves.{all_rows, leaf_at, AreLeaves, AreCounted};

use crate::entry::Entry;
use crate::leaf::{Leaf, Span};
use crate::leaves::drop_empty;
use crate::search::key_at;
use key_pattern::{Pattern, Slots};

/// Whether the key fits the pattern under the slots. Linear in it.
fn fits_under(pattern: &Pattern, slots: &Slots<'_>, key: &str) -> bool
    ensures { result ≡ is_some (bind pattern.now key.now slots.now) }
{
    pattern.matches_text(key, slots).is_some()
}

/// Leaves out the entries whose keys fit the pattern under the slots, and says how many there were. It looks at each key, and moves
/// the entries behind each that goes.
pub fn drop_entries(
    bytes: &[u8],
    entries: &mut Vec<Entry>,
    pattern: &Pattern,
    slots: &Slots<'_>,
) -> usize
    requires { AreLaid bytes.now entries.old.items }
    ensures rows { LaidAs (pairs_where (λ key. not (is_some (bind pattern.now key slots.now))) (rows_of bytes.now entries.old.items)) bytes.now entries.new.items }
    ensures gone { length (rows_of bytes.now entries.old.items) ≡ length (rows_of bytes.now entries.new.items) + result }
{
    let before = entries.len();
    let mut place = before;
    while place > 0 {
        place -= 1;
        let key = key_at(bytes, entries.as_slice(), place);
        if fits_under(pattern, slots, key) {
            entries.remove(place);
        }
    }
    let left = entries.len();
    before - left
}

/// Leaves out the rows of one leaf whose keys fit the pattern under the slots, and says how many there were; the leaf goes with its
/// last row. It looks at each key of the leaf.
fn drop_at(leaves: &mut Vec<Leaf>, place: usize, pattern: &Pattern, slots: &Slots<'_>) -> usize
    requires inside { place < vec_len leaves.old }
    requires are { AreLeaves leaves.old.items }
    ensures are { AreLeaves leaves.new.items }
    ensures rows { all_rows leaves.new.items ≡ all_rows (take place leaves.old.items) ++ (pairs_where (λ key. not (is_some (bind pattern.now key slots.now))) (leaf_at place leaves.old.items) ++ all_rows (drop (suc place) leaves.old.items)) }
    ensures before { take place leaves.new.items ≡ take place leaves.old.items }
    ensures inside { place ≤ length leaves.new.items }
    ensures gone { length (all_rows leaves.old.items) ≡ length (all_rows leaves.new.items) + result }
{
    let gone = leaves[place].drop_fitting(pattern, slots);
    drop_empty(leaves, place);
    gone
}

/// Leaves out the rows of some leaves whose keys fit the pattern under the slots, where no row of
/// another leaf has such a key. It takes the number of all rows, and gives how many are left. It looks at each key of these leaves.
pub fn drop_between(
    leaves: &mut Vec<Leaf>,
    span: Span,
    count: u64,
    pattern: &Pattern,
    slots: &Slots<'_>,
) -> u64
    requires order { span.from ≤ span.to }
    requires inside { span.to ≤ vec_len leaves.old }
    requires counted { AreCounted leaves.old.items count }
    requires before { pairs_where (λ key. not (is_some (bind pattern.now key slots.now))) (all_rows (take span.from leaves.old.items)) ≡ all_rows (take span.from leaves.old.items) }
    requires behind { pairs_where (λ key. not (is_some (bind pattern.now key slots.now))) (all_rows (drop span.to leaves.old.items)) ≡ all_rows (drop span.to leaves.old.items) }
    ensures counted { AreCounted leaves.new.items result }
    ensures rows { all_rows leaves.new.items ≡ pairs_where (λ key. not (is_some (bind pattern.now key slots.now))) (all_rows leaves.old.items) }
{
    let mut count = count;
    let mut place = span.to;
    while place > span.from {
        place -= 1;
        let gone = drop_at(leaves, place, pattern, slots);
        count -= gone as u64;
    }
    count
}
