// The place of a key among the rows of a leaf.
ghost use Rattle.std.specs.Prelude.{◌≡◌, ◌<◌, length};
ghost use Rattle.std.specs.Bool.{OnTrue};
ghost use Rattle.join_rows.specs.Laid.{rows_of, AreLaid};
ghost use Rattle.join_rows.specs.Found.{row_at, AllBelow, Finds};

use crate::entry::Entry;
use crate::text::text_of;
use std::cmp::Ordering;

/// The key of the entry at a place. It takes constant time.
pub fn key_at<'a>(bytes: &'a [u8], entries: &[Entry], place: usize) -> &'a str
    requires laid { AreLaid bytes.now entries.now }
    requires inside { place < length entries.now }
    ensures { result.now ≡ (row_at place (rows_of bytes.now entries.now)).0 }
{
    let entry = &entries[place];
    text_of(entry.key(bytes))
}

/// The value of the entry at a place. It takes constant time.
pub fn value_at<'a>(bytes: &'a [u8], entries: &[Entry], place: usize) -> &'a str
    requires laid { AreLaid bytes.now entries.now }
    requires inside { place < length entries.now }
    ensures { result.now ≡ (row_at place (rows_of bytes.now entries.now)).1 }
{
    let entry = &entries[place];
    text_of(entry.value(bytes))
}

/// Whether there is an entry, and the key of the last one is below this one. It takes constant time.
fn is_behind(bytes: &[u8], entries: &[Entry], key: &str) -> bool
    requires { AreLaid bytes.now entries.now }
    ensures { OnTrue result (AllBelow key.now (rows_of bytes.now entries.now)) }
{
    let count = entries.len();
    if count == 0 {
        return false;
    }
    key_at(bytes, entries, count - 1).cmp(key).is_lt()
}

/// The place of the key, or where it would stand. Logarithmic in the entries, and constant where it would stand behind them all, as it
/// does where rows come in order.
pub fn find(bytes: &[u8], entries: &[Entry], key: &str) -> Result<usize, usize>
    requires { AreLaid bytes.now entries.now }
    ensures { Finds key.now (rows_of bytes.now entries.now) result }
{
    let mut first = 0;
    let mut end = entries.len();
    if is_behind(bytes, entries, key) {
        return Err(end);
    }
    while first < end {
        let middle = first + (end - first) / 2;
        match key_at(bytes, entries, middle).cmp(key) {
            Ordering::Less => first = middle + 1,
            Ordering::Equal => return Ok(middle),
            Ordering::Greater => end = middle,
        }
    }
    Err(first)
}
