// Rows of calls on rows with the needs from which they come.
//
// A key has one row. An equal need is added once, and twice where it is pushed; needs are equal where the source, the slots, the
// keys by which they came and the range are. Needs that came by a key go with it, and those that came by none stay. Of two lists
// that are merged the other's rows stand where both have the key, and its needs are added that are not there yet. How many needs
// there are is shown, and not their order. The first 32 needs that are to be added are looked for in the list, and further ones in
// a set of copies, until needs are dropped or `forget` lets go of it; that changes no answer.
use join_rows::{Need, Rows};
use key_pattern::{SlotTexts, Slots};
use key_space::Key;
use row_texts::reading::{Unread, read_pair, read_pattern, read_range, split_call};
use row_texts::showing::{show_number, show_pairs};
use std::alloc::Global;
use std::mem::{replace, swap};

/// Reads the keys, with spaces between them.
fn read_keys(alloc: Global, words: &str) -> Result<Vec<Key>, Unread> {
    let mut keys = Vec::new(alloc);
    for key in words.split_whitespace() {
        keys.push(Key::read(alloc, key)?)?;
    }
    Ok(keys)
}

/// Reads a need of `t|a|` up to `t|a}`: the digit of its source, the key whose slots it has under `t|<a>|<b>`, and the keys by
/// which it came.
fn read_need(alloc: Global, words: &str) -> Result<Need, Unread> {
    let (source, words) = split_call(words);
    let (key, by) = split_call(words);
    let pattern = read_pattern(alloc, "t|<a>|<b>")?;
    let key = Key::read(alloc, key)?;
    let slots = pattern.matches(&key, &Slots::none()).ok_or(Unread)?;
    Ok(Need {
        source: source.parse::<u8>().map_err(|_| Unread)?,
        slots: SlotTexts::of(alloc, &slots)?,
        by: read_keys(alloc, by)?,
        range: read_range(alloc, "t|a|..t|a}")?,
    })
}

/// Sets the rows of the pairs, in this order.
fn set_rows(alloc: Global, rows: &mut Rows, pairs: &str) -> Result<(), Unread> {
    for pair in pairs.split_whitespace() {
        let (key, value) = read_pair(alloc, pair)?;
        rows.set(&key, Some(&value))?;
    }
    Ok(())
}

/// Leaves out the rows that fit the pattern, under the slots that it has of the key.
fn drop_fitting(alloc: Global, rows: &mut Rows, words: &str) -> Result<(), Unread> {
    let (pattern, key) = split_call(words);
    let pattern = read_pattern(alloc, pattern)?;
    let key = Key::read(alloc, key)?;
    let slots = pattern.matches(&key, &Slots::none()).ok_or(Unread)?;
    rows.drop_fitting(&pattern, &slots);
    Ok(())
}

/// Rows, and others that are to be merged into them.
#[derive(Drop)]
struct Played {
    rows: Rows,
    others: Rows,
}

impl Played {
    /// Makes one call that changes the rows.
    fn change_rows(&mut self, alloc: Global, name: &str, words: &str) -> Result<(), Unread> {
        let rows = &mut self.rows;
        match name {
            "set" => set_rows(alloc, rows, words)?,
            "leave" => rows.set(&Key::read(alloc, words)?, None)?,
            "drop" => drop_fitting(alloc, rows, words)?,
            "swap" => swap(&mut self.rows, &mut self.others),
            "merge" => {
                let others = replace(&mut self.others, Rows::new(alloc));
                let rows = replace(&mut self.rows, Rows::new(alloc));
                self.rows = rows.merge(others)?;
            }
            _ => return Err(Unread),
        }
        Ok(())
    }

    /// Makes one call that changes the needs, or the rows.
    fn change(&mut self, alloc: Global, name: &str, words: &str) -> Result<(), Unread> {
        let rows = &mut self.rows;
        match name {
            "need" => rows.add_need(read_need(alloc, words)?)?,
            "push" => rows.push_need(read_need(alloc, words)?)?,
            "by" => rows.drop_needs_by(&Key::read(alloc, words)?),
            "by_any" => rows.drop_needs_by_any(read_keys(alloc, words)?.as_slice()),
            "forget" => rows.forget_order(),
            _ => return self.change_rows(alloc, name, words),
        }
        Ok(())
    }

    /// Makes one call.
    fn call(&mut self, alloc: Global, words: &str, text: &mut String) -> Result<(), Unread> {
        let (name, words) = split_call(words);
        match name {
            "within" => {
                let pairs = self.rows.within(&read_range(alloc, words)?)?;
                show_pairs(text, pairs.as_slice())?;
            }
            "len" => show_number(alloc, text, self.rows.len())?,
            "needs" => show_number(alloc, text, self.rows.needs().len() as u64)?,
            _ => return self.change(alloc, name, words),
        }
        Ok(())
    }
}

/// Makes the calls on rows that begin with none, and with no needs.
pub fn play(alloc: Global, calls: &str, text: &mut String) -> Result<(), Unread> {
    let mut played = Played {
        rows: Rows::new(alloc),
        others: Rows::new(alloc),
    };
    for words in calls.split(';') {
        played.call(alloc, words, text)?;
    }
    Ok(())
}
