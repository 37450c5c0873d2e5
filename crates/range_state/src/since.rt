// What was noted after a position.
ghost use Rattle.std.specs.Prelude.{◌≡◌, flat_map, IfOk, OnOk};
ghost use Rattle.std.specs.List.{list_any};
ghost use Rattle.lazy_log.specs.Pending.{meets_output};
ghost use Rattle.range_state.specs.NotesSince.{GathersMore, key_after, keys_since, meets_after, slots_since};

use crate::note::{Marked, Note};
use crate::notes::Notes;
use key_pattern::{Pattern, SlotTexts};
use key_space::{Key, Range};
use out_of_memory::OutOfMemory;
use std::alloc::Global;
use std::collections::BTreeSet;

/// Puts the key of a note to others, where the note names one key of the range and was made after a position.
fn gather_key(
    note: &Note,
    since: u64,
    range: &Range,
    sorted: &mut BTreeSet<Key>,
) -> Result<(), OutOfMemory>
    ensures { OnOk result (GathersMore range.now (key_after since note.now) sorted.old.keys sorted.new.keys) }
{
    match &note.mark {
        Marked::Slots(_) => Ok(()),
        Marked::Key(key) => {
            if since < note.position && range.contains(key) {
                sorted.insert(key.copy()?)?;
            }
            Ok(())
        }
    }
}

/// Puts the keys of the range that these notes name to others, where they were made after a position.
fn gather_keys(
    notes: &[Note],
    since: u64,
    range: &Range,
    sorted: &mut BTreeSet<Key>,
) -> Result<(), OutOfMemory>
    ensures { OnOk result (GathersMore range.now (flat_map (key_after since) notes.now) sorted.old.keys sorted.new.keys) }
{
    for note in notes {
        gather_key(note, since, range, sorted)?;
    }
    Ok(())
}

/// The keys of a set, in order.
fn listed(alloc: Global, sorted: BTreeSet<Key>) -> Result<Vec<Key>, OutOfMemory>
    ensures { IfOk result (λ keys. keys.items ≡ sorted.keys) }
{
    let mut keys = Vec::new(alloc);
    for key in sorted {
        keys.push(key)?;
    }
    Ok(keys)
}

/// Whether the keys of the output under the slots meet the range.
fn slots_meet(
    alloc: Global,
    output: &Pattern,
    slots: &SlotTexts,
    range: &Range,
) -> Result<bool, OutOfMemory>
    ensures { IfOk result (λ meets. meets ≡ meets_output output.now range.now slots.now) }
{
    match output.prefix_range(alloc, &slots.lend())? {
        None => Ok(false),
        Some(held) => Ok(held.meets(range)),
    }
}

/// Whether a note was made after a position and is of slots that meet the range.
fn meets_after(
    alloc: Global,
    note: &Note,
    output: &Pattern,
    since: u64,
    range: &Range,
) -> Result<bool, OutOfMemory>
    ensures { IfOk result (λ meets. meets ≡ meets_after output.now since range.now note.now) }
{
    match &note.mark {
        Marked::Key(_) => Ok(false),
        Marked::Slots(slots) => {
            Ok(since < note.position && slots_meet(alloc, output, slots, range)?)
        }
    }
}

/// Whether one of these notes was made after a position and is of slots that meet the range.
fn any_meets(
    alloc: Global,
    notes: &[Note],
    output: &Pattern,
    since: u64,
    range: &Range,
) -> Result<bool, OutOfMemory>
    ensures { IfOk result (λ meets. meets ≡ list_any (meets_after output.now since range.now) notes.now) }
{
    for note in notes {
        if meets_after(alloc, note, output, since, range)? {
            return Ok(true);
        }
    }
    Ok(false)
}

impl Notes {
    /// The output keys of the range that were noted after a position, ascending, each once. It takes a look at each note,
    /// and the sorting of the keys, whose long texts are shared.
    pub fn keys_since(
        &self,
        alloc: Global,
        since: u64,
        range: &Range,
    ) -> Result<Vec<Key>, OutOfMemory>
        ensures { IfOk result (λ keys. keys.items ≡ keys_since since range.now self.now.list) }
    {
        let (first, rest) = self.ring().as_slices();
        let mut sorted = BTreeSet::new(alloc);
        gather_keys(first, since, range, &mut sorted)?;
        gather_keys(rest, since, range, &mut sorted)?;
        listed(alloc, sorted)
    }

    /// Whether slots that meet the range were noted after a position. It makes the range of the output under the slots of
    /// each such note.
    pub fn slots_meet_since(
        &self,
        alloc: Global,
        output: &Pattern,
        since: u64,
        range: &Range,
    ) -> Result<bool, OutOfMemory>
        ensures { IfOk result (λ meets. meets ≡ slots_since output.now since range.now self.now.list) }
    {
        let (first, rest) = self.ring().as_slices();
        Ok(
            any_meets(alloc, first, output, since, range)?
                || any_meets(alloc, rest, output, since, range)?,
        )
    }
}
