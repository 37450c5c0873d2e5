// The changes of a table that are kept at hand, so that who asks for many of its ranges is not answered one by one.
ghost use Rattle.std.specs.Prelude.{◌≡◌, IfOk, IfSome, true};
ghost use Rattle.semantics.specs.Histories.{History};
ghost use Rattle.base_versions.specs.Valued.{base_changes};
ghost use Rattle.shared_reader.specs.Known.{AreKnownIn, Covers, IsKnownIn};

use crate::followed::is_within;
use join_types::Change;
use key_space::Range;
use out_of_memory::OutOfMemory;
use range_state::changes_in;
use std::alloc::Global;
use std::marker::Model;

/// Before so many questions in a row a table is not looked at.
const FIRST: usize = 4;

/// So many changes of a table are kept for each of these questions, at most.
const EACH: usize = 4;

/// The keys that the entries after the first q put or remove, up to the p-th, in a table, with what stands there then: in order,
/// each once. Their texts are shared.
#[derive(Drop)]
pub struct KnownChanges {
    q: u64,
    p: u64,
    table: Range,
    changes: Vec<Change>,
}

impl Model for KnownChanges {
    ghost use Rattle.shared_reader.specs.Known.{KnownView};

    ghost Value = { KnownView };

    ghost view = { λ k. record { q = k.q; p = k.p; table = k.table; changes = k.changes.items } };
}

/// A copy of the changes. Linear in them.
fn copy_changes(alloc: Global, changes: &[Change]) -> Result<Vec<Change>, OutOfMemory>
    ensures { IfOk result (λ copies. copies.items ≡ changes.now) }
{
    let mut copies = Vec::with_capacity(alloc, changes.len())?;
    for change in changes {
        copies.push(change.copy()?)?;
    }
    Ok(copies)
}

impl KnownChanges {
    /// Whether it is of these entries, and the range lies in the table.
    fn covers(&self, q: u64, p: u64, range: &Range) -> bool
        ensures { result ≡ true → Covers self.now q p range.now }
    {
        q == self.q && p == self.p && is_within(range, &self.table)
    }

    /// The changes in the range, where it is of these entries and the range lies in the table.
    fn within(&self, alloc: Global, q: u64, p: u64, range: &Range) -> Option<Vec<Change>>
        requires { (h : History) × IsKnownIn self.now h }
        ensures { (h : History) → IsKnownIn self.now h → IfSome result (λ found. found.items ≡ base_changes q p range.now h) }
    {
        if !self.covers(q, p, range) {
            return None;
        }
        let part = changes_in(self.changes.as_slice(), range);
        match copy_changes(alloc, part) {
            Ok(found) => Some(found),
            Err(_) => None,
        }
    }
}

/// Gives the keys of the range that the entries after the first q put or remove, up to the p-th, with what stands there then, where
/// they are among those that are known. It takes two binary searches, and to copy what it gives, which shares its long texts. None
/// also where no memory is found.
pub fn known_changes(
    alloc: Global,
    known: &Option<KnownChanges>,
    q: u64,
    p: u64,
    range: &Range,
) -> Option<Vec<Change>>
    requires { (h : History) × AreKnownIn known.now h }
    ensures { (h : History) → AreKnownIn known.now h → IfSome result (λ found. found.items ≡ base_changes q p range.now h) }
{
    match known {
        None => None,
        Some(changes) => changes.within(alloc, q, p, range),
    }
}

/// Keeps what was found of a table, if anything was.
fn kept(q: u64, p: u64, table: Range, found: Option<Vec<Change>>) -> Option<KnownChanges>
    ensures { (h : History) → IfSome found (λ changes. changes.items ≡ base_changes q p table h) → AreKnownIn result h }
{
    match found {
        None => None,
        Some(changes) => Some(KnownChanges {
            q,
            p,
            table,
            changes,
        }),
    }
}

/// Keeps what was found of a table, and nothing where there were too many changes or no memory for them.
pub fn known_of(
    q: u64,
    p: u64,
    table: Range,
    found: Result<Option<Vec<Change>>, OutOfMemory>,
) -> Option<KnownChanges>
    ensures { (h : History) → IfOk found (λ some. IfSome some (λ changes. changes.items ≡ base_changes q p table h)) → AreKnownIn result h }
{
    match found {
        Ok(few) => kept(q, p, table, few),
        Err(_) => None,
    }
}

/// Gives how many changes of a table are kept at most, after so many questions in a row that known changes did not answer.
pub fn most_known(questions: usize) -> usize {
    questions.saturating_mul(EACH)
}

/// A table's name and one character behind it.
fn named(alloc: Global, name: &str, end: char) -> Result<String, OutOfMemory> {
    let mut text = String::with_capacity(alloc, name.len())?;
    text.push_str(name)?;
    text.push(end)?;
    Ok(text)
}

/// The range of the whole table that a range is of. None where no memory is found for it. Linear in the table's name.
fn whole_table(alloc: Global, range: &Range) -> Option<Range> {
    let low = named(alloc, range.table(), '|').ok()?;
    let high = named(alloc, range.table(), '}').ok()?;
    Range::read(alloc, low.as_str(), high.as_str()).ok()
}

/// Gives the range of the whole table to look at, after so many questions in a row about ranges that known changes did not answer,
/// the last about this one. It comes after 4, 8, 16 of them and so on, so that all looks together cost no more than the questions;
/// and not where no memory is found for it.
pub fn table_to_look_at(alloc: Global, questions: usize, range: &Range) -> Option<Range> {
    if questions < FIRST || !questions.is_power_of_two() {
        return None;
    }
    whole_table(alloc, range)
}
