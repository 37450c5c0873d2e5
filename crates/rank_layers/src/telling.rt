// What changed in the outputs of joins of one rank.
ghost use Rattle.std.specs.Prelude.{◌≡◌, ◌+◌, ◌≤◌, length, map, take, true, IfOk};
ghost use Rattle.std.specs.List.{AllByRecursion};
ghost use Rattle.std.specs.List.Sorted.{IsStrictlySortedBy};
ghost use Rattle.semantics.specs.Texts.{text_cmp, Range as Bounds, within};
ghost use Rattle.semantics.specs.Joins.{Join as PlainJoin};
ghost use Rattle.semantics.specs.Histories.{joins_of};
ghost use Rattle.growing_history.specs.Entered.{HasEntered};
ghost use Rattle.layering.specs.Parts.{JoinTo};
ghost use Rattle.layering.specs.Reached.{reached};
ghost use Rattle.join_eval.specs.Moves.{Moves};
ghost use Rattle.join_eval.specs.declared.reading.Changed.TheVariants.{All};
ghost use Rattle.cell_slots.specs.Slots.{StandsAs};
ghost use Rattle.rank_layers.specs.Telling.{AddsChanges, IsUnknown, IsUnknownIn, TellsJoin};

use crate::keys::united;
use crate::query::Query;
use crate::range_cache::RangeCache;
use join_eval::{Changed, Reader};
use key_space::{Key, Range};
use out_of_memory::OutOfMemory;
use std::sync::ledger::Ledger;
use steps::Steps;

/// What changed in the join's output in parts of a range since a position: the keys of the parts one after another, or `All`
/// only where that is said of some part.
fn changes_of_parts<R: Reader, C: RangeCache<R>, L: Ledger>(
    cache: &C,
    query: Query,
    since: u64,
    parts: &[C::Part],
    reader: &mut R,
    steps: &mut Steps<L>,
) -> Result<Changed, OutOfMemory>
    requires order { since ≤ query.p }
    requires within { query.p ≤ length (R.list reader.old) }
    requires above { R.floor reader.old ≤ query.p }
    requires entered { HasEntered (R.list reader.old) }
    requires stands { (j : PlainJoin) × StandsAs (R.list reader.old) query.p query.at query.rank j }
    requires next { R.top ≡ query.rank }
    ensures told { IfOk result (λ told. (j : PlainJoin) (range : Bounds) → StandsAs (R.list reader.old) query.p query.at query.rank j →
        JoinTo range (map C.range_of parts.now) → TellsJoin (R.list reader.old) since query.p query.rank j range told) }
    ensures unknown { IfOk result (λ told. told ≡ All → IsUnknown (C.left (query.rank + 1)) (λ a b part. C.unknown a b query.at query.rank query.p since part) reader.old reader.new parts.now) }
    ensures moves { Moves R.list R.floor (C.left (query.rank + 1)) reader.old reader.new }
    ensures counted { steps.old ≤ steps.new }
{
    let mut all = Vec::new(cache.alloc());
    for part in parts {
        match cache.changes_since(query, since, part, reader, steps)? {
            Changed::Keys(mut keys) => all.append(&mut keys)?,
            Changed::All => return Ok(Changed::All),
        }
    }
    Ok(Changed::Keys(all))
}

/// What changed in the join's output in a range since a position, as what is kept of parts of the range says. `All` comes only
/// where that is said of some part.
fn changes_of_join<R: Reader, C: RangeCache<R>, L: Ledger>(
    cache: &C,
    query: Query,
    since: u64,
    range: &Range,
    reader: &mut R,
    steps: &mut Steps<L>,
) -> Result<Changed, OutOfMemory>
    requires order { since ≤ query.p }
    requires within { query.p ≤ length (R.list reader.old) }
    requires above { R.floor reader.old ≤ query.p }
    requires entered { HasEntered (R.list reader.old) }
    requires stands { (j : PlainJoin) × StandsAs (R.list reader.old) query.p query.at query.rank j }
    requires next { R.top ≡ query.rank }
    ensures told { IfOk result (λ told. (j : PlainJoin) → StandsAs (R.list reader.old) query.p query.at query.rank j →
        TellsJoin (R.list reader.old) since query.p query.rank j range.now told) }
    ensures unknown { IfOk result (λ told. told ≡ All → IsUnknownIn C.range_of (C.left (query.rank + 1)) (λ a b part. C.unknown a b query.at query.rank query.p since part) reader.old reader.new range.now) }
    ensures moves { Moves R.list R.floor (C.left (query.rank + 1)) reader.old reader.new }
    ensures counted { steps.old ≤ steps.new }
{
    let parts = cache.parts(query, range, reader)?;
    changes_of_parts(cache, query, since, parts.as_slice(), reader, steps)
}

/// Adds to keys of a range those of it at which the outputs of joins of a rank may have changed since a position: the joins
/// are those of the rank that the range reaches, named by the positions of their declarations, in order. `All` comes only where it
/// is said of some join.
///
/// It asks for each join once, and puts each answer into the keys.
pub fn add_changes<R: Reader, C: RangeCache<R>, L: Ledger>(
    cache: &C,
    ats: &[u64],
    rank: u8,
    since: u64,
    p: u64,
    range: &Range,
    keys: Vec<Key>,
    reader: &mut R,
    steps: &mut Steps<L>,
) -> Result<Changed, OutOfMemory>
    requires order { since ≤ p }
    requires within { p ≤ length (R.list reader.old) }
    requires above { R.floor reader.old ≤ p }
    requires entered { HasEntered (R.list reader.old) }
    requires next { R.top ≡ rank }
    requires listed { ats.now ≡ map (λ s. s.position) (reached range.now rank (joins_of (take p (R.list reader.old)))) }
    requires ascends { IsStrictlySortedBy text_cmp keys.items }
    requires inside { AllByRecursion (λ key. within range.now key ≡ true) keys.items }
    ensures told { IfOk result (AddsChanges (R.list reader.old) since p rank range.now (reached range.now rank (joins_of (take p (R.list reader.old)))) keys.items) }
    ensures unknown { IfOk result (λ told. told ≡ All →
        IsUnknown (C.left (rank + 1)) (λ a b at. IsUnknownIn C.range_of (C.left (rank + 1)) (λ x y part. C.unknown x y at rank p since part) a b range.now) reader.old reader.new ats.now) }
    ensures moves { Moves R.list R.floor (C.left (rank + 1)) reader.old reader.new }
    ensures counted { steps.old ≤ steps.new }
{
    let mut all = keys;
    for at in ats {
        let query = Query { at: *at, rank, p };
        match changes_of_join(cache, query, since, range, reader, steps)? {
            Changed::Keys(more) => all = united(all, more)?,
            Changed::All => return Ok(Changed::All),
        }
    }
    Ok(Changed::Keys(all))
}
