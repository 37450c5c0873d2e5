// What changed keys of check sources touch.
ghost use Rattle.std.specs.Prelude.{◌≡◌, ◌++◌, filter, filter_map, option_copied, IfOk, OnOk};
ghost use Rattle.std.specs.List.Sorted.{IsStrictlySortedBy};
ghost use Rattle.semantics.specs.Texts.{text_cmp, within};
ghost use Rattle.key_ranges.specs.Ranges.{is_below};
ghost use Rattle.kept_ranges.specs.Rules.{source_of, touch_of, touches_by, touches};
ghost use Rattle.join_eval.specs.Answers.{change_keys};

use join_rows::Need;
use join_types::{Change, Join, JoinSource};
use key_pattern::SlotTexts;
use key_space::{Key, Range};
use out_of_memory::OutOfMemory;
use std::alloc::Global;
use std::marker::Model;

/// A changed key of a check source, and the slots of the output that it sets together with a need.
#[derive(Debug, Drop)]
pub struct Touch {
    /// The changed key.
    pub key: Key,
    /// The slots of the output, and no others.
    pub slots: SlotTexts,
}

impl Model for Touch {
    ghost use Rattle.kept_ranges.specs.Rules.{Touch as PlainTouch};

    ghost Value = { PlainTouch };

    ghost view = { λ t. record { key = t.key; slots = t.slots } };
}

/// The source that a need names, by its place in the join, if there is one. It takes constant time.
pub fn source_of<'a>(join: &'a Join, need: &Need) -> Option<&'a JoinSource>
    ensures { option_copied result ≡ source_of join.now need.now }
{
    join.sources.as_slice().get(usize::from(need.source))
}

/// Whether the key is below the bound.
fn is_below(key: &Key, bound: &str) -> bool
    ensures { result ≡ is_below key.now bound.now }
{
    key.text() < bound
}

/// Lends those of the changes whose keys lie in the range. It takes two binary searches.
pub fn changes_in<'a>(reported: &'a [Change], range: &Range) -> &'a [Change]
    requires { IsStrictlySortedBy text_cmp (change_keys reported.now) }
    ensures exact { result.now ≡ filter (λ change. within range.now change.key) reported.now }
    ensures keys { change_keys result.now ≡ filter (within range.now) (change_keys reported.now) }
{
    let first = reported.partition_point(|change| is_below(&change.key, range.lo()));
    let reached = &reported[first..];
    let count = reached.partition_point(|change| is_below(&change.key, range.hi()));
    &reached[..count]
}

/// What a key touches through a need of the source; none where it does not fit the source under the need's slots.
fn touch_of(
    alloc: Global,
    join: &Join,
    need: &Need,
    source: &JoinSource,
    key: &Key,
) -> Result<Option<Touch>, OutOfMemory>
    ensures { IfOk result (λ made. made ≡ touch_of join.now need.now source.now key.now) }
{
    let Some(slots) = source.pattern.matches(key, &need.slots.lend()) else {
        return Ok(None);
    };
    let slots = SlotTexts::of(alloc, &slots.only(&join.output))?;
    let key = key.copy()?;
    Ok(Some(Touch { key, slots }))
}

/// Adds what the keys of the changes touch through a need of the source, in order.
fn touch_keys(
    alloc: Global,
    join: &Join,
    need: &Need,
    source: &JoinSource,
    changes: &[Change],
    list: &mut Vec<Touch>,
) -> Result<(), OutOfMemory>
    ensures { OnOk result (list.new.items ≡ list.old.items ++ filter_map (touch_of join.now need.now source.now) (change_keys changes.now)) }
{
    for change in changes {
        if let Some(touch) = touch_of(alloc, join, need, source, &change.key)? {
            list.push(touch)?;
        }
    }
    Ok(())
}

/// Adds what the reported keys in a need's range touch through the need, if its source is a check.
fn touch_through(
    alloc: Global,
    join: &Join,
    reported: &[Change],
    need: &Need,
    list: &mut Vec<Touch>,
) -> Result<(), OutOfMemory>
    requires { IsStrictlySortedBy text_cmp (change_keys reported.now) }
    ensures { OnOk result (list.new.items ≡ list.old.items ++ touches_by join.now (change_keys reported.now) need.now (source_of join.now need.now)) }
{
    match source_of(join, need) {
        Some(source) if source.op.is_check() => {
            let part = changes_in(reported, &need.range);
            touch_keys(alloc, join, need, source, part, list)
        }
        _ => Ok(()),
    }
}

/// What the keys of the reported changes, ascending, each once, touch through the needs of check sources: need by need, and for
/// each of them in the order of the keys. It takes two binary searches for each need of a check, and is linear in the texts of
/// the keys that lie in its range.
pub fn touches(
    alloc: Global,
    join: &Join,
    reported: &[Change],
    needs: &[Need],
) -> Result<Vec<Touch>, OutOfMemory>
    requires ascending { IsStrictlySortedBy text_cmp (change_keys reported.now) }
    ensures { IfOk result (λ list. list.items ≡ touches join.now (change_keys reported.now) needs.now) }
{
    let mut list = Vec::new(alloc);
    for need in needs {
        touch_through(alloc, join, reported, need, &mut list)?;
    }
    Ok(list)
}
