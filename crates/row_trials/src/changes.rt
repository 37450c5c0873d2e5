// Rows of single changes that are applied to the rows of a join through one of its needs.
//
// A changed pair sets the row of the output key that it fills through the need, or leaves none there where the pair is gone. A
// pair that does not fit the need's source under its slots changes nothing, nor does one whose output key would have more
// than 512 bytes. The needs stay as they are.
ghost use Rattle.std.specs.Prelude.{◌≡◌, ◌<◌, [], ◌∷◌, length, slice_get, IfSome, IfOk, true};
ghost use Rattle.semantics.specs.Joins.{keeps_slot_rule};
ghost use Rattle.operators.specs.Evaluation.{CanGoOn};
ghost use Rattle.kept_ranges.specs.Rules.{source_of};

use eager_apply::apply;
use join_lang::parse;
use join_rows::{Need, Rows};
use join_set::keeps_slot_rule;
use join_types::Join;
use key_pattern::{SlotTexts, Slots};
use key_space::{Key, Range};
use row_texts::reading::{Unread, read_pair, read_range};
use row_texts::showing::{show_number, show_pairs, show_word};
use std::alloc::Global;
use test_rows::{Fields, unescape};

/// Returns the slots that a key of the first source gives, where that is a check and the second, the last one, is none.
fn checked_slots<'a>(join: &Join, key: &'a Key) -> Option<Slots<'a>>
    requires { keeps_slot_rule join.now ≡ true }
    ensures named { IfSome result (λ _. 1 < length join.now.sources) }
    ensures goes_on { IfSome result (λ slots. IfSome (slice_get join.now.sources 1) (λ copy. CanGoOn join.now.output (copy ∷ []) slots)) }
{
    let Some((check, rest)) = join.sources.as_slice().split_first() else {
        return None;
    };
    let Some((copy, others)) = rest.split_first() else {
        return None;
    };
    if !others.is_empty() || !check.op.is_check() || copy.op.is_check() {
        return None;
    }
    let Some(slots) = check.pattern.matches(key, &Slots::none()) else {
        return None;
    };
    Some(slots)
}

/// Returns the need of a range of the second source that came by a key of the first.
fn need_by(alloc: Global, join: &Join, key: Key, range: Range) -> Result<Need, Unread>
    requires { keeps_slot_rule join.now ≡ true }
    ensures named { IfOk result (λ need. need.source < length join.now.sources) }
    ensures goes_on { IfOk result (λ need. IfSome (source_of join.now need) (λ named. CanGoOn join.now.output (named ∷ []) need.slots)) }
{
    let Some(slots) = checked_slots(join, &key) else {
        return Err(Unread);
    };
    let slots = SlotTexts::of(alloc, &slots)?;
    Ok(Need {
        source: 1,
        slots,
        by: vec![in alloc; key]?,
        range,
    })
}

/// Applies the pair that a row writes as `key=value`, or as a key that has none any more, and returns the output key.
fn apply_pair(
    alloc: Global,
    rows: &mut Rows,
    join: &Join,
    need: &Need,
    pair: &str,
) -> Result<Option<Key>, Unread>
    requires named { need.now.source < length join.now.sources }
    requires goes_on { IfSome (source_of join.now need.now) (λ named. CanGoOn join.now.output (named ∷ []) need.now.slots) }
{
    if !pair.contains('=') {
        let source = Key::read(alloc, pair)?;
        return Ok(apply(alloc, rows, join, need, &source, None)?);
    }
    let (source, value) = read_pair(alloc, pair)?;
    Ok(apply(alloc, rows, join, need, &source, Some(&value))?)
}

/// Writes the output key of a change, or `none`, and then the rows in a range and the number of needs.
fn show_change(
    alloc: Global,
    text: &mut String,
    output: Option<&Key>,
    rows: &Rows,
    range: &Range,
) -> Result<(), Unread> {
    show_word(text, output.map_or("none", |key| key.text()))?;
    show_pairs(text, rows.within(range)?.as_slice())?;
    show_number(alloc, text, rows.needs().len() as u64)?;
    Ok(())
}

/// Applies changes in turn: the fields are a join, a key of its first source, the range of the second source that is needed for it,
/// the range of the output that is shown, the pair of a row that stands before, and the changes.
pub fn play(alloc: Global, fields: &mut Fields<'_>, text: &mut String) -> Result<(), Unread> {
    let join = parse(alloc, fields.next())?;
    if !keeps_slot_rule(&join) {
        return Err(Unread);
    }
    let by = Key::read(alloc, fields.next())?;
    let needed = read_range(alloc, fields.next())?;
    let need = need_by(alloc, &join, by, needed)?;
    let range = read_range(alloc, fields.next())?;
    let mut rows = Rows::new(alloc);
    rows.push_need(need.copy(alloc)?)?;
    let (key, value) = read_pair(alloc, fields.next())?;
    rows.set(&key, Some(&value))?;
    for pair in fields.rest().split(';') {
        let pair = unescape(alloc, pair)?;
        let output = apply_pair(alloc, &mut rows, &join, &need, pair.as_str())?;
        show_change(alloc, text, output.as_ref(), &rows, &range)?;
    }
    Ok(())
}
