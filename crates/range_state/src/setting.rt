// What is set where changed keys of the value source go.
ghost use Rattle.std.specs.Prelude.{◌≡◌, map, IfOk, OnOk, IsTrue};
ghost use Rattle.std.specs.FinMap.Entries.{is_sorted};
ghost use Rattle.semantics.specs.Texts.{Text, text_cmp, value_at};
ghost use Rattle.agg_rows.specs.Kept.{pairs_of};
ghost use Rattle.kept_ranges.specs.Listing.{answer_of, IsApplied};
ghost use Rattle.range_state.specs.Setting.{remade};
ghost use Rattle.range_state.specs.Valued.{all_unvalued, list_each, set_each};

use crate::applying::Application;
use crate::merging::merged;
use agg_rows::AggRows;
use agg_rows::laws::{set_keeps_others, set_lists_pair};
use join_rows::Rows;
use key_space::Key;
use out_of_memory::OutOfMemory;
use std::alloc::Global;

/// Applies the pairs to rows, in order: at each output key stands the value that the application carries, or nothing where it
/// carries none. The needs stay. It sets one row for each application.
///
/// On `OutOfMemory` a part may have been applied.
pub fn apply_values(applications: &[Application], rows: &mut Rows) -> Result<(), OutOfMemory>
    ensures { OnOk result (rows.new ≡ record rows.old { pairs = set_each applications.now rows.old.pairs }) }
{
    for application in applications {
        rows.set(&application.output, application.value.as_ref())?;
    }
    Ok(())
}

/// Lists the pairs for the groups of their output keys, in order, with the value that the application carries, or takes them out
/// where it carries none. The operator stays. It sets one listed pair for each application.
///
/// On `OutOfMemory` a part may have been listed.
pub fn list_values(applications: &[Application], groups: &mut AggRows) -> Result<(), OutOfMemory>
    ensures operator { groups.new.operator ≡ groups.old.operator }
    ensures listed { OnOk result ((key : Text) → pairs_of key groups.new.groups ≡ list_each applications.now key (pairs_of key groups.old.groups)) }
{
    set_lists_pair();
    set_keeps_others();
    for application in applications {
        let value = application.value.as_ref();
        groups.set(&application.output, &application.source, value)?;
    }
    Ok(())
}

/// The output keys of the applications, in order.
fn outputs_of(alloc: Global, applications: &[Application]) -> Result<Vec<Key>, OutOfMemory>
    ensures { IfOk result (λ keys. keys.items ≡ map (λ a. a.output) applications.now) }
{
    let mut keys = Vec::with_capacity(alloc, applications.len())?;
    for application in applications {
        keys.push(application.output.copy()?)?;
    }
    Ok(keys)
}

/// Makes the rows of these output keys anew from their groups.
fn remake_each(outputs: &[Key], groups: &AggRows, rows: &mut Rows) -> Result<(), OutOfMemory>
    ensures { OnOk result (rows.new ≡ record rows.old { pairs = remade groups.now outputs.now rows.old.pairs }) }
{
    for output in outputs {
        let value = groups.answer(output)?;
        rows.set(output, value.as_ref())?;
    }
    Ok(())
}

/// Makes the row of each output key that is applied anew: what the operator makes of the pairs that are listed for it, or
/// nothing. The other rows and the needs stay. Each group is answered once, so that it takes one sort of the output keys,
/// and is linear in the pairs of the groups that are applied.
///
/// On `OutOfMemory` a part may have been made anew.
pub fn remake_rows(
    alloc: Global,
    applications: &[Application],
    groups: &AggRows,
    rows: &mut Rows,
) -> Result<(), OutOfMemory>
    ensures needs { OnOk result (rows.new.needs ≡ rows.old.needs) }
    ensures made { OnOk result ((key : Text) → IsApplied (all_unvalued applications.now) key → value_at key rows.new.pairs ≡ answer_of groups.now.operator (pairs_of key groups.now.groups)) }
    ensures others { OnOk result ((key : Text) → (IsApplied (all_unvalued applications.now) key → ⊥) → value_at key rows.new.pairs ≡ value_at key rows.old.pairs) }
    ensures ascending { OnOk result (IsTrue (is_sorted text_cmp rows.new.pairs)) }
{
    let _ascending = rows.len();
    let outputs = merged(outputs_of(alloc, applications)?)?;
    remake_each(outputs.as_slice(), groups, rows)
}
