// The base pairs that no output hides.
ghost use Rattle.std.specs.Prelude.{◌≡◌, not};
ghost use Rattle.semantics.specs.Texts.{pairs_where};
ghost use Rattle.semantics.specs.Histories.{is_computed};

use join_rows::Table;
use join_set::JoinSet;
use key_pattern::Slots;

/// Leaves out the pairs whose keys fit the output of a join that stands. It looks, for each join, at the keys that begin as
/// its output does.
pub fn hide_computed(table: &mut Table, joins: &JoinSet)
    ensures { table.new ≡ pairs_where (λ key. not (is_computed joins.now.standing key)) table.old }
{
    for i in 0..joins.len() {
        let join = joins.join(i);
        table.drop_fitting(&join.output, &Slots::none());
    }
}
