// What takes rows one by one: who keeps rows lends it their texts, and who writes them is one.
//
// The layers above may use the trait: contracts see by `got` which rows it has taken between two moments.
ghost use Rattle.std.specs.Prelude.{◌∷◌, ◌++◌, [], OnOk};
ghost use Rattle.semantics.specs.Texts.{Table};

use out_of_memory::OutOfMemory;

/// Takes rows one by one, whose texts are lent to it.
pub trait RowSink {
    /// That from before to after it has taken these rows, in this order.
    ghost got: { Self → Self → Table → Type 0 };

    /// Takes a row: its key and its value.
    ///
    /// What it has after `OutOfMemory` is not said.
    fn push(&mut self, key: &str, value: &str) -> Result<(), OutOfMemory>
        ensures { OnOk result (got self.old self.new ((key.now, value.now) ∷ [])) };

    /// Where nothing was called it has taken no row.
    ghost got_none: { (a : Self) → got a a [] };

    /// What it has taken by two calls, one after the other.
    ghost got_more: { (a b c : Self) (rows more : Table) → got a b rows → got b c more → got a c (rows ++ more) };
}
