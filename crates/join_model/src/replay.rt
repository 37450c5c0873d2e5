// What the entries of a history leave, taken one by one.
ghost use Rattle.std.specs.Prelude.{◌≡◌, IfOk, OnOk, OnErr};
ghost use Rattle.semantics.specs.Histories.{base_after};
ghost use Rattle.semantics.specs.Verdicts.{AllEntered};
ghost use Rattle.join_types.specs.Writes.{plain_write};
ghost use Rattle.join_model.specs.Replays.{IsLeftBy};

use join_rows::Table;
use join_set::Standing;
use join_types::{Entry, Write};
use out_of_memory::OutOfMemory;
use std::alloc::Global;

/// What a history leaves.
#[derive(Debug, Drop)]
pub struct Left {
    /// What is kept of the history, with the joins that stand.
    pub standing: Standing,
    /// The base pairs: those that the puts and removes leave.
    pub base: Table,
}

/// Applies the write to the base pairs, of which a declaration or a drop changes none. Logarithmic in the table.
pub fn apply(base: &mut Table, write: &Write) -> Result<(), OutOfMemory>
    ensures ok { OnOk result (base.new ≡ base_after (plain_write write.now) base.old) }
    ensures err { OnErr result (base.new ≡ base.old) }
{
    match write {
        Write::Put(key, value) => base.put(key.copy()?, value.copy()?)?,
        Write::Remove(key) => base.remove(key),
        Write::Declare(_) => {}
        Write::Drop(_) => {}
    }
    Ok(())
}

/// What the entries leave, each of which entered at its place. A put or remove searches the table, and a declaration or a drop
/// compares each join with each.
pub fn replay(alloc: Global, entries: &[Entry]) -> Result<Left, OutOfMemory>
    requires { AllEntered entries.now }
    ensures { IfOk result (IsLeftBy entries.now) }
{
    let mut standing = Standing::new(alloc);
    let mut base = Table::new(alloc);
    for entry in entries {
        standing.enter(&entry.write)?;
        apply(&mut base, &entry.write)?;
    }
    Ok(Left { standing, base })
}
