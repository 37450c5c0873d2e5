// The last drop of a join of each table.
ghost use Rattle.std.specs.Prelude.{◌≡◌, ◌++◌, IfOk, OnOk, OnErr, nat_lt};
ghost use Rattle.semantics.specs.Texts.{same};
ghost use Rattle.join_set.specs.Sets.{drop_made, drops_behind, drops_made, has_drop, last_drop, position_of, with_drops};

use crate::stands::Stands;
use out_of_memory::OutOfMemory;
use std::alloc::Global;
use std::marker::Model;

/// That a join with its output in a table was dropped, the last time at a position.
#[derive(Debug, Drop)]
pub struct LastDrop {
    /// The name of the table.
    pub table: String,
    /// Where the drop stands in the history.
    pub position: u64,
}

impl Model for LastDrop {
    ghost use Rattle.std.specs.Prelude.{string_bytes};
    ghost use Rattle.join_set.specs.Sets as plain;

    ghost Value = { plain.LastDrop };

    ghost view = { λ d. record { table = string_bytes d.table; position = d.position } };
}

impl LastDrop {
    /// Makes the last drop of a table, whose name is copied.
    fn make(alloc: Global, table: &str, position: u64) -> Result<LastDrop, OutOfMemory>
        ensures { IfOk result (λ made. made ≡ record { table = table.now; position = position }) }
    {
        let table = String::from_str(alloc, table)?;
        Ok(LastDrop { table, position })
    }

    /// Returns whether it is of the table.
    fn is_of(&self, table: &str) -> bool
        ensures { result ≡ same self.now.table table.now }
    {
        self.table.as_str() == table
    }

    /// Returns whether it stands after a position.
    fn is_after(&self, position: u64) -> bool
        ensures { result ≡ nat_lt position self.now.position }
    {
        position < self.position
    }

    /// Gives its position where it is of the table; otherwise 0.
    fn position_of(&self, table: &str) -> u64
        ensures { result ≡ position_of table.now self.now }
    {
        if self.is_of(table) { self.position } else { 0 }
    }
}

/// Copies the last drops.
pub fn copy_drops(alloc: Global, drops: &[LastDrop]) -> Result<Vec<LastDrop>, OutOfMemory>
    ensures { IfOk result (λ copies. copies.items ≡ drops.now) }
{
    let mut copies = Vec::with_capacity(alloc, drops.len())?;
    for last in drops {
        copies.push(LastDrop::make(alloc, last.table.as_str(), last.position)?)?;
    }
    Ok(copies)
}

/// Gives the position of the last drop of a table, 0 where none is known. Linear in the last drops.
pub fn last_drop(drops: &[LastDrop], table: &str) -> u64
    ensures { result ≡ last_drop table.now drops.now }
{
    let mut last = 0;
    for dropped in drops {
        last = last.max(dropped.position_of(table));
    }
    last
}

/// Returns whether one of the last drops is of a table. Linear in the last drops.
fn has_drop(drops: &[LastDrop], table: &str) -> bool
    ensures { result ≡ has_drop table.now drops.now }
{
    drops.iter().any(|last| last.is_of(table))
}

/// Adds the drop, at a position, of a join that stands, where it was declared at another.
fn add_drop(
    alloc: Global,
    made: &mut Vec<LastDrop>,
    stands: &Stands,
    position: u64,
    at: u64,
) -> Result<(), OutOfMemory>
    ensures { OnOk result (made.new.items ≡ made.old.items ++ drop_made position at stands.now) }
{
    if stands.position != position {
        return Ok(());
    }
    if let Some(table) = stands.table() {
        made.push(LastDrop::make(alloc, table, at)?)?;
    }
    Ok(())
}

/// Makes the drops, at a position, of the joins that were declared at another. Linear in the joins.
pub fn drops_made(
    alloc: Global,
    joins: &[Stands],
    position: u64,
    at: u64,
) -> Result<Vec<LastDrop>, OutOfMemory>
    ensures { IfOk result (λ made. made.items ≡ drops_made position at joins.now) }
{
    let mut made = Vec::new(alloc);
    for stands in joins {
        add_drop(alloc, &mut made, stands, position, at)?;
    }
    Ok(made)
}

/// Puts last drops in the place of those of their tables. It compares each with each, and copies none. On `OutOfMemory` all are as
/// they were.
pub fn put_drops(drops: &mut Vec<LastDrop>, mut made: Vec<LastDrop>) -> Result<(), OutOfMemory>
    ensures put { OnOk result (drops.new.items ≡ with_drops made.items drops.old.items) }
    ensures unchanged { OnErr result (drops.new.items ≡ drops.old.items) }
{
    drops.reserve(made.len())?;
    let others = made.as_slice();
    drops.retain(|last| !has_drop(others, last.table.as_str()));
    match drops.append(&mut made) {
        Ok(()) => Ok(()),
        Err(_) => unreachable!(),
    }
}

/// Leaves out the last drops up to a floor. Linear in the last drops; it takes no memory.
pub fn keep_behind(drops: &mut Vec<LastDrop>, floor: u64)
    ensures { drops.new.items ≡ drops_behind floor drops.old.items }
{
    drops.retain(|last| last.is_after(floor));
}
