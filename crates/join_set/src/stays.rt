// The joins that stood at a floor or were declared later, each from its declaration until its drop, and what they tell of the first
// entries of a history.
ghost use Rattle.std.specs.Prelude.{◌≡◌, ◌&&◌, ◌==◌, IfOk, OnOk, Some, is_none, max, option_copied, if◌then◌else◌};
ghost use Rattle.semantics.specs.Texts.{Text, same};
ghost use Rattle.semantics.specs.Histories.{drop_join};
ghost use Rattle.semantics.specs.Stays.{declared, is_after, joins_at, stands_at, stays_after};
ghost use Rattle.join_set.specs.Sets.{last_drop, table_of_keys};
ghost use Rattle.join_set.specs.Timelines.{up_to, end_of, end_up_to, change_up_to, changed_up_to, drop_up_to, dropped_up_to, kept_stays};

use crate::drops::LastDrop;
use crate::rules::table_of_keys;
use crate::stands::Stands;
use join_types::Join;
use out_of_memory::OutOfMemory;
use std::alloc::Global;
use std::collections::BTreeMap;
use std::marker::Model;

/// A join with the position of its declaration, and that of its drop if it was dropped.
#[derive(Debug, Drop)]
pub struct Stay {
    /// Where the declaration stands in the history.
    pub position: u64,
    /// The join.
    pub join: Join,
    /// Where the drop stands in the history.
    pub until: Option<u64>,
}

impl Model for Stay {
    ghost use Rattle.semantics.specs.Stays as plain;

    ghost Value = { plain.Stay };

    ghost view = { λ s. record { position = s.position; join = s.join; until = s.until } };
}

/// Gives the position, where it lies up to another; otherwise 0.
fn up_to(p: u64, position: u64) -> u64
    ensures { result ≡ up_to p position }
{
    if position <= p { position } else { 0 }
}

impl Stay {
    /// Whether it has not ended after the first p entries.
    fn is_after(&self, p: u64) -> bool
        ensures { result ≡ is_after p self.now.until }
    {
        match self.until {
            Some(end) => p < end,
            None => true,
        }
    }

    /// Whether the join stands after the first p entries.
    fn stands_at(&self, p: u64) -> bool
        ensures { result ≡ stands_at p self.now }
    {
        self.position <= p && self.is_after(p)
    }

    /// Gives the position of the drop, where it lies up to another; otherwise 0.
    fn end_up_to(&self, p: u64) -> u64
        ensures { result ≡ end_up_to p self.now.until }
    {
        match self.until {
            Some(end) => up_to(p, end),
            None => 0,
        }
    }

    /// Gives the last of the declaration and the drop that lies up to a position, 0 where neither does.
    fn change_up_to(&self, p: u64) -> u64
        ensures { result ≡ change_up_to p self.now }
    {
        up_to(p, self.position).max(self.end_up_to(p))
    }

    /// Gives the table of the keys that fit the output of its join; none where it has none.
    fn table(&self) -> Option<&str>
        ensures { option_copied result ≡ table_of_keys self.now.join.output }
    {
        table_of_keys(&self.join.output)
    }

    /// Copies it as a join that stands.
    fn copy(&self, alloc: Global) -> Result<Stands, OutOfMemory>
        ensures { IfOk result (λ copy. copy ≡ declared self.now) }
    {
        let join = self.join.copy(alloc)?;
        Ok(Stands {
            position: self.position,
            join,
        })
    }

    /// Ends the stay at a position, where it was declared at another and has not ended.
    fn end(&mut self, at: u64, position: u64)
        ensures { self.new ≡ (if (self.old.position == at) && is_none self.old.until then record { position = self.old.position; join = self.old.join; until = Some position } else self.old) }
    {
        if self.position == at && self.until.is_none() {
            self.until = Some(position);
        }
    }
}

/// Ends the stays of the joins that were declared at a position and stand, by a drop at another. Linear in the stays.
pub fn end_stays(stays: &mut [Stay], at: u64, position: u64)
    ensures { stays.new ≡ stays_after position (drop_join at) stays.old }
{
    for stay in stays.iter_mut() {
        stay.end(at, position);
    }
}

/// Leaves out the stays that ended up to a floor. Linear in the stays; it takes no memory.
pub fn keep_stays(stays: &mut Vec<Stay>, floor: u64)
    ensures { stays.new.items ≡ kept_stays floor stays.old.items }
{
    stays.retain(|stay| stay.is_after(floor));
}

/// Copies the joins that stand after the first p entries. Linear in the stays.
pub fn joins_at(alloc: Global, stays: &[Stay], p: u64) -> Result<Vec<Stands>, OutOfMemory>
    ensures { IfOk result (λ joins. joins.items ≡ joins_at p stays.now) }
{
    let mut joins = Vec::new(alloc);
    for stay in stays {
        if stay.stands_at(p) {
            joins.push(stay.copy(alloc)?)?;
        }
    }
    Ok(joins)
}

/// Gives the position of the last declaration or drop among the first p entries, 0 where there is none. Linear in the stays.
pub fn changed_up_to(stays: &[Stay], p: u64) -> u64
    ensures { result ≡ changed_up_to p stays.now }
{
    let mut changed = 0;
    for stay in stays {
        changed = changed.max(stay.change_up_to(p));
    }
    changed
}

/// Gives the position that a map has for a table, 0 where it has none. Logarithmic in the tables.
fn end_of(ends: &BTreeMap<String, u64>, table: &str) -> u64
    ensures { result ≡ end_of table.now ends.now }
{
    ends.get(table).copied().unwrap_or(0)
}

/// Raises the position that a map has for a table to another, where that is greater. Logarithmic in the tables.
fn raise_end(
    alloc: Global,
    ends: &mut BTreeMap<String, u64>,
    table: &str,
    end: u64,
) -> Result<(), OutOfMemory>
    ensures { OnOk result ((q : Text) → end_of q ends.new ≡ max (end_of q ends.old) (if same table.now q then end else 0)) }
{
    if end <= end_of(ends, table) {
        return Ok(());
    }
    let name = String::from_str(alloc, table)?;
    ends.insert(name, end)?;
    Ok(())
}

/// Raises the last drop of the table of a stay's join to its end, where that lies up to a position. Logarithmic in the tables.
fn raise_drop(
    alloc: Global,
    ends: &mut BTreeMap<String, u64>,
    stay: &Stay,
    p: u64,
) -> Result<(), OutOfMemory>
    ensures { OnOk result ((table : Text) → end_of table ends.new ≡ max (end_of table ends.old) (drop_up_to p table stay.now)) }
{
    match stay.table() {
        Some(table) => raise_end(alloc, ends, table, stay.end_up_to(p)),
        None => Ok(()),
    }
}

/// Makes the map of the tables with a drop among the first p entries, each with the last one. Linear in the stays, with a search
/// among the tables for each.
fn ends_up_to(alloc: Global, stays: &[Stay], p: u64) -> Result<BTreeMap<String, u64>, OutOfMemory>
    ensures { IfOk result (λ ends. (table : Text) → end_of table ends ≡ dropped_up_to p table stays.now) }
{
    let mut ends = BTreeMap::new(alloc);
    for stay in stays {
        raise_drop(alloc, &mut ends, stay, p)?;
    }
    Ok(ends)
}

/// Makes the last drops of a map, in the order of their tables. Linear in the tables, whose names are moved.
fn drops_of(alloc: Global, ends: BTreeMap<String, u64>) -> Result<Vec<LastDrop>, OutOfMemory>
    ensures { IfOk result (λ drops. (table : Text) → last_drop table drops.items ≡ end_of table ends) }
{
    let mut drops = Vec::with_capacity(alloc, ends.len())?;
    for (table, position) in ends {
        drops.push(LastDrop { table, position })?;
    }
    Ok(drops)
}

/// Gives the last drop of each table among the first p entries. Linear in the stays, with a search among the tables for each.
pub fn drops_up_to(alloc: Global, stays: &[Stay], p: u64) -> Result<Vec<LastDrop>, OutOfMemory>
    ensures { IfOk result (λ drops. (table : Text) → last_drop table drops.items ≡ dropped_up_to p table stays.now) }
{
    let ends = ends_up_to(alloc, stays, p)?;
    drops_of(alloc, ends)
}
