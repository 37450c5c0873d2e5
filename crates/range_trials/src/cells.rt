// Tables of cells, with ample memory. The join that is kept was declared at position 1.
ghost use Rattle.std.specs.Prelude.{◌≤◌, codes, IfOk};
ghost use Rattle.cell_table.specs.Stores.{AreOfTable};

use cell_slots::{Part, Slot};
use cell_table::CellTable;
use join_lang::parse;
use join_types::Join;
use key_space::Range;
use std::alloc::Global;
use std::process::Abort;
use std::test::Fail;

fn read_range(rt: &impl Abort, alloc: Global, bounds: &str) -> Range {
    let (low, high) = bounds.split_once("..").expect(rt, "two bounds");
    Range::read(alloc, low, high).expect(rt, "a range")
}

fn read_join(rt: &impl Abort, alloc: Global, text: &str) -> Join {
    parse(alloc, text).expect(rt, "a join")
}

fn make_table(alloc: Global, limit: u64) -> Result<CellTable, Fail>
    requires { 1 ≤ limit }
    ensures { IfOk result (λ made. AreOfTable made.holdings.slots 1 (codes "t")) }
{
    Ok(CellTable::new(alloc, 3, limit)?)
}

/// Parts, written as their bounds, with the cell's number of those that have one, and spaces between them.
fn shown(alloc: Global, parts: Vec<Part>) -> Result<String, Fail> {
    let mut all = String::new(alloc);
    for part in parts {
        if !all.is_empty() {
            all.push(' ')?;
        }
        write!(&mut all, "{}..{}", part.range.lo(), part.range.hi())?;
        if let Some(id) = part.cell {
            write!(&mut all, "={id}")?;
        }
    }
    Ok(all)
}

/// Covers a range of the table `t`, and compares its parts.
fn cover(
    rt: &impl Abort,
    alloc: Global,
    table: &mut CellTable,
    join: &str,
    bounds: &str,
    wanted: &str,
) -> Result<(), Fail>
    requires { AreOfTable table.old.holdings.slots 1 (codes "t") }
    ensures { AreOfTable table.new.holdings.slots 1 (codes "t") }
{
    let range = read_range(rt, alloc, bounds);
    assert!(rt; range.table() == "t");
    let parts = table.cover(1, &read_join(rt, alloc, join), 0, &range)?;
    assert_eq!(rt; shown(alloc, parts)?.as_str(), wanted, "{bounds}");
    Ok(())
}

/// Lends what a cell holds for a range, where it does, and puts it back.
fn use_cell(
    rt: &impl Abort,
    alloc: Global,
    table: &mut CellTable,
    id: u32,
    bounds: &str,
) -> Result<(), Fail> {
    let range = read_range(rt, alloc, bounds);
    let Some(state) = table.lend(id, 1, 0, 7, &range)? else {
        panic!(rt; "it is held");
    };
    table.give_back(id, 1, state);
    Ok(())
}

/// Compares which of the three cells are held.
fn check_held(rt: &impl Abort, table: &CellTable, wanted: [bool; 3]) {
    for (id, held) in [0, 1, 2].iter().zip(wanted.iter()) {
        let is_held = matches!(table.slot(*id), Some(Slot::Held(_, _)));
        assert!(rt; is_held == *held, "cell {id}");
    }
}

/// Whether a cell lends what it holds for a range of the join at a position.
fn lends(table: &mut CellTable, id: u32, at: u64, range: &Range) -> Result<bool, Fail> {
    Ok(table.lend(id, at, 0, 7, range)?.is_some())
}

const PUSHED: &str = "t|<a> = copy s|<a>";

fn try_gaps(rt: &impl Abort, alloc: Global, table: &mut CellTable) -> Result<(), Fail>
    requires { AreOfTable table.old.holdings.slots 1 (codes "t") }
{
    let pulled = "t|<a> = pull copy s|<a>";
    cover(rt, alloc, table, pulled, "t|f..t|g", "t|f..t|g")?;
    cover(rt, alloc, table, PUSHED, "t|f..t|g", "t|f..t|g=0")?;
    cover(rt, alloc, table, PUSHED, "t|b..t|d", "t|b..t|d=1")?;
    let wanted = "t|..t|b=2 t|b..t|d=1 t|d..t|f t|f..t|g=0 t|g..t}";
    cover(rt, alloc, table, PUSHED, "t|..t}", wanted)?;
    cover(rt, alloc, table, PUSHED, "t|c..t|cc", "t|c..t|cc=1")
}

#[test]
fn gaps_are_given_the_lowest_free_cells(rt: HostRuntime) -> Result<(), Fail> {
    let alloc = rt.alloc();
    let mut table = make_table(alloc, 9)?;
    try_gaps(&rt, alloc, &mut table)
}

/// Uses cells 0, 1, 0 and 2, each of which weighs 1.
fn use_cells(rt: &impl Abort, alloc: Global, table: &mut CellTable) -> Result<(), Fail>
    requires { AreOfTable table.old.holdings.slots 1 (codes "t") }
{
    cover(rt, alloc, table, PUSHED, "t|b..t|c", "t|b..t|c=0")?;
    cover(rt, alloc, table, PUSHED, "t|c..t|d", "t|c..t|d=1")?;
    cover(rt, alloc, table, PUSHED, "t|d..t|e", "t|d..t|e=2")?;
    use_cell(rt, alloc, table, 0, "t|b..t|c")?;
    use_cell(rt, alloc, table, 1, "t|c..t|cc")?;
    use_cell(rt, alloc, table, 0, "t|bb..t|c")?;
    use_cell(rt, alloc, table, 2, "t|d..t|e")?;
    table.settle()?;
    Ok(())
}

/// Uses cells of a table with a limit, and compares which are held then.
fn try_limit(rt: &impl Abort, alloc: Global, limit: u64, wanted: [bool; 3]) -> Result<(), Fail>
    requires { 1 ≤ limit }
{
    let mut table = make_table(alloc, limit)?;
    use_cells(rt, alloc, &mut table)?;
    check_held(rt, &table, wanted);
    Ok(())
}

#[test]
fn the_least_recently_used_are_evicted(rt: HostRuntime) -> Result<(), Fail> {
    let alloc = rt.alloc();
    try_limit(&rt, alloc, 3, [true, true, true])?;
    try_limit(&rt, alloc, 2, [true, false, true])?;
    try_limit(&rt, alloc, 1, [false, false, true])
}

fn try_lending(rt: &impl Abort, alloc: Global, table: &mut CellTable) -> Result<(), Fail>
    requires { AreOfTable table.old.holdings.slots 1 (codes "t") }
{
    cover(rt, alloc, table, PUSHED, "t|b..t|d", "t|b..t|d=0")?;
    let range = read_range(rt, alloc, "t|c..t|d");
    let wider = read_range(rt, alloc, "t|c..t|dd");
    assert!(rt; !lends(table, 0, 2, &range)?);
    assert!(rt; !lends(table, 0, 1, &wider)?);
    assert!(rt; !lends(table, 3, 1, &range)?);
    assert!(rt; lends(table, 0, 1, &range)?);
    assert!(rt; !lends(table, 0, 1, &range)?);
    Ok(())
}

#[test]
fn a_cell_lends_once_what_it_holds(rt: HostRuntime) -> Result<(), Fail> {
    let alloc = rt.alloc();
    let mut table = make_table(alloc, 9)?;
    try_lending(&rt, alloc, &mut table)
}
