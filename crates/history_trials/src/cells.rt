// Cells that are given, found and evicted, and each call once, with ample memory.
ghost use Rattle.std.specs.Prelude.{◌≡◌, ◌≤◌, All, length};
ghost use Rattle.std.specs.Arc.{arc_value};
ghost use Rattle.write_history.specs.declared.known.Mark.TheVariants.{Noted};

use crate::seats::{Seats, make_seats};
use base_shards::{BaseShards, Naming};
use key_space::Range;
use shared_cells::{Part, RankedJoin, SharedCells};
use shared_reader::Use;
use std::alloc::Global;
use std::marker::Brand;
use std::process::Abort;
use std::sync::{Arc, Wait};
use std::test::Fail;
use write_history::{History, Pass};

/// The join that was declared first, while it has the lowest rank.
const FIRST: RankedJoin = RankedJoin { at: 1, rank: 0 };

/// The same join while it has the next rank.
const RAISED: RankedJoin = RankedJoin { at: 1, rank: 1 };

/// Another join.
const SECOND: RankedJoin = RankedJoin { at: 2, rank: 0 };

/// The range between two bounds.
fn range_of(rt: &impl Abort, alloc: Global, low: &str, high: &str) -> Range {
    Range::read(alloc, low, high).expect(rt, "a range")
}

/// The parts as text: of each the bounds, and the number of its cell, if it has one.
fn shown<N: Naming>(alloc: Global, parts: &[Part<N>]) -> Result<String, Fail> {
    let mut text = String::new(alloc);
    for part in parts {
        let (low, high) = (part.range.lo(), part.range.hi());
        let line = match &part.cell {
            Some((id, _)) => format!(in alloc; "{low} {high} {id}, ")?,
            None => format!(in alloc; "{low} {high} -, ")?,
        };
        text.push_str(line.as_str())?;
    }
    Ok(text)
}

/// Covers a range of the join with its rank, and compares the parts.
fn cover<N: Naming, R: Wait + Abort>(
    rt: &R,
    alloc: Global,
    cells: &SharedCells<N>,
    join: RankedJoin,
    bounds: (&str, &str),
    keep: bool,
    wanted: &str,
) -> Result<(), Fail> {
    let range = range_of(rt, alloc, bounds.0, bounds.1);
    let parts = cells.cover(rt, join, &range, keep)?;
    assert!(rt; shown(alloc, parts.as_slice())?.as_str() == wanted);
    Ok(())
}

/// Two cells are given and found.
fn give_two<N: Naming, R: Wait + Abort>(
    rt: &R,
    alloc: Global,
    cells: &SharedCells<N>,
) -> Result<(), Fail> {
    let rows = [
        (FIRST, "t|b", "t|c", false, "t|b t|c -, "),
        (FIRST, "t|b", "t|c", true, "t|b t|c 0, "),
        (FIRST, "t|b", "t|c", false, "t|b t|c 0, "),
        (SECOND, "t|b", "t|c", false, "t|b t|c -, "),
        (RAISED, "t|b", "t|c", false, "t|b t|c -, "),
        (
            FIRST,
            "t|a",
            "t|d",
            true,
            "t|a t|b 1, t|b t|c 0, t|c t|d -, ",
        ),
        (SECOND, "t|b", "t|c", true, "t|b t|c -, "),
        (FIRST, "t|ab", "t|bb", true, "t|ab t|b 1, t|b t|bb 0, "),
        (FIRST, "t|a", "t|a", true, ""),
    ];
    for (join, low, high, keep, wanted) in rows {
        cover(rt, alloc, cells, join, (low, high), keep, wanted)?;
    }
    Ok(())
}

/// A range has a cell for each rank of its join, and where one is evicted the other stays.
fn give_two_ranks<N: Naming, R: Wait + Abort>(
    rt: &R,
    alloc: Global,
    cells: &SharedCells<N>,
    shards: &BaseShards<N>,
) -> Result<(), Fail> {
    let rows = [
        (FIRST, true, "t|b t|c 0, "),
        (RAISED, false, "t|b t|c -, "),
        (RAISED, true, "t|b t|c 1, "),
        (FIRST, true, "t|b t|c 0, "),
        (RAISED, true, "t|b t|c 1, "),
    ];
    let bounds = ("t|b", "t|c");
    for (join, keep, wanted) in rows {
        cover(rt, alloc, cells, join, bounds, keep, wanted)?;
    }
    evict(rt, cells, shards, 0)?;
    cover(rt, alloc, cells, FIRST, bounds, false, "t|b t|c -, ")?;
    cover(rt, alloc, cells, RAISED, bounds, false, "t|b t|c 1, ")
}

/// The two cells are evicted, and their numbers and ranges are given again.
fn evict_two<N: Naming, R: Wait + Abort>(
    rt: &R,
    alloc: Global,
    cells: &SharedCells<N>,
    shards: &BaseShards<N>,
) -> Result<(), Fail> {
    give_two(rt, alloc, cells)?;
    evict(rt, cells, shards, 0)?;
    cells.evict(rt, shards, 0);
    cells.evict(rt, shards, 2);
    let bounds = ("t|b", "t|c");
    cover(rt, alloc, cells, SECOND, bounds, true, "t|b t|c 0, ")?;
    evict(rt, cells, shards, 1)?;
    cover(rt, alloc, cells, FIRST, ("t|", "t}"), true, "t| t} 1, ")
}

/// A cell whose pass has not come back gives its number to no range, as while another thread evicts it.
fn lose_one<N: Naming, R: Wait + Abort>(
    rt: &R,
    alloc: Global,
    cells: &SharedCells<N>,
    shards: &BaseShards<N>,
) -> Result<(), Fail> {
    give_two(rt, alloc, cells)?;
    let shared = cells.find(rt, 0)?.expect(rt, "a cell");
    assert!(rt; shared.lock(rt).take().is_some());
    evict(rt, cells, shards, 0)?;
    cover(rt, alloc, cells, FIRST, ("t|b", "t|c"), true, "t|b t|c -, ")
}

/// Of a table 32 ranges have a cell. They are read with 32 gaps as 64 parts, and with one gap more as 65, of which no more are
/// given a cell.
fn give_many<N: Naming, R: Wait + Abort>(
    rt: &R,
    alloc: Global,
    history: &History,
    passes: Vec<Pass>,
) -> Result<(), Fail>
    requires named { history.now ≡ N.history }
    requires some { 1 ≤ length passes.items }
    requires few { length passes.items ≤ 65536 }
    requires same_history { All (λ pass. pass.history ≡ N.history) passes.items }
{
    let cells: SharedCells<N> = SharedCells::new(alloc, passes, 100)?;
    for number in 10..42u32 {
        let low = format!(in alloc; "t|{number}a")?;
        let high = format!(in alloc; "t|{number}b")?;
        let parts = cells.cover(rt, FIRST, &range_of(rt, alloc, &low, &high), true)?;
        assert!(rt; parts.len() == 1);
    }
    let parts = cells.cover(rt, FIRST, &range_of(rt, alloc, "t|", "t|41b"), false)?;
    assert!(rt; parts.len() == 64);
    let parts = cells.cover(rt, FIRST, &range_of(rt, alloc, "t|", "t|41c"), true)?;
    assert!(rt; parts.len() == 65);
    assert!(rt; parts.iter().filter(|part| part.cell.is_some()).count() == 32);
    let bounds = ("t|41b", "t|41c");
    cover(rt, alloc, &cells, FIRST, bounds, false, "t|41b t|41c -, ")
}

#[test]
fn gaps_of_many_parts_are_not_kept(rt: HostRuntime) -> Result<(), Fail> {
    let alloc = rt.alloc();
    let Seats {
        history,
        readers,
        ..
    } = make_seats(alloc, 1, 0, 0, 33)?;
    give_many::<Brand, _>(&rt, alloc, &history, readers)
}

/// That threads may share a value.
fn share<T: Sync>(_value: &T) {}

/// Evicts a cell, which is found before and not after.
fn evict<N: Naming, R: Wait + Abort>(
    rt: &R,
    cells: &SharedCells<N>,
    shards: &BaseShards<N>,
    id: u32,
) -> Result<(), Fail> {
    assert!(rt; cells.find(rt, id)?.is_some());
    cells.evict(rt, shards, id);
    assert!(rt; cells.find(rt, id)?.is_none());
    Ok(())
}

/// The calls of what threads share: the cell that was used least recently goes where two weigh too much together, and one that
/// could not keep what it was used for.
fn settle_two<N: Naming + Send + Sync, R: Wait + Abort>(
    rt: &R,
    alloc: Global,
    cells: &SharedCells<N>,
    shards: &BaseShards<N>,
) -> Result<(), Fail> {
    share(cells);
    for (low, high) in [("t|a", "t|b"), ("t|b", "t|c")] {
        cells.cover(rt, FIRST, &range_of(rt, alloc, low, high), true)?;
    }
    cover(
        rt,
        alloc,
        cells,
        FIRST,
        ("t|a", "t|c"),
        false,
        "t|a t|b 0, t|b t|c 1, ",
    )?;
    let used = [
        Use {
            id: 0,
            rows: Some(2),
        },
        Use {
            id: 7,
            rows: Some(9),
        },
        Use {
            id: 1,
            rows: Some(3),
        },
    ];
    cells.settle(rt, shards, &used);
    cover(
        rt,
        alloc,
        cells,
        FIRST,
        ("t|a", "t|c"),
        false,
        "t|a t|b -, t|b t|c 1, ",
    )?;
    evict(rt, cells, shards, 1)?;
    cells.evict(rt, shards, 7);
    let bounds = ("t|a", "t|c");
    cover(rt, alloc, cells, FIRST, bounds, true, "t|a t|c 1, ")?;
    cells.settle(rt, shards, &[Use { id: 1, rows: None }]);
    cover(rt, alloc, cells, FIRST, bounds, false, "t|a t|c -, ")
}

/// What is tried on two cells.
#[derive(Clone, Copy)]
enum Tried {
    Ranked,
    Evicted,
    Lost,
    Settled,
}

/// Makes two cells of these passes, over parts of these, and tries what is asked for.
fn make_and_try<N: Naming + Send + Sync, R: Wait + Abort>(
    rt: &R,
    alloc: Global,
    history: Arc<History>,
    shards: Vec<Pass>,
    cells: Vec<Pass>,
    tried: Tried,
) -> Result<(), Fail>
    requires named { arc_value history ≡ N.history }
    requires shard_count { length shards.items ≡ 16 }
    requires shards { All (λ pass. pass.history ≡ N.history) shards.items }
    requires noted { All (λ pass. pass.mark ≡ Noted 0) shards.items }
    requires cell_count { length cells.items ≡ 2 }
    requires cells { All (λ pass. pass.history ≡ N.history) cells.items }
{
    let shards: BaseShards<N> = BaseShards::new(alloc, history, shards, 2)?;
    let cells: SharedCells<N> = SharedCells::new(alloc, cells, 6)?;
    match tried {
        Tried::Ranked => give_two_ranks(rt, alloc, &cells, &shards),
        Tried::Evicted => evict_two(rt, alloc, &cells, &shards),
        Tried::Lost => lose_one(rt, alloc, &cells, &shards),
        Tried::Settled => settle_two(rt, alloc, &cells, &shards),
    }
}

#[test]
fn cells_are_given_evicted_and_settled(rt: HostRuntime) -> Result<(), Fail> {
    let alloc = rt.alloc();
    let all = [Tried::Ranked, Tried::Evicted, Tried::Lost, Tried::Settled];
    for tried in all {
        let seats = make_seats(alloc, 1, 0, 16, 2)?;
        let history = Arc::new(alloc, seats.history)?;
        make_and_try::<Brand, _>(&rt, alloc, history, seats.shards, seats.readers, tried)?;
    }
    Ok(())
}
