// What all tables hold, once every worker has returned.
ghost use Rattle.std.specs.Prelude.{IfOk, OnOk};
ghost use Rattle.pequod_cache.specs.Adding.{OnlyReads};
ghost use Rattle.load_run.specs.Holdings.{AreHeldBetween, AreHeldOf};

use crate::held::table_held;
use crate::text::Tables;
use base_shards::Naming;
use out_of_memory::OutOfMemory;
use pequod_cache::{Client, meet_all};
use pq_io::Gate;
use std::alloc::Global;
use std::sync::Wait;

/// What the tables hold, read one after another.
fn read_tables<N: Naming, G: Gate, R: Wait>(
    rt: &R,
    alloc: Global,
    client: &mut Client<'_, N, G>,
) -> Result<Tables, OutOfMemory>
    ensures held { IfOk result (AreHeldBetween client.old.view client.new.view) }
    ensures reads { OnOk result (OnlyReads client.old client.new) }
{
    let s = table_held(rt, alloc, client, "s|")?;
    let p = table_held(rt, alloc, client, "p|")?;
    let v = table_held(rt, alloc, client, "v|")?;
    let t = table_held(rt, alloc, client, "t|")?;
    let karma = table_held(rt, alloc, client, "karma|")?;
    Ok(Tables { s, p, v, t, karma })
}

/// What the tables hold after all that these clients of one cache have written, each table after a history that has exactly
/// that. The first client meets the others, reads, and meets them again: at the first meetings it has seen all that they wrote,
/// and since they then have seen all that it read, none of them had written more.
pub fn read_all<'g, N: Naming, G: Gate, R: Wait>(
    rt: &R,
    alloc: Global,
    mut first: Client<'g, N, G>,
    mut others: Vec<Client<'g, N, G>>,
) -> Result<Tables, OutOfMemory>
    ensures { IfOk result (AreHeldOf first.entry others.entry.items) }
{
    meet_all(rt, &mut first, &mut others);
    let tables = read_tables(rt, alloc, &mut first)?;
    meet_all(rt, &mut first, &mut others);
    Ok(tables)
}
