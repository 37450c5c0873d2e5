// The line of a load.
ghost use Rattle.std.specs.Prelude.{◌≡◌, ◌+◌, IfOk};
ghost use Rattle.load_gen.specs.Lines.{holding_line};
ghost use Rattle.load_run.specs.Holdings.{plain_holding};

use crate::held::{Held, add_bytes};
use out_of_memory::OutOfMemory;
use request_codec::{number_value, text_value, write_row};
use std::alloc::Global;

/// What each of the five tables holds.
#[derive(Clone, Copy)]
pub struct Tables {
    /// The subscriptions.
    pub s: Held,
    /// The posts.
    pub p: Held,
    /// The votes.
    pub v: Held,
    /// The timelines.
    pub t: Held,
    /// The numbers of votes. It is read last.
    pub karma: Held,
}

/// The bytes of all tables.
fn all_bytes(tables: Tables) -> Result<u64, OutOfMemory>
    ensures { IfOk result (λ bytes. bytes ≡ tables.s.holding.bytes + tables.p.holding.bytes + tables.v.holding.bytes + tables.t.holding.bytes + tables.karma.holding.bytes) }
{
    let bytes = add_bytes(tables.s.holding.bytes, tables.p.holding.bytes)?;
    let bytes = add_bytes(bytes, tables.v.holding.bytes)?;
    let bytes = add_bytes(bytes, tables.t.holding.bytes)?;
    add_bytes(bytes, tables.karma.holding.bytes)
}

/// The line of what the tables hold, with the number of entries after which the last one was read.
pub fn tables_line(alloc: Global, tables: Tables) -> Result<Vec<u8>, OutOfMemory>
    ensures { IfOk result (λ line. line.items ≡ holding_line tables.karma.position (plain_holding tables.s.holding) (plain_holding tables.p.holding) (plain_holding tables.v.holding) (plain_holding tables.t.holding) (plain_holding tables.karma.holding)) }
{
    let word = text_value(alloc, "load")?;
    let bytes = all_bytes(tables)?;
    write_row(
        alloc,
        vec![in alloc;
            word,
            number_value(tables.karma.position),
            number_value(tables.s.holding.count),
            number_value(tables.p.holding.count),
            number_value(tables.v.holding.count),
            number_value(tables.t.holding.count),
            number_value(tables.karma.holding.count),
            number_value(bytes),
        ]?,
    )
}
