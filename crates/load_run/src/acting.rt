// The acts of a load, done one after another by a client.
ghost use Rattle.std.specs.Prelude.{◌∷◌, [], OnOk};
ghost use Rattle.join_types.specs.Writes.{plain_write};
ghost use Rattle.load_gen.specs.Entries.{entry_by, act_entries, entries_of};
ghost use Rattle.pequod_cache.specs.Adding.{HasAdded};

use base_shards::Naming;
use join_types::Write;
use key_space::Range;
use load_gen::Act;
use out_of_memory::OutOfMemory;
use pequod_cache::Client;
use pq_io::Gate;
use request_codec::Reply;
use std::alloc::{AllocError, Global};
use std::sync::Wait;

/// Makes a write.
///
/// `OutOfMemory`: it did not enter.
fn take_write<N: Naming, G: Gate, R: Wait>(
    rt: &R,
    client: &mut Client<'_, N, G>,
    change: Write,
) -> Result<(), OutOfMemory>
    ensures { OnOk result (HasAdded (entry_by client.old.number (plain_write change) ∷ []) client.old client.new) }
{
    let _position = match client.write(rt, change) {
        Reply::Done(position) => position,
        Reply::Memory(memory) => return Err(memory),
        // It never comes: no join computes what a load writes, and the history has room for it.
        _ => return Err(OutOfMemory::from(AllocError)),
    };
    Ok(())
}

/// Reads the timeline of a user, and makes nothing of it.
fn look<N: Naming, G: Gate, R: Wait>(
    rt: &R,
    alloc: Global,
    client: &mut Client<'_, N, G>,
    user: u32,
) -> Result<(), OutOfMemory>
    ensures { OnOk result (HasAdded [] client.old client.new) }
{
    let prefix = format!(in alloc; "t|{user:04}|")?;
    let range = Range::prefix_range(alloc, prefix.as_str())?;
    let _found = client.read(rt, &range)?;
    Ok(())
}

/// Does an act.
fn do_act<N: Naming, G: Gate, R: Wait>(
    rt: &R,
    alloc: Global,
    client: &mut Client<'_, N, G>,
    act: Act,
) -> Result<(), OutOfMemory>
    ensures { OnOk result (HasAdded (act_entries client.old.number act) client.old client.new) }
{
    match act {
        Act::Change { write, .. } => take_write(rt, client, write),
        Act::Look { user, .. } => look(rt, alloc, client, user),
    }
}

/// Does acts in order.
///
/// `OutOfMemory`: one could not be done. Those before it have been.
pub fn do_acts<N: Naming, G: Gate, R: Wait>(
    rt: &R,
    alloc: Global,
    client: &mut Client<'_, N, G>,
    acts: Vec<Act>,
) -> Result<(), OutOfMemory>
    ensures { OnOk result (HasAdded (entries_of client.old.number acts.items) client.old client.new) }
{
    for act in acts {
        do_act(rt, alloc, client, act)?;
    }
    Ok(())
}
