// The clients of a cache whose joins are declared.
ghost use Rattle.std.specs.Prelude.{◌≡◌, ◌+◌, ◌≤◌, ◌++◌, ◌∷◌, [], length, IfOk, OnOk, None};
ghost use Rattle.semantics.specs.Histories.{declare};
ghost use Rattle.semantics.specs.Verdicts.{verdict};
ghost use Rattle.protocol.specs.Replies.{done};
ghost use Rattle.request_codec.specs.Plain.{plain_reply};
ghost use Rattle.write_history.specs.Passes.{own};
ghost use Rattle.pequod_cache.specs.Sitting.{AreOf, AreOfParts, AreWriters, IsFresh};
ghost use Rattle.server.specs.Staffs.{AreDeclarable, AreStaff, IsDoneOrMemory, WritesAlone};

use base_shards::Naming;
use join_types::Join;
use out_of_memory::OutOfMemory;
use pequod_cache::{Cache, Client, Seats, Updater, meet_all};
use pq_io::Gate;
use request_codec::{LineFault, Reply};
use std::alloc::Global;
use std::sync::Wait;

/// The client that has declared the joins, those of the workers, and an updater.
pub type Staffed<'g, N, G> = (Client<'g, N, G>, Vec<Client<'g, N, G>>, Updater<'g, N, G>);

/// What was refused to a line for which no memory was found.
fn refusal_of(fault: LineFault) -> OutOfMemory
    requires { fault ≡ LineFault.OutOfMemory tt }
{
    match fault {
        LineFault::OutOfMemory(memory) => memory,
        _ => unreachable!(),
    }
}

/// The position at which a write entered, by its reply, which says that, or that no memory was found.
///
/// `OutOfMemory`: none was found.
fn entered_at(reply: Reply) -> Result<u64, OutOfMemory>
    requires { IsDoneOrMemory (plain_reply reply) }
    ensures { IfOk result (λ position. plain_reply reply ≡ done position) }
{
    match reply {
        Reply::Done(position) => Ok(position),
        Reply::Memory(memory) => Err(memory),
        // It never comes for a write. Contracts see it as `Memory`, so they leave it possible.
        Reply::Unread(fault) => Err(refusal_of(fault)),
        _ => unreachable!(),
    }
}

/// Declares the join with the first client, which then meets the others. As none of these has written, what entered before are the
/// joins before it, so nothing is against it.
///
/// `OutOfMemory`: it did not enter.
fn declare_next<'g, N: Naming, G: Gate, R: Wait>(
    rt: &R,
    first: &mut Client<'g, N, G>,
    others: &mut [Client<'g, N, G>],
    join: Join,
) -> Result<(), OutOfMemory>
    requires alone { WritesAlone N.history first.old others.old }
    requires free { verdict (declare join) (own first.old) ≡ None }
    ensures alone { OnOk result (WritesAlone N.history first.new others.new) }
    ensures wrote { OnOk result (own first.new ≡ own first.old ++ record { client = 0; write = declare join } ∷ []) }
{
    let reply = first.declare(rt, join);
    meet_all(rt, first, others);
    entered_at(reply)?;
    Ok(())
}

/// Declares the joins with the first client, in order, as the first entries of the history; the others have then seen them.
///
/// `OutOfMemory`: one did not enter. Those before it have entered.
fn declare_all<'g, N: Naming, G: Gate, R: Wait>(
    rt: &R,
    first: &mut Client<'g, N, G>,
    others: &mut [Client<'g, N, G>],
    joins: Vec<Join>,
) -> Result<(), OutOfMemory>
    requires alone { WritesAlone N.history first.old others.old }
    requires none { own first.old ≡ [] }
    requires joins { AreDeclarable joins.items }
    ensures { OnOk result (AreStaff N.history joins.items first.new others.new) }
{
    for join in joins {
        declare_next(rt, first, others, join)?;
    }
    Ok(())
}

/// The clients of a new cache: the one with the number 0, which has declared the joins and nothing else, and the others, with the
/// numbers from 1 up, each of which has seen the declarations first and has written nothing; and an updater of the cache. `seats`,
/// `limit` and `gate` are those of `Cache::make_with_updater`. After each declaration the first meets each of the others.
///
/// It may report that it found no memory.
pub fn staff<'g, N: Naming, G: Gate, R: Wait>(
    rt: &R,
    alloc: Global,
    seats: Seats,
    limit: u64,
    joins: Vec<Join>,
    gate: &'g G,
) -> Result<Staffed<'g, N, G>, OutOfMemory>
    requires named { seats.history ≡ N.history }
    requires clients { AreWriters N.history (length seats.clients.items) seats.clients.items }
    requires two { 2 ≤ length seats.clients.items }
    requires shards { AreOfParts N.history seats.shards.items }
    requires cells { AreOf N.history (length seats.cells.items) seats.cells.items }
    requires some_cells { 1 ≤ length seats.cells.items }
    requires few_cells { length seats.cells.items ≤ 65536 }
    requires updater { IsFresh N.history seats.updater }
    requires limit { 1 ≤ limit }
    requires joins { AreDeclarable joins.items }
    ensures count { IfOk result (λ staff. length staff.1.items + 1 ≡ length seats.clients.items) }
    ensures staff { IfOk result (λ staff. AreStaff N.history joins.items staff.0 staff.1.items) }
{
    let (mut clients, updater) = Cache::make_with_updater(alloc, seats, limit, gate)?;
    let mut workers = clients.split_off(1)?;
    let Some(mut first) = clients.pop() else {
        unreachable!()
    };
    declare_all(rt, &mut first, &mut workers, joins)?;
    Ok((first, workers, updater))
}
