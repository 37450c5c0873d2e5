// Clients that do their shares of the acts, each in a thread of its own.
ghost use Rattle.std.specs.Prelude.{◌≡◌, ◌≤◌, ℕ, ◌<◌, length, map, slice_index_or, IfOk, Ok};
ghost use Rattle.load_run.specs.Jobs.{HaveWorked, IsDone};

use crate::jobs::{Task, deal, idle_jobs};
use base_shards::Naming;
use load_gen::Act;
use out_of_memory::OutOfMemory;
use pequod_cache::Client;
use pq_io::Gate;
use std::alloc::Global;
use std::sync::Wait;
use std::thread;
use std::thread::Threads;

/// What came of each job, in order.
type Ends<'g, N, G> = Vec<Result<Client<'g, N, G>, OutOfMemory>>;

/// Does the tasks, each in a thread of its own where one can be made, and returns when all have ended.
fn do_tasks<T, R>(rt: &R, alloc: Global, tasks: Vec<T>) -> Result<Vec<T::End>, OutOfMemory>
where
    T: Task + Send,
    T::End: Send,
    R: Threads + Wait + Sync,
    ensures count { IfOk result (λ ends. length ends.items ≡ length tasks.items) }
    ensures each { IfOk result (λ ends. (i : ℕ) (d : _) (e : _) → i < length tasks.items → T.gives (slice_index_or tasks.items i d) (slice_index_or ends.items i e)) }
{
    Ok(thread::map_vec(rt, tasks, &|task| task.run(rt, alloc))?)
}

/// The clients, where each job ended well.
fn all_clients<'g, N: Naming, G>(
    alloc: Global,
    ends: Ends<'g, N, G>,
) -> Result<Vec<Client<'g, N, G>>, OutOfMemory>
    ensures { IfOk result (λ clients. ends.entry.items ≡ map Ok clients.items) }
{
    let mut clients = Vec::with_capacity(alloc, ends.len())?;
    for end in ends {
        clients.push(end?)?;
    }
    Ok(clients)
}

/// Each client does its share of the acts, in order: those whose poster, modulo the clients, is its place. Each works in a thread
/// of its own where one can be made; they are given back when all have ended.
///
/// It may report that it found no memory, though acts have been done.
pub fn work_all<'g, N, G, R>(
    rt: &R,
    alloc: Global,
    clients: Vec<Client<'g, N, G>>,
    acts: Vec<Act>,
) -> Result<Vec<Client<'g, N, G>>, OutOfMemory>
where
    N: Naming + Send + Sync,
    G: Gate + Sync,
    R: Threads + Wait + Sync,
    requires { 1 ≤ length clients.items }
    ensures { IfOk result (λ workers. HaveWorked acts.items clients.entry.items workers.items) }
{
    let mut jobs = idle_jobs(alloc, clients)?;
    deal(&mut jobs, acts)?;
    let ends = do_tasks(rt, alloc, jobs)?;
    all_clients(alloc, ends)
}
