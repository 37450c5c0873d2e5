// What one thread does beside others: a task beside workers and an updater, each with a thread of its own.
ghost use Rattle.std.specs.Prelude.{◌≡◌, ◌≤◌, [], length, map, vec_capacity, IfOk, MatchResult};
ghost use Rattle.std.specs.List.{AllByRecursion, AllZip};
ghost use Rattle.atomic_table.specs.Seated.{TableId};
ghost use Rattle.server.specs.Receipts.{RanBeside};

use crate::updating::update;
use base_shards::Naming;
use door_queue::{Bell, Drained, TalliedQueue};
use out_of_memory::OutOfMemory;
use pequod_cache::Updater;
use pq_io::Gate;
use std::alloc::{AllocError, Global};
use std::snapshot::Snapshot;
use std::sync::Wait;
use std::thread;
use std::thread::{Promise, PromisedHandle, Threads};

/// What a thread does with the items of a queue, and what it leaves. Who works stays unseen where threads are made: the prover
/// compares the types that a thread is given, and a client's type is large.
pub trait Labour: Drop {
    /// What the queue holds.
    type Item;

    /// What it leaves.
    type Left: Drop;

    /// Whether the worker is of this queue.
    ghost is_of: { Self → TableId → Type 0 };

    /// That it leaves this.
    ghost leaves: { Self → Self.Left → Type 0 };

    /// Takes the items that the queue gives, one after another, until the queue is closed and empty, and gives what the queue told
    /// then beside what it leaves. The bell is rung where there is work for who waits for it.
    fn work<R: Wait>(
        self,
        rt: &R,
        alloc: Global,
        queue: &TalliedQueue<Self::Item>,
        bell: &Bell,
    ) -> (Self::Left, Drained<Self::Item>)
        requires { is_of self queue.now }
        ensures left { leaves self result.0 }
        ensures drained { result.1 ≡ queue.now };
}

/// What the thread of a worker keeps: it has done its work since it began so.
#[derive(Drop)]
struct Working<W> {
    /// What it began with.
    begun: Snapshot<W>,
}

impl<W: Labour> Promise<W::Left> for Working<W> {
    ghost kept_by = { λ p left. W.leaves p.begun.value left };
}

/// What this thread does beside others. A scope tells nothing of a `&mut` that its closure has, so that the closure has a value
/// of a type parameter.
trait Task {
    /// What it gives when it is done.
    type Given;

    /// When the task may be done.
    ghost can_run: { Self → Type 0 };

    /// What the task gives.
    ghost gives: { Self → Self.Given → Type 0 };

    /// Does the task.
    fn run(self) -> Self::Given
        requires { can_run self }
        ensures { gives self result };
}

/// A call of a closure, which is given back.
#[derive(Drop)]
struct Lent<'a, F> {
    closure: &'a mut F,
}

impl<'a, F: FnMut() -> A, A> Task for Lent<'a, F> {
    type Given = (&'a mut F, A);

    ghost use Rattle.std.specs.Prelude.{◌≡◌};

    ghost can_run = { λ t. F.pre t.closure.now };

    ghost gives = { λ t r. (r.0.ghost_name ≡ t.closure.ghost_name) × F.step t.closure.now r.1 r.0.now };

    fn run(self) -> (&'a mut F, A) {
        let Lent { closure } = self;
        let given = closure();
        (closure, given)
    }
}

/// What the workers leave, when their threads have ended, in order, where there is room for it.
fn join_all<W: Labour, R: Threads>(
    rt: &R,
    threads: Vec<PromisedHandle<W::Left, Working<W>>>,
    mut ended: Vec<W::Left>,
) -> Vec<W::Left>
    requires none { ended.items ≡ [] }
    requires room { length threads.items ≤ vec_capacity ended }
    ensures { AllZip W.leaves (map (λ t. t.promise.begun.value) threads.items) result.items }
{
    for thread in threads {
        ended.push_reserved(thread.join(rt));
    }
    ended
}

/// Runs the task beside the workers, and closes the queue when it is done. It returns when all have ended, and gives what the
/// workers leave, in order. Where a thread cannot be made for each of them, or there is no memory to remember them, the task is not
/// run, and comes back beside the refusal.
fn run_beside_workers<W, R, T, A>(
    rt: &R,
    alloc: Global,
    queue: &TalliedQueue<W::Item>,
    bell: &Bell,
    workers: Vec<W>,
    task: T,
) -> Result<(A, Vec<W::Left>), (OutOfMemory, T)>
where
    W: Labour + Send,
    W::Item: Send + Drop,
    W::Left: Send,
    R: Threads + Wait + Sync,
    T: Task<Given = A> + Drop,
    requires queue { AllByRecursion (λ w. W.is_of w queue.now) workers.items }
    requires task { T.can_run task }
    ensures { RanBeside T.gives W.leaves task workers.items result }
{
    thread::scope(
        thread::scope_env(),
        rt,
        move |scope|
            requires { T.can_run task × AllByRecursion (λ w. W.is_of w queue.now) workers.items }
            ensures { RanBeside T.gives W.leaves task workers.items result }
        {
            let mut threads = match Vec::with_capacity(alloc, workers.len()) {
                Ok(room) => room,
                Err(error) => return Err((OutOfMemory::from(error), task)),
            };
            let ended = match Vec::with_capacity(alloc, workers.len()) {
                Ok(room) => room,
                Err(error) => return Err((OutOfMemory::from(error), task)),
            };
            for worker in workers {
                let begun = Snapshot::of(&worker);
                let thread = match scope.spawn_with(
                    Working { begun },
                    move ||
                        requires { W.is_of worker queue.now }
                        ensures { W.leaves worker result }
                    {
                        let (left, _drained) = worker.work(rt, alloc, queue, bell);
                        left
                    },
                ) {
                    Ok(thread) => thread,
                    Err(refused) => {
                        queue.close(rt);
                        return Err((OutOfMemory::from(AllocError::from(refused)), task));
                    }
                };
                threads.push_reserved(thread);
            }
            let given = task.run();
            queue.close(rt);
            Ok((given, join_all::<W, R>(rt, threads, ended)))
        },
    )
}

/// Runs the task beside the workers and beside an updater, which takes turns when the bell is rung, and closes the queue when it is
/// done. It returns when all have ended, the updater last, and gives what the workers leave, in order. Where a thread cannot be
/// made for each of them, the task is not run, and comes back beside the refusal.
fn run_beside<'g, N, G, W, R, T, A>(
    rt: &R,
    alloc: Global,
    queue: &TalliedQueue<W::Item>,
    bell: &Bell,
    workers: Vec<W>,
    updater: Updater<'g, N, G>,
    task: T,
) -> Result<(A, Vec<W::Left>), (OutOfMemory, T)>
where
    N: Naming + Send + Sync,
    G: Gate + Sync,
    W: Labour + Send,
    W::Item: Send + Drop,
    W::Left: Send,
    R: Threads + Wait + Sync,
    T: Task<Given = A> + Drop,
    requires queue { AllByRecursion (λ w. W.is_of w queue.now) workers.items }
    requires task { T.can_run task }
    ensures { RanBeside T.gives W.leaves task workers.items result }
{
    thread::scope(
        thread::scope_env(),
        rt,
        move |scope|
            requires { T.can_run task × AllByRecursion (λ w. W.is_of w queue.now) workers.items }
            ensures { RanBeside T.gives W.leaves task workers.items result }
        {
            let _updating = match scope.spawn(move || update(rt, bell, updater)) {
                Ok(thread) => thread,
                Err(refused) => return Err((OutOfMemory::from(AllocError::from(refused)), task)),
            };
            let done = run_beside_workers(rt, alloc, queue, bell, workers, task);
            bell.close(rt);
            done
        },
    )
}

/// Does nothing. This use of a reference that was given back ties it to the parameter that lent it.
fn tie_back<T>(_back: &mut T)
    ensures { _back.new ≡ _back.old }
{}

/// Calls the closure beside the workers and beside an updater, and closes the queue when it is done. It returns when all have
/// ended, and gives what the workers leave, in order. `OutOfMemory`: a thread could not be made for each of them, and the closure
/// was not called.
pub fn beside_all<'g, N, G, W, R, F, A>(
    rt: &R,
    alloc: Global,
    queue: &TalliedQueue<W::Item>,
    bell: &Bell,
    workers: Vec<W>,
    updater: Updater<'g, N, G>,
    closure: &mut F,
) -> Result<(A, Vec<W::Left>), OutOfMemory>
where
    N: Naming + Send + Sync,
    G: Gate + Sync,
    W: Labour + Send,
    W::Item: Send + Drop,
    W::Left: Send,
    R: Threads + Wait + Sync,
    F: FnMut() -> A,
    requires queue { AllByRecursion (λ w. W.is_of w queue.now) workers.items }
    requires task { F.pre closure.old }
    ensures given { MatchResult result (λ done. F.step closure.old done.0 closure.new) (λ _. closure.new ≡ closure.old) }
    ensures worked { IfOk result (λ done. AllZip W.leaves workers.items done.1.items) }
{
    match run_beside(rt, alloc, queue, bell, workers, updater, Lent { closure }) {
        Ok(((closure, given), ended)) => {
            tie_back(closure);
            Ok((given, ended))
        }
        Err((memory, Lent { closure })) => {
            tie_back(closure);
            Err(memory)
        }
    }
}
