// Clients with the acts that they are to do.
ghost use Rattle.std.specs.Prelude.{◌≡◌, ◌++◌, ◌∷◌, ◌≤◌, [], length, IfOk, OnOk};
ghost use Rattle.load_gen.specs.Shares.{poster_of};
ghost use Rattle.load_run.specs.Jobs.{AreDealt, AreIdle, IsDone};

use crate::acting::do_acts;
use base_shards::Naming;
use load_gen::Act;
use out_of_memory::OutOfMemory;
use pequod_cache::Client;
use pq_io::Gate;
use std::alloc::Global;
use std::marker::Model;
use std::sync::Wait;

/// A client, and the acts that it is to do, in order.
#[derive(Drop)]
pub struct Job<'g, N: Naming, G> {
    client: Client<'g, N, G>,
    acts: Vec<Act>,
}

impl<'g, N: Naming, G> Model for Job<'g, N, G> {
    ghost use Rattle.load_run.specs.Jobs.{Assigned};

    ghost Value = { Assigned };

    ghost view = { λ j. record { client = j.client; acts = j.acts.items } };
}

impl<'g, N: Naming, G> Job<'g, N, G> {
    /// The client, without acts. Nothing is allocated yet.
    fn new(alloc: Global, client: Client<'g, N, G>) -> Job<'g, N, G>
        ensures { result ≡ record { client = client.entry; acts = [] } }
    {
        Job {
            client,
            acts: Vec::new(alloc),
        }
    }

    /// Puts the act behind the others.
    fn add(&mut self, act: Act) -> Result<(), OutOfMemory>
        ensures { OnOk result (self.new ≡ record self.old { acts = self.old.acts ++ act ∷ [] }) }
    {
        self.acts.push(act)?;
        Ok(())
    }
}

/// What a thread does, and what comes of it. What a job is stays unseen where threads are made: the prover compares the types
/// that a thread is given, and a client's type is large.
pub trait Task: Drop {
    /// What comes of it.
    type End: Drop;

    /// That this comes of it.
    ghost gives: { Self → Self.End → Type 0 };

    /// Does it.
    fn run<R: Wait>(self, rt: &R, alloc: Global) -> Self::End
        ensures { gives self result };
}

impl<'g, N: Naming, G: Gate> Task for Job<'g, N, G> {
    type End = Result<Client<'g, N, G>, OutOfMemory>;

    ghost gives = { λ job end. IfOk end (IsDone job) };

    /// Does the acts in order, and gives the client back.
    ///
    /// `OutOfMemory`: one could not be done. Those before it have been.
    fn run<R: Wait>(self, rt: &R, alloc: Global) -> Result<Client<'g, N, G>, OutOfMemory> {
        let Job { mut client, acts } = self;
        do_acts(rt, alloc, &mut client, acts)?;
        Ok(client)
    }
}

/// The number of the poster whom an act names.
fn poster_of(act: &Act) -> u32
    ensures { result ≡ poster_of act.now }
{
    match act {
        Act::Change { poster, .. } => *poster,
        Act::Look { poster, .. } => *poster,
    }
}

/// A job for each client, without acts.
pub fn idle_jobs<'g, N: Naming, G>(
    alloc: Global,
    clients: Vec<Client<'g, N, G>>,
) -> Result<Vec<Job<'g, N, G>>, OutOfMemory>
    ensures { IfOk result (λ jobs. AreIdle clients.entry.items jobs.items) }
{
    let mut jobs = Vec::with_capacity(alloc, clients.len())?;
    for client in clients {
        jobs.push(Job::new(alloc, client))?;
    }
    Ok(jobs)
}

/// Gives the act to the job whose place is its poster modulo the jobs.
fn deal_one<N: Naming, G>(jobs: &mut [Job<'_, N, G>], act: Act) -> Result<(), OutOfMemory>
    requires { 1 ≤ length jobs.old }
    ensures { OnOk result (AreDealt (act ∷ []) jobs.old jobs.new) }
{
    let place = poster_of(&act) as usize % jobs.len();
    jobs[place].add(act)
}

/// Gives each act to the job whose place is its poster modulo the jobs, in order. Linear in the acts, which are moved.
///
/// `OutOfMemory`: some first ones may have been given.
pub fn deal<N: Naming, G>(jobs: &mut [Job<'_, N, G>], acts: Vec<Act>) -> Result<(), OutOfMemory>
    requires { 1 ≤ length jobs.old }
    ensures { OnOk result (AreDealt acts.items jobs.old jobs.new) }
{
    for act in acts {
        deal_one(jobs, act)?;
    }
    Ok(())
}
