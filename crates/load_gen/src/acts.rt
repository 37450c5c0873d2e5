// What is done, act by act.
ghost use Rattle.std.specs.Prelude.{◌≡◌, ◌+◌, ◌<◌, ◌≤◌, IfOk, OnOk};
ghost use Rattle.load_gen.specs.Plans.{act_of, planned, rest_of, words_of};

use crate::keys::{digit_value, post_key, post_value, subscription_key, vote_key};
use join_types::Write;
use out_of_memory::OutOfMemory;
use rand_core::SeedableRng;
use rand_core::utils::NextWord;
use rand_pcg::Lcg64Xsh32;
use std::alloc::Global;

/// An act of the load.
#[derive(Debug, Drop)]
pub enum Act {
    /// The write is made by the worker of this poster, whom its key names.
    Change { poster: u32, write: Write },
    /// The timeline of this user is scanned by the worker of this poster.
    Look { poster: u32, user: u32 },
}

/// The words that are drawn for an act.
#[derive(Clone, Copy)]
struct Words {
    kind: u32,
    user: u32,
    poster: u32,
    time: u32,
}

/// The acts of the load in order, so many by so many users, from the words that are drawn by the generator which this number
/// seeds. Linear in the acts.
pub fn plan(alloc: Global, number: u64, steps: u32, users: u32) -> Result<Vec<Act>, OutOfMemory>
    requires users { 1 ≤ users }
    requires few_users { users ≤ 9999 }
    requires few_steps { steps ≤ 1000000 }
    ensures { IfOk result (λ acts. acts.items ≡ planned number steps users) }
{
    let mut generator = Lcg64Xsh32::seed_from_u64(number);
    let mut acts = Vec::with_capacity(alloc, steps as usize)?;
    for done in 0..steps {
        let words = draw(&mut generator);
        acts.push(act_of(alloc, words, done + 1, users)?)?;
    }
    Ok(acts)
}

/// Draws the words of an act.
fn draw(generator: &mut Lcg64Xsh32) -> Words
    ensures words { result ≡ words_of generator.old }
    ensures rest { generator.new ≡ rest_of generator.old }
{
    Words {
        kind: generator.next_word(),
        user: generator.next_word(),
        poster: generator.next_word(),
        time: generator.next_word(),
    }
}

/// The act that these words make, the one with this number.
#[tactic(auto, using(std::proofs::lemmas::Bool::Decides::nat_tests), unfolding(crate::specs::Plans::act_of))]
fn act_of(alloc: Global, words: Words, number: u32, users: u32) -> Result<Act, OutOfMemory>
    requires number { 1 ≤ number }
    requires few { number ≤ 1000000 }
    requires users { 1 ≤ users }
    requires few_users { users ≤ 9999 }
    ensures { IfOk result (λ act. act ≡ act_of words number users) }
{
    let user = words.user % users;
    let poster = words.poster % users;
    let write = match words.kind % 100 {
        0..=9 => Write::Put(subscription_key(alloc, user, poster)?, digit_value(alloc)?),
        10..=14 => Write::Remove(subscription_key(alloc, user, poster)?),
        15..=54 => Write::Put(post_key(alloc, poster, number)?, post_value(alloc, number)?),
        55..=59 => Write::Remove(post_key(alloc, poster, 1 + words.time % number)?),
        60..=69 => Write::Put(vote_key(alloc, poster, user)?, digit_value(alloc)?),
        70..=74 => Write::Remove(vote_key(alloc, poster, user)?),
        _ => return Ok(Act::Look { poster, user }),
    };
    Ok(Act::Change { poster, write })
}
