// What the tables hold.
ghost use Rattle.std.specs.Prelude.{◌≡◌, ◌+◌, ◌∷◌, [], true, IfOk, OnOk, nat_eq};
ghost use Rattle.std.specs.List.{ends_with};
ghost use Rattle.semantics.specs.Texts.{bar, is_key};
ghost use Rattle.load_gen.specs.Lines.{pair_bytes, holding_of};
ghost use Rattle.pequod_cache.specs.Adding.{OnlyReads};
ghost use Rattle.load_run.specs.Holdings.{plain_holding, IsHeldBetween};

use base_shards::Naming;
use join_types::Pair;
use key_space::Range;
use out_of_memory::OutOfMemory;
use pequod_cache::Client;
use pq_io::Gate;
use std::alloc::{AllocError, Global};
use std::sync::Wait;

/// What a table holds.
#[derive(Clone, Copy, Debug, PartialEq, Eq)]
pub struct Holding {
    /// How many pairs.
    pub count: u64,
    /// How many bytes their keys and values have.
    pub bytes: u64,
}

/// What a table holds, and after how many entries.
#[derive(Clone, Copy, Debug, PartialEq, Eq)]
pub struct Held {
    /// The number of entries.
    pub position: u64,
    /// What it holds then.
    pub holding: Holding,
}

/// The sum of two numbers of bytes. Pairs whose texts have 2^64 bytes or more are more than 2^47, for which there is no
/// memory.
pub fn add_bytes(bytes: u64, more: u64) -> Result<u64, OutOfMemory>
    ensures { IfOk result (λ sum. sum ≡ bytes + more) }
{
    match bytes.checked_add(more) {
        Some(sum) => Ok(sum),
        None => Err(OutOfMemory::from(AllocError)),
    }
}

/// The bytes of a pair's key and value.
fn pair_bytes(pair: &Pair) -> u64
    ensures { result ≡ pair_bytes pair.now }
{
    pair.key.text().len() as u64 + pair.value.text().len() as u64
}

/// What pairs come to. Linear in their number.
fn holding_of(pairs: &[Pair]) -> Result<Holding, OutOfMemory>
    ensures { IfOk result (λ holding. plain_holding holding ≡ holding_of pairs.now) }
{
    let mut bytes = 0;
    for pair in pairs {
        bytes = add_bytes(bytes, pair_bytes(pair))?;
    }
    Ok(Holding {
        count: pairs.len() as u64,
        bytes,
    })
}

/// What the table whose keys begin with this text holds, after all entries that the history has now.
pub fn table_held<N: Naming, G: Gate, R: Wait>(
    rt: &R,
    alloc: Global,
    client: &mut Client<'_, N, G>,
    prefix: &str,
) -> Result<Held, OutOfMemory>
    requires key { is_key prefix.now ≡ true }
    requires ends { ends_with nat_eq prefix.now (bar ∷ []) ≡ true }
    ensures held { IfOk result (λ held. IsHeldBetween client.old.view client.new.view prefix.now held) }
    ensures reads { OnOk result (OnlyReads client.old client.new) }
{
    let range = Range::prefix_range(alloc, prefix)?;
    let found = client.read(rt, &range)?;
    let holding = holding_of(found.pairs.as_slice())?;
    Ok(Held {
        position: found.position,
        holding,
    })
}
