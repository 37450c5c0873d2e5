// What is read of a range at a position so that it can be told what changed in it.
ghost use Rattle.std.specs.Prelude.{◌≡◌, ◌⊎◌, ◌≤◌, length, take, IfOk};
ghost use Rattle.semantics.specs.States.{state};
ghost use Rattle.write_history.specs.Marks.{reach};
ghost use Rattle.shared_reader.specs.Lent.{LentReadsOn};
ghost use Rattle.range_cells.specs.Asked.{TellsTouched, pairs_asked, pairs_at};

use crate::stack::Stack;
use base_shards::Naming;
use join_eval::Changed;
use join_types::Pair;
use key_space::{Key, Range};
use out_of_memory::OutOfMemory;
use pq_io::Gate;
use std::alloc::Global;
use std::sync::Wait;
use std::sync::ledger::Ledger;
use steps::Steps;

/// How many touched keys are read one by one: as many as a kept range notes. Where more were touched, the whole range is read.
const FEW: usize = 256;

/// Which keys of a range may have changed, and its pairs at these keys, or all of them where it is not said which.
#[derive(Drop)]
pub struct Touched {
    /// The keys.
    pub touched: Changed,
    /// The pairs, in key order.
    pub pairs: Vec<Pair>,
}

/// The keys that may have changed, where they are few. Where they are not, it is not said which.
fn few_of(told: Changed) -> Changed
    ensures { (result ≡ told) ⊎ (result ≡ Changed.All) }
{
    if let Changed::Keys(keys) = &told
        && keys.len() > FEW
    {
        return Changed::All;
    }
    told
}

/// The pairs at some keys in the state after the first p entries that the pass has seen, in the order of the keys. Each key is read
/// as the range of just it.
fn read_keys<'a, N: Naming, W: Wait, G: Gate, L: Ledger>(
    alloc: Global,
    stack: &mut Stack<'a, N, W, G>,
    p: u64,
    keys: &[Key],
    steps: &mut Steps<L>,
) -> Result<Vec<Pair>, OutOfMemory>
    requires within { p ≤ length stack.old.pass.view }
    requires above { reach stack.old.pass.mark ≤ p }
    ensures exact { IfOk result (λ pairs. pairs.items ≡ pairs_at keys.now (state (take p stack.old.pass.view))) }
    ensures reads_on { LentReadsOn stack.old stack.new }
    ensures counted { steps.old ≤ steps.new }
{
    let mut pairs = Vec::new(alloc);
    for key in keys {
        let range = Range::just(alloc, key)?;
        let mut found = stack.read(p, &range, steps)?;
        pairs.append(&mut found)?;
    }
    Ok(pairs)
}

/// The pairs of the range in the state after the first p entries that the pass has seen, in key order: those at the keys that may
/// have changed, where it is said which, and otherwise all.
pub fn read_asked<'a, N: Naming, W: Wait, G: Gate, L: Ledger>(
    alloc: Global,
    stack: &mut Stack<'a, N, W, G>,
    p: u64,
    range: &Range,
    touched: &Changed,
    steps: &mut Steps<L>,
) -> Result<Vec<Pair>, OutOfMemory>
    requires within { p ≤ length stack.old.pass.view }
    requires above { reach stack.old.pass.mark ≤ p }
    ensures exact { IfOk result (λ pairs. pairs.items ≡ pairs_asked touched.now range.now (state (take p stack.old.pass.view))) }
    ensures reads_on { LentReadsOn stack.old stack.new }
    ensures counted { steps.old ≤ steps.new }
{
    match touched {
        Changed::Keys(keys) => read_keys(alloc, stack, p, keys.as_slice(), steps),
        Changed::All => stack.read(p, range, steps),
    }
}

/// Which keys of the range may have changed between the first q and the first p entries that the pass has seen, where they are few,
/// and the pairs after p entries at these, or else all of the range.
pub fn ask<'a, N: Naming, W: Wait, G: Gate, L: Ledger>(
    alloc: Global,
    stack: &mut Stack<'a, N, W, G>,
    q: u64,
    p: u64,
    range: &Range,
    steps: &mut Steps<L>,
) -> Result<Touched, OutOfMemory>
    requires order { q ≤ p }
    requires within { p ≤ length stack.old.pass.view }
    requires above { reach stack.old.pass.mark ≤ q }
    ensures touched { IfOk result (λ asked. TellsTouched stack.old.pass.view q p range.now asked.touched) }
    ensures exact { IfOk result (λ asked. asked.pairs.items ≡ pairs_asked asked.touched range.now (state (take p stack.old.pass.view))) }
    ensures reads_on { LentReadsOn stack.old stack.new }
    ensures counted { steps.old ≤ steps.new }
{
    let told = stack.changed(q, p, range, steps)?;
    let touched = few_of(told);
    let pairs = read_asked(alloc, stack, p, range, &touched, steps)?;
    Ok(Touched { touched, pairs })
}
