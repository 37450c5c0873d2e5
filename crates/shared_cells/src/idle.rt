// Passes that wait for a cell.
ghost use Rattle.std.specs.Prelude.{◌≡◌};

use base_shards::Naming;
use std::marker::PhantomData;
use write_history::Pass;

/// A pass of the history with no cell.
#[derive(Drop)]
pub struct IdlePass<N: Naming> {
    /// The pass.
    pub pass: Pass,
    of: PhantomData<N>,
    ghost same_history: { pass.history ≡ N.history },
}

impl<N: Naming> IdlePass<N> {
    /// The pass, which is of the history.
    pub fn new(pass: Pass) -> IdlePass<N>
        requires { pass.history ≡ N.history }
    {
        IdlePass {
            pass,
            of: PhantomData,
        }
    }
}
