// What a cache feeds a follower: the entries after a position, as many as a line has room for.
ghost use Rattle.std.specs.Prelude.{◌≡◌, length, IfOk};
ghost use Rattle.protocol.specs.Requests.{feed_from};
ghost use Rattle.protocol.specs.Earlier.{earlier_reply};
ghost use Rattle.write_history.specs.declared.known.Mark.TheVariants.{Pinned};
ghost use Rattle.request_codec.specs.Plain.{plain_reply};

use crate::cache::Cache;
use crate::earlier::out_of_reach;
use base_shards::Naming;
use out_of_memory::OutOfMemory;
use request_codec::{Reply, far_enough, feed_reply};
use std::alloc::Global;
use std::sync::Wait;
use write_history::Pass;

impl<N: Naming> Cache<N> {
    /// What the pass, which has looked and is pinned there, is fed from a position on. `Gone` and `Ahead` come exactly where the
    /// position lies too far back or ahead. Linear in the texts of at most 1,000 entries.
    pub(crate) fn feed<R: Wait>(
        &self,
        rt: &R,
        alloc: Global,
        pass: &mut Pass,
        position: u64,
        from: u64,
    ) -> Result<Reply, OutOfMemory>
        requires same_history { pass.old.history ≡ N.history }
        requires pinned { pass.old.mark ≡ Pinned position }
        requires whole { position ≡ length pass.old.view }
        ensures replied { IfOk result (λ reply. plain_reply reply ≡ earlier_reply (feed_from from) pass.old.view) }
        ensures unchanged { pass.new ≡ pass.old }
    {
        if let Some(reply) = out_of_reach(from, position) {
            return Ok(reply);
        }
        let to = far_enough(from, position);
        let entries = self.history.entries(rt, pass, from, to)?;
        feed_reply(alloc, from, position, entries)
    }
}
