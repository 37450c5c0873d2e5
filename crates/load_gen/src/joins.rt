// The joins over the load.
ghost use Rattle.std.specs.Prelude.{◌≡◌, [], ◌∷◌, true, IfOk, is_ok};
ghost use Rattle.protocol.specs.JoinText.{read_join};
ghost use Rattle.load_gen.specs.Joins.{karma, timeline};

use join_lang::{ParseFault, parse};
use join_types::Join;
use out_of_memory::OutOfMemory;
use std::alloc::Global;

/// The text of the join that makes timelines of subscriptions and posts.
pub const TIMELINE: &str =
    "t|<user:4>|<time:8>|<poster:4> = check s|<user:4>|<poster:4> copy p|<poster:4>|<time:8>";

/// The text of the join that counts votes.
pub const KARMA: &str = "karma|<poster:4> = count v|<poster:4>|<user:4>";

/// The join of a text that is one.
fn read(alloc: Global, text: &str) -> Result<Join, OutOfMemory>
    requires { is_ok (read_join text.now) ≡ true }
    ensures { IfOk result (λ join. read_join text.now ≡ Ok join) }
{
    match parse(alloc, text) {
        Ok(join) => Ok(join),
        Err(ParseFault::OutOfMemory(memory)) => Err(memory),
        Err(ParseFault::Syntax { .. }) => unreachable!(),
    }
}

/// The joins of the load, in the order in which they are declared: timelines and the count of votes.
pub fn load_joins(alloc: Global) -> Result<Vec<Join>, OutOfMemory>
    ensures { IfOk result (λ joins. joins.items ≡ timeline ∷ karma ∷ []) }
{
    let timeline = read(alloc, TIMELINE)?;
    let karma = read(alloc, KARMA)?;
    Ok(vec![in alloc; timeline, karma]?)
}
