// What is known of a write without its being judged.
ghost use Rattle.growing_history.specs.Entered.{IsWrite};
ghost use Rattle.join_types.specs.Writes.{plain_write};

use join_types::Write;

/// Looks at the key or the join of a write, and so knows that it is one. Constant.
pub fn look_at_write(write: &Write)
    ensures { IsWrite (plain_write write.now) }
{
    match write {
        Write::Put(key, _) => {
            let _key = key.text();
        }
        Write::Remove(key) => {
            let _key = key.text();
        }
        Write::Declare(join) => {
            let _names = &join.names;
        }
        Write::Drop(_) => {}
    }
}
