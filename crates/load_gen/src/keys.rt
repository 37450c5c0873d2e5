// The keys and values that the load writes.
ghost use Rattle.std.specs.Prelude.{◌≡◌, ◌∷◌, ◌++◌, ◌<◌, [], true, IfOk, codes, decimal};
ghost use Rattle.semantics.specs.Texts.{is_key, is_value};
ghost use Rattle.load_gen.specs.Keys.{subscription, post, vote};

use key_space::{Key, KeyFault, Value, ValueFault};
use out_of_memory::OutOfMemory;
use std::alloc::Global;

/// The key of a text that is one.
fn read_key(alloc: Global, text: &str) -> Result<Key, OutOfMemory>
    requires { is_key text.now ≡ true }
    ensures { IfOk result (λ key. key ≡ text.now) }
{
    match Key::read(alloc, text) {
        Ok(key) => Ok(key),
        Err(KeyFault::OutOfMemory(memory)) => Err(memory),
        Err(KeyFault::BadKey) => unreachable!(),
    }
}

/// The value of a text that is one.
fn read_value(alloc: Global, text: &str) -> Result<Value, OutOfMemory>
    requires { is_value text.now ≡ true }
    ensures { IfOk result (λ value. value ≡ text.now) }
{
    match Value::read(alloc, text) {
        Ok(value) => Ok(value),
        Err(ValueFault::OutOfMemory(memory)) => Err(memory),
        Err(ValueFault::BadValue) => unreachable!(),
    }
}

/// The key that says that a user follows a poster.
pub fn subscription_key(alloc: Global, user: u32, poster: u32) -> Result<Key, OutOfMemory>
    ensures { IfOk result (λ key. key ≡ subscription user poster) }
{
    let text = format!(in alloc; "s|{user:04}|{poster:04}")?;
    read_key(alloc, text.as_str())
}

/// The key of what a poster posted at a time.
pub fn post_key(alloc: Global, poster: u32, time: u32) -> Result<Key, OutOfMemory>
    ensures { IfOk result (λ key. key ≡ post poster time) }
{
    let text = format!(in alloc; "p|{poster:04}|{time:08}")?;
    read_key(alloc, text.as_str())
}

/// The key that says that a user votes for a poster.
pub fn vote_key(alloc: Global, poster: u32, user: u32) -> Result<Key, OutOfMemory>
    ensures { IfOk result (λ key. key ≡ vote poster user) }
{
    let text = format!(in alloc; "v|{poster:04}|{user:04}")?;
    read_key(alloc, text.as_str())
}

/// The value of a subscription and of a vote.
pub fn digit_value(alloc: Global) -> Result<Value, OutOfMemory>
    ensures { IfOk result (λ value. value ≡ codes "1") }
{
    read_value(alloc, "1")
}

/// What the act with this number posts.
pub fn post_value(alloc: Global, number: u32) -> Result<Value, OutOfMemory>
    ensures { IfOk result (λ value. value ≡ codes "m" ++ decimal number) }
{
    let text = format!(in alloc; "m{number}")?;
    read_value(alloc, text.as_str())
}
