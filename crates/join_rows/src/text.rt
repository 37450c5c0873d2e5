// Bytes of a row as text, and a row as a pair.
ghost use Rattle.std.specs.Prelude.{◌≡◌, IfOk, true};
ghost use Rattle.std.specs.Str.{is_utf8};
ghost use Rattle.join_rows.specs.Laid.{IsRow};

use join_types::Pair;
use key_space::{Key, KeyFault, Value, ValueFault};
use out_of_memory::OutOfMemory;
use std::alloc::Global;
use std::str;

/// Bytes that are text, as text. It takes constant time.
pub fn text_of(bytes: &[u8]) -> &str
    requires { is_utf8 bytes.now ≡ true }
    ensures { result.now ≡ bytes.now }
{
    // They are known to be text, so that nobody has to look at them.
    unsafe { str::from_utf8_unchecked(bytes) }
}

/// A copy of the key. Linear in it.
fn key_of(alloc: Global, key: &str, value: &str) -> Result<Key, OutOfMemory>
    requires { IsRow (key.now, value.now) }
    ensures { IfOk result (λ copy. copy ≡ key.now) }
{
    match Key::read(alloc, key) {
        Ok(key) => Ok(key),
        Err(KeyFault::OutOfMemory(memory)) => Err(memory),
        Err(KeyFault::BadKey) => unreachable!(),
    }
}

/// A copy of the value. Linear in it.
fn value_of(alloc: Global, key: &str, value: &str) -> Result<Value, OutOfMemory>
    requires { IsRow (key.now, value.now) }
    ensures { IfOk result (λ copy. copy ≡ value.now) }
{
    match Value::read(alloc, value) {
        Ok(value) => Ok(value),
        Err(ValueFault::OutOfMemory(memory)) => Err(memory),
        Err(ValueFault::BadValue) => unreachable!(),
    }
}

/// The pair of a row, whose texts are copied. Linear in them.
pub fn pair_of(alloc: Global, key: &str, value: &str) -> Result<Pair, OutOfMemory>
    requires { IsRow (key.now, value.now) }
    ensures { IfOk result (λ pair. pair ≡ (key.now, value.now)) }
{
    let key_copy = key_of(alloc, key, value)?;
    let value_copy = value_of(alloc, key, value)?;
    Ok(Pair {
        key: key_copy,
        value: value_copy,
    })
}
